#![tactic(auto)]

// Compares whole texts of formulas with stored ones, which tools/reference_formulas.py made apart from the code.
use dimacs::{dimacs_text, tell_formula};
use programs::read_board;
use sources::{Formula, FormulaKind};
use std::fs;

// Tells the formula's numbers, and whether its text is the stored one.
fn compare(rt: &HostRuntime, formula: &Formula, stored: &str) -> anyhow::Result<()> {
    let heap = rt.alloc();
    let text = dimacs_text(heap, formula)?;
    let line = tell_formula(heap, formula)?;
    let expected = fs::read(rt, stored)?;
    let found = if text.as_slice() == expected.as_slice() {
        "same"
    } else {
        "different"
    };
    println!(rt; "{stored}: {line} {found}")?;
    Ok(())
}

fn compare_board(rt: &HostRuntime, name: &str) -> anyhow::Result<()> {
    let heap = rt.alloc();
    let file = fs::read(rt, format!(in heap; "{name}.bin")?)?;
    let board = read_board(rt, file.as_slice())?;
    let base = Formula::new(board, FormulaKind::Base);
    compare(rt, &base, format!(in heap; "{name}-base.cnf")?.as_str())?;
    let step = Formula::new(base.into_board(), FormulaKind::Step);
    compare(rt, &step, format!(in heap; "{name}-step.cnf")?.as_str())
}

fn run(rt: &HostRuntime) -> anyhow::Result<()> {
    for name in [
        "gates-1",
        "gates-2",
        "gates-8",
        "registers-1",
        "registers-2",
        "registers-8",
    ] {
        compare_board(rt, name)?;
    }
    Ok(())
}

fn main(rt: HostRuntime) -> anyhow::Result<()> {
    run(&rt)
}
