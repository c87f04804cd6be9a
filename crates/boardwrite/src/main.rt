#![tactic(auto)]

// Reads board.bin from the folder it is started in, and writes the board's two formulas into it, as base.cnf and step.cnf.
use boards::Board;
use dimacs::{dimacs_text, tell_formula};
use programs::{read_board, read_or_empty};
use runs::text::tell_board;
use sources::{Formula, FormulaKind};
use std::fs;

// Writes a draft of the file. One that is not written whole is taken away again.
fn draft(rt: &HostRuntime, name: &str, text: &[u8]) -> anyhow::Result<()> {
    if let Err(error) = fs::write(rt, name, text) {
        let _ = fs::remove_file(rt, name);
        return Err(error.into());
    }
    Ok(())
}

// The formula's text, and the line that tells of it.
fn text_and_line(rt: &HostRuntime, formula: &Formula) -> anyhow::Result<(Vec<u8>, String)> {
    let heap = rt.alloc();
    Ok((dimacs_text(heap, formula)?, tell_formula(heap, formula)?))
}

fn write_formulas(rt: &HostRuntime, board: Board) -> anyhow::Result<()> {
    let first = tell_board(rt.alloc(), &board)?;
    let base = Formula::new(board, FormulaKind::Base);
    let (base_text, base_line) = text_and_line(rt, &base)?;
    let step = Formula::new(base.into_board(), FormulaKind::Step);
    let (step_text, step_line) = text_and_line(rt, &step)?;
    // Both files are written under other names first, so that neither is ever half-written.
    draft(rt, "base.cnf.new", base_text.as_slice())?;
    draft(rt, "step.cnf.new", step_text.as_slice())?;
    fs::rename(rt, "base.cnf.new", "base.cnf")?;
    fs::rename(rt, "step.cnf.new", "step.cnf")?;
    rt.println(first)?;
    rt.println(base_line)?;
    rt.println(step_line)?;
    Ok(())
}

fn run(rt: &HostRuntime) -> anyhow::Result<()> {
    let file = read_or_empty(rt, "board.bin")?;
    let board = read_board(rt, file.as_slice())?;
    write_formulas(rt, board)
}

fn main(rt: HostRuntime) -> anyhow::Result<()> {
    run(&rt)
}
