//! Texts of formulas that were worked out by hand, the edges of buffers, and the largest board.

#![tactic(auto)]

#[cfg(test)]
mod tests {
    use boards::Drawing;
    use dimacs::{dimacs_length, dimacs_text, write_dimacs};
    use gatefiles::read_file;
    use refusals::{Failure, Refusal};
    use sources::{Formula, FormulaKind};
    use std::alloc::Global;
    use std::process::Abort;
    use std::test::Fail;

    // One wire, the constant 1, which is the property wire; the depth is 1.
    const CONSTANT: [u8; 4] = [2, 15, 0, 1];

    fn formula_of(heap: Global, file: &[u8], kind: FormulaKind) -> Result<Formula, Failure> {
        Ok(Formula::new(read_file(Drawing::new(heap)?, file)?, kind))
    }

    // Whether the board's formulas have these texts.
    fn check_texts(
        rt: &impl Abort,
        heap: Global,
        file: &[u8],
        base: &[u8],
        step: &[u8],
    ) -> Result<(), Fail> {
        let formula = formula_of(heap, file, FormulaKind::Base)?;
        let text = dimacs_text(heap, &formula)?;
        assert!(rt; text.as_slice() == base);
        let formula = Formula::new(formula.into_board(), FormulaKind::Step);
        let text = dimacs_text(heap, &formula)?;
        assert!(rt; text.as_slice() == step);
        Ok(())
    }

    // Worked out by hand. The frame's clauses are (-1 -2) (-1) (2), the marks' (-3 -1) (-3 -2) and (3 -2). The step has two such
    // frames, the good frame's (1 2) (2), the mark 5, and the one pair of frames without a register, whose clause is empty.
    #[test]
    fn a_constant(rt: HostRuntime) -> Result<(), Fail> {
        let base = b"p cnf 3 6\n-1 -2 0\n-1 0\n2 0\n-3 -1 0\n-3 -2 0\n3 -2 0\n";
        let step =
            b"p cnf 5 12\n-1 -2 0\n-1 0\n2 0\n-3 -4 0\n-3 0\n4 0\n1 2 0\n2 0\n-5 -3 0\n-5 -4 0\n5 -4 0\n0\n";
        check_texts(&rt, rt.alloc(), &CONSTANT, base, step)
    }

    // Worked out by hand: a register that is its own source. The base's (1) says that it starts at 0; the step ties its second
    // frame to the first by (-3 1) (3 -1), and the difference mark 6 tells the two frames apart.
    #[test]
    fn a_register(rt: HostRuntime) -> Result<(), Fail> {
        let base = b"p cnf 3 6\n-1 -2 0\n1 2 0\n1 0\n-3 -1 0\n-3 -2 0\n3 -2 0\n";
        let step =
            b"p cnf 6 14\n-1 -2 0\n1 2 0\n-3 -4 0\n3 4 0\n-3 1 0\n3 -1 0\n1 2 0\n2 0\n-5 -3 0\n-5 -4 0\n5 -4 0\n-6 1 3 0\n-6 -1 -3 0\n6 0\n";
        check_texts(&rt, rt.alloc(), &[9, 0, 15, 0, 1], base, step)
    }

    // The text has 50 bytes.
    #[test]
    fn edges_of_a_buffer(rt: HostRuntime) -> Result<(), Fail> {
        let text = b"p cnf 3 6\n-1 -2 0\n-1 0\n2 0\n-3 -1 0\n-3 -2 0\n3 -2 0\n";
        let formula = formula_of(rt.alloc(), &CONSTANT, FormulaKind::Base)?;
        assert!(rt; dimacs_length(&formula) == 50);
        let mut short = [7u8; 49];
        assert_eq!(rt; write_dimacs(&formula, &mut short), Err(Refusal::Buffer));
        assert!(rt; short == [7u8; 49]);
        let mut exact = [7u8; 50];
        assert_eq!(rt; write_dimacs(&formula, &mut exact), Ok(50));
        assert!(rt; &exact[0..50] == &text[0..50]);
        let mut long = [7u8; 52];
        assert_eq!(rt; write_dimacs(&formula, &mut long), Ok(50));
        assert!(rt; &long[0..50] == &text[0..50]);
        assert!(rt; long[50] == 7 && long[51] == 7);
        Ok(())
    }

    // 256 registers, each its own source, at depth 8. The counts follow from the tables of docs/formulas.md by hand; the lengths
    // are those of tools/reference_formulas.py.
    #[test]
    fn the_most_variables(rt: HostRuntime) -> Result<(), Fail> {
        let heap = rt.alloc();
        let mut file = Vec::new(heap);
        for w in 0..=255u8 {
            file.extend_from_slice(&[9, w])?;
        }
        file.extend_from_slice(&[15, 0, 8])?;
        let base = formula_of(heap, file.as_slice(), FormulaKind::Base)?;
        assert!(rt; base.variables() == 6144 && base.clauses() == 12033);
        assert!(rt; dimacs_length(&base) == 164049);
        let step = Formula::new(base.into_board(), FormulaKind::Step);
        assert!(rt; step.variables() == 14080 && step.clauses() == 29741);
        assert!(rt; dimacs_length(&step) == 541058);
        Ok(())
    }
}
