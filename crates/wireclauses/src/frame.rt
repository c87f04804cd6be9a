ghost use Rattle.std.specs.Prelude.{◌≤◌};

use formulas::FormulaKind;

/// A frame of a formula, of so many wires and with so many frames before it.
#[derive(Clone, Copy)]
pub struct Frame {
    pub kind: FormulaKind,
    pub wires: usize,
    pub before: usize,
    ghost few: { wires ≤ 256 },
    ghost shallow: { before ≤ 8 },
}
