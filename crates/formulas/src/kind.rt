ghost use Rattle.std.specs.Prelude.{Some};
ghost use Rattle.formulas.specs.Kinds.{kind_name};

use std::fmt;

/// Which of the two formulas of a board.
#[derive(Clone, Copy, PartialEq, Eq, Debug)]
pub enum FormulaKind {
    /// The board runs from its start for d frames, and one of them is bad.
    Base,
    /// The board runs from anywhere for d good frames and a bad one, and no two of them have the same registers.
    Step,
}

/// Writes `base` or `step`.
impl fmt::Display for FormulaKind {
    ghost output = { λ kind. Some (kind_name kind) };

    fn fmt<W: fmt::Write>(&self, f: &mut fmt::Formatter<W>) -> fmt::Result {
        f.write_str(match self {
            FormulaKind::Base => "base",
            FormulaKind::Step => "step",
        })
    }
}
