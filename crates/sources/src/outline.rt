ghost use Rattle.std.specs.Prelude.{◌≤◌};

use formulas::FormulaKind;
use wireclauses::Frame;

/// What the clauses of a formula depend on beside the gates: its kind, how many wires there are, the property wire and the depth.
#[derive(Clone, Copy)]
pub struct Outline {
    pub(crate) kind: FormulaKind,
    pub(crate) wires: usize,
    pub(crate) property: u8,
    pub(crate) depth: usize,
    ghost few: { wires ≤ 256 },
    ghost deep: { 1 ≤ depth },
    ghost shallow: { depth ≤ 8 },
}

impl Outline {
    ghost use Rattle.std.specs.Prelude.{◌≡◌, ◌≤◌};
    ghost use Rattle.sources.specs.Places.{frames_of};

    /// How many frames there are.
    pub(crate) fn frames(self) -> usize
        ensures is { result ≡ frames_of self.kind self.depth }
        ensures some { 1 ≤ result }
        ensures few { result ≤ 9 }
    {
        match self.kind {
            FormulaKind::Base => self.depth,
            FormulaKind::Step => self.depth + 1,
        }
    }

    /// The frame with so many before it.
    pub(crate) fn frame(self, before: usize) -> Frame
        requires { before ≤ 8 }
        ensures kind { result.kind ≡ self.kind }
        ensures wires { result.wires ≡ self.wires }
        ensures before { result.before ≡ before }
    {
        Frame {
            kind: self.kind,
            wires: self.wires,
            before,
        }
    }
}
