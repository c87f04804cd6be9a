ghost use Rattle.std.specs.Prelude.{◌≤◌, ◌+◌};

use crate::outline::Outline;
use wireclauses::sides::Rail;
use wireclauses::{Few, Literal};

/// A clause of a formula.
#[derive(Clone, Copy)]
pub enum Shape {
    Short(Few),
    Long(LongClause),
}

/// So many marks from the first on, and then that the property fails in one of so many frames from one on.
#[derive(Clone, Copy)]
pub struct LongClause {
    pub(crate) first: usize,
    pub(crate) marks: usize,
    pub(crate) frame: usize,
    pub(crate) frames: usize,
    ghost variables: { first + marks ≤ 65535 },
    ghost shallow: { frame + frames ≤ 9 },
}

impl LongClause {
    ghost use Rattle.std.specs.Prelude.{◌≡◌};
    ghost use Rattle.std.specs.Option.{option_map};
    ghost use Rattle.std.specs.List.{slice_get};
    ghost use Rattle.wireclauses.specs.Literals.{literal_of};
    ghost use Rattle.sources.specs.Places.{long_clause};

    /// The literal at a place, if there is one.
    fn literal(self, outline: Outline, at: usize) -> Option<Literal>
        ensures { option_map literal_of result ≡ slice_get (long_clause outline.wires outline.property self) at }
    {
        if at < self.marks {
            return Some(Literal::Plus((self.first + at) as u16));
        }
        let past = at - self.marks;
        if past < self.frames {
            let failing = outline.frame(self.frame + past);
            return Some(Literal::Minus(failing.rail(Rail::Rail1(outline.property))));
        }
        None
    }
}

impl Shape {
    ghost use Rattle.std.specs.Prelude.{◌≡◌, ℕ, length};
    ghost use Rattle.std.specs.Option.{option_map};
    ghost use Rattle.std.specs.List.{slice_get};
    ghost use Rattle.wireclauses.specs.Literals.{literal_of};
    ghost use Rattle.sources.specs.Places.{clause_of};

    /// How many literals the clause has.
    pub(crate) fn length(self) -> usize
        ensures { (n p : ℕ) → result ≡ length (clause_of n p self) }
    {
        match self {
            Shape::Short(few) => few.count(),
            Shape::Long(long) => long.marks + long.frames,
        }
    }

    /// The literal at a place, if there is one.
    pub(crate) fn literal(self, outline: Outline, at: usize) -> Option<Literal>
        ensures { option_map literal_of result ≡ slice_get (clause_of outline.wires outline.property self) at }
    {
        match self {
            Shape::Short(few) => few.literal(at),
            Shape::Long(long) => long.literal(outline, at),
        }
    }
}
