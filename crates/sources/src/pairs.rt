ghost use Rattle.std.specs.Prelude.{◌≡◌, ◌<◌, ◌≤◌};
ghost use Rattle.formulas.specs.Formulas.{pairs_before as pairs_before_of};

use crate::outline::Outline;
use wireclauses::{Few, Literal};

/// Two frames, by how many stand before them.
#[derive(Clone, Copy)]
pub struct Pair {
    pub(crate) early: usize,
    pub(crate) late: usize,
    ghost ordered: { early < late },
    ghost shallow: { late ≤ 8 },
}

/// How many pairs of frames have their later one before this frame.
pub(crate) fn pairs_before(frame: usize) -> usize
    requires { frame ≤ 9 }
    ensures is { result ≡ pairs_before_of frame }
    ensures small { result ≤ 36 }
{
    frame * frame.saturating_sub(1) / 2
}

impl Pair {
    ghost use Rattle.std.specs.Prelude.{◌≡◌, ◌+◌, ◌≤◌};
    ghost use Rattle.formulas.specs.Formulas.{pairs_before as pairs_before_of};

    /// How many pairs come before this one.
    pub(crate) fn rank(self) -> usize
        ensures is { result ≡ pairs_before_of self.late + self.early }
        ensures small { result ≤ 72 }
    {
        pairs_before(self.late) + self.early
    }
}

impl Outline {
    ghost use Rattle.std.specs.Prelude.{◌≡◌, map};
    ghost use Rattle.formulas.specs.Formulas.{differs};
    ghost use Rattle.wireclauses.specs.Literals.{few_of};
    ghost use Rattle.sources.specs.Places.{LateAt, PairAt};

    /// The later frame of the q-th pair, if there is one.
    fn late_frame(self, q: usize) -> Option<usize>
        ensures { LateAt self.depth q result }
    {
        // Half open: a range with its last number tests one thing more for each, and this is asked for each literal.
        (1..self.depth + 1).find(|late| q < pairs_before(*late + 1))
    }

    /// The q-th pair of frames, if there is one.
    pub(crate) fn pair_at(self, q: usize) -> Option<Pair>
        ensures { PairAt self.depth q result }
    {
        let late = self.late_frame(q)?;
        Some(Pair {
            early: q - pairs_before(late),
            late,
        })
    }

    /// The two clauses that say that the register at wire w, with the difference mark e, differs in two frames.
    pub(crate) fn differing(self, pair: Pair, w: u8, e: u16) -> [Few; 2]
        ensures { map few_of result ≡ differs self.wires pair.early pair.late w e }
    {
        let a = self.frame(pair.early).rail0(w);
        let b = self.frame(pair.late).rail0(w);
        [
            Few::Three(Literal::Minus(e), Literal::Plus(a), Literal::Plus(b)),
            Few::Three(Literal::Minus(e), Literal::Minus(a), Literal::Minus(b)),
        ]
    }
}
