ghost use Rattle.std.specs.Prelude.{◌≡◌, ◌+◌, ◌*◌, ◌≤◌, length, Some};
ghost use Rattle.std.specs.Option.{option_map};
ghost use Rattle.std.specs.List.{slice_get};
ghost use Rattle.clauses.specs.Clauses.{numbered as numbered_of};
ghost use Rattle.formulas.specs.Formulas.{pair_clauses, step_pairs, pairs_before};
ghost use Rattle.sources.specs.Rows.{registers_before};
ghost use Rattle.sources.specs.Places.{step_tail, first_difference};
ghost use Rattle.sources.specs.Meaning.{gates_of, property_of, depth_of, clauses_of, clause_in};

use crate::formula::Formula;
use crate::pairs::Pair;
use crate::shape::{LongClause, Shape};
use formulas::FormulaKind;

impl Formula {
    /// The first difference mark of a pair of frames.
    fn first_difference(&self, pair: Pair) -> usize
        ensures is { result ≡ first_difference (gates_of self.now) (depth_of self.now) (pairs_before pair.late + pair.early) }
        ensures small { result ≤ 40000 }
    {
        let outline = self.outline();
        let n = outline.wires;
        2 * n * (outline.depth + 1) + n + self.register_count() * pair.rank()
    }

    /// The clause at place r of a pair of frames.
    fn in_pair(&self, pair: Pair, r: usize) -> Shape
        requires { r ≤ 2 * registers_before (gates_of self.now) (length (gates_of self.now)) }
        ensures { Some (clause_in self.now result) ≡ slice_get (pair_clauses (gates_of self.now) (depth_of self.now) pair.early pair.late) r }
    {
        let first = self.first_difference(pair);
        let marks = self.register_count();
        if r < 2 * marks {
            let w = self.register(r / 2) as u8;
            let e = (first + r / 2) as u16;
            Shape::Short(self.outline().differing(pair, w, e)[r % 2])
        } else {
            Shape::Long(LongClause {
                first,
                marks,
                frame: 0,
                frames: 0,
            })
        }
    }

    /// The clause at a place of the step's pairs of frames, if there is one.
    fn in_pairs(&self, k: usize) -> Option<Shape>
        ensures { option_map (clause_in self.now) result ≡ slice_get (step_pairs (gates_of self.now) (depth_of self.now)) k }
    {
        let size = 2 * self.register_count() + 1;
        let pair = self.outline().pair_at(k / size)?;
        Some(self.in_pair(pair, k % size))
    }

    /// The clause at a place behind the step's frames, if there is one.
    fn step_tail(&self, k: usize) -> Option<Shape>
        ensures { option_map (clause_in self.now) result ≡ slice_get (step_tail (gates_of self.now) (property_of self.now) (depth_of self.now)) k }
    {
        let outline = self.outline();
        let n = outline.wires;
        let known = outline.depth * (n + 1);
        if k < known {
            return Some(Shape::Short(outline.good(k)));
        }
        let rest = k - known;
        if rest <= 2 * n {
            return Some(outline.middle(rest));
        }
        self.in_pairs(rest - (2 * n + 1))
    }

    /// The clause at place k, from 0, if there is one.
    fn clause(&self, k: usize) -> Option<Shape>
        ensures { option_map (clause_in self.now) result ≡ slice_get (clauses_of self.now) k }
    {
        let frames = self.frames_size();
        if k < frames {
            return self.in_frames(k).map(Shape::Short);
        }
        match self.kind {
            FormulaKind::Base => self.outline().base_tail(k - frames),
            FormulaKind::Step => self.step_tail(k - frames),
        }
    }

    /// The clause of a number, from 1, if there is one.
    pub(crate) fn numbered(&self, number: u32) -> Option<Shape>
        ensures { option_map (clause_in self.now) result ≡ numbered_of (clauses_of self.now) number }
    {
        let k = (number as usize).checked_sub(1)?;
        self.clause(k)
    }
}
