ghost use Rattle.std.specs.Prelude.{◌≡◌, ◌+◌, ◌*◌, ◌<◌, ◌≤◌, Some};
ghost use Rattle.std.specs.Option.{option_map};
ghost use Rattle.std.specs.List.{slice_get};
ghost use Rattle.formulas.specs.Formulas.{step_good};
ghost use Rattle.wireclauses.specs.Literals.{few_of};
ghost use Rattle.sources.specs.Places.{clause_of, base_tail, step_middle};

use crate::outline::Outline;
use crate::shape::{LongClause, Shape};
use wireclauses::sides::Rail;
use wireclauses::{Few, Literal};

impl Outline {
    /// The clause at place j behind the frames of the base, if there is one.
    pub(crate) fn base_tail(self, j: usize) -> Option<Shape>
        ensures { option_map (clause_of self.wires self.property) result ≡ slice_get (base_tail self.wires self.property self.depth) j }
    {
        let marks = self.wires * self.depth;
        let rails = 2 * marks;
        if j < rails {
            let mark = Literal::Minus((rails + j / 2) as u16);
            Some(Shape::Short(Few::Two(mark, Literal::Minus(j as u16))))
        } else if j == rails {
            Some(Shape::Long(LongClause {
                first: rails,
                marks,
                frame: 0,
                frames: self.depth,
            }))
        } else {
            None
        }
    }

    /// The clause at place j of the good frames of the step.
    pub(crate) fn good(self, j: usize) -> Few
        requires { j < self.depth * (self.wires + 1) }
        ensures { Some (few_of result) ≡ slice_get (step_good self.wires self.property self.depth) j }
    {
        let frame = self.frame(j / (self.wires + 1));
        let w = j % (self.wires + 1);
        if w < self.wires {
            frame.defined(w as u8)
        } else {
            Few::One(Literal::Plus(frame.rail(Rail::Rail1(self.property))))
        }
    }

    /// The clause at place j of the marks of the step's last frame, and of the clause that this frame is bad.
    pub(crate) fn middle(self, j: usize) -> Shape
        requires { j ≤ 2 * self.wires }
        ensures { Some (clause_of self.wires self.property result) ≡ slice_get (step_middle self.wires self.property self.depth) j }
    {
        let first = 2 * self.wires * (self.depth + 1);
        if j < 2 * self.wires {
            let mark = Literal::Minus((first + j / 2) as u16);
            let rail = Literal::Minus((2 * self.wires * self.depth + j) as u16);
            Shape::Short(Few::Two(mark, rail))
        } else {
            Shape::Long(LongClause {
                first,
                marks: self.wires,
                frame: self.depth,
                frames: 1,
            })
        }
    }
}
