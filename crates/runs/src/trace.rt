ghost use Rattle.std.specs.Prelude.{Some};

use crate::table::Table;
use std::fmt;

/// What was found of a run. Frames are counted from 1, wires from 0.
// No `Result`: that a run is bad is an answer and no failure. With its number of frames, since it is printed without them.
#[derive(Clone, Copy, PartialEq, Eq, Debug)]
pub enum Verdict {
    /// The first bad frame, and its lowest undefined wire, or the property wire where every wire is defined.
    Bad { frame: usize, wire: usize },
    /// No frame is bad; so many there are.
    Good { frames: usize },
}

/// `bad 1 3` or `good 2`.
impl fmt::Display for Verdict {
    ghost use Rattle.runs.specs.Text.{verdict_line};

    ghost output = { λ x. Some (verdict_line x) };

    fn fmt<W: fmt::Write>(&self, f: &mut fmt::Formatter<W>) -> fmt::Result {
        match *self {
            Verdict::Bad { frame, wire } => write!(f, "bad {frame} {wire}"),
            Verdict::Good { frames } => write!(f, "good {frames}"),
        }
    }
}

/// The frames of a run up to the first bad one, each the values of all wires, and the verdict.
#[derive(Drop)]
pub struct Trace {
    pub frames: Table,
    pub verdict: Verdict,
}
