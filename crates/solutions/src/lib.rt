//! Theorems about boards of any size and runs of any length: least solutions, the rounds that find them, the frames of a run.
//!
//! Each function's contract is its theorem; the functions themselves do nothing.

#![tactic(auto)]

ghost use Rattle.solutions.specs.Claims.{FramesEnd, LeastUnique, LanesApart, FramesExist, FramesUnique, FirstBad};

use values::ValueKind;

/// For every value kind: the first round that changes nothing comes within the number of wires times the height, plus one;
/// the count of rounds ends with it, and what it leaves is the least solution.
pub fn frames_end<V: ValueKind>()
    ensures { FramesEnd V.ValueKind.meaning }
{}

/// For every value kind: a frame has one least solution.
pub fn least_unique<V: ValueKind>()
    ensures { LeastUnique V.ValueKind.meaning }
{}

/// Lane k of a frame of the lane kind is the single frame on lane k of the inputs and of the frame before.
pub fn lanes_apart()
    ensures { LanesApart }
{}

/// Every frame of every run is there.
pub fn frames_exist()
    ensures { FramesExist }
{}

/// A run has one frame of each number.
pub fn frames_unique()
    ensures { FramesUnique }
{}

/// A run that is bad within a depth has a first bad frame.
pub fn first_bad()
    ensures { FirstBad }
{}
