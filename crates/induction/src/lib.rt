//! Theorems about the two formulas of a board: what they say of its frames and of its runs.
//!
//! Each function's contract is its theorem; the functions themselves do nothing.

#![tactic(auto)]

ghost use Rattle.induction.specs.Claims.{Encodes, FrameEncodes, FrameShown, LeastDefined, DefinedLeast, BaseSays, BaseShows, HiddenNever, StepSays};
ghost use Rattle.induction.specs.Examples.{StepCanHold, NeverHolds};

/// The clauses of an equation hold exactly when its left side has the value of its right side.
pub fn encodes()
    ensures { Encodes }
{}

/// Where a valuation shows a frame and the frame before it, the clauses of the frame hold exactly when every wire obeys: an
/// input is defined, a register holds what was passed on to it, and any other gate has its value.
pub fn frame_encodes()
    ensures { FrameEncodes }
{}

/// Where the clauses of a frame hold, the valuation shows a frame: no wire has both rails up.
pub fn frame_shown()
    ensures { FrameShown }
{}

/// A least solution that is defined on every wire is the only solution.
pub fn least_defined()
    ensures { LeastDefined }
{}

/// If every solution is defined on every wire, so is the least.
pub fn defined_least()
    ensures { DefinedLeast }
{}

/// Some valuation satisfies the base formula exactly when some run is bad within the depth.
pub fn base_says()
    ensures { BaseSays }
{}

/// The run that a satisfying valuation shows has a row for each frame of the depth, is bad within the depth, and has a first
/// bad frame.
pub fn base_shows()
    ensures { BaseShows }
{}

/// A register after an undefined source is 1 in the formula. That hides no first bad frame: the first bad frame of the run that
/// a satisfying valuation shows is not after the first bad frame of the valuation itself.
pub fn hidden_never()
    ensures { HiddenNever }
{}

/// If no run is bad within the depth and no valuation satisfies the step formula, no run of any length is bad at any frame.
pub fn step_says()
    ensures { StepSays }
{}

/// The step formula of a board with three registers at depth 2, and a valuation that satisfies it.
pub fn step_can_hold()
    ensures { StepCanHold }
{}

/// The board that is 1 and nothing else: no valuation satisfies its base or its step formula, and no run of it is bad.
pub fn never_holds()
    ensures { NeverHolds }
{}
