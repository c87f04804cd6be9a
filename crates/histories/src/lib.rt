//! Theorems: what holds of a case after any list of calls, over a shelf of any capacity and any rule of cost.
//!
//! Each function's contract is its theorem; the functions themselves do nothing.

#![tactic(auto)]

ghost use Rattle.histories.specs.Law.{LawStands, RefusalsChangeNothing, CallsGoOn};

/// What a call that is not refused is answered.
// No Option: a call that shows nothing is accepted all the same.
#[derive(Clone, Copy, PartialEq, Eq, Debug)]
pub enum Reply {
    Accepted,
    /// A show: the first bad frame, counted from 1, and its lowest undefined wire, or else the property wire.
    Shown { frame: usize, wire: usize },
}

/// The law of a case, for every shelf and every list of calls.
pub fn law_stands()
    ensures { LawStands }
{}

/// A call that is refused changes nothing, and later calls go on from where the earlier ones led.
pub fn calls_go_on()
    ensures refused { RefusalsChangeNothing }
    ensures later { CallsGoOn }
{}
