//! The grammar of proof text, and theorems about it.
//!
//! Each function's contract is its theorem; the functions themselves do nothing.

#![tactic(auto)]

ghost use Rattle.proofgrammar.specs.Claims.{OneReading, OneNext};

/// A text begins with at most one proof line.
pub fn one_reading()
    ensures { OneReading }
{}

/// One thing stands next in a text: its end, a proof line, or no proof line.
pub fn one_next()
    ensures { OneNext }
{}
