//! The formulas of a board as clause sources: each clause is worked out when it is asked for.

#![tactic(auto)]

pub mod formula;
mod frames;
mod locate;
mod outline;
mod pairs;
mod rows;
pub mod shape;
pub mod source;
mod tails;

pub use formula::Formula;
pub use formulas::FormulaKind;
