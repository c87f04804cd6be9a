//! Shelves that keep their lines in a store, by a rule: what a line costs, and how much may be kept.

#![tactic(auto)]

pub mod rule;
pub mod stored;

pub use rule::{Room, Rule};
pub use stored::Stored;
