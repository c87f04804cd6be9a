//! Gates: what drives a wire, and the record that stores it.

#![tactic(auto)]

pub mod gate;
pub mod records;

pub use gate::Gate;
