//! The clauses of one wire in one frame, worked out from its gate.

#![tactic(auto)]

pub mod frame;
pub mod literals;
pub mod sides;
pub mod wire;

pub use frame::Frame;
pub use literals::{Few, Literal};
