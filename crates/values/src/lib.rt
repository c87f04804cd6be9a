//! Values of wires: what a value kind is, the single kind, and the lane kind.

#![tactic(auto)]

pub mod kind;
pub mod lanes;
pub mod single;

pub use kind::ValueKind;
pub use lanes::Lanes;
pub use lanes::kind::lanes_are_single;
pub use single::Value;
