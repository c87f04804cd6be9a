//! The frame call, for every value kind.

#![tactic(auto)]

pub mod frame;

pub use frame::{find_frame, no_frame};
