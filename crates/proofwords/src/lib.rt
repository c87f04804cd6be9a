//! The words of a proof text: the byte, the number or the literal that it begins with.

#![tactic(auto)]

pub mod words;

pub use words::{read_literal, read_number, skip, stands};
