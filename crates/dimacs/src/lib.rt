//! The text of a formula, in the format that provers read.

#![tactic(auto)]

mod clause_texts;
mod literals;
pub mod tell;
pub mod whole;

pub use tell::tell_formula;
pub use whole::{dimacs_length, dimacs_text, write_dimacs};
