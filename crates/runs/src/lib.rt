//! The run of a board over rows of inputs: its frames up to the first bad one, and what is told of them.

#![tactic(auto)]

pub mod fault;
pub mod rows;
pub mod table;
pub mod text;
pub mod trace;
pub mod tracing;

pub use table::Table;
pub use trace::{Trace, Verdict};
