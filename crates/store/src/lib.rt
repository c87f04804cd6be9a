//! Lines in one row, in rising order of number, with room that is reserved when the store is made.

#![tactic(auto)]

mod edits;
pub mod entry;
mod keeping;
mod moves;
mod rows;
pub mod store;

pub use store::Store;

/// The most words of a shelf that count.
pub const MOST_WORDS: usize = 1048576;
