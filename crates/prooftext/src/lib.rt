//! Proof text, read line by line into lent rows.

#![tactic(auto)]

pub mod item;
mod lines;
mod lists;
mod next;
pub mod reader;
mod rows;

pub use item::Item;
pub use reader::Reader;
