//! Shelves: lines kept by their numbers, within a capacity; and the clauses that a hint can name, of a formula and a shelf.

#![tactic(auto)]

pub mod premises;
pub mod shelf;

pub use premises::Premises;
pub use shelf::Shelf;
