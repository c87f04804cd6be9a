//! Gate files: a board as bytes, read and written.

#![tactic(auto)]

pub mod read;
pub mod write;

pub use read::read_file;
pub use write::{file_length, write_file};
