//! Boards of gates and registers: boards under drawing, and closed boards.

#![tactic(auto)]

pub mod board;
pub mod close;
pub mod draw;
pub mod drawing;
pub mod shape;

pub use board::Board;
pub use close::Unclosed;
pub use drawing::Drawing;
