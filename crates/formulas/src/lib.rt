//! The base and the step formula of a board, clause by clause: definitions, and theorems about them.
//!
//! The contract of each function here is its theorem; the functions do nothing.

#![tactic(auto)]

ghost use Rattle.formulas.specs.Claims.{BaseOver, StepOver};

pub mod kind;

pub use kind::FormulaKind;

/// Every literal of the base formula is one of its variables or the negative of one.
pub fn base_over()
    ensures { BaseOver }
{}

/// Every literal of the step formula is one of its variables or the negative of one.
pub fn step_over()
    ensures { StepOver }
{}
