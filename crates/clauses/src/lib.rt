//! Clauses over numbered variables: what a valuation is, when it satisfies them, and how clauses are asked for.

#![tactic(auto)]

ghost use Rattle.clauses.specs.Claims.{VariablesDecide};

pub mod source;

pub use source::ClauseSource;

/// Two valuations that agree on the variables of some clauses satisfy them both, or neither does.
pub fn variables_decide()
    ensures { VariablesDecide }
{}
