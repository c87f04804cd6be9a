ghost use Rattle.std.specs.Prelude.{◌≡◌, length, IfOk, string_bytes};
ghost use Rattle.sources.specs.Meaning.{variables_of, clauses_of};
ghost use Rattle.dimacs.specs.Lines.{formula_line};

use sources::Formula;
use std::alloc::{AllocError, Global};

/// `base 3 6`: how many variables the formula has, and how many clauses.
// No `Display`: this is a line of a report; the text of a formula is another.
pub fn tell_formula(heap: Global, formula: &Formula) -> Result<String, AllocError>
    ensures { IfOk result (λ t. string_bytes t ≡ formula_line formula.now.kind (variables_of formula.now) (length (clauses_of formula.now))) }
{
    let kind = formula.kind();
    let variables = formula.variables();
    let clauses = formula.clauses();
    format!(in heap; "{kind} {variables} {clauses}")
}
