ghost use Rattle.clauses.specs.Clauses.{numbered};
ghost use Rattle.sources.specs.Meaning.{clauses_of};
ghost use Rattle.dimacs.specs.Dimacs.{clause_text, literals};

use crate::literals::put_literal;
use buffers::Sink;
use sources::Formula;

/// Puts the line of a clause into the sink.
pub(crate) fn put_clause<S: Sink>(out: &mut S, formula: &Formula, number: u32)
    ensures { S.takes out.old (clause_text (literals (numbered (clauses_of formula.now) number))) out.new }
{
    let length = formula.clause_length(number).unwrap_or(0);
    // By place: a formula is asked for one literal at a time.
    for place in 0..length {
        if let Some(literal) = formula.clause_literal(number, place) {
            put_literal(out, literal);
        }
    }
    out.put(b"0\n");
}
