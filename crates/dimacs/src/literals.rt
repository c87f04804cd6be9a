ghost use Rattle.dimacs.specs.Dimacs.{spaced};

use buffers::Sink;
use decimals::put_decimal;

/// Puts a literal into the sink, and a space behind it.
pub(crate) fn put_literal<S: Sink>(out: &mut S, literal: i32)
    ensures { S.takes out.old (spaced literal) out.new }
{
    put_decimal(out, literal);
    out.put(b" ");
}
