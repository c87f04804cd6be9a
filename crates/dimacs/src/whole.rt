ghost use Rattle.std.specs.Prelude.{◌≡◌, ◌^◌, ◌<◌, ◌≤◌, length, is_ok, if◌then◌else◌, Ok, Err, MatchResult, nat_le};
ghost use Rattle.refusals.specs.declared.Failure.TheVariants.{Memory};
ghost use Rattle.refusals.specs.declared.Refusal.TheVariants.{Buffer};
ghost use Rattle.buffers.specs.Buffers.{written_at};
ghost use Rattle.dimacs.specs.Dimacs.{header};
ghost use Rattle.dimacs.specs.Texts.{formula_text};

use crate::clause_texts::put_clause;
use buffers::{Length, Sink, Writer};
use decimals::put_decimal;
use refusals::{Failure, Refusal};
use sources::Formula;
use std::alloc::Global;

/// Puts the first line into the sink.
fn put_header<S: Sink>(out: &mut S, variables: u32, clauses: u32)
    ensures { S.takes out.old (header variables clauses) out.new }
{
    out.put(b"p cnf ");
    put_decimal(out, variables);
    out.put(b" ");
    put_decimal(out, clauses);
    out.put(b"\n");
}

/// Puts the text of the formula into the sink.
fn put_formula<S: Sink>(out: &mut S, formula: &Formula)
    ensures text { S.takes out.old (formula_text formula.now) out.new }
    ensures short { length (formula_text formula.now) < 2 ^ 64 }
{
    let variables = formula.variables() as u32;
    let clauses = formula.clauses() as u32;
    put_header(out, variables, clauses);
    // Counted from 0: so many clauses are put before each.
    for before in 0..clauses {
        put_clause(out, formula, before + 1);
    }
}

/// How many bytes the text of the formula has.
pub fn dimacs_length(formula: &Formula) -> usize
    ensures { result ≡ length (formula_text formula.now) }
{
    let mut length = Length { bytes: 0 };
    put_formula(&mut length, formula);
    length.bytes
}

/// Writes the text of the formula at the start of a buffer that is long enough.
fn write_text(formula: &Formula, buffer: &mut [u8])
    ensures { length (formula_text formula.now) ≤ length buffer.old → buffer.new ≡ written_at 0 (formula_text formula.now) buffer.old }
{
    let mut writer = Writer { buffer, at: 0 };
    put_formula(&mut writer, formula);
}

/// Writes the text of the formula at the buffer's start, and answers its length. A buffer that is too short is refused, and
/// nothing is written.
pub fn write_dimacs(formula: &Formula, buffer: &mut [u8]) -> Result<usize, Refusal>
    ensures answer { result ≡ (if nat_le (length (formula_text formula.now)) (length buffer.old) then Ok (length (formula_text formula.now)) else Err Buffer) }
    ensures after { buffer.new ≡ (if is_ok result then written_at 0 (formula_text formula.now) buffer.old else buffer.old) }
{
    let length = dimacs_length(formula);
    if buffer.len() < length {
        return Err(Refusal::Buffer);
    }
    write_text(formula, buffer);
    Ok(length)
}

/// The text of the formula.
pub fn dimacs_text(heap: Global, formula: &Formula) -> Result<Vec<u8>, Failure>
    ensures { MatchResult result
        (λ v. v.items ≡ formula_text formula.now)
        (λ e. e ≡ Memory) }
{
    let mut text = vec![in heap; 0u8; dimacs_length(formula)]?;
    write_text(formula, text.as_mut_slice());
    Ok(text)
}
