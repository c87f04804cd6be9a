//! Numbers as decimal text, put into a sink or written into a lent buffer.

#![tactic(auto)]

ghost use Rattle.std.specs.Prelude.{◌≡◌, ◌+◌, length, is_ok, if◌then◌else◌, Ok, Err, nat_le};
ghost use Rattle.refusals.specs.declared.Refusal.TheVariants.{Buffer};
ghost use Rattle.buffers.specs.Buffers.{written_at};
ghost use Rattle.decimals.specs.Decimals.{text_of};

use buffers::{Sink, write_bytes};
use itoa::{Buffer as Digits, Integer};
use refusals::Refusal;

/// How many digits the number has.
// This and the next are for callers that have a buffer and no sink.
pub fn decimal_length(number: u32) -> usize
    ensures { result ≡ length (text_of number) }
{
    let mut digits = Digits::new();
    digits.format(number).len()
}

/// Writes the number at a place of the buffer, and answers the place behind it. Where it does not fit, it is refused, and
/// nothing is written.
pub fn write_decimal(buffer: &mut [u8], at: usize, number: u32) -> Result<usize, Refusal>
    ensures answer { result ≡ (if nat_le (at + length (text_of number)) (length buffer.old) then Ok (at + length (text_of number)) else Err Buffer) }
    ensures after { buffer.new ≡ (if is_ok result then written_at at (text_of number) buffer.old else buffer.old) }
{
    let mut digits = Digits::new();
    write_bytes(buffer, at, digits.format(number).as_bytes())
}

/// Puts the number into the sink, with a minus sign where it is negative.
pub fn put_decimal<S: Sink, N: Integer>(out: &mut S, number: N)
    ensures { S.takes out.old (N.text number) out.new }
{
    let mut digits = Digits::new();
    out.put(digits.format(number).as_bytes());
}
