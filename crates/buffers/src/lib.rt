//! Texts, piece after piece: how long they are, and their bytes in a lent buffer.

#![tactic(auto)]

ghost use Rattle.std.specs.Prelude.{◌≡◌, ◌+◌, length, is_ok, if◌then◌else◌, Ok, Err, nat_le};
ghost use Rattle.refusals.specs.declared.Refusal.TheVariants.{Buffer};
ghost use Rattle.buffers.specs.Buffers.{written_at};

mod sink;

use refusals::Refusal;
pub use sink::{Length, Sink, Writer};

/// Writes the bytes at a place of the buffer, and answers the place behind them. Where they do not fit, they are refused, and
/// nothing is written.
pub fn write_bytes(buffer: &mut [u8], at: usize, bytes: &[u8]) -> Result<usize, Refusal>
    ensures answer { result ≡ (if nat_le (at + length bytes.now) (length buffer.old) then Ok (at + length bytes.now) else Err Buffer) }
    ensures after { buffer.new ≡ (if is_ok result then written_at at bytes.now buffer.old else buffer.old) }
{
    let length = bytes.len();
    if buffer.len() < length || buffer.len() - length < at {
        return Err(Refusal::Buffer);
    }
    // By range: of a part lent by `get_mut` it is not known what the buffer holds afterwards.
    buffer[at..at + length].copy_from_slice(bytes);
    Ok(at + length)
}
