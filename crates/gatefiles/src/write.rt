ghost use Rattle.std.specs.Prelude.{◌≡◌, length, take, is_ok, IfOk, if◌then◌else◌, None, Ok, Err, nat_le};
ghost use Rattle.refusals.specs.declared.Refusal.TheVariants.{Buffer};
ghost use Rattle.buffers.specs.Buffers.{written_at};
ghost use Rattle.gates.specs.Records.{record_of};
ghost use Rattle.boards.specs.Sheets.{sheet};
ghost use Rattle.gatefiles.specs.Files.{file_of, file_closing};

use boards::Board;
use buffers::{Length, Sink, Writer};
use gates::Gate;
use refusals::Refusal;

/// The kind that ends a gate file, before the property wire and the depth.
pub(crate) const ENDING: u8 = 15;

/// Puts the record of a gate into the sink.
// By the numbers of the format, as `take_record` reads them.
fn put_record<S: Sink>(out: &mut S, gate: Gate)
    ensures { S.takes out.old (record_of gate) out.new }
{
    match gate {
        Gate::Input => out.put(&[0]),
        Gate::Zero => out.put(&[1]),
        Gate::One => out.put(&[2]),
        Gate::Copy(y) => out.put(&[3, y]),
        Gate::Not(y) => out.put(&[4, y]),
        Gate::And(y, z) => out.put(&[5, y, z]),
        Gate::Or(y, z) => out.put(&[6, y, z]),
        Gate::Implies(y, z) => out.put(&[7, y, z]),
        Gate::Xor(y, z) => out.put(&[8, y, z]),
        Gate::Register(y) => out.put(&[9, y]),
    }
}

/// Puts the board's gate file into the sink.
fn put_file<S: Sink>(out: &mut S, board: &Board)
    ensures { S.takes out.old (file_of (sheet board.now)) out.new }
{
    for gate in board.gates() {
        put_record(out, *gate);
    }
    out.put(&[ENDING, board.property(), board.depth()]);
}

/// How many bytes the board's gate file has.
pub fn file_length(board: &Board) -> usize
    ensures { result ≡ length (file_of (sheet board.now)) }
{
    let mut length = Length { bytes: 0 };
    put_file(&mut length, board);
    length.bytes
}

/// Writes the board's gate file at the buffer's start, and answers its length.
///
/// Whoever reads what was written gets the same board, since it is the file of a sheet that is taken.
pub fn write_file(board: &Board, buffer: &mut [u8]) -> Result<usize, Refusal>
    ensures answer { result ≡ (if nat_le (length (file_of (sheet board.now))) (length buffer.old) then Ok (length (file_of (sheet board.now))) else Err Buffer) }
    ensures after { buffer.new ≡ (if is_ok result then written_at 0 (file_of (sheet board.now)) buffer.old else buffer.old) }
    ensures readable { IfOk result (λ n. (take n buffer.new ≡ file_of (sheet board.now)) × (file_closing (sheet board.now) ≡ None)) }
{
    // The length first: a buffer that is too short is left as it was.
    let length = file_length(board);
    if buffer.len() < length {
        return Err(Refusal::Buffer);
    }
    let mut writer = Writer { buffer, at: 0 };
    put_file(&mut writer, board);
    Ok(length)
}
