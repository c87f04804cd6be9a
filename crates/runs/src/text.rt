ghost use Rattle.std.specs.Prelude.{◌≡◌, length, IfOk, string_bytes};
ghost use Rattle.gates.specs.Gates.{is_register, rank};
ghost use Rattle.boards.specs.Sheets.{sheet};
ghost use Rattle.runs.specs.Text.{board_line, frame_line};

use boards::Board;
use std::alloc::{AllocError, Global};
use values::Value;

/// `board 9 0`: how many wires the board has, and how many registers.
// No `Display`: this is a line of a report, and not the text of a board.
pub fn tell_board(heap: Global, board: &Board) -> Result<String, AllocError>
    ensures { IfOk result (λ t. string_bytes t ≡ board_line (length (sheet board.now).gates) (rank is_register (sheet board.now).gates (length (sheet board.now).gates))) }
{
    let wires = board.wires();
    let registers = board.registers();
    format!(in heap; "board {wires} {registers}")
}

/// `frame 1: 1 1 0 U`: every wire's value in order.
// No `Display`: a row of values does not know its number.
pub fn tell_frame(heap: Global, number: usize, values: &[Value]) -> Result<String, AllocError>
    ensures { IfOk result (λ t. string_bytes t ≡ frame_line number values.now) }
{
    let mut line = format!(in heap; "frame {number}:")?;
    // A wide board has many values: two characters are pushed sooner than they are formatted.
    for value in values {
        line.push(' ')?;
        line.push(value.letter())?;
    }
    Ok(line)
}
