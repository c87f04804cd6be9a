ghost use Rattle.std.specs.Prelude.{◌≡◌, ◌*◌, ◌≤◌, true, Bool, List, length, MatchResult};
ghost use Rattle.std.specs.Option.{option_map};
ghost use Rattle.refusals.specs.declared.Failure.TheVariants.{Memory};
ghost use Rattle.values.specs.Single.{single};
ghost use Rattle.boards.specs.Sheets.{sheet};
ghost use Rattle.solutions.specs.Rounds.{frame_row};
ghost use Rattle.solutions.specs.Runs.{input_count};
ghost use Rattle.frames.specs.Frames.{frame_given, long_before};
ghost use Rattle.runs.specs.Inputs.{HoldsRows};
ghost use Rattle.runs.specs.Tables.{cut, rows_of};
ghost use Rattle.runs.specs.Traces.{last_of, Found, Traced};

use crate::fault::find_fault;
use crate::rows::read_rows;
use crate::table::Table;
use crate::trace::{Trace, Verdict};
use boards::Board;
use frames::find_frame;
use refusals::Failure;
use std::alloc::Global;
use values::Value;

/// The last of so many frames, one after the other, if there is one.
fn last_frame(values: &[Value], wires: usize, count: usize) -> Option<&[Value]>
    requires { length values.now ≡ count * wires }
    ensures { option_map (λ x. x.now) result ≡ last_of (cut wires count values.entry.now) }
{
    let last = count.checked_sub(1)?;
    Some(&values[last * wires..])
}

/// The frame that follows the frame before, if there is one, under a row of inputs.
// The heap is a parameter beside the board, as in each call of std that allocates.
fn next_frame(
    heap: Global,
    board: &Board,
    inputs: &[Value],
    before: Option<&[Value]>,
) -> Result<Vec<Value>, Failure>
    requires inputs { input_count (sheet board.now).gates ≤ length inputs.now }
    requires before { long_before (length (sheet board.now).gates) (option_map (λ x. x.now) before) ≡ true }
    ensures { MatchResult result
        (λ v. v.items ≡ frame_row single (sheet board.now).gates (frame_given single (sheet board.now).gates inputs.now (option_map (λ x. x.now) before.entry)))
        (λ e. e ≡ Memory) }
{
    let mut row = vec![in heap; Value::Undefined; board.wires()]?;
    find_frame(board, inputs, before, row.as_mut_slice())?;
    Ok(row)
}

/// The frames of the rows up to the first bad one.
fn run(heap: Global, board: &Board, rows: &Table) -> Result<Trace, Failure>
    ghost bits: { List (List Bool) }
    requires { HoldsRows (sheet board.now).gates (rows_of rows.now) bits }
    ensures { MatchResult result (λ t. Found (sheet board.now) bits t) (λ e. e ≡ Memory) }
{
    let property = board.property() as usize;
    let wires = board.wires();
    let count = rows.len();
    let mut values = Vec::new(heap);
    'frames: for index in 0..count {
        let before = last_frame(values.as_slice(), wires, index);
        let frame = next_frame(heap, board, rows.row_at(index), before)?;
        values.extend_from_slice(frame.as_slice())?;
        if let Some(wire) = find_fault(frame.as_slice(), property) {
            let frames = Table {
                width: wires,
                count: index + 1,
                values,
            };
            let verdict = Verdict::Bad {
                frame: index + 1,
                wire,
            };
            return Ok(Trace { frames, verdict });
        }
    }
    let frames = Table {
        width: wires,
        count,
        values,
    };
    let verdict = Verdict::Good { frames: count };
    Ok(Trace { frames, verdict })
}

/// Runs the board over rows of inputs, given as bytes: the values of every frame up to the first bad one, and the verdict.
/// Bytes that are the rows of no run are refused.
pub fn trace(heap: Global, board: &Board, bytes: &[u8]) -> Result<Trace, Failure>
    ensures { Traced (sheet board.now) bytes.now result }
{
    let rows = read_rows(heap, board, bytes)?;
    run(heap, board, &rows)
}
