ghost use Rattle.std.specs.Prelude.{◌≡◌, ℕ, ◌*◌, Bool, List, MatchResult, ◌≢◌};
ghost use Rattle.refusals.specs.declared.Refusal.TheVariants.{Valuation};
ghost use Rattle.boards.specs.Sheets.{sheet};
ghost use Rattle.solutions.specs.Runs.{input_count};
ghost use Rattle.runs.specs.Rows.{Rows};
ghost use Rattle.runs.specs.Tables.{rows_of};
ghost use Rattle.runs.specs.Inputs.{IsRead, IsUnread, NotRead, Bits, ValuesOf, RowsRead, Counts};

use crate::table::Table;
use boards::Board;
use refusals::{Failure, Refusal};
use std::alloc::Global;
use values::Value;

/// The value of a byte, which is 0 or 1.
// No `TryFrom`: which refusal another byte is, the crate of values does not know.
fn read_value(byte: u8) -> Result<Value, Failure>
    ensures { MatchResult result (IsRead byte) (IsUnread byte) }
{
    match byte {
        0 => Ok(Value::Zero),
        1 => Ok(Value::One),
        _ => Err(Refusal::Valuation.into()),
    }
}

/// The values of bytes, each 0 or 1.
// No `try_collect`: it makes room value by value, and a vector that grows holds its values twice for a while.
fn read_values(heap: Global, bytes: &[u8]) -> Result<Vec<Value>, Failure>
    ensures { MatchResult result
        (λ v. ValuesOf bytes.now v.items)
        (λ e. NotRead ((bits : List Bool) → Bits bytes.now bits → ⊥) e) }
{
    let mut values = Vec::with_capacity(heap, bytes.len())?;
    for byte in bytes {
        let value = read_value(*byte)?;
        values.push(value)?;
    }
    Ok(values)
}

/// How many rows of `width` bytes a length is; of rows without bytes there are `depth`.
fn count_rows(width: usize, depth: usize, length: usize) -> Result<usize, Refusal>
    ensures { MatchResult result (λ c. Counts width depth length c) (λ e. (e ≡ Valuation) × ((c : ℕ) → length ≢ c * width)) }
{
    if !length.is_multiple_of(width) {
        return Err(Refusal::Valuation);
    }
    Ok(length.checked_div(width).unwrap_or(depth))
}

/// Reads the rows of a run: a byte of 0 or 1 for each input of each frame. A board without inputs has no bytes, and
/// runs as many frames as its depth.
pub fn read_rows(heap: Global, board: &Board, bytes: &[u8]) -> Result<Table, Failure>
    ensures { MatchResult result
        (λ t. (t.width ≡ input_count (sheet board.now).gates) × RowsRead (sheet board.now).gates (sheet board.now).depth bytes.now (rows_of t))
        (λ e. NotRead ((rows : List (List Bool)) → Rows (sheet board.now).gates (sheet board.now).depth bytes.now rows → ⊥) e) }
{
    let width = board.inputs();
    let count = count_rows(width, board.depth() as usize, bytes.len())?;
    let values = read_values(heap, bytes)?;
    Ok(Table {
        width,
        count,
        values,
    })
}
