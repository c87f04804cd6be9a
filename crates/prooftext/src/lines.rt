ghost use Rattle.std.specs.Prelude.{MatchOption};
ghost use Rattle.proofgrammar.specs.Parts.{tail_text, strike_tail};
ghost use Rattle.prooftext.specs.Lent.{held, SameRows};
ghost use Rattle.prooftext.specs.Parts.{NoFront, HasFront, NoNumbers, HasNumbers, NoBody, HasBody};
ghost use Rattle.prooftext.specs.Items.{NoLine, HasLine};

use crate::item::Item;
use crate::lists::read_list;
use crate::rows::Rows;
use proofwords::{read_number, skip};

/// Reads the number that begins a line, and its space.
fn read_front(text: &[u8]) -> Option<(u32, &[u8])>
    ensures { MatchOption result (NoFront text.now) (λ r. HasFront text.now r.0 r.1.now) }
{
    match read_number(text)? {
        (0, _) => None,
        (number, rest) => Some((number, skip(rest, b' ')?)),
    }
}

/// Reads the last numbers of a line, and its end.
fn read_tail<'t>(text: &'t [u8], row: &mut [u32]) -> Option<(usize, &'t [u8])>
    ensures { MatchOption result (NoNumbers tail_text text.now)
        (λ r. HasNumbers tail_text text.now row.old row.new r.0 r.1.now) }
{
    let (count, rest) = read_list(text, row)?;
    Some((count, skip(rest, b'\n')?))
}

/// Reads what stands behind the `d` of a strike.
fn read_strike<'t>(text: &'t [u8], row: &mut [u32]) -> Option<(usize, &'t [u8])>
    ensures { MatchOption result (NoNumbers strike_tail text.now)
        (λ r. HasNumbers strike_tail text.now row.old row.new r.0 r.1.now) }
{
    read_tail(skip(text, b' ')?, row)
}

/// Reads what stands behind the number of a clause: its literals and its hints.
fn read_clause<'t>(text: &'t [u8], number: u32, rows: &mut Rows<'_>) -> Option<(Item, &'t [u8])>
    ensures same { SameRows rows.old rows.new }
    ensures read { MatchOption result (NoBody text.now)
        (λ r. HasBody number text.now (held rows.old) (held rows.new) r.0 r.1.now) }
{
    let (literals, rest) = read_list(text, rows.literals)?;
    let (hints, rest) = read_tail(skip(rest, b' ')?, rows.numbers)?;
    let item = Item::Line {
        number,
        literals,
        hints,
    };
    Some((item, rest))
}

/// Reads a proof line into the rows: what it is, and the text behind it. What a row has no room for is only counted.
pub(crate) fn read_line<'t>(text: &'t [u8], rows: &mut Rows<'_>) -> Option<(Item, &'t [u8])>
    ensures same { SameRows rows.old rows.new }
    ensures read { MatchOption result (NoLine text.now)
        (λ r. HasLine text.now (held rows.old) (held rows.new) r.0 r.1.now) }
{
    let (number, rest) = read_front(text)?;
    let Some(tail) = skip(rest, b'd') else {
        return read_clause(rest, number, rows);
    };
    let (count, rest) = read_strike(tail, rows.numbers)?;
    Some((Item::Strike { count }, rest))
}
