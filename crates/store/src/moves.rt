ghost use Rattle.std.specs.Prelude.{◌≡◌, ◌+◌, ◌^◌, ◌<◌, ◌≤◌, ◌++◌, length, take, drop, vec_len, vec_capacity};
ghost use Rattle.store.specs.Rows.{lengths, lined_up};

use crate::entry::Entry;

/// Puts literals into a row at a place, and so moves those behind it on.
pub(crate) fn put_in(row: &mut Vec<i32>, at: usize, literals: &[i32])
    requires { (at ≤ vec_len row.old) × (vec_len row.old + length literals.now ≤ vec_capacity row.old) }
    ensures items { row.new.items ≡ take at row.old.items ++ (literals.now ++ drop at row.old.items) }
    ensures room { vec_capacity row.old ≤ vec_capacity row.new }
{
    let end = row.len();
    // There is room for them, so this does not fail. A `splice` would allocate.
    let _ = row.extend_from_slice(literals);
    row[at..].rotate_left(end - at);
}

/// Takes literals out of a row from a place on, and so moves those behind them back.
pub(crate) fn take_out(row: &mut Vec<i32>, at: usize, count: usize)
    requires { at + count ≤ vec_len row.old }
    ensures items { row.new.items ≡ take at row.old.items ++ drop (at + count) row.old.items }
    ensures room { vec_capacity row.new ≡ vec_capacity row.old }
{
    // A `drain` would turn around what it lets go: where nothing is behind it, nothing has to move.
    row[at..].rotate_left(count);
    row.truncate(row.len() - count);
}

/// Says of the entries from a place on that the first starts at a place of the row, and each other where the one before it ends.
pub(crate) fn line_up(entries: &mut Vec<Entry>, at: usize, from: usize)
    requires { (at ≤ vec_len entries.old) × (from + lengths (drop at entries.old.items) < 2 ^ 64) }
    ensures items { entries.new.items ≡ take at entries.old.items ++ lined_up from (drop at entries.old.items) }
    ensures room { vec_capacity entries.new ≡ vec_capacity entries.old }
{
    // Each entry is written in its turn, from where the one before it ends.
    let mut start = from;
    for entry in entries[at..].iter_mut() {
        entry.start = start;
        start += entry.length;
    }
}
