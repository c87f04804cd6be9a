ghost use Rattle.std.specs.Prelude.{◌≡◌, true, length};
ghost use Rattle.store.specs.Rows.{cut, packed, rises};

use crate::entry::Entry;

/// Lines in rising order of number: their literals in one row, line after line, and an entry for each.
///
/// Row and entries have their room from the start, so that keeping a line never allocates.
/// The memo is a place that may be the one asked for next; it is tested before it is used.
// Its fields and no model: a shelf's law that the lines rise is read from the ghost field `rising`. What stays over a call, room or
// lines, relates the store before and after, so each call says it.
#[derive(Drop)]
pub struct Store {
    pub(crate) entries: Vec<Entry>,
    pub(crate) row: Vec<i32>,
    pub(crate) memo: usize,
    ghost rising: { rises (cut entries.items row.items) ≡ true },
    ghost tight: { packed 0 entries.items (length row.items) ≡ true },
}
