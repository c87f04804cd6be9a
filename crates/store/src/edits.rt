ghost use Rattle.std.specs.Prelude.{◌≡◌, ◌+◌, ◌<◌, ◌≤◌, [], length, take, IfOk, None, vec_len};
ghost use Rattle.std.specs.List.{remove};
ghost use Rattle.shelf.specs.Lines.{find as find_in, insert as insert_in};
ghost use Rattle.store.specs.Rows.{lengths, place, literals_in};
ghost use Rattle.store.specs.Stores.{lines_of, line_room, literal_room, Roomy};

use crate::entry::Entry;
use crate::moves::{line_up, put_in, take_out};
use crate::store::Store;
use std::alloc::{AllocError, Global};

impl Store {
    /// An empty store, with room for so many lines and so many literals. Only this call can fail for want of memory.
    pub fn new(heap: Global, lines: usize, literals: usize) -> Result<Store, AllocError>
        ensures { IfOk result (λ s. (lines_of s ≡ []) × (lines ≤ line_room s) × (literals ≤ literal_room s)) }
    {
        let entries = Vec::with_capacity(heap, lines)?;
        let row = Vec::with_capacity(heap, literals)?;
        Ok(Store {
            entries,
            row,
            memo: 0,
        })
    }

    /// How many lines there are.
    pub fn lines(&self) -> usize
        ensures { result ≡ length (lines_of self.now) }
    {
        self.entries.len()
    }

    /// How many literals they have together.
    pub fn literals(&self) -> usize
        ensures { result ≡ literals_in (lines_of self.now) }
    {
        self.row.len()
    }

    /// Where the literals of the line at a place start, or would start.
    fn start(&self, at: usize) -> usize
        requires { at ≤ length (lines_of self.now) }
        ensures is { result ≡ lengths (take at self.now.entries.items) }
        ensures within { result ≤ vec_len self.now.row }
    {
        self.entries
            .get(at)
            .map_or(self.literals(), |entry| entry.start)
    }

    /// Puts a line in at the place of its number.
    pub(crate) fn insert(&mut self, at: usize, number: u32, literals: &[i32])
        requires place { at ≡ place number (lines_of self.old) }
        requires free { find_in (lines_of self.old) number ≡ None }
        requires lines { length (lines_of self.old) < line_room self.old }
        requires literals { literals_in (lines_of self.old) + length literals.now ≤ literal_room self.old }
        ensures lines { lines_of self.new ≡ insert_in number literals.now (lines_of self.old) }
        ensures room { Roomy self.old self.new }
    {
        let start = self.start(at);
        let length = literals.len();
        put_in(&mut self.row, start, literals);
        line_up(&mut self.entries, at, start + length);
        let entry = Entry {
            number,
            start,
            length,
        };
        // There is room for it, so this does not fail.
        let _ = self.entries.insert(at, entry);
    }

    /// Takes the line at a place out.
    pub(crate) fn remove(&mut self, at: usize)
        requires { at < length (lines_of self.old) }
        ensures lines { lines_of self.new ≡ remove (lines_of self.old) at }
        ensures room { Roomy self.old self.new }
    {
        let entry = self.entries.remove(at);
        take_out(&mut self.row, entry.start, entry.length);
        line_up(&mut self.entries, at, entry.start);
    }

    /// Takes all lines out.
    pub fn clear(&mut self)
        ensures lines { lines_of self.new ≡ [] }
        ensures room { Roomy self.old self.new }
    {
        self.entries.clear();
        self.row.clear();
    }
}
