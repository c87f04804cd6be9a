ghost use Rattle.std.specs.Prelude.{◌≡◌};
ghost use Rattle.clauses.specs.Clauses.{length_of, clause_literal};
ghost use Rattle.shelf.specs.Lines.{find as find_in};
ghost use Rattle.store.specs.Rows.{stands, spot, seat};
ghost use Rattle.store.specs.Stores.{lines_of, Untouched};

use crate::store::Store;

impl Store {
    /// The place of the number's line, or else the place where it would stand.
    pub(crate) fn seek(&self, number: u32) -> Result<usize, usize>
        ensures { result ≡ seat number (lines_of self.now) }
    {
        match self.entries.last() {
            // Most lines are kept in rising order of number: such a one stands behind all others.
            Some(last) if last.number < number => Err(self.entries.len()),
            _ => self
                .entries
                .binary_search_by_key(&number, |entry| entry.number),
        }
    }

    /// Whether the line at a place has the number.
    fn is_at(&self, at: usize, number: u32) -> bool
        ensures { result ≡ stands number at (lines_of self.now) }
    {
        self.entries
            .get(at)
            .is_some_and(|entry| entry.number == number)
    }

    /// The place of the number's line, if there is one.
    pub(crate) fn find(&mut self, number: u32) -> Option<usize>
        ensures answer { result ≡ spot number (lines_of self.old) }
        ensures same { Untouched self.old self.new }
    {
        if self.is_at(self.memo, number) {
            return Some(self.memo);
        }
        let at = self.seek(number).ok()?;
        self.memo = at;
        Some(at)
    }

    /// How many literals the number's line has, if there is one.
    pub fn length(&mut self, number: u32) -> Option<usize>
        ensures answer { result ≡ length_of (find_in (lines_of self.old) number) }
        ensures same { Untouched self.old self.new }
    {
        let at = self.find(number)?;
        Some(self.entries[at].length)
    }

    /// The literal at a place of the number's line, if there is one.
    pub fn literal(&mut self, number: u32, at: usize) -> Option<i32>
        ensures answer { result ≡ clause_literal (find_in (lines_of self.old) number) at }
        ensures same { Untouched self.old self.new }
    {
        let line = self.find(number)?;
        let entry = self.entries[line];
        let literals = &self.row[entry.start..entry.start + entry.length];
        literals.get(at).copied()
    }
}
