ghost use Rattle.std.specs.Prelude.{◌≡◌, not, ◌&&◌, length, is_some, is_ok, if◌then◌else◌, Some, None, Ok, Err, nat_eq};
ghost use Rattle.std.specs.Map.{update};
ghost use Rattle.refusals.specs.declared.Refusal.TheVariants.{Space, Absent};
ghost use Rattle.shelf.specs.Lines.{find as find_in, insert as insert_in, remove as remove_from};
ghost use Rattle.store.specs.Stores.{lines_of, fits, Roomy};

use crate::store::Store;
use refusals::Refusal;

impl Store {
    /// Whether there is room for a line of a length.
    fn has_room(&self, length: usize) -> bool
        ensures { result ≡ fits self.now length }
    {
        self.entries.len() < self.entries.capacity()
            && length <= self.row.capacity() - self.row.len()
    }

    /// Keeps a line, if there is room for it and no line has its number.
    pub fn keep(&mut self, number: u32, literals: &[i32]) -> Result<(), Refusal>
        ensures answer { result ≡ (if not (is_some (find_in (lines_of self.old) number)) && fits self.old (length literals.now) then Ok tt else Err Space) }
        ensures map { find_in (lines_of self.new) ≡ (if is_ok result then update nat_eq (find_in (lines_of self.old)) number (Some literals.now) else find_in (lines_of self.old)) }
        ensures lines { lines_of self.new ≡ (if is_ok result then insert_in number literals.now (lines_of self.old) else lines_of self.old) }
        ensures room { Roomy self.old self.new }
    {
        match self.seek(number) {
            Err(at) if self.has_room(literals.len()) => {
                self.insert(at, number, literals);
                Ok(())
            }
            _ => Err(Refusal::Space),
        }
    }

    /// Takes the line of a number away, if there is one.
    pub fn strike(&mut self, number: u32) -> Result<(), Refusal>
        ensures answer { result ≡ (if is_some (find_in (lines_of self.old) number) then Ok tt else Err Absent) }
        ensures map { find_in (lines_of self.new) ≡ update nat_eq (find_in (lines_of self.old)) number None }
        ensures lines { lines_of self.new ≡ remove_from number (lines_of self.old) }
        ensures room { Roomy self.old self.new }
    {
        let at = self.find(number).ok_or(Refusal::Absent)?;
        self.remove(at);
        Ok(())
    }
}
