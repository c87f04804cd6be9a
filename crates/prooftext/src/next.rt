ghost use Rattle.std.specs.Prelude.{◌≡◌};
ghost use Rattle.prooftext.specs.Rows.{rows};
ghost use Rattle.prooftext.specs.Readings.{state, Read, Reread};

use crate::item::Item;
use crate::lines::read_line;
use crate::reader::Reader;
use crate::rows::Rows;
use refusals::Refusal;

impl Reader<'_> {
    /// Reads the line that stands next into the rows, and moves on behind it. Past what was read the rows are 0, and after a
    /// refusal they are 0 throughout, and the reader stands where it stood.
    pub fn next(&mut self, literals: &mut [i32], numbers: &mut [u32]) -> Result<Item, Refusal>
        ensures text { self.new.text.now ≡ self.old.text.now }
        ensures read { Read self.old.text.now
            (state self.old.place (rows literals.old numbers.old)) result
            (state self.new.place (rows literals.new numbers.new)) }
        ensures again { Reread self.old.text.now
            (state self.old.place (rows literals.old numbers.old)) result
            (state self.new.place (rows literals.new numbers.new)) }
    {
        let mut rows = Rows { literals, numbers };
        rows.clear();
        if self.place >= self.text.len() {
            return Ok(Item::End);
        }
        let Some((item, rest)) = read_line(&self.text[self.place..], &mut rows) else {
            rows.clear();
            return Err(Refusal::Text);
        };
        if !rows.has_room(item) {
            rows.clear();
            return Err(Refusal::Buffer);
        }
        self.place = self.text.len() - rest.len();
        Ok(item)
    }
}
