ghost use Rattle.std.specs.Prelude.{◌≡◌, length, replicate, pos};
ghost use Rattle.proofgrammar.specs.Grammar.{Entry};
ghost use Rattle.prooftext.specs.Items.{answer_of};
ghost use Rattle.prooftext.specs.Readings.{fits_in};
ghost use Rattle.prooftext.specs.Lent.{SameRows};

use crate::item::Item;

/// The two rows that a line is read into.
#[derive(Drop)]
pub(crate) struct Rows<'a> {
    pub(crate) literals: &'a mut [i32],
    pub(crate) numbers: &'a mut [u32],
}

impl Rows<'_> {
    // That the lent rows are kept relates them before and after a call, so each call says it.

    /// Fills both rows with 0.
    pub(crate) fn clear(&mut self)
        ensures same { SameRows self.old self.new }
        ensures literals { self.new.literals.now ≡ replicate (length self.old.literals.now) (pos 0) }
        ensures numbers { self.new.numbers.now ≡ replicate (length self.old.numbers.now) 0 }
    {
        self.literals.fill(0);
        self.numbers.fill(0);
    }

    /// Whether the rows have room for what was read.
    pub(crate) fn has_room(&self, item: Item) -> bool
        ensures { (i : Entry) → answer_of i ≡ item
            → result ≡ fits_in i (length self.now.literals.now) (length self.now.numbers.now) }
    {
        match item {
            Item::Line {
                literals,
                hints,
                ..
            } => literals <= self.literals.len() && hints <= self.numbers.len(),
            Item::Strike { count } => count <= self.numbers.len(),
            Item::End => true,
        }
    }
}
