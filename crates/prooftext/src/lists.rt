ghost use Rattle.std.specs.Prelude.{◌≡◌, ◌↔◌, ℕ, List, pos, slice_set, MatchOption, IsTrue};
ghost use Rattle.std.specs.Fmt.{signed_decimal};
ghost use Rattle.decimals.specs.Decimals.{text_of};
ghost use Rattle.proofgrammar.specs.Grammar.{Number, Literal};
ghost use Rattle.proofgrammar.specs.Parts.{SmallNumber, SmallLiteral};
ghost use Rattle.proofgrammar.specs.Kinds.{Kind};
ghost use Rattle.proofgrammar.proofs.Words.{numbers, literals};
ghost use Rattle.proofwords.specs.Words.{NoWord, HasWord};
ghost use Rattle.prooftext.specs.Lists.{NoList, HasList};

use proofwords::{read_literal, read_number, skip};

/// A word of a list, or the 0 that ends it. The small ones can be read, and all of these but the end are good in a list.
pub(crate) trait Word: Copy {
    ghost written: { Self → List ℕ };

    ghost IsSmall: { Self → Type 0 };

    ghost IsGood: { Self → Type 0 };

    ghost end: { Self };

    ghost kind: { Kind written IsSmall IsGood end };

    /// The word that the text begins with, and the text behind it.
    fn read(text: &[u8]) -> Option<(Self, &[u8])>
        ensures { MatchOption result (NoWord written IsSmall text.now)
            (λ r. HasWord written IsSmall text.now r.0 r.1.now) };

    /// Whether it is the 0 that ends a list.
    fn is_end(self) -> bool
        ensures { IsTrue result ↔ self ≡ end };
}

impl Word for u32 {
    ghost written = { text_of };

    ghost IsSmall = { SmallNumber };

    ghost IsGood = { Number };

    ghost end = { 0 };

    ghost kind = { numbers };

    fn read(text: &[u8]) -> Option<(u32, &[u8])> {
        read_number(text)
    }

    fn is_end(self) -> bool {
        self == 0
    }
}

impl Word for i32 {
    ghost written = { signed_decimal };

    ghost IsSmall = { SmallLiteral };

    ghost IsGood = { Literal };

    ghost end = { pos 0 };

    ghost kind = { literals };

    fn read(text: &[u8]) -> Option<(i32, &[u8])> {
        read_literal(text)
    }

    fn is_end(self) -> bool {
        self == 0
    }
}

/// Writes the value into the row, unless the row ends before.
fn put<T: Copy>(row: &mut [T], place: usize, value: T)
    ensures { row.new ≡ slice_set row.old place value }
{
    // By index: nothing is promised of what a row ends as behind `get_mut`.
    if place < row.len() {
        row[place] = value;
    }
}

/// Reads words into the row, up to the 0 that ends them: how many they are, and the text behind the 0. What the row has no
/// room for is only counted.
pub(crate) fn read_list<'t, W: Word>(text: &'t [u8], row: &mut [W]) -> Option<(usize, &'t [u8])>
    ensures { MatchOption result (NoList W.written W.IsGood text.now)
        (λ r. HasList W.written W.IsGood text.now row.old row.new r.0 r.1.now) }
{
    // A word's length is known once it is read, and words that the row has no room for are counted all the same.
    let mut count = 0;
    let mut rest = text;
    'words: loop {
        let (word, behind) = W::read(rest)?;
        if word.is_end() {
            return Some((count, behind));
        }
        rest = skip(behind, b' ')?;
        put(row, count, word);
        count += 1;
    }
}
