ghost use Rattle.std.specs.Prelude.{◌≡◌, ℕ, ◌≤◌, true, length, Some};
ghost use Rattle.shelf.specs.Lines.{Lines, Costs, total, affords};
ghost use Rattle.store.specs.Rows.{literals_in};
ghost use Rattle.stored.specs.Rules.{priced, Holds};

/// What may be kept in all, and for how many lines and literals room is reserved.
#[derive(Clone, Copy, Drop)]
pub struct Room {
    pub capacity: usize,
    pub lines: usize,
    pub literals: usize,
}

/// A rule of keeping lines: what each costs, and what may be kept in all.
pub trait Rule {
    // What a line of a length costs, if it may be kept.
    ghost cost: { Costs };

    // What may be kept in all, of so many words.
    ghost capacity: { ℕ → ℕ };

    /// What a line of a length costs, if it may be kept.
    fn cost(length: u32) -> Option<u64>
        ensures { result ≡ cost length };

    /// What may be kept of so many words, and the room that the lines can take then.
    fn room(words: usize) -> Room
        ensures capacity { result.capacity ≡ capacity words }
        ensures enough { Holds cost result.capacity result.lines result.literals };

    /// Whether a line of a length can be kept beside so many lines of so many literals.
    // By numbers: a rule sees no lines.
    fn allows(limit: usize, lines: usize, literals: usize, size: usize) -> bool
        ensures { (xs : Lines) → priced cost xs ≡ true → lines ≡ length xs → literals ≡ literals_in xs → result ≡ affords limit (total cost xs) (cost size) };

    ghost costs_something: { (n k : ℕ) → cost n ≡ Some k → 1 ≤ k };

    ghost within_words: { (words : ℕ) → capacity words ≤ words };
}
