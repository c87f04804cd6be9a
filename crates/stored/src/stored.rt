ghost use Rattle.std.specs.Prelude.{◌≡◌, ◌≤◌, true, [], IfOk};
ghost use Rattle.shelf.specs.Lines.{find, total, affords};
ghost use Rattle.store.specs.Words.{counted};
ghost use Rattle.store.specs.Stores.{lines_of, line_room, literal_room};
ghost use Rattle.stored.specs.Rules.{priced, Holds};
ghost use Rattle.std.proofs.Common.{refl, ap, ◌∙◌};
ghost use Rattle.store.proofs.Places.{rising_from_rises};

use crate::rule::Rule;
use clauses::ClauseSource;
use refusals::Refusal;
use shelf::Shelf;
use std::alloc::{AllocError, Global};
use std::marker::PhantomData;
use store::{MOST_WORDS, Store};

/// A shelf that keeps its lines in a store, by a rule.
#[derive(Drop)]
pub struct Stored<R: Rule> {
    store: Store,
    limit: usize,
    rule: PhantomData<R>,
    ghost few: { limit ≤ 1048576 },
    ghost each: { priced R.cost (lines_of store) ≡ true },
    ghost within: { total R.cost (lines_of store) ≤ limit },
    ghost roomy: { Holds R.cost limit (line_room store) (literal_room store) },
}

impl<R: Rule> Stored<R> {
    /// An empty shelf of so many words. Only this call can fail for want of memory.
    pub fn new(heap: Global, words: usize) -> Result<Stored<R>, AllocError>
        ensures { IfOk result (λ s. (lines_of s.store ≡ []) × (s.limit ≡ R.capacity (counted words))) }
    {
        let room = R::room(words.min(MOST_WORDS));
        let store = Store::new(heap, room.lines, room.literals)?;
        Ok(Stored {
            store,
            limit: room.capacity,
            rule: PhantomData,
        })
    }

    /// Whether a line of a length can be kept beside those that are.
    fn has_room(&self, length: usize) -> bool
        ensures { result ≡ affords self.now.limit (total R.cost (lines_of self.now.store)) (R.cost length) }
    {
        R::allows(
            self.capacity(),
            self.store.lines(),
            self.store.literals(),
            length,
        )
    }
}

impl<R: Rule> ClauseSource for Stored<R> {
    ghost clauses = { λ s. find (lines_of s.store) };

    ghost steady = { λ s t. (lines_of t.store ≡ lines_of s.store) × (t.limit ≡ s.limit) };

    ghost stays = { λ _. (refl, refl) };

    ghost goes_on = { λ x y z p q. (q.0 ∙ p.0, q.1 ∙ p.1) };

    ghost same = { λ _ _ p. ap find p.0 };

    fn length(&mut self, number: u32) -> Option<usize> {
        self.store.length(number)
    }

    fn literal(&mut self, number: u32, at: usize) -> Option<i32> {
        self.store.literal(number, at)
    }
}

impl<R: Rule> Shelf for Stored<R> {
    ghost lines = { λ s. lines_of s.store };

    ghost capacity = { λ s. s.limit };

    ghost cost = { R.cost };

    ghost costs_something = { R.costs_something };

    ghost rising = { λ x. rising_from_rises (lines_of x.store) x.store.rising };

    ghost shown = { λ _. refl };

    ghost lines_stay = { λ _ _ p. p.0 };

    ghost capacity_stays = { λ _ _ p. p.1 };

    fn capacity(&self) -> usize {
        self.limit
    }

    fn cost(length: u32) -> Option<u64> {
        R::cost(length)
    }

    fn keep(&mut self, number: u32, literals: &[i32]) -> Result<(), Refusal> {
        if !self.has_room(literals.len()) {
            return Err(Refusal::Space);
        }
        self.store.keep(number, literals)
    }

    fn strike(&mut self, number: u32) -> Result<(), Refusal> {
        self.store.strike(number)
    }

    fn wipe(&mut self) {
        self.store.clear();
    }
}
