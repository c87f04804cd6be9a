ghost use Rattle.std.specs.Prelude.{◌≡◌};
ghost use Rattle.std.proofs.Common.{◌∙◌, refl};
ghost use Rattle.shelf.specs.Premises.{of_formula, premises};
ghost use Rattle.shelf.specs.Pairs.{premises_same};

use crate::shelf::Shelf;
use clauses::ClauseSource;

/// The clauses that a hint can name: a formula's, numbered from 1 to their count, and under all other numbers a shelf's.
///
/// It holds both, and lends one of the two to each question.
#[derive(Drop)]
pub struct Premises<F: ClauseSource, S: Shelf> {
    pub formula: F,
    pub shelf: S,
    pub count: u32,
}

impl<F: ClauseSource, S: Shelf> Premises<F, S> {
    /// Does the number name a clause of the formula?
    pub fn in_formula(&self, number: u32) -> bool
        ensures { result ≡ of_formula self.now.count number }
    {
        (1..=self.count).contains(&number)
    }
}

impl<F: ClauseSource, S: Shelf> ClauseSource for Premises<F, S> {
    ghost clauses = { λ p. premises p.count (F.ClauseSource.clauses p.formula) (S.ClauseSource.clauses p.shelf) };

    ghost steady = { λ p q. (q.count ≡ p.count) × F.ClauseSource.steady p.formula q.formula × S.ClauseSource.steady p.shelf q.shelf };

    ghost stays = { λ p. (refl, F.ClauseSource.stays p.formula, S.ClauseSource.stays p.shelf) };

    ghost goes_on = { λ x y z p q. (
      q.0 ∙ p.0,
      F.ClauseSource.goes_on _ _ _ p.1 q.1,
      S.ClauseSource.goes_on _ _ _ p.2 q.2,
    ) };

    ghost same = { λ x y p. premises_same p.0 (F.ClauseSource.same _ _ p.1) (S.ClauseSource.same _ _ p.2) };

    // Each question by itself: formula and shelf are of two types.
    fn length(&mut self, number: u32) -> Option<usize> {
        if self.in_formula(number) {
            self.formula.length(number)
        } else {
            self.shelf.length(number)
        }
    }

    fn literal(&mut self, number: u32, at: usize) -> Option<i32> {
        if self.in_formula(number) {
            self.formula.literal(number, at)
        } else {
            self.shelf.literal(number, at)
        }
    }
}
