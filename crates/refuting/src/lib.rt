//! A refutation under way: lines and strikes, judged one after the other.

#![tactic(auto)]

ghost use Rattle.std.specs.Prelude.{◌≡◌, [], length};
ghost use Rattle.hints.specs.Bytes.{cleared};
ghost use Rattle.refuting.specs.Claims.{Holds};
ghost use Rattle.refuting.specs.Judging.{terms, known, progress, take_line, judge_line, judge_strike};
ghost use Rattle.refuting.specs.States.{terms_of, progress_of};

use clauses::ClauseSource;
use hints::{check_line, clear};
use refusals::Refusal;
use shelf::{Premises, Shelf};

/// The highest number that a line may have.
const HIGHEST: u32 = i32::MAX as u32;

/// A formula that is being refuted, with the lines kept so far.
///
/// The numbers of its lines rise: each is above the last one, which is at first the number of the formula's clauses.
#[derive(Drop)]
pub struct Refutation<F: ClauseSource, S: Shelf> {
    premises: Premises<F, S>,
    variables: usize,
    last: u32,
}

// Each clause names the members of F and S: a model would have to be data, and the terms hold maps, of clauses and of costs.
impl<F: ClauseSource, S: Shelf> Refutation<F, S> {
    /// Begins to refute a formula of so many clauses and variables. The shelf is wiped.
    // The counts beside the formula: a source does not say how many clauses it has.
    pub fn new(formula: F, count: u32, variables: usize, mut shelf: S) -> Refutation<F, S>
        ensures terms { terms_of F.ClauseSource.clauses S.Shelf.capacity S.Shelf.cost result ≡ terms variables count (F.ClauseSource.clauses formula) (S.Shelf.capacity shelf) S.Shelf.cost }
        ensures progress { progress_of S.Shelf.lines result ≡ progress count [] }
        ensures formula { result.premises.formula ≡ formula }
    {
        shelf.wipe();
        Refutation {
            premises: Premises {
                formula,
                shelf,
                count,
            },
            variables,
            last: count,
        }
    }

    /// Takes the next line, if its number is above the last one and it follows by its hints. It is kept if it has literals.
    /// Then every valuation that satisfies the formula's clauses and the lines kept satisfies this line too.
    ///
    /// The marks are lent, one byte for each variable, whatever they hold. Where there are enough, they are 0 afterwards,
    /// whatever the answer; where there are fewer, they are left as they are.
    // The parts of a line come one by one: a caller who reads them from a text lends a row of its own for each.
    pub fn line(
        &mut self,
        marks: &mut [u8],
        number: u32,
        literals: &[i32],
        hints: &[u32],
    ) -> Result<(), Refusal>
        ensures judged { (result, progress_of S.Shelf.lines self.new) ≡ judge_line (terms_of F.ClauseSource.clauses S.Shelf.capacity S.Shelf.cost self.old) (progress_of S.Shelf.lines self.old) (length marks.old) number literals.now hints.now }
        ensures terms { terms_of F.ClauseSource.clauses S.Shelf.capacity S.Shelf.cost self.new ≡ terms_of F.ClauseSource.clauses S.Shelf.capacity S.Shelf.cost self.old }
        ensures holds { Holds result (known (terms_of F.ClauseSource.clauses S.Shelf.capacity S.Shelf.cost self.old) (S.Shelf.lines self.old.premises.shelf)) literals.now }
        ensures formula { F.ClauseSource.steady self.old.premises.formula self.new.premises.formula }
        ensures marks { marks.new ≡ cleared self.old.variables marks.old }
    {
        if number <= self.last || number > HIGHEST {
            // Short marks are refused before the number.
            clear(marks, self.variables)?;
            return Err(Refusal::Number);
        }
        check_line(&mut self.premises, marks, self.variables, literals, hints)?;
        self.take(number, literals)
    }

    /// Takes a line that follows: it is kept if it has literals, and its number is the last one then.
    fn take(&mut self, number: u32, literals: &[i32]) -> Result<(), Refusal>
        ensures judged { (result, progress_of S.Shelf.lines self.new) ≡ take_line (terms_of F.ClauseSource.clauses S.Shelf.capacity S.Shelf.cost self.old) (progress_of S.Shelf.lines self.old) number literals.now }
        ensures terms { terms_of F.ClauseSource.clauses S.Shelf.capacity S.Shelf.cost self.new ≡ terms_of F.ClauseSource.clauses S.Shelf.capacity S.Shelf.cost self.old }
        ensures formula { self.new.premises.formula ≡ self.old.premises.formula }
    {
        if !literals.is_empty() {
            self.premises.shelf.keep(number, literals)?;
        }
        self.last = number;
        Ok(())
    }

    /// Takes the line of a number away, if there is one. A clause of the formula is never taken away.
    pub fn strike(&mut self, number: u32) -> Result<(), Refusal>
        ensures judged { (result, progress_of S.Shelf.lines self.new) ≡ judge_strike (terms_of F.ClauseSource.clauses S.Shelf.capacity S.Shelf.cost self.old) (progress_of S.Shelf.lines self.old) number }
        ensures terms { terms_of F.ClauseSource.clauses S.Shelf.capacity S.Shelf.cost self.new ≡ terms_of F.ClauseSource.clauses S.Shelf.capacity S.Shelf.cost self.old }
        ensures formula { self.new.premises.formula ≡ self.old.premises.formula }
    {
        if self.premises.in_formula(number) {
            return Ok(());
        }
        self.premises.shelf.strike(number)
    }

    /// The number of the last line, or of the formula's clauses where there is none.
    pub fn last(&self) -> u32
        ensures { result ≡ (progress_of S.Shelf.lines self.now).last }
    {
        self.last
    }

    /// How many variables the formula has.
    pub fn variables(&self) -> usize
        ensures { result ≡ self.now.variables }
    {
        self.variables
    }

    /// How many clauses the formula has.
    pub fn count(&self) -> u32
        ensures { result ≡ self.now.premises.count }
    {
        self.premises.count
    }

    /// The formula and the shelf, for another refutation.
    pub fn into_parts(self) -> (F, S)
        ensures { result ≡ (self.premises.formula, self.premises.shelf) }
    {
        let Refutation {
            premises: Premises {
                formula,
                shelf,
                count: _,
            },
            variables: _,
            last: _,
        } = self;
        (formula, shelf)
    }
}
