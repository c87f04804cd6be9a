ghost use Rattle.std.specs.Prelude.{◌≡◌, ℕ, ◌≤◌, [], is_some, is_ok, if◌then◌else◌, Some, None, Ok, Err, Option, nat_eq};
ghost use Rattle.std.specs.Map.{update};
ghost use Rattle.refusals.specs.declared.Refusal.TheVariants.{Space, Absent};
ghost use Rattle.shelf.specs.Lines.{Lines, Rising, find, insert, remove, keeps};

use clauses::ClauseSource;
use refusals::Refusal;

/// A shelf: a clause source that also keeps lines, strikes and wipes them.
///
/// It has a fixed capacity, and for each length of a line a fixed cost, or none: a line of such a length is never kept.
pub trait Shelf: ClauseSource {
    // The lines kept.
    ghost lines: { Self → Lines };

    ghost capacity: { Self → ℕ };

    ghost cost: { ℕ → Option ℕ };

    /// What may be kept in all.
    // That it stays relates a shelf before and after a call, so each call that changes lines says it.
    fn capacity(&self) -> usize
        ensures { result ≡ capacity self.now };

    /// What a line of a length costs, if it may be kept.
    fn cost(length: u32) -> Option<u64>
        ensures { result ≡ cost length };

    /// Keeps a line, if there is room for it.
    fn keep(&mut self, number: u32, literals: &[i32]) -> Result<(), Refusal>
        ensures answer { result ≡ (if keeps (capacity self.old) cost (lines self.old) number literals.now then Ok tt else Err Space) }
        ensures map { Self.ClauseSource.clauses self.new ≡ (if is_ok result then update nat_eq (Self.ClauseSource.clauses self.old) number (Some literals.now) else Self.ClauseSource.clauses self.old) }
        ensures lines { lines self.new ≡ (if is_ok result then insert number literals.now (lines self.old) else lines self.old) }
        ensures capacity { capacity self.new ≡ capacity self.old };

    /// Takes the line of a number away, if there is one.
    fn strike(&mut self, number: u32) -> Result<(), Refusal>
        ensures answer { result ≡ (if is_some (Self.ClauseSource.clauses self.old number) then Ok tt else Err Absent) }
        ensures map { Self.ClauseSource.clauses self.new ≡ update nat_eq (Self.ClauseSource.clauses self.old) number None }
        ensures lines { lines self.new ≡ remove number (lines self.old) }
        ensures capacity { capacity self.new ≡ capacity self.old };

    /// Takes all lines away.
    fn wipe(&mut self)
        ensures map { Self.ClauseSource.clauses self.new ≡ (λ _. None) }
        ensures lines { lines self.new ≡ [] }
        ensures capacity { capacity self.new ≡ capacity self.old };

    ghost costs_something: { (length k : ℕ) → cost length ≡ Some k → 1 ≤ k };

    ghost rising: { (x : Self) → Rising (lines x) };

    // The clauses of the source are the lines kept.
    ghost shown: { (x : Self) → Self.ClauseSource.clauses x ≡ find (lines x) };

    // A question changes neither.
    ghost lines_stay: { (x y : Self) → Self.ClauseSource.steady x y → lines y ≡ lines x };

    ghost capacity_stays: { (x y : Self) → Self.ClauseSource.steady x y → capacity y ≡ capacity x };
}
