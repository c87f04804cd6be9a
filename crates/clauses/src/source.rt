ghost use Rattle.std.specs.Prelude.{◌≡◌, ℕ, Option};
ghost use Rattle.clauses.specs.Clauses.{Clause, length_of, clause_literal};

/// Clauses that can be asked for by their numbers.
///
/// A question takes `&mut self`, since a source may keep a memo of what it was last asked. It changes nothing that the source
/// means: every question leaves a source with the same clauses.
pub trait ClauseSource {
    // The clause of each number, where there is one.
    ghost clauses: { Self → ℕ → Option Clause };

    // The second source came from the first by questions alone.
    ghost steady: { Self → Self → Type 0 };

    /// How many literals the clause of a number has, if there is one.
    fn length(&mut self, number: u32) -> Option<usize>
        ensures answer { result ≡ length_of (clauses self.old number) }
        ensures steady { steady self.old self.new };

    /// The literal at a place of the clause of a number, if there is one. Places count from 0.
    fn literal(&mut self, number: u32, at: usize) -> Option<i32>
        ensures answer { result ≡ clause_literal (clauses self.old number) at }
        ensures steady { steady self.old self.new };

    ghost stays: { (x : Self) → steady x x };

    ghost goes_on: { (x y z : Self) → steady x y → steady y z → steady x z };

    ghost same: { (x y : Self) → steady x y → clauses y ≡ clauses x };
}
