ghost use Rattle.std.specs.Prelude.{◌≡◌, ℕ};
ghost use Rattle.values.specs.Kinds.{Kind, Lawful};

/// A kind of value that a wire can have: an undefined value, 0 and 1, five gates, an order and ranks.
///
/// The laws make the rounds of a frame end in the least solution.
pub trait ValueKind: Copy + PartialEq {
    /// No rank is larger.
    const HEIGHT: usize;

    // the constant, as the laws name it
    ghost HEIGHT: { ℕ };

    // The gates are methods and no operators: `implies` has none, and the laws name the five together.

    // the values, gates, order and ranks that the functions below answer by
    ghost meaning: { Kind Self };

    fn undefined() -> Self
        ensures { result ≡ meaning.undefined };

    fn zero() -> Self
        ensures { result ≡ meaning.zero };

    fn one() -> Self
        ensures { result ≡ meaning.one };

    fn not(self) -> Self
        ensures { result ≡ meaning.not self };

    fn and(self, other: Self) -> Self
        ensures { result ≡ meaning.and self other };

    fn or(self, other: Self) -> Self
        ensures { result ≡ meaning.or self other };

    fn implies(self, other: Self) -> Self
        ensures { result ≡ meaning.implies self other };

    fn xor(self, other: Self) -> Self
        ensures { result ≡ meaning.xor self other };

    ghost height_agrees: { HEIGHT ≡ meaning.height };

    // `==` is the kind's test for equality
    ghost eq_agrees: { (x y : Self) → Self.eq x y ≡ meaning.same x y };

    ghost lawful: { Lawful meaning };
}
