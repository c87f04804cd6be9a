//! What a call refuses, as one list for the whole project.

#![tactic(auto)]

ghost use Rattle.std.specs.Prelude.{◌≡◌, Some};
ghost use Rattle.refusals.specs.Numbers.{number as number_of};
ghost use Rattle.refusals.specs.Words.{words as words_of, failure_words};
ghost use Rattle.refusals.specs.declared.Failure.TheVariants.{Refused as RefusedBy, Memory};

use std::alloc::{AllocError, AllocFailed};
use std::error::Error;
use std::fmt;

/// Why a call was refused. A refused call leaves everything as it was.
///
/// Numbers 1 to 7 are about what was handed in, 11 to 18 about where the case stands.
#[derive(Clone, Copy, PartialEq, Eq, Debug)]
pub enum Refusal {
    /// Not exactly one record, or a gate file of another form.
    Record = 1,
    /// A depth that is not 1 to 8.
    Depth = 2,
    /// The property or a named wire that is not below the number of wires.
    Wire = 3,
    /// A literal that is 0 or names no variable.
    Literal = 4,
    /// A valuation, or rows of inputs, that are not exactly one byte of 0 or 1 for each variable or input.
    Valuation = 5,
    /// Any other buffer that is shorter than needed.
    Buffer = 6,
    /// A text that does not begin with one proof line.
    Text = 7,
    /// A call that the stage does not take.
    Stage = 11,
    /// A 257th wire.
    Full = 12,
    /// A line number that is not above the last, or too large.
    Number = 13,
    /// A hint or a strike that names no clause.
    Absent = 14,
    /// A hint that neither conflicts nor forces one literal.
    Slack = 15,
    /// Hints that end without a conflict.
    Loose = 16,
    /// A line for which the shelf has no room.
    Space = 17,
    /// A valuation under which some clause has no true literal.
    Fails = 18,
}

impl Refusal {
    /// The number by which programs tell the refusal.
    pub fn number(self) -> u8
        ensures { result ≡ number_of self }
    {
        self as u8
    }

    /// What was refused, in words.
    // As `&'static str`, for callers without a formatter; `Display` writes it.
    pub fn words(self) -> &'static str
        ensures { result.now ≡ words_of self }
    {
        match self {
            Refusal::Record => "not exactly one record, or a gate file of another form",
            Refusal::Depth => "the depth is not 1 to 8",
            Refusal::Wire => "the property or a named wire is not below the number of wires",
            Refusal::Literal => "a literal is 0 or names no variable",
            Refusal::Valuation => "not exactly one byte of 0 or 1 for each variable or input",
            Refusal::Buffer => "a buffer is shorter than needed",
            Refusal::Text => "the text does not begin with one proof line",
            Refusal::Stage => "the stage does not take this call",
            Refusal::Full => "the board has 256 wires already",
            Refusal::Number => "the line's number is not above the last, or above 2147483647",
            Refusal::Absent => "there is no clause of that number",
            Refusal::Slack => "a hint neither conflicts nor forces one literal",
            Refusal::Loose => "the hints end without a conflict",
            Refusal::Space => "the shelf has no room for the line",
            Refusal::Fails => "some clause has no true literal",
        }
    }
}

impl fmt::Display for Refusal {
    ghost output = { λ x. Some (words_of x) };

    fn fmt<W: fmt::Write>(&self, f: &mut fmt::Formatter<W>) -> fmt::Result {
        f.write_str(self.words())
    }
}

impl Error for Refusal {}

/// Why a call that allocates did not succeed.
// No `Option`: want of memory is a failure with words of its own.
#[derive(Clone, Copy, PartialEq, Eq, Debug)]
pub enum Failure {
    Refused(Refusal),
    /// There was no memory for it.
    Memory,
}

impl Failure {
    /// What failed, in words.
    // As `&'static str`, as a refusal's.
    pub fn words(self) -> &'static str
        ensures { result.now ≡ failure_words self }
    {
        match self {
            Failure::Refused(refusal) => refusal.words(),
            Failure::Memory => "there is no memory for it",
        }
    }
}

impl From<Refusal> for Failure {
    ghost from_gives = { λ e r. r ≡ RefusedBy e };

    fn from(refusal: Refusal) -> Failure {
        Failure::Refused(refusal)
    }
}

impl From<AllocError> for Failure {
    ghost from_gives = { λ _ r. r ≡ Memory };

    fn from(_error: AllocError) -> Failure {
        Failure::Memory
    }
}

impl<T: Drop> From<AllocFailed<T>> for Failure {
    ghost from_gives = { λ _ r. r ≡ Memory };

    fn from(_error: AllocFailed<T>) -> Failure {
        Failure::Memory
    }
}

impl fmt::Display for Failure {
    ghost output = { λ x. Some (failure_words x) };

    fn fmt<W: fmt::Write>(&self, f: &mut fmt::Formatter<W>) -> fmt::Result {
        f.write_str(self.words())
    }
}

impl Error for Failure {}
