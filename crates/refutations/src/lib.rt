//! Theorems: what follows by hints holds, and a formula that nothing satisfies has a refuting list.
//!
//! Each function's contract is its theorem; the functions themselves do nothing.

#![tactic(auto)]

ghost use Rattle.refutations.specs.Claims.{Sound, RefutedIffListed};
ghost use Rattle.refutations.specs.Words.{MarksInWords, LineInWords, ReadingInWords, HintsInWords};

/// A line that follows by its hints from some clauses is true under every valuation that makes these clauses true.
pub fn sound()
    ensures { Sound }
{}

/// A formula over the variables 1 to V is unsatisfiable exactly when there is a refuting list for it.
pub fn refuted_iff_listed()
    ensures { RefutedIffListed }
{}

/// The hint rule in words.
///
/// To make a literal true or false changes its variable alone. A line follows at once exactly if it has a literal and its
/// negative; else its literals are false at first, and no others. Under the marks a clause is in conflict exactly if all its
/// literals are false; it forces a literal exactly if that is its one unset literal, perhaps repeated, and the others are false;
/// else it is slack. Hints are taken exactly if one of them, after others that force, is in conflict; else the answer tells what
/// the first is that does not force, or that all do.
pub fn rule_in_words()
    ensures marks { MarksInWords }
    ensures line { LineInWords }
    ensures reading { ReadingInWords }
    ensures hints { HintsInWords }
{}
