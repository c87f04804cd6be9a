//! Theorems: a refuting list that fits is accepted whole, and the lines kept follow from the formula.
//!
//! Each function's contract is its theorem; the functions themselves do nothing.

#![tactic(auto)]

ghost use Rattle.acceptance.specs.Claims.{TakenWhole, OnlyRefuting, StrikeFrees, RefusalsChangeNothing, KeptAtStart, KeptStays, KeptLinesFollow};
ghost use Rattle.acceptance.specs.Examples.{Tried};

/// With a mark lent for each variable, a refuting list is accepted, item by item, if the numbers in it fit into 32 bits with a
/// sign and its lines have room: each has a cost, and the lines not yet struck cost together at most the capacity. Of the lists
/// that end with their one empty line and strike no clause of the formula, only such a list is accepted whole. A line that is
/// struck frees its cost.
pub fn taken_whole()
    ensures whole { TakenWhole }
    ensures only { OnlyRefuting }
    ensures freed { StrikeFrees }
{}

/// A line or a strike that is refused leaves the last number and the lines kept as they were.
pub fn refusals_change_nothing()
    ensures { RefusalsChangeNothing }
{}

/// Whatever lines and strikes have been judged, accepted or refused, with any number of marks: a valuation that satisfies the
/// formula satisfies every line kept, and if an empty line was accepted, no valuation satisfies the formula. The lines kept have
/// literals of the variables 1 to V, rising numbers above the formula's, and cost at most the capacity.
pub fn kept_lines_follow()
    ensures start { KeptAtStart }
    ensures step { KeptStays }
    ensures list { KeptLinesFollow }
{}

/// A formula of four clauses over two variables, refuted by three lines and a strike: the list is accepted whole with room for
/// two lines, and not with room for one. Also a list of mistakes, each refused for its reason.
pub fn tried()
    ensures { Tried }
{}
