//! Small boards worked out by the definitions: the values of their frames, which frames are bad, the numbers of rounds, and the formulas.

#![tactic(auto)]

ghost use Rattle.worked.specs.Worked.{BoardsWorked};

/// The table of worked boards stands.
pub fn boards_worked()
    ensures { BoardsWorked }
{}
