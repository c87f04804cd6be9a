ghost use Rattle.boards.specs.Sheets.{sheet};
ghost use Rattle.sources.specs.Rows.{Row};

use crate::rows::Before;
use boards::Board;
use formulas::FormulaKind;

/// A formula of a board, for a depth of d.
///
/// What stands before each wire in a frame, and before the end, is counted once.
// No model: proofs about the text of a formula read its board and its kind.
#[derive(Drop)]
pub struct Formula {
    pub(crate) board: Board,
    pub(crate) kind: FormulaKind,
    // An array for the most wires that a board can have: making a formula cannot fail for want of memory.
    pub(crate) before: [Before; 257],
    ghost counted: { Row before (sheet board).gates },
}
