ghost use Rattle.std.specs.Prelude.{◌≡◌, Some, None, MatchResult};
ghost use Rattle.std.specs.Result.{result_err};
ghost use Rattle.refusals.specs.declared.Failure.TheVariants.{Refused};
ghost use Rattle.gates.specs.Gates.{named};
ghost use Rattle.boards.specs.Sheets.{drawn, sheet, sheet_of, closing};

use crate::board::Board;
use crate::drawing::Drawing;
use gates::Gate;
use refusals::{Failure, Refusal};

/// The largest depth that a board may have.
pub const MOST_DEPTH: u8 = 8;

/// A drawing that was not closed, as it was, and why.
#[derive(Drop)]
pub struct Unclosed {
    pub drawing: Drawing,
    pub refusal: Refusal,
}

impl From<Unclosed> for Refusal {
    ghost from_gives = { λ u r. r ≡ u.refusal };

    fn from(unclosed: Unclosed) -> Refusal {
        unclosed.refusal
    }
}

impl From<Unclosed> for Failure {
    ghost from_gives = { λ u r. r ≡ Refused u.refusal };

    fn from(unclosed: Unclosed) -> Failure {
        Failure::Refused(unclosed.refusal)
    }
}

fn all_name_below(gates: &[Gate], wires: usize) -> bool
    ensures { result ≡ named wires gates.now }
{
    gates.iter().all(|gate| gate.names_below(wires))
}

impl Drawing {
    /// Whether the drawing can be closed with this property wire and depth, and if not, why.
    pub fn check_close(&self, property: u8, depth: u8) -> Result<(), Refusal>
        ensures { result_err result ≡ closing (sheet_of (drawn self.now) property depth) }
    {
        if !(1..=MOST_DEPTH).contains(&depth) {
            return Err(Refusal::Depth);
        }
        let wires = self.gates.len();
        if usize::from(property) >= wires || !all_name_below(&self.gates, wires) {
            return Err(Refusal::Wire);
        }
        Ok(())
    }

    /// Closes the drawing into a board, or hands it back.
    // Two numbers: a caller may have them from anywhere, and a gate file has them side by side.
    pub fn close(self, property: u8, depth: u8) -> Result<Board, Unclosed>
        ensures { MatchResult result
            (λ b. (closing (sheet_of (drawn self) property depth) ≡ None) × (sheet b ≡ sheet_of (drawn self) property depth))
            (λ u. (closing (sheet_of (drawn self) property depth) ≡ Some u.refusal) × (drawn u.drawing ≡ drawn self)) }
    {
        if let Err(refusal) = self.check_close(property, depth) {
            return Err(Unclosed {
                drawing: self,
                refusal,
            });
        }
        let Drawing { gates } = self;
        Ok(Board {
            gates,
            property,
            depth,
        })
    }
}
