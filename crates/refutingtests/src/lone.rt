ghost use Rattle.std.specs.Prelude.{◌≡◌};
ghost use Rattle.shelf.specs.Lines.{find};
ghost use Rattle.refutingtests.specs.Lone.{lines as lines_of, cost as cost_of};
ghost use Rattle.std.proofs.Common.{refl, ap, ◌∙◌};
ghost use Rattle.refutingtests.specs.Laws.{lone_costs, lone_rising};

use clauses::ClauseSource;
use refusals::Refusal;
use shelf::Shelf;

/// A shelf for one line of one literal.
#[derive(Default, Drop)]
pub struct Lone {
    // A number and a literal.
    line: Option<(u32, i32)>,
}

impl ClauseSource for Lone {
    ghost clauses = { λ x. find (lines_of x) };

    ghost steady = { λ x y. lines_of y ≡ lines_of x };

    ghost stays = { λ _. refl };

    ghost goes_on = { λ x y z p q. q ∙ p };

    ghost same = { λ _ _ p. ap find p };

    fn length(&mut self, number: u32) -> Option<usize> {
        match self.line {
            Some((kept, _)) if kept == number => Some(1),
            _ => None,
        }
    }

    fn literal(&mut self, number: u32, at: usize) -> Option<i32> {
        match self.line {
            Some((kept, literal)) if kept == number && at == 0 => Some(literal),
            _ => None,
        }
    }
}

impl Shelf for Lone {
    ghost lines = { lines_of };

    ghost capacity = { λ _. 1 };

    ghost cost = { cost_of };

    ghost costs_something = { lone_costs };

    ghost rising = { lone_rising };

    ghost shown = { λ _. refl };

    ghost lines_stay = { λ _ _ p. p };

    ghost capacity_stays = { λ _ _ _. refl };

    fn capacity(&self) -> usize {
        1
    }

    fn cost(length: u32) -> Option<u64> {
        (length == 1).then_some(1)
    }

    fn keep(&mut self, number: u32, literals: &[i32]) -> Result<(), Refusal> {
        match (self.line, literals) {
            (None, [literal]) => {
                self.line = Some((number, *literal));
                Ok(())
            }
            _ => Err(Refusal::Space),
        }
    }

    fn strike(&mut self, number: u32) -> Result<(), Refusal> {
        match self.line {
            Some((kept, _)) if kept == number => {
                self.line = None;
                Ok(())
            }
            _ => Err(Refusal::Absent),
        }
    }

    fn wipe(&mut self) {
        self.line = None;
    }
}
