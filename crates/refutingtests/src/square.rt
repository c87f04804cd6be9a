ghost use Rattle.refutingtests.specs.Square.{square};
ghost use Rattle.std.proofs.Common.{refl};

use clauses::ClauseSource;

/// The four clauses over two variables, which nothing satisfies.
#[derive(Drop)]
pub struct Square {
    // How many questions were asked.
    asked: u32,
}

impl Square {
    pub fn new() -> Square {
        Square { asked: 0 }
    }

    pub fn asked(&self) -> u32 {
        self.asked
    }
}

impl ClauseSource for Square {
    ghost clauses = { λ _. square };

    ghost steady = { λ _ _. Unit {0} };

    ghost stays = { λ _. tt };

    ghost goes_on = { λ _ _ _ _ _. tt };

    ghost same = { λ _ _ _. refl };

    fn length(&mut self, number: u32) -> Option<usize> {
        self.asked = self.asked.saturating_add(1);
        match number {
            1..=4 => Some(2),
            _ => None,
        }
    }

    fn literal(&mut self, number: u32, at: usize) -> Option<i32> {
        self.asked = self.asked.saturating_add(1);
        match (number, at) {
            (1 | 3, 0) => Some(1),
            (2 | 4, 0) => Some(-1),
            (1 | 2, 1) => Some(2),
            (3 | 4, 1) => Some(-2),
            _ => None,
        }
    }
}
