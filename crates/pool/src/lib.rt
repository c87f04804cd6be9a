//! A shelf that is a pool of words.

#![tactic(auto)]

ghost use Rattle.std.proofs.Common.{le_refl};
ghost use Rattle.pool.specs.Laws.{pool_costs};
ghost use Rattle.pool.specs.Rule.{pool_cost};

use stored::{Room, Rule, Stored};

/// A pool of words: a line takes a word for each literal, and two more.
///
/// What a line that is struck took can be taken by any other: the lines behind it move up.
pub type Pool = Stored<ByWords>;

/// The rule of a pool.
pub struct ByWords;

impl Rule for ByWords {
    ghost cost = { pool_cost };

    ghost capacity = { λ words. words };

    ghost costs_something = { pool_costs };

    ghost within_words = { le_refl };

    fn cost(length: u32) -> Option<u64> {
        Some(u64::from(length) + 2)
    }

    fn room(words: usize) -> Room {
        Room {
            capacity: words,
            lines: words / 2,
            literals: words,
        }
    }

    fn allows(limit: usize, lines: usize, literals: usize, size: usize) -> bool {
        // Where the sum is cut off at the largest number, nothing is free either way.
        let free = limit.saturating_sub(literals.saturating_add(lines.saturating_mul(2)));
        2 <= free && size <= free - 2
    }
}
