//! A shelf of slots for 32 literals.

#![tactic(auto)]

ghost use Rattle.std.specs.Prelude.{◌/◌};
ghost use Rattle.std.proofs.Math.Nat.{div-le_self};
ghost use Rattle.slots.specs.Laws.{slot_costs};
ghost use Rattle.slots.specs.Rule.{slot_cost};

use stored::{Room, Rule, Stored};

/// How many words a slot has: two, and one for each literal that it can hold.
const SLOT_WORDS: usize = 34;

/// The most literals of a line in a slot.
pub const MOST_LITERALS: usize = 32;

/// Slots of 32 literals: a line takes a slot, whatever its length up to 32, and a longer one is never kept.
pub type Slots = Stored<BySlots>;

/// The rule of slots.
pub struct BySlots;

impl Rule for BySlots {
    ghost cost = { slot_cost };

    ghost capacity = { λ words. words / 34 };

    ghost costs_something = { slot_costs };

    ghost within_words = { λ words. div-le_self words 34 };

    fn cost(length: u32) -> Option<u64> {
        (length as usize <= MOST_LITERALS).then_some(1)
    }

    fn room(words: usize) -> Room {
        let slots = words / SLOT_WORDS;
        Room {
            capacity: slots,
            lines: slots,
            literals: MOST_LITERALS * slots,
        }
    }

    fn allows(limit: usize, lines: usize, _literals: usize, size: usize) -> bool {
        size <= MOST_LITERALS && lines < limit
    }
}
