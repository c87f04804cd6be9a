ghost use Rattle.std.specs.Prelude.{◌≡◌, ◌^◌, ◌<◌, bit_and};

pub mod kind;

/// 64 single values side by side, on two words.
///
/// Bit k of `zeros` is rail 0 of lane k, and bit k of `ones` is its rail 1. No lane has both rails up.
#[derive(Clone, Copy, PartialEq, Eq, Debug)]
pub struct Lanes {
    zeros: u64,
    ones: u64,
    ghost words: { (zeros < 2 ^ 64) × (ones < 2 ^ 64) },
    ghost apart: { bit_and zeros ones ≡ 0 },
}
