ghost use Rattle.std.specs.Prelude.{◌≡◌, refl};
ghost use Rattle.values.specs.Words.{bit};
ghost use Rattle.values.specs.Lanes.{lane, read, by_lane, lanes, Lanewise};
ghost use Rattle.values.specs.LaneLaws.{lanes_lawful};

use crate::kind::ValueKind;
use crate::lanes::Lanes;
use crate::single::Value;

// Whether a bit of a word is 1. From bit 64 on none is.
fn up(word: u64, at: u32) -> bool
    ensures { result ≡ bit at word }
{
    at < 64 && (word >> at) & 1 == 1
}

impl Lanes {
    /// The lanes whose rails are the bits of two words, where a lane with both rails up is read as undefined.
    pub fn new(zeros: u64, ones: u64) -> Lanes
        ensures { result ≡ by_lane (λ k. read (bit k zeros) (bit k ones)) }
    {
        let both = zeros & ones;
        Lanes {
            zeros: zeros ^ both,
            ones: ones ^ both,
        }
    }

    /// The word of the rails 0.
    pub fn zeros(self) -> u64
        ensures { result ≡ self.zeros }
    {
        self.zeros
    }

    /// The word of the rails 1.
    pub fn ones(self) -> u64
        ensures { result ≡ self.ones }
    {
        self.ones
    }

    /// The value of one lane. From 64 on it is undefined.
    pub fn lane(self, at: u32) -> Value
        ensures { result ≡ lane at self }
    {
        match (up(self.zeros, at), up(self.ones, at)) {
            (true, _) => Value::Zero,
            (false, true) => Value::One,
            (false, false) => Value::Undefined,
        }
    }

    /// One value in each lane.
    // Named as SIMD types name it; `From<Value>` would not say that the value is repeated.
    pub fn splat(value: Value) -> Lanes
        ensures { result ≡ by_lane (λ k. value) }
    {
        match value {
            Value::Undefined => Lanes { zeros: 0, ones: 0 },
            Value::Zero => Lanes {
                zeros: u64::MAX,
                ones: 0,
            },
            Value::One => Lanes {
                zeros: 0,
                ones: u64::MAX,
            },
        }
    }
}

impl ValueKind for Lanes {
    const HEIGHT: usize = 64;

    ghost HEIGHT = { 64 };

    ghost meaning = { lanes };

    ghost height_agrees = { refl };

    ghost eq_agrees = { λ _ _. refl };

    ghost lawful = { lanes_lawful };

    fn undefined() -> Lanes {
        Lanes::splat(Value::Undefined)
    }

    fn zero() -> Lanes {
        Lanes::splat(Value::Zero)
    }

    fn one() -> Lanes {
        Lanes::splat(Value::One)
    }

    fn not(self) -> Lanes {
        Lanes {
            zeros: self.ones,
            ones: self.zeros,
        }
    }

    fn and(self, other: Lanes) -> Lanes {
        Lanes {
            zeros: self.zeros | other.zeros,
            ones: self.ones & other.ones,
        }
    }

    fn or(self, other: Lanes) -> Lanes {
        Lanes {
            zeros: self.zeros & other.zeros,
            ones: self.ones | other.ones,
        }
    }

    fn implies(self, other: Lanes) -> Lanes {
        Lanes {
            zeros: self.ones & other.zeros,
            ones: self.zeros | other.ones,
        }
    }

    fn xor(self, other: Lanes) -> Lanes {
        Lanes {
            zeros: (self.zeros & other.zeros) | (self.ones & other.ones),
            ones: (self.zeros & other.ones) | (self.ones & other.zeros),
        }
    }
}

/// The lane kind is 64 copies of the single kind: in each lane the undefined value, 0, 1 and each gate are the single kind's,
/// the order is the single kind's in every lane, the rank is the number of defined lanes, and lanes that agree in each of the
/// 64 places are equal.
pub fn lanes_are_single()
    ensures { Lanewise }
{}
