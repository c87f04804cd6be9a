ghost use Rattle.std.specs.Prelude.{◌≡◌, [], ◌∷◌, Some, refl};
ghost use Rattle.values.specs.Single.{single, letter};
ghost use Rattle.values.specs.Singles.{single_lawful};

use crate::kind::ValueKind;
use std::fmt;

/// What a wire is in one frame.
// No `Option<bool>`: undefined is a value as the two others are, and the gates work on all three.
#[derive(Clone, Copy, PartialEq, Eq, Debug)]
pub enum Value {
    Undefined,
    Zero,
    One,
}

impl ValueKind for Value {
    ghost use Rattle.values.specs.declared.single.Value.TheVariants.{Undefined, Zero, One};

    const HEIGHT: usize = 1;

    ghost HEIGHT = { 1 };

    ghost meaning = { single };

    ghost height_agrees = { refl };

    ghost eq_agrees = { elim [
      | Undefined ↦ elim [ Undefined ↦ refl | Zero ↦ refl | One ↦ refl ]
      | Zero ↦ elim [ Undefined ↦ refl | Zero ↦ refl | One ↦ refl ]
      | One ↦ elim [ Undefined ↦ refl | Zero ↦ refl | One ↦ refl ]
    ] };

    ghost lawful = { single_lawful };

    fn undefined() -> Value {
        Value::Undefined
    }

    fn zero() -> Value {
        Value::Zero
    }

    fn one() -> Value {
        Value::One
    }

    fn not(self) -> Value {
        match self {
            Value::Undefined => Value::Undefined,
            Value::Zero => Value::One,
            Value::One => Value::Zero,
        }
    }

    fn and(self, other: Value) -> Value {
        match (self, other) {
            (Value::Zero, _) | (_, Value::Zero) => Value::Zero,
            (Value::One, Value::One) => Value::One,
            _ => Value::Undefined,
        }
    }

    fn or(self, other: Value) -> Value {
        match (self, other) {
            (Value::One, _) | (_, Value::One) => Value::One,
            (Value::Zero, Value::Zero) => Value::Zero,
            _ => Value::Undefined,
        }
    }

    fn implies(self, other: Value) -> Value {
        match (self, other) {
            (Value::Zero, _) | (_, Value::One) => Value::One,
            (Value::One, Value::Zero) => Value::Zero,
            _ => Value::Undefined,
        }
    }

    fn xor(self, other: Value) -> Value {
        match (self, other) {
            (Value::Undefined, _) | (_, Value::Undefined) => Value::Undefined,
            (Value::Zero, Value::Zero) | (Value::One, Value::One) => Value::Zero,
            _ => Value::One,
        }
    }
}

impl Value {
    /// The letter of the value: `U`, `0` or `1`.
    pub fn letter(self) -> char
        ensures { result ≡ letter self }
    {
        match self {
            Value::Undefined => 'U',
            Value::Zero => '0',
            Value::One => '1',
        }
    }
}

/// Writes the value's letter.
impl fmt::Display for Value {
    ghost output = { λ value. Some (letter value ∷ []) };

    fn fmt<W: fmt::Write>(&self, f: &mut fmt::Formatter<W>) -> fmt::Result {
        f.write_char(self.letter())
    }
}
