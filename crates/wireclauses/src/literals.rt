ghost use Rattle.std.specs.Prelude.{◌≡◌, length};
ghost use Rattle.std.specs.Option.{option_map};
ghost use Rattle.std.specs.List.{slice_get};
ghost use Rattle.wireclauses.specs.Literals.{literal_of, few_of};

/// A variable, by its number less one, or its negative.
#[derive(Clone, Copy, PartialEq, Eq, Debug)]
pub enum Literal {
    Plus(u16),
    Minus(u16),
}

/// A clause of few literals.
#[derive(Clone, Copy, PartialEq, Eq, Debug)]
pub enum Few {
    One(Literal),
    Two(Literal, Literal),
    Three(Literal, Literal, Literal),
}

/// A literal as a whole number is its variable's number, or the negative of that.
impl From<Literal> for i32 {
    ghost from_gives = { λ literal number. number ≡ literal_of literal };

    fn from(literal: Literal) -> i32 {
        match literal {
            Literal::Plus(x) => i32::from(x) + 1,
            Literal::Minus(x) => -1 - i32::from(x),
        }
    }
}

// By match: an array of literals would need its length beside it.
impl Few {
    /// How many literals there are.
    pub fn count(self) -> usize
        ensures { result ≡ length (few_of self) }
    {
        match self {
            Few::One(_) => 1,
            Few::Two(_, _) => 2,
            Few::Three(_, _, _) => 3,
        }
    }

    /// The literal at a place, if there is one.
    pub fn literal(self, at: usize) -> Option<Literal>
        ensures { option_map literal_of result ≡ slice_get (few_of self) at }
    {
        match (self, at) {
            (Few::One(a), 0) | (Few::Two(a, _), 0) | (Few::Three(a, _, _), 0) => Some(a),
            (Few::Two(_, b), 1) | (Few::Three(_, b, _), 1) => Some(b),
            (Few::Three(_, _, c), 2) => Some(c),
            _ => None,
        }
    }
}
