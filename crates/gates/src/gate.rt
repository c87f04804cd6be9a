ghost use Rattle.std.specs.Prelude.{◌≡◌};
ghost use Rattle.gates.specs.Gates.{all_below, wires as wires_of, is_input, is_register};

/// What drives a wire. A gate names the wires that it reads.
#[derive(Clone, Copy, PartialEq, Eq, Debug)]
pub enum Gate {
    /// Given anew in each frame.
    Input,
    /// The constant 0.
    Zero,
    /// The constant 1.
    One,
    Copy(u8),
    Not(u8),
    And(u8, u8),
    Or(u8, u8),
    Implies(u8, u8),
    Xor(u8, u8),
    /// 0 in the first frame, and then the value of its source in the frame before.
    Register(u8),
}

impl Gate {
    /// Whether every wire that the gate names is below `wires`.
    pub fn names_below(self, wires: usize) -> bool
        ensures { result ≡ all_below wires (wires_of self) }
    {
        match self {
            Gate::Input | Gate::Zero | Gate::One => true,
            Gate::Copy(y) | Gate::Not(y) | Gate::Register(y) => usize::from(y) < wires,
            Gate::And(y, z) | Gate::Or(y, z) | Gate::Implies(y, z) | Gate::Xor(y, z) => {
                usize::from(y) < wires && usize::from(z) < wires
            }
        }
    }

    pub fn is_input(self) -> bool
        ensures { result ≡ is_input self }
    {
        matches!(self, Gate::Input)
    }

    pub fn is_register(self) -> bool
        ensures { result ≡ is_register self }
    {
        matches!(self, Gate::Register(_))
    }
}
