ghost use Rattle.std.specs.Prelude.{◌≡◌, ◌+◌, ◌*◌, ◌≤◌, length};
ghost use Rattle.sources.specs.Rows.{Row};

use gates::Gate;
use wireclauses::sides::plain_size;

/// What stands before a wire in a frame: how many clauses, but for those of the registers, and how many registers.
#[derive(Clone, Copy)]
pub struct Before {
    pub(crate) plain: u16,
    pub(crate) registers: u16,
}

impl Before {
    /// How many clauses that is where a register has c.
    pub(crate) fn clauses(self, c: usize) -> usize
        requires { c ≤ 4 }
        ensures is { result ≡ self.plain + c * self.registers }
        ensures small { result ≤ 400000 }
    {
        usize::from(self.plain) + c * usize::from(self.registers)
    }
}

/// What stands before each wire, and before the end.
pub(crate) fn row(gates: &[Gate]) -> [Before; 257]
    requires { length gates.now ≤ 256 }
    ensures { Row result gates.now }
{
    let mut before = Before {
        plain: 0,
        registers: 0,
    };
    let mut row = [before; 257];
    // By index: behind a zip with `iter_mut` nothing is known of what the row holds.
    'wires: for (w, gate) in gates.iter().enumerate() {
        before.plain += plain_size(*gate);
        before.registers += u16::from(gate.is_register());
        row[w + 1] = before;
    }
    row
}
