ghost use Rattle.std.specs.Prelude.{◌≡◌, length};
ghost use Rattle.gates.specs.Gates.{is_input, is_register, rank};
ghost use Rattle.boards.specs.Sheets.{sheet};

use crate::board::Board;
use gates::Gate;

impl Board {
    /// How many wires there are.
    pub fn wires(&self) -> usize
        ensures { result ≡ length (sheet self.now).gates }
    {
        self.gates.len()
    }

    /// The gates in wire order.
    pub fn gates(&self) -> &[Gate]
        ensures { result.now ≡ (sheet self.now).gates }
    {
        self.gates.as_slice()
    }

    pub fn property(&self) -> u8
        ensures { result ≡ (sheet self.now).property }
    {
        self.property
    }

    pub fn depth(&self) -> u8
        ensures { result ≡ (sheet self.now).depth }
    {
        self.depth
    }

    /// How many inputs there are.
    pub fn inputs(&self) -> usize
        ensures { result ≡ rank is_input (sheet self.now).gates (length (sheet self.now).gates) }
    {
        self.gates.iter().filter(|gate| gate.is_input()).count()
    }

    /// How many registers there are.
    pub fn registers(&self) -> usize
        ensures { result ≡ rank is_register (sheet self.now).gates (length (sheet self.now).gates) }
    {
        count_registers(&self.gates)
    }
}

pub(crate) fn count_registers(gates: &[Gate]) -> usize
    ensures { result ≡ rank is_register gates.now (length gates.now) }
{
    gates.iter().filter(|gate| gate.is_register()).count()
}
