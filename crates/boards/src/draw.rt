ghost use Rattle.std.specs.Prelude.{◌≡◌, [], ◌∷◌, ◌++◌, length, IfOk};
ghost use Rattle.gates.specs.Gates.{is_register, rank};
ghost use Rattle.boards.specs.Sheets.{drawn, add_gate, adding, gates_after};

use crate::drawing::Drawing;
use crate::shape::count_registers;
use gates::Gate;
use gates::records::read_record;
use refusals::Refusal;
use std::alloc::{AllocError, Global};

/// The most wires that a board may have.
pub const MOST_WIRES: usize = 256;

impl Drawing {
    /// A drawing with no wires yet. Only this call can fail for want of memory.
    pub fn new(heap: Global) -> Result<Drawing, AllocError>
        ensures { IfOk result (λ d. drawn d ≡ []) }
    {
        let gates = Vec::with_capacity(heap, MOST_WIRES)?;
        Ok(Drawing { gates })
    }

    /// How many wires there are so far.
    pub fn wires(&self) -> usize
        ensures { result ≡ length (drawn self.now) }
    {
        self.gates.len()
    }

    /// How many registers there are so far.
    pub fn registers(&self) -> usize
        ensures { result ≡ rank is_register (drawn self.now) (length (drawn self.now)) }
    {
        count_registers(&self.gates)
    }

    /// Adds the wire of one record, given by its bytes.
    pub fn add(&mut self, bytes: &[u8]) -> Result<(), Refusal>
        ensures answer { result ≡ adding (drawn self.old) bytes.now }
        ensures after { drawn self.new ≡ gates_after (drawn self.old) bytes.now }
    {
        let gate = read_record(bytes).ok_or(Refusal::Record)?;
        self.add_gate(gate)
    }

    /// Adds a wire, if there is room for it.
    pub fn add_gate(&mut self, gate: Gate) -> Result<(), Refusal>
        ensures answer { result ≡ add_gate (drawn self.old) (Some gate) (λ g. Ok tt) Err }
        ensures after { drawn self.new ≡ add_gate (drawn self.old) (Some gate) (λ g. drawn self.old ++ g ∷ []) (λ e. drawn self.old) }
    {
        if self.gates.len() >= MOST_WIRES {
            return Err(Refusal::Full);
        }
        self.gates.push_reserved(gate);
        Ok(())
    }

    /// Takes all wires away.
    pub fn clear(&mut self)
        ensures { drawn self.new ≡ [] }
    {
        self.gates.clear();
    }
}
