ghost use Rattle.std.specs.Prelude.{◌≡◌, ◌<◌, ◌≤◌, true, vec_len};
ghost use Rattle.gates.specs.Gates.{named};

use gates::Gate;

/// A closed board: its wires, the property wire and the depth.
///
/// It has 1 to 256 wires and a depth of 1 to 8, and every named wire and the property wire is one of its own.
// Its fields and no model: the frame call and the clause sources read its ghost fields, which a model would hide.
#[derive(Drop)]
pub struct Board {
    pub(crate) gates: Vec<Gate>,
    pub(crate) property: u8,
    pub(crate) depth: u8,
    ghost few: { vec_len gates ≤ 256 },
    ghost own_wires: { named (vec_len gates) gates.items ≡ true },
    ghost own_property: { property < vec_len gates },
    ghost deep: { 1 ≤ depth },
    ghost shallow: { depth ≤ 8 },
}
