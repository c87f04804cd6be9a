ghost use Rattle.std.specs.Prelude.{◌≤◌, vec_len, vec_capacity};

use gates::Gate;

/// A board under drawing: the wires so far, with room for all that a board may have.
///
/// The room is made when the drawing begins, so that no later call can fail for want of memory.
// Its fields and no model, as a board: contracts see it through `drawn`, and nothing reads more of it.
#[derive(Drop)]
pub struct Drawing {
    pub(crate) gates: Vec<Gate>,
    ghost few: { vec_len gates ≤ 256 },
    ghost room: { 256 ≤ vec_capacity gates },
}
