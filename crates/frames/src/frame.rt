ghost use Rattle.std.specs.Prelude.{◌≡◌, ◌≤◌, not, cond, length, drop, replicate, IfOk, None};
ghost use Rattle.std.specs.Option.{option_map};
ghost use Rattle.std.specs.Slice.Iter.{iter_rest};
ghost use Rattle.gates.specs.Gates.{is_input};
ghost use Rattle.boards.specs.Sheets.{sheet};
ghost use Rattle.solutions.specs.Solutions.{reads, wanted as wanted_of, supplied, frame_before, Least};
ghost use Rattle.solutions.specs.Rounds.{round, same_row, most_rounds, frame_rounds, frame_row};
ghost use Rattle.frames.specs.Frames.{frame_given, enough, frame_answer, row_after};

use boards::Board;
use gates::Gate;
use refusals::Refusal;
use std::slice::Iter;
use values::ValueKind;

/// The value of a wire in a row, undefined past the row's end.
fn at<V: ValueKind>(row: &[V], wire: u8) -> V
    ensures { result ≡ reads V.ValueKind.meaning row.now wire }
{
    row.get(usize::from(wire))
        .copied()
        .unwrap_or(V::undefined())
}

/// The value that a wire should have; `given` is what an input or a register is given.
fn wanted<V: ValueKind>(gate: Gate, given: V, row: &[V]) -> V
    ensures { result ≡ wanted_of V.ValueKind.meaning gate given (reads V.ValueKind.meaning row.now) }
{
    match gate {
        Gate::Input | Gate::Register(_) => given,
        Gate::Zero => V::zero(),
        Gate::One => V::one(),
        Gate::Copy(y) => at(row, y),
        Gate::Not(y) => at(row, y).not(),
        Gate::And(y, z) => at(row, y).and(at(row, z)),
        Gate::Or(y, z) => at(row, y).or(at(row, z)),
        Gate::Implies(y, z) => at(row, y).implies(at(row, z)),
        Gate::Xor(y, z) => at(row, y).xor(at(row, z)),
    }
}

/// Makes every value of the row undefined.
fn clear<V: ValueKind>(row: &mut [V])
    ensures { row.new ≡ replicate (length row.old) V.ValueKind.meaning.undefined }
{
    // By a loop: `fill` clones, and a kind says nothing of what a clone is.
    for value in row.iter_mut() {
        *value = V::undefined();
    }
}

/// What a frame is found from: the board, a row of inputs, and the frame before, if there is one.
#[derive(Clone, Copy)]
struct Given<'a, V> {
    board: &'a Board,
    inputs: &'a [V],
    before: Option<&'a [V]>,
}

impl<V: ValueKind> Given<'_, V> {
    ghost use Rattle.frames.specs.Given.{gates_of, before_of, given_of};

    /// Whether there are values for all inputs, for all wires of the frame before, if there is one, and for all of the row to fill.
    fn is_enough(&self, row: &[V]) -> bool
        ensures { result ≡ enough (gates_of self.now) self.now.inputs.now (before_of self.now) row.now }
    {
        let wires = self.board.wires();
        self.board.inputs() <= self.inputs.len()
            && self.before.is_none_or(|before| wires <= before.len())
            && wires <= row.len()
    }

    /// The value of a wire in the frame before; before the first frame every wire reads 0.
    fn at_before(&self, wire: u8) -> V
        ensures { result ≡ frame_before V.ValueKind.meaning (before_of self.now) wire }
    {
        self.before.map_or(V::zero(), |before| at(before, wire))
    }

    /// What a wire is given: an input the next of the inputs, a register its source's value in the frame before.
    fn supply(&self, gate: Gate, inputs: &mut Iter<'_, V>) -> V
        ensures given { result ≡ supplied V.ValueKind.meaning gate (reads V.ValueKind.meaning (iter_rest inputs.old) 0) (frame_before V.ValueKind.meaning (before_of self.now)) }
        ensures left { iter_rest inputs.new ≡ drop (cond (is_input gate) 1 0) (iter_rest inputs.old) }
    {
        match gate {
            Gate::Input => inputs.next().copied().unwrap_or(V::undefined()),
            Gate::Register(y) => self.at_before(y),
            _ => V::undefined(),
        }
    }

    /// One round: every wire in rising order, in place. Answers whether a value changed.
    fn sweep(&self, row: &mut [V]) -> bool
        requires { length row.old ≡ length (gates_of self.now) }
        ensures answer { not result ≡ same_row V.ValueKind.meaning row.old row.new }
        ensures after { row.new ≡ round V.ValueKind.meaning (gates_of self.now) (given_of V.ValueKind.meaning self.now) (length (gates_of self.now)) row.old }
    {
        let mut changed = false;
        let mut inputs = self.inputs.iter();
        for (wire, gate) in self.board.gates().iter().enumerate() {
            // By index: a wire's value is read off the whole row, and written to one place of it.
            let value = wanted(*gate, self.supply(*gate, &mut inputs), row);
            // Compared after it is written: a kind may compare in parts, with branches, and the write does not wait for them.
            let earlier = row[wire];
            row[wire] = value;
            changed |= earlier != value;
        }
        changed
    }

    /// Rounds from all undefined until one changes nothing. Answers how many there were, that one counted.
    fn settle(&self, row: &mut [V]) -> usize
        requires { length row.old ≡ length (gates_of self.now) }
        ensures answer { result ≡ frame_rounds V.ValueKind.meaning (gates_of self.now) (given_of V.ValueKind.meaning self.now) }
        ensures after { row.new ≡ frame_row V.ValueKind.meaning (gates_of self.now) (given_of V.ValueKind.meaning self.now) }
    {
        clear(row);
        // Counted as they are made: how many there will be is not known before.
        let mut rounds = 1;
        while self.sweep(row) {
            rounds += 1;
        }
        rounds
    }
}

/// No frame before: what the first frame is found from. A caller that is generic in the kind needs it, since there a literal `None`
/// has no proof as an argument.
pub fn no_frame<'a, V>() -> Option<&'a [V]>
    ensures { result ≡ None }
{
    None
}

/// Fills the row's start with the values of one frame, the least solution of the board's wires, and answers how many
/// rounds it took, the last one, which changes nothing, counted.
///
/// `inputs` has a value for each input, in rising wire order; `before` is the frame before, `None` for the first. A buffer that is
/// shorter than needed is refused, and the row is then as it was.
pub fn find_frame<V: ValueKind>(
    board: &Board,
    inputs: &[V],
    before: Option<&[V]>,
    row: &mut [V],
) -> Result<usize, Refusal>
    ensures answer { result ≡ frame_answer V.ValueKind.meaning (sheet board.now).gates inputs.now (option_map (λ x. x.now) before.entry) row.old }
    ensures after { row.new ≡ row_after V.ValueKind.meaning (sheet board.now).gates inputs.now (option_map (λ x. x.now) before.entry) row.old }
    ensures least { IfOk result (λ k. Least V.ValueKind.meaning (sheet board.now).gates (frame_given V.ValueKind.meaning (sheet board.now).gates inputs.now (option_map (λ x. x.now) before.entry)) (reads V.ValueKind.meaning row.new)) }
    ensures bound { IfOk result (λ k. k ≤ most_rounds V.ValueKind.meaning (sheet board.now).gates) }
{
    let given = Given {
        board,
        inputs,
        before,
    };
    if !given.is_enough(row) {
        return Err(Refusal::Buffer);
    }
    Ok(given.settle(&mut row[..board.wires()]))
}
