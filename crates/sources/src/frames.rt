ghost use Rattle.std.specs.Prelude.{◌≡◌, ◌+◌, ◌<◌, ◌≤◌, length};
ghost use Rattle.std.specs.Option.{option_map};
ghost use Rattle.std.specs.List.{slice_get, slice_range};
ghost use Rattle.clauses.specs.Clauses.{across};
ghost use Rattle.formulas.specs.Kinds.{starts};
ghost use Rattle.formulas.specs.Formulas.{frame_clauses};
ghost use Rattle.wireclauses.specs.Literals.{few_of};
ghost use Rattle.wireclauses.specs.Sizes.{register_size as register_size_of};
ghost use Rattle.sources.specs.Rows.{registers_before};
ghost use Rattle.sources.specs.Places.{place as place_of, frame_place, frames_of};
ghost use Rattle.sources.specs.Meaning.{gates_of, property_of, depth_of};

use crate::formula::Formula;
use crate::outline::Outline;
use crate::rows::Before;
use wireclauses::Few;
use wireclauses::sides::register_size;
use wireclauses::wire::wire_clause;

impl Formula {
    /// Its kind, and what its board says beside the gates.
    pub(crate) fn outline(&self) -> Outline
        ensures kind { result.kind ≡ self.now.kind }
        ensures wires { result.wires ≡ length (gates_of self.now) }
        ensures property { result.property ≡ property_of self.now }
        ensures depth { result.depth ≡ depth_of self.now }
        ensures some { 0 < result.wires }
    {
        Outline {
            kind: self.kind,
            wires: self.board.wires(),
            property: self.board.property(),
            depth: usize::from(self.board.depth()),
        }
    }

    /// How many clauses stand before wire w in the frame with i before it.
    fn place(&self, i: usize, w: usize) -> usize
        requires { w ≤ length (gates_of self.now) }
        ensures is { result ≡ place_of (gates_of self.now) (register_size_of (starts self.now.kind) i) w }
        ensures small { result ≤ 400000 }
    {
        self.before[w].clauses(register_size(self.kind, i))
    }

    /// For each wire, what stands before the next.
    fn behind(&self) -> &[Before]
        ensures { result.now ≡ slice_range self.now.before 1 (length (gates_of self.now) + 1) }
    {
        &self.before[1..=self.board.wires()]
    }

    /// The wire to which the clause at place k of that frame belongs.
    fn find(&self, i: usize, k: usize) -> usize
        requires { k < place_of (gates_of self.now) (register_size_of (starts self.now.kind) i) (length (gates_of self.now)) }
        ensures low { place_of (gates_of self.now) (register_size_of (starts self.now.kind) i) result ≤ k }
        ensures high { k < place_of (gates_of self.now) (register_size_of (starts self.now.kind) i) (result + 1) }
        ensures within { result < length (gates_of self.now) }
    {
        let c = register_size(self.kind, i);
        self.behind()
            .partition_point(|before| before.clauses(c) <= k)
    }

    /// The wire of the register of a rank.
    pub(crate) fn register(&self, rank: usize) -> usize
        requires { rank < registers_before (gates_of self.now) (length (gates_of self.now)) }
        ensures low { registers_before (gates_of self.now) result ≤ rank }
        ensures high { rank < registers_before (gates_of self.now) (result + 1) }
        ensures within { result < length (gates_of self.now) }
    {
        self.behind()
            .partition_point(|before| usize::from(before.registers) <= rank)
    }

    /// How many registers there are.
    pub(crate) fn register_count(&self) -> usize
        ensures is { result ≡ registers_before (gates_of self.now) (length (gates_of self.now)) }
        ensures small { result ≤ 256 }
    {
        usize::from(self.before[self.board.wires()].registers)
    }

    /// The clause at place k of the frame with i before it.
    fn in_frame(&self, i: usize, k: usize) -> Option<Few>
        requires shallow { i ≤ 8 }
        requires within { k < place_of (gates_of self.now) (register_size_of (starts self.now.kind) i) (length (gates_of self.now)) }
        ensures { option_map few_of result ≡ slice_get (frame_clauses (starts self.now.kind) (gates_of self.now) i) k }
    {
        let frame = self.outline().frame(i);
        let w = self.find(i, k);
        let gate = self.board.gates()[w];
        wire_clause(frame, w as u8, gate, k - self.place(i, w))
    }

    /// How many clauses the frames have.
    pub(crate) fn frames_size(&self) -> usize
        ensures is { result ≡ frame_place (starts self.now.kind) (gates_of self.now) (frames_of self.now.kind (depth_of self.now)) }
        ensures small { result ≤ 4000000 }
    {
        let outline = self.outline();
        let first = self.place(0, outline.wires);
        first + (outline.frames() - 1) * self.place(1, outline.wires)
    }

    /// The clause at place k of the frames.
    pub(crate) fn in_frames(&self, k: usize) -> Option<Few>
        requires { k < frame_place (starts self.now.kind) (gates_of self.now) (frames_of self.now.kind (depth_of self.now)) }
        ensures { option_map few_of result ≡ slice_get (across (frames_of self.now.kind (depth_of self.now)) (frame_clauses (starts self.now.kind) (gates_of self.now))) k }
    {
        let outline = self.outline();
        let first = self.place(0, outline.wires);
        if k < first {
            return self.in_frame(0, k);
        }
        let later = self.place(1, outline.wires);
        let rest = k - first;
        self.in_frame(1 + rest / later, rest % later)
    }
}
