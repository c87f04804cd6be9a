/// What stands next in a proof text.
// The end is one of the three things that the grammar lets stand next, so it is no Option. Counts and no slices: the rows are
// lent by the caller.
#[derive(Clone, Copy, PartialEq, Eq, Debug)]
pub enum Item {
    /// A clause is added under a number: so many literals stand in the one row, so many hints in the other.
    Line {
        number: u32,
        literals: usize,
        hints: usize,
    },
    /// Clauses are struck: so many numbers stand in the row of numbers.
    Strike {
        count: usize,
    },
    /// No text is left.
    End,
}
