ghost use Rattle.std.specs.Prelude.{◌≡◌, ◌*◌, vec_len};

use values::Value;

/// A table of values: rows of one width, one after the other.
// In one vector: a vector for each row would take many times the memory of its values.
#[derive(Drop)]
pub struct Table {
    pub(crate) width: usize,
    pub(crate) count: usize,
    pub(crate) values: Vec<Value>,
    ghost whole: { vec_len values ≡ count * width },
}

impl Table {
    ghost use Rattle.std.specs.Prelude.{◌≡◌, ◌<◌, [], length, slice_get, slice_index_or};
    ghost use Rattle.std.specs.Option.{option_map};
    ghost use Rattle.runs.specs.Tables.{rows_of};

    /// How many rows there are.
    pub fn len(&self) -> usize
        ensures { result ≡ length (rows_of self.now) }
    {
        self.count
    }

    /// The row at a place, counted from 0, if there is one.
    pub fn row(&self, index: usize) -> Option<&[Value]>
        ensures { option_map (λ x. x.now) result ≡ slice_get (rows_of self.now) index }
    {
        if index < self.len() {
            Some(self.row_at(index))
        } else {
            None
        }
    }

    /// The row at a place that has one.
    pub(crate) fn row_at(&self, index: usize) -> &[Value]
        requires { index < self.now.count }
        ensures { result.now ≡ slice_index_or (rows_of self.now) index [] }
    {
        let start = index * self.width;
        &self.values.as_slice()[start..start + self.width]
    }
}
