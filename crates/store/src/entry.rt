/// Where a line stands in a row of literals.
#[derive(Clone, Copy, Drop)]
pub struct Entry {
    pub(crate) number: u32,
    pub(crate) start: usize,
    pub(crate) length: usize,
}
