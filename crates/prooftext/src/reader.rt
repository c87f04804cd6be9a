ghost use Rattle.std.specs.Prelude.{◌≡◌};

/// A reader of a proof text, one line at a time.
// The whole text and a place in it: how many bytes are read is asked for.
#[derive(Drop)]
pub struct Reader<'a> {
    pub(crate) text: &'a [u8],
    pub(crate) place: usize,
}

impl<'a> Reader<'a> {
    /// A reader at the start of the text.
    pub fn new(text: &'a [u8]) -> Reader<'a>
        ensures { (result.text.now ≡ text.now) × (result.place ≡ 0) }
    {
        Reader { text, place: 0 }
    }

    /// How many bytes of the text are read.
    pub fn place(&self) -> usize
        ensures { result ≡ self.now.place }
    {
        self.place
    }
}
