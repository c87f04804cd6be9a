ghost use Rattle.std.specs.Prelude.{◌≡◌, ℕ, List, [], ◌++◌};
ghost use Rattle.buffers.specs.Sinks.{Counted, Placed};
ghost use Rattle.buffers.specs.SinkLaws.{counted_none, counted_then, placed_none, placed_then};
ghost use Rattle.std.proofs.Common.{◌∙◌, refl};

use crate::write_bytes;

/// Where the bytes of a text go, piece after piece.
///
/// A text stands in one function over any sink: a `Length` counts it, and a `Writer` writes it.
pub trait Sink {
    // The sink before it took the bytes, and the sink after.
    ghost takes: { Self → List ℕ → Self → Type 0 };

    /// Takes the bytes that come next.
    fn put(&mut self, bytes: &[u8])
        ensures { takes self.old bytes.now self.new };

    ghost nothing: { (x : Self) → takes x [] x };

    // What is taken one after the other is taken in one.
    ghost then: { (x y z : Self) (first next : List ℕ) → takes x first y → takes y next z → takes x (first ++ next) z };
}

/// How long a text is, up to `usize::MAX`.
#[derive(Clone, Copy)]
pub struct Length {
    pub bytes: usize,
}

impl Sink for Length {
    ghost takes = { λ x bytes y. Counted x.bytes bytes y.bytes };

    ghost nothing = { λ x. counted_none x.bytes };

    ghost then = { λ x y z first next p q. counted_then x.bytes y.bytes z.bytes first next p q };

    fn put(&mut self, bytes: &[u8]) {
        self.bytes = self.bytes.saturating_add(bytes.len());
    }
}

/// The whole of a lent buffer, and the place where the next bytes go. Bytes that do not fit are left out, so whoever writes a text asks for its
/// length first.
#[derive(Drop)]
pub struct Writer<'a> {
    pub buffer: &'a mut [u8],
    pub at: usize,
}

impl<'a> Sink for Writer<'a> {
    ghost takes = { λ x bytes y. (y.buffer.ghost_name ≡ x.buffer.ghost_name) × Placed x.at x.buffer.now bytes y.at y.buffer.now };

    ghost nothing = { λ x. (refl, placed_none x.at x.buffer.now) };

    ghost then = { λ x y z first next p q. (q.0 ∙ p.0, placed_then x.at y.at z.at x.buffer.now y.buffer.now z.buffer.now first next p.1 q.1) };

    fn put(&mut self, bytes: &[u8]) {
        if let Ok(next) = write_bytes(self.buffer, self.at, bytes) {
            self.at = next;
        }
    }
}
