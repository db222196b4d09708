//! A sink that takes everything and keeps nothing.

ghost use Rattle.std.specs.Prelude.{◌≡◌, None, length};

use crate::outside::{Put, Sink};

/// Takes each piece whole, never fails, and tells no bytes.
#[derive(Clone, Copy, Debug)]
pub struct NullSink;

impl Sink for NullSink {
    ghost use Rattle.au_base.specs.Outside.{TakesPart};

    ghost faults = { λ _. 0 };

    ghost written = { λ _. None };

    fn put(&mut self, piece: &[u8]) -> Put
        ensures whole { result ≡ Put.Took (length piece.now) }
        ensures part { TakesPart result piece.now }
    {
        Put::Took(piece.len())
    }
}
