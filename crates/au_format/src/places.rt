//! Places in a file that is being laid out.

ghost use Rattle.std.specs.Prelude.{◌≡◌, ◌+◌, ◌^◌, ◌<◌};
ghost use Rattle.au_format.specs.Places as spec;

use crate::kinds::Kind;
use crate::standings::{Previous, Standing};

/// What stands before a place of a file.
#[derive(Clone, Copy)]
pub struct Place {
    /// How many bytes.
    pub done: usize,
    /// How many tokens.
    pub tokens: usize,
    /// What these tokens say of the place.
    pub standing: Standing,
    /// The last piece that is no blank.
    pub last: Previous,
    /// How many lines have ended since that piece.
    pub lines: usize,
}

impl Place {
    /// The beginning of a file.
    pub fn start() -> Place
        ensures { result ≡ spec.start }
    {
        Place {
            done: 0,
            tokens: 0,
            standing: Standing::start(),
            last: Previous::Nothing,
            lines: 0,
        }
    }

    /// The place behind a blank byte.
    pub fn behind_blank(self, byte: u8) -> Place
        requires done { self.done + 1 < 2 ^ 64 }
        requires lines { self.lines + 1 < 2 ^ 64 }
        ensures { result ≡ spec.behind_blank self byte }
    {
        Place {
            done: self.done + 1,
            lines: self.lines + (byte == b'\n') as usize,
            ..self
        }
    }

    /// The place behind a remark of so many bytes.
    pub fn behind_remark(self, remark: Previous, size: usize) -> Place
        requires { self.done + size < 2 ^ 64 }
        ensures { result ≡ spec.behind_remark self remark size }
    {
        Place {
            done: self.done + size,
            last: remark,
            lines: 0,
            ..self
        }
    }

    /// The place behind a token of this kind and of so many bytes, before the next token.
    pub fn behind_token(self, kind: Kind, next: Option<Kind>, size: usize) -> Place
        requires done { self.done + size < 2 ^ 64 }
        requires tokens { self.tokens + 1 < 2 ^ 64 }
        requires choices { self.standing.choices + 1 < 2 ^ 64 }
        requires levels { self.standing.levels + 1 < 2 ^ 64 }
        ensures { result ≡ spec.behind_token self kind next size }
    {
        Place {
            done: self.done + size,
            tokens: self.tokens + 1,
            standing: self.standing.step(kind, next),
            last: Previous::Token,
            lines: 0,
        }
    }
}
