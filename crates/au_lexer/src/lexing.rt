//! The tokens of a whole file.

ghost use Rattle.std.specs.Prelude.{◌≡◌, ◌+◌, ◌^◌, ◌<◌, ◌++◌, length, Err, IfOk, OnOk, IsOkUnless};
ghost use Rattle.au_lexer.specs.Cut.{Cut, IsStray, PassesLimit, Lexed, Lexes, token_at};
ghost use Rattle.au_lexer.specs.Faults.{fault_of, Answers};
ghost use Rattle.au_lexer.specs.Passing.{IsWithinLimits};
ghost use Rattle.au_lexer.specs.declared.lexing.LexFault.TheVariants as fault;

use crate::pieces::{Found, Stop, piece};
use au_base::{Limit, Memory, Pos, Token, What};
use std::alloc::{AllocFailed, Global};
use thiserror::Error;

/// Why a file has no tokens. A file is refused at the first place that has a cause.
#[derive(Clone, Copy, Debug, Error)]
pub enum LexFault {
    /// The place of the first byte that begins no token.
    #[error("a byte begins no token")]
    Byte(Pos),
    /// The limit that a token passes: of tokens, of a name's bytes, of a number's digits, or of the
    /// bytes that a text means.
    #[error("a limit is passed")]
    Limit(Limit),
    /// No memory was found.
    #[error("out of memory")]
    Memory,
}

impl From<Memory> for LexFault {
    ghost from_gives = { λ _ e. e ≡ fault.Memory };

    fn from(_e: Memory) -> LexFault {
        LexFault::Memory
    }
}

impl<T: Drop> From<AllocFailed<T>> for LexFault {
    ghost from_gives = { λ _ e. e ≡ fault.Memory };

    fn from(_e: AllocFailed<T>) -> LexFault {
        LexFault::Memory
    }
}

/// The tokens of a file, in order, each with its place. `file` is the number that the places name the
/// file by. The file has fewer than 2^32 - 1 bytes, so that each line and column has a number.
pub fn lex(alloc: Global, file: u16, bytes: &[u8]) -> Result<Vec<Token>, LexFault>
    requires { length bytes.now + 1 < 2 ^ 32 }
    // Ok: the file is cut into these tokens, and they pass no limit.
    ensures cut { IfOk result (λ tokens. Cut file bytes.now tokens.items) }
    ensures within { IfOk result (λ tokens. IsWithinLimits tokens.items) }
    // The first place at which a file has a cause decides.
    ensures byte { (at : Pos) → result ≡ Err (LexFault.Byte at) → IsStray file bytes.now at }
    ensures limit { (limit : Limit) → result ≡ Err (LexFault.Limit limit) → PassesLimit file bytes.now limit }
    // Whatever the file comes to is answered, unless memory runs out.
    ensures only { (outcome : Lexed) → Lexes file bytes.now outcome → Answers result outcome }
{
    cut_all(alloc, file, bytes)
}

/// The tokens of a file, cut piece by piece.
fn cut_all(alloc: Global, file: u16, bytes: &[u8]) -> Result<Vec<Token>, LexFault>
    requires { length bytes.now + 1 < 2 ^ 32 }
    ensures cut { IfOk result (λ tokens. Cut file bytes.now tokens.items) }
    ensures within { IfOk result (λ tokens. IsWithinLimits tokens.items) }
    ensures byte { (at : Pos) → result ≡ Err (LexFault.Byte at) → IsStray file bytes.now at }
    ensures limit { (limit : Limit) → result ≡ Err (LexFault.Limit limit) → PassesLimit file bytes.now limit }
{
    let mut tokens = Vec::new(alloc);
    let mut at = Pos::start(file);
    let mut done = 0;
    while done < bytes.len() {
        let rest = &bytes[done..];
        match piece(alloc, tokens.len(), rest) {
            Ok(Found { size, what }) => {
                add_token(&mut tokens, what, at)?;
                at = at.after(&rest[..size]);
                done += size;
            }
            Err(stop) => return Err(fault_at(stop, at)),
        }
    }
    Ok(tokens)
}

/// Puts a token at the end, if there is one.
fn add_token(tokens: &mut Vec<Token>, what: Option<What>, at: Pos) -> Result<(), LexFault>
    ensures ok { OnOk result (tokens.new.items ≡ tokens.old.items ++ token_at at what) }
    ensures memory { IsOkUnless result fault.Memory }
{
    if let Some(what) = what {
        tokens.push(Token { what, at })?;
    }
    Ok(())
}

/// The fault at the place where lexing stops.
fn fault_at(stop: Stop, at: Pos) -> LexFault
    ensures { result ≡ fault_of stop at }
{
    match stop {
        Stop::Stray => LexFault::Byte(at),
        Stop::Passes(limit) => LexFault::Limit(limit),
        Stop::Memory => LexFault::Memory,
    }
}
