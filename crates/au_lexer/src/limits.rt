//! The limits of tokens.

ghost use Rattle.std.specs.Prelude.{◌≡◌, ◌^◌, ◌<◌};
ghost use Rattle.au_lexer.specs.Passing as limits;

use au_base::{Limit, LimitKind};

/// A limit with the first count that passes it.
pub fn limit_above(kind: LimitKind, most: usize) -> Limit
    requires { most < 2 ^ 32 }
    ensures { result ≡ limits.limit_above kind most }
{
    let most = most as u64;
    Limit {
        kind,
        count: most + 1,
        most,
    }
}

/// The limit that a count passes, if it passes it.
pub fn passed(kind: LimitKind, most: usize, count: usize) -> Option<Limit>
    requires { most < 2 ^ 32 }
    ensures { result ≡ limits.passed kind most count }
{
    if most < count {
        Some(limit_above(kind, most))
    } else {
        None
    }
}
