//! Where the reading of a type stops, however deep the type is.

ghost use Rattle.std.specs.Prelude.{◌≡◌, IfOk, List, MatchOption, Some, [], ◌∷◌, ◌-◌, length, reverse, take};
ghost use Rattle.au_base.specs.declared.tokens.What.TheVariants as what;
ghost use Rattle.au_read_expressions.specs.TypeStops.{behind_type, begun, next, place_held, stops};
ghost use Rattle.au_read_expressions.specs.Reading.{same_what};

use au_base::{Memory, Sign, Token, What};
use std::alloc::Global;

/// What may stand at a place of a type.
#[derive(Clone, Copy)]
pub(crate) enum Awaits {
    /// A type.
    Type,
    /// The bracket of a reference.
    Target,
    /// Behind a name: the bracket of its arguments, or what may stand behind a type.
    Arguments,
    /// What may stand behind a type.
    Behind,
    /// The region of a reference.
    Region,
    /// The bracket with which a reference ends.
    Close,
}

/// In what a type stands.
#[derive(Clone, Copy)]
pub(crate) enum Within {
    /// In the arguments of another.
    Arguments,
    /// In a reference.
    Target,
}

/// Whether a token is this sign.
fn is(sign: Sign, token: &What) -> bool
    ensures { result ≡ same_what token.now (what.Sign sign) }
{
    match token {
        What::Sign(found) => *found == sign,
        _ => false,
    }
}

/// What may stand behind the first token of a type, if one begins with this token.
fn begin(token: &What) -> Option<Awaits>
    ensures { (inside : List Within) → place_held result inside ≡ begun (reverse inside) token.now }
{
    match token {
        What::Name(_) => Some(Awaits::Arguments),
        What::Sign(Sign::ReadBorrow) => Some(Awaits::Target),
        What::Sign(Sign::WriteBorrow) => Some(Awaits::Target),
        _ => None,
    }
}

/// The innermost that is open.
fn innermost(within: &Vec<Within>) -> Option<Within>
    ensures { MatchOption result (within.now.items ≡ [])
        (λ last. reverse within.now.items ≡ last ∷
        reverse (take (length within.now.items - 1) within.now.items)) }
{
    match within.as_slice().split_last() {
        None => None,
        Some((last, _)) => Some(*last),
    }
}

/// What may stand behind a token that stands behind a whole type.
fn behind(within: &mut Vec<Within>, token: &What) -> Option<Awaits>
    ensures { place_held result within.new.items ≡ behind_type (reverse within.old.items) token.now }
{
    match innermost(within) {
        None => None,
        Some(Within::Arguments) => {
            if is(Sign::Comma, token) {
                Some(Awaits::Type)
            } else if is(Sign::RightBracket, token) {
                within.pop();
                Some(Awaits::Behind)
            } else {
                None
            }
        }
        Some(Within::Target) => {
            if is(Sign::Comma, token) {
                within.pop();
                Some(Awaits::Region)
            } else {
                None
            }
        }
    }
}

/// What may stand behind a token, or none if the token may not stand here. What is open is then what is open
/// behind it.
fn step(awaits: Awaits, within: &mut Vec<Within>, token: &What) -> Result<Option<Awaits>, Memory>
    ensures { IfOk result (λ found.
        place_held found within.new.items ≡ next (awaits, reverse within.old.items) token.now) }
{
    match awaits {
        Awaits::Type => Ok(begin(token)),
        Awaits::Target => {
            if !is(Sign::LeftBracket, token) {
                return Ok(None);
            }
            within.push(Within::Target)?;
            Ok(Some(Awaits::Type))
        }
        Awaits::Arguments => {
            if !is(Sign::LeftBracket, token) {
                return Ok(behind(within, token));
            }
            within.push(Within::Arguments)?;
            Ok(Some(Awaits::Type))
        }
        Awaits::Behind => Ok(behind(within, token)),
        Awaits::Region => match token {
            What::Name(_) => Ok(Some(Awaits::Close)),
            _ => Ok(None),
        },
        Awaits::Close => {
            if is(Sign::RightBracket, token) {
                Ok(Some(Awaits::Behind))
            } else {
                Ok(None)
            }
        }
    }
}

/// How many tokens are left where the reading of a type stops: with the first token that doesn't continue the
/// type, or with what is behind the type.
///
/// # Errors
///
/// `Memory` when memory runs out.
pub(crate) fn tokens_left(alloc: Global, tokens: &[Token]) -> Result<usize, Memory>
    ensures { IfOk result (λ left. left ≡ stops (Some (Awaits.Type, [])) tokens.now) }
{
    let mut awaits = Awaits::Type;
    let mut within: Vec<Within> = Vec::new(alloc);
    let mut rest = tokens;
    for _ in 0..tokens.len() {
        let [token, others @ ..] = rest else {
            return Ok(0);
        };
        let Some(next) = step(awaits, &mut within, &token.what)? else {
            return Ok(rest.len());
        };
        awaits = next;
        rest = others;
    }
    Ok(0)
}
