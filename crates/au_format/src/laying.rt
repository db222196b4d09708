//! Lays a file out, piece by piece.

ghost use Rattle.std.specs.Prelude.{◌+◌, ◌^◌, ◌<◌, ◌≤◌, length, IfOk};
ghost use Rattle.au_lexer.specs.Cut.{Cut};
ghost use Rattle.au_format.specs.Layout.{IsLayout};
ghost use Rattle.au_format.specs.Places.{AddsToken, HasLaid, first_size};

use crate::adding::{add_end, add_remark, add_token};
use crate::fronts::{Front, front_at};
use crate::kinds::{first_kind, kind_of, spelled_size};
use crate::places::Place;
use crate::remarks::trimmed;
use crate::standings::Previous;
use au_base::{Memory, Token};
use std::alloc::Global;

/// The layout of a file, whose number is `file` and whose tokens are these.
///
/// # Errors
///
/// `Memory` when memory runs out.
pub fn lay_out(alloc: Global, file: u16, bytes: &[u8], tokens: &[Token]) -> Result<Vec<u8>, Memory>
    requires { Cut file bytes.now tokens.now }
    ensures { IfOk result (λ text. IsLayout bytes.now text.items) }
{
    let mut text = Vec::new(alloc);
    let mut place = Place::start();
    while place.done < bytes.len() {
        place = add_piece(&mut text, place, bytes, tokens)?;
    }
    add_end(&mut text, place.last)?;
    Ok(text)
}

/// Adds the piece at a place, with what stands before it, and gives the place behind it.
fn add_piece(
    text: &mut Vec<u8>,
    place: Place,
    bytes: &[u8],
    tokens: &[Token],
) -> Result<Place, Memory>
    requires laid { HasLaid bytes.now tokens.now text.old.items place }
    requires more { place.done < length bytes.now }
    requires short { length bytes.now + 1 < 2 ^ 64 }
    ensures laid { IfOk result (λ after. HasLaid bytes.now tokens.now text.new.items after) }
    ensures further { IfOk result (λ after. place.done < after.done) }
{
    let rest = &bytes[place.done..];
    match front_at(rest) {
        Front::Blank => Ok(place.behind_blank(rest[0])),
        Front::Comment(size) => {
            add_remark(text, place, trimmed(&rest[..size]))?;
            Ok(place.behind_remark(Previous::Comment, size))
        }
        Front::Docstring(size) => {
            add_remark(text, place, &rest[..size])?;
            Ok(place.behind_remark(Previous::Docstring, size))
        }
        Front::Token => add_next_token(text, place, rest, &tokens[place.tokens..]),
    }
}

/// Adds the first of these tokens, which stands at the front of these bytes.
fn add_next_token(
    text: &mut Vec<u8>,
    place: Place,
    rest: &[u8],
    tokens: &[Token],
) -> Result<Place, Memory>
    requires some { 0 < length tokens.now }
    requires size { first_size tokens.now ≤ length rest.now }
    requires done { place.done + length rest.now < 2 ^ 64 }
    requires tokens { place.tokens + length tokens.now < 2 ^ 64 }
    requires levels { place.standing.levels + 1 < 2 ^ 64 }
    requires choices { place.standing.choices + 1 < 2 ^ 64 }
    ensures { IfOk result (λ after. AddsToken text.old.items text.new.items place after rest.now tokens.now) }
{
    let what = &tokens[0].what;
    let kind = kind_of(what);
    let next = first_kind(&tokens[1..]);
    let size = spelled_size(what);
    add_token(text, place, kind, next, &rest[..size])?;
    Ok(place.behind_token(kind, next, size))
}
