//! What a name means among types.

ghost use Rattle.std.specs.Prelude.{◌≡◌};
ghost use Rattle.std.specs.List.{list_any};
ghost use Rattle.std.specs.Option.{option_map};
ghost use Rattle.std.specs.Str.{bytes_eq};
ghost use Rattle.au_types.specs.Tables.{find};
ghost use Rattle.au_types.specs.Universes as universes;
ghost use Rattle.au_types.specs.Senses as senses;
ghost use Rattle.au_types.specs.WrittenViews.{said, sense_in};

use crate::scopes::Scope;
use crate::{DeclAt, Heads, Params, Table, universe_in};
use au_base::{IntKind, Name};
use au_syntax::Universe;

/// What a name means.
#[derive(Clone, Copy)]
pub enum Sense<'a> {
    /// The type of `nil`.
    Unit,
    /// The two truth values.
    Bool,
    /// A kind of integers.
    Int(IntKind),
    /// The type parameter that has this name.
    Param,
    /// The lists of bytes and other spans, which take a type and a region.
    Span,
    /// The region of what is kept as long as the program runs.
    Static,
    /// The region that has this name: a type parameter's, or that of an open borrow statement.
    Region,
    /// A declared type, and its type parameters.
    Declared(DeclAt, &'a Params),
    /// A class.
    Class(DeclAt),
}

/// What a name means, the innermost first: a region of an open borrow statement, a type parameter, a
/// name that is built in, or a declaration that is visible. `None` where it means nothing.
pub fn sense_of<'a>(scope: &Scope<'a>, name: &Name) -> Option<Sense<'a>>
    ensures { option_map (said name.now) result ≡ sense_in scope.now name.now }
{
    if is_open(scope.regions, name) {
        return Some(Sense::Region);
    }
    match parameter_sense(scope.params, name) {
        Some(sense) => Some(sense),
        None => outer_sense(scope.names, scope.heads, name),
    }
}

/// Whether the name is that of a region of an open borrow statement.
fn is_open(regions: &[Name], name: &Name) -> bool
    ensures { result ≡ list_any (bytes_eq name.now) regions.now }
{
    regions.iter().any(|one| name.as_bytes() == one.as_bytes())
}

/// A type parameter.
fn parameter_sense<'a>(params: &Params, name: &Name) -> Option<Sense<'a>>
    ensures { option_map (said name.now) result
        ≡ option_map (senses.parameter_sense name.now) (universes.universe_in params.now name.now) }
{
    let Some(universe) = universe_in(params, name) else {
        return None;
    };
    match universe {
        Universe::Free => Some(Sense::Param),
        Universe::Linear => Some(Sense::Param),
        Universe::AnyType => Some(Sense::Param),
        Universe::Region => Some(Sense::Region),
    }
}

/// A name that is built in, or else a declaration.
fn outer_sense<'a>(names: &Table<DeclAt>, heads: &'a Heads, name: &Name) -> Option<Sense<'a>>
    ensures { option_map (said name.now) result ≡ senses.outer_sense names.now heads.now name.now }
{
    match built_in(name) {
        Some(sense) => Some(sense),
        None => visible_sense(names, heads, name),
    }
}

/// A declaration that is visible.
fn visible_sense<'a>(names: &Table<DeclAt>, heads: &'a Heads, name: &Name) -> Option<Sense<'a>>
    ensures { option_map (said name.now) result
        ≡ option_map (senses.declared_sense heads.now) (find name.now names.now) }
{
    let Some(at) = names.get(name.as_bytes()) else {
        return None;
    };
    match heads.row(*at) {
        Some(head) => Some(Sense::Declared(*at, &head.params)),
        None => Some(Sense::Class(*at)),
    }
}

/// A name that is built in.
fn built_in<'a>(name: &Name) -> Option<Sense<'a>>
    ensures { option_map (said name.now) result ≡ find name.now senses.built_in }
{
    let bytes = name.as_bytes();
    if is_name(bytes, b"Unit") {
        Some(Sense::Unit)
    } else if is_name(bytes, b"Bool") {
        Some(Sense::Bool)
    } else if is_name(bytes, b"Nat8") {
        Some(Sense::Int(IntKind::Nat8))
    } else if is_name(bytes, b"Nat16") {
        Some(Sense::Int(IntKind::Nat16))
    } else if is_name(bytes, b"Nat32") {
        Some(Sense::Int(IntKind::Nat32))
    } else if is_name(bytes, b"Nat64") {
        Some(Sense::Int(IntKind::Nat64))
    } else if is_name(bytes, b"Int8") {
        Some(Sense::Int(IntKind::Int8))
    } else if is_name(bytes, b"Int16") {
        Some(Sense::Int(IntKind::Int16))
    } else if is_name(bytes, b"Int32") {
        Some(Sense::Int(IntKind::Int32))
    } else if is_name(bytes, b"Int64") {
        Some(Sense::Int(IntKind::Int64))
    } else if is_name(bytes, b"Index") {
        Some(Sense::Int(IntKind::Index))
    } else if is_name(bytes, b"Span") {
        Some(Sense::Span)
    } else if is_name(bytes, b"Static") {
        Some(Sense::Static)
    } else {
        None
    }
}

fn is_name(bytes: &[u8], name: &[u8]) -> bool
    ensures { result ≡ bytes_eq bytes.now name.now }
{
    bytes == name
}
