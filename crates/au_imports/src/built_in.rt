//! The names that are built in.

ghost use Rattle.std.specs.Prelude.{◌≡◌};
ghost use Rattle.std.specs.Str.{bytes_eq};
ghost use Rattle.au_imports.specs.Clashing as clashing;
ghost use Rattle.au_types.specs.Tables.{has_name};
ghost use Rattle.au_types.specs.Senses.{built_in};

use au_types::Space;

/// Whether a name is built in: those that are, are types and regions.
pub fn is_built_in(space: Space, name: &[u8]) -> bool
    ensures { result ≡ clashing.is_built_in space name.now }
{
    match space {
        Space::Values => false,
        Space::Callables => false,
        Space::Types => is_built_in_type(name),
    }
}

/// Whether a name is that of a type or a region that is built in.
fn is_built_in_type(name: &[u8]) -> bool
    ensures { result ≡ has_name name.now built_in }
{
    is_name(name, b"Unit")
        || is_name(name, b"Bool")
        || is_name(name, b"Nat8")
        || is_name(name, b"Nat16")
        || is_name(name, b"Nat32")
        || is_name(name, b"Nat64")
        || is_name(name, b"Int8")
        || is_name(name, b"Int16")
        || is_name(name, b"Int32")
        || is_name(name, b"Int64")
        || is_name(name, b"Index")
        || is_name(name, b"Span")
        || is_name(name, b"Static")
}

/// Whether bytes are these.
fn is_name(bytes: &[u8], name: &[u8]) -> bool
    ensures { result ≡ bytes_eq bytes.now name.now }
{
    bytes == name
}
