//! Names that come from elsewhere.

ghost use Rattle.std.specs.Prelude.{◌≡◌, Option};
ghost use Rattle.std.specs.Option.{option_copied};
ghost use Rattle.au_rules.specs.Outside as spec;

use crate::marks::Kind;
use au_imports::built_in::is_built_in;
use au_names::PartNames;
use au_types::{DeclAt, Space};

/// A part of a module that declares names.
#[derive(Clone, Copy)]
pub struct Here<'a> {
    /// The place of the module.
    pub place: usize,
    /// What names mean in the part.
    pub names: &'a PartNames,
}

/// Whether a declaration is one of another module than that at a place.
fn is_foreign(place: usize, found: Option<&DeclAt>) -> bool
    ensures { result ≡ spec.is_foreign place (option_copied found.entry) }
{
    match found {
        None => false,
        Some(at) => at.module as usize != place,
    }
}

/// Whether a name is in scope in all of a part and comes from elsewhere.
pub fn is_outside(here: &Here, kind: Kind, name: &[u8]) -> bool
    ensures { result ≡ spec.is_outside_of here.now kind name.now }
{
    match kind {
        Kind::Values => is_foreign(here.place, here.names.values.get(name)),
        Kind::Callables => false,
        Kind::Types => {
            is_built_in(Space::Types, name) || is_foreign(here.place, here.names.types.get(name))
        }
        Kind::Fields => false,
    }
}
