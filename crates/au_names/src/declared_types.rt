//! The type that a declaration declares.

ghost use Rattle.std.specs.Prelude.{◌≡◌};
ghost use Rattle.au_names.specs.DeclaredTypes as spec;
ghost use Rattle.au_names.specs.Walks.{written};

use au_base::Name;
use au_syntax::{Decl, Parsed, TypeParameter, Universe};

/// The type that a declaration declares.
#[derive(Clone, Copy)]
pub struct TypeDeclared<'a> {
    /// Whether it's opaque. A record or a union isn't.
    pub opaque: bool,
    /// Its name.
    pub name: &'a Name,
    /// Its type parameters.
    pub parameters: &'a Vec<TypeParameter<Parsed>>,
    /// Its universe.
    pub universe: Universe,
}

/// The type that a declaration declares, if it declares one: those of opaque types, records and unions do.
pub fn type_declared(decl: &Decl<Parsed>) -> Option<TypeDeclared<'_>>
    ensures { spec.type_seen result ≡ spec.type_declared (written decl.now) }
{
    match decl {
        Decl::Opaque(_, name, parameters, universe) => Some(TypeDeclared {
            opaque: true,
            name: &name.name,
            parameters,
            universe: *universe,
        }),
        Decl::Record(_, name, parameters, universe, _)
        | Decl::Union(_, name, parameters, universe, _) => Some(TypeDeclared {
            opaque: false,
            name: &name.name,
            parameters,
            universe: *universe,
        }),
        _ => None,
    }
}
