//! What an import brings under a name that means something else before it.

ghost use Rattle.std.specs.Prelude.{◌≡◌, ◌<◌, Some, length, slice_get};
ghost use Rattle.std.specs.Option.{option_copied};
ghost use Rattle.au_modules.specs.Programs.{ModuleParts};
ghost use Rattle.au_imports.specs.Clashing as spec;
ghost use Rattle.au_imports.specs.Importers as importers;
ghost use Rattle.au_imports.specs.Importers.{IsFrom, IsOf, IsReady, clashes_in, program_of};
ghost use Rattle.au_names.specs.Owned.{target};
ghost use Rattle.au_types.specs.Tables.{find};

use crate::brought::{Brought, brought_in};
use crate::built_in::is_built_in;
use crate::offers::Offers;
use au_modules::Modules;
use au_names::exports::offered_names;
use au_names::{Target, in_space};
use au_syntax::Part;
use au_types::{DeclAt, Space};

/// A part of a module whose imports are looked at, with what is known of its program.
#[derive(Clone, Copy)]
pub struct Importer<'a> {
    /// The modules.
    pub modules: &'a Modules,
    /// What their interfaces offer.
    pub offers: &'a Offers,
    /// What the imports of the part bring.
    pub brought: &'a Brought,
    /// The place of the module.
    pub place: usize,
    /// The part.
    pub part: Part,
}

/// The number of the first declaration that brings in a name, in the interface of the module at a place.
pub fn first_offered(importer: &Importer, place: usize, space: Space, name: &[u8]) -> Option<u32>
    requires ready { IsReady importer.now }
    requires within { place < length (program_of importer.now) }
    ensures { (m : ModuleParts) → IsFrom importer.now place m → result ≡ spec.first_offered space m name.now }
{
    let names = offered_names(&importer.offers.exports, place, space);
    names.get(name).copied()
}

/// The number of the last declaration that brings in a name, in the interface of the module at a place.
pub fn last_offered(importer: &Importer, place: usize, space: Space, name: &[u8]) -> Option<u32>
    requires ready { IsReady importer.now }
    requires within { place < length (program_of importer.now) }
    ensures { (m : ModuleParts) → IsFrom importer.now place m → result ≡ spec.last_offered space m name.now }
{
    let tables = &importer.offers.lasts[place];
    let names = in_space(tables, space);
    names.get(name).copied()
}

/// Whether a meaning is there, and isn't this declaration, or its case or method of a name.
fn is_other(meaning: Option<&Target>, at: DeclAt, name: &[u8]) -> bool
    ensures { result ≡ spec.is_other (option_copied meaning.entry) (target at.«module» name.now at.decl) }
{
    match meaning {
        None => false,
        Some(other) => {
            let same = other.at.module == at.module && other.at.decl == at.decl;
            !(same && other.name.as_bytes() == name)
        }
    }
}

/// Whether something else is pervasive under a name.
fn is_other_pervasive(
    importer: &Importer,
    space: Space,
    local: &[u8],
    at: DeclAt,
    name: &[u8],
) -> bool
    requires { IsReady importer.now }
    ensures { result ≡ spec.is_other (importers.pervasive_in importer.now space local.now)
        (target at.«module» name.now at.decl) }
{
    match first_offered(importer, 0, space, local) {
        None => false,
        Some(number) => {
            let same = 0 == at.module && number == at.decl;
            !(same && local == name)
        }
    }
}

/// Whether imports bring something else under a name before.
fn is_other_brought(
    importer: &Importer,
    space: Space,
    local: &[u8],
    at: DeclAt,
    name: &[u8],
) -> bool
    requires { IsReady importer.now }
    ensures { (m : ModuleParts) → IsOf importer.now m
        → result ≡ spec.is_other (find local.now (importers.brought_by importer.now m space))
        (target at.«module» name.now at.decl) }
{
    let table = brought_in(importer.brought, space);
    is_other(table.get(local), at, name)
}

/// Whether the interface declares a name before.
fn is_declared_before(importer: &Importer, space: Space, name: &[u8]) -> bool
    requires { IsReady importer.now }
    ensures { (m : ModuleParts) → IsOf importer.now m
        → result ≡ importers.is_declared_in importer.now m space name.now }
{
    match importer.part {
        Part::Interface => false,
        Part::Body => first_offered(importer, importer.place, space, name).is_some(),
    }
}

/// Whether a declaration, or its case or method of a name, clashes where imports bring it under a local name.
pub fn import_clashes(
    importer: &Importer,
    space: Space,
    local: &[u8],
    at: DeclAt,
    name: &[u8],
) -> bool
    requires { IsReady importer.now }
    ensures { (m : ModuleParts) → IsOf importer.now m
        → result ≡ clashes_in importer.now m space local.now (target at.«module» name.now at.decl) }
{
    is_built_in(space, local)
        || is_other_pervasive(importer, space, local, at, name)
        || is_other_brought(importer, space, local, at, name)
        || is_declared_before(importer, space, local)
}
