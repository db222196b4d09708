//! Where the declarations of a program stand.

ghost use Rattle.std.specs.Prelude.{◌≡◌, length, slice_get};
ghost use Rattle.std.specs.Option.{option_copied};
ghost use Rattle.au_names.specs.Walks.{written, written_all};
ghost use Rattle.au_modules.specs.Seen.{body_tree, interface_tree, tree_seen};
ghost use Rattle.au_modules.specs.Slots as slots;
ghost use Rattle.au_names.specs.Exporting.{declarations_seen};
ghost use Rattle.au_names.specs.Standing as spec;
ghost use Rattle.au_names.specs.Standing.{standing_from, standing_seen};

use crate::declared_types::type_declared;
use crate::trees::tree_of;
use au_base::Name;
use au_modules::Modules;
use au_syntax::{Decl, Parsed, Part, Whole};
use au_types::DeclAt;

/// A declaration of a program, with where it stands.
#[derive(Clone, Copy)]
pub struct Declared<'a> {
    /// The place of its module.
    pub place: u16,
    /// The part of the module.
    pub part: Part,
    /// Its index among the declarations of that part.
    pub index: usize,
    /// The declaration.
    pub decl: &'a Decl<Parsed>,
}

/// The interface of the module at a place, if there is one.
fn interface_at(modules: &Modules, place: u16) -> Option<&Whole<Parsed>>
    ensures { tree_seen result ≡ interface_tree (slice_get (slots.modules modules.now) place) }
{
    if (place as usize) < modules.len() {
        modules.interface(place as usize)
    } else {
        None
    }
}

/// The body of the module at a place, if there is one.
pub(crate) fn body_at(modules: &Modules, place: u16) -> Option<&Whole<Parsed>>
    ensures { tree_seen result ≡ body_tree (slice_get (slots.modules modules.now) place) }
{
    if (place as usize) < modules.len() {
        modules.body(place as usize)
    } else {
        None
    }
}

/// How many declarations a file has, if it is there.
pub(crate) fn count_in(file: Option<&Whole<Parsed>>) -> usize
    ensures { result ≡ length (declarations_seen (tree_seen file.entry)) }
{
    match file {
        None => 0,
        Some(file) => tree_of(file).declarations.len(),
    }
}

/// The declaration of an index in the file of a part of the module at a place, if both are there.
pub(crate) fn declared_in<'a>(
    place: u16,
    part: Part,
    file: Option<&'a Whole<Parsed>>,
    index: usize,
) -> Option<Declared<'a>>
    ensures { standing_seen result
        ≡ slice_get (standing_from place part 0 (declarations_seen (tree_seen file.entry))) index }
{
    match file {
        None => None,
        Some(file) => declared_at(place, part, &tree_of(file).declarations, index),
    }
}

/// The declaration of an index among those of a part of the module at a place, if it is there.
fn declared_at<'a>(
    place: u16,
    part: Part,
    decls: &'a Vec<Decl<Parsed>>,
    index: usize,
) -> Option<Declared<'a>>
    ensures { standing_seen result
        ≡ slice_get (standing_from place part 0 (written_all decls.now.items)) index }
{
    match decls.get(index) {
        None => None,
        Some(decl) => Some(Declared {
            place,
            part,
            index,
            decl,
        }),
    }
}

/// The declaration with this module and number, if it is there: those of an interface are counted from 0, and
/// those of the body of its module behind them.
pub fn declaration(modules: &Modules, at: DeclAt) -> Option<Declared<'_>>
    ensures { standing_seen result ≡ spec.standing_at (slots.modules modules.now) at }
{
    let interface = interface_at(modules, at.module);
    let first = count_in(interface);
    let number = at.decl as usize;
    if number < first {
        declared_in(at.module, Part::Interface, interface, number)
    } else {
        let body = body_at(modules, at.module);
        declared_in(at.module, Part::Body, body, number - first)
    }
}

/// The name of an opaque type.
pub(crate) fn opaque_name(decl: &Decl<Parsed>) -> Option<&Name>
    ensures { option_copied result ≡ spec.opaque_name (written decl.now) }
{
    match type_declared(decl) {
        None => None,
        Some(one) => { if one.opaque { Some(one.name) } else { None } }
    }
}

/// The name of a record or a union.
pub(crate) fn whole_name(decl: &Decl<Parsed>) -> Option<&Name>
    ensures { option_copied result ≡ spec.whole_name (written decl.now) }
{
    match type_declared(decl) {
        None => None,
        Some(one) => { if one.opaque { None } else { Some(one.name) } }
    }
}
