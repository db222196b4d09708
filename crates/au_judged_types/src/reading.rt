//! What type parameters behind `generic` mean.

ghost use Rattle.std.specs.Prelude.{◌≡◌, ◌++◌, IfOk, OnOk, Some, map, option_to_list};
ghost use Rattle.au_judged_types.specs.Meanings as spec;
ghost use Rattle.au_judged_types.specs.GenericViews.{class_within, generic_said, generics_said, names_said};
ghost use Rattle.au_judged_types.specs.GenericViews.{name_said, parameter_said};
ghost use Rattle.au_syntax.specs.Plain.{Bytes};
ghost use Rattle.au_types.specs.WrittenViews.{said};

use crate::bounds::Generics;
use au_base::{Memory, Name, Pos, Sequence};
use au_syntax::{Generic, Ident, Parsed, TypeParameter, Universe};
use au_types::{DeclAt, Heads, Parameter, Params, Scope, Sense, Table, sense_of};
use std::alloc::Global;

/// What is wrong with type parameters.
#[derive(Clone, Copy)]
pub enum Misfit {
    /// A name that stands for a class means none. The place of the name.
    NoClass(Pos),
    /// A type parameter with constraints is a region. The place of its name.
    OfRegion(Pos),
}

/// What type parameters behind `generic` mean.
#[derive(Drop)]
pub enum Meant {
    /// The type parameters with their classes.
    Are(Generics),
    /// Nothing, for what is first wrong in the order of the text.
    Fails(Misfit),
}

/// A type parameter as it is written.
fn parameter_of(alloc: Global, one: &TypeParameter<Parsed>) -> Result<Parameter, Memory>
    ensures { IfOk result (λ made. made ≡ spec.parameter (parameter_said one.now)) }
{
    let universe = one.universe;
    let name = one.name.name.copy(alloc)?;
    Ok(Parameter { name, universe })
}

/// The type parameters as they are written.
fn params_of(alloc: Global, written: &[Generic<Parsed>]) -> Result<Params, Memory>
    ensures { IfOk result (λ params. params ≡ spec.written_params (generics_said written.now)) }
{
    let mut params = Params::new(alloc);
    for one in written {
        params.push(parameter_of(alloc, &one.parameter)?)?;
    }
    Ok(params)
}

/// The class that a sense is, if it is one.
fn class_in(sense: &Sense) -> Option<DeclAt>
    ensures { (name : Bytes) → result ≡ spec.class_in (Some (said name sense.now)) }
{
    match sense {
        Sense::Unit => None,
        Sense::Bool => None,
        Sense::Int(_) => None,
        Sense::Param => None,
        Sense::Span => None,
        Sense::Static => None,
        Sense::Region => None,
        Sense::Declared(_, _) => None,
        Sense::Class(at) => Some(*at),
    }
}

/// The class that a name means, if it means one.
fn class_of(scope: &Scope, name: &Name) -> Option<DeclAt>
    ensures { result ≡ class_within scope.now name.now }
{
    match sense_of(scope, name) {
        Some(sense) => class_in(&sense),
        None => None,
    }
}

/// What is wrong with a name in a constraint, if it means no class.
fn name_misfit(scope: &Scope, one: &Ident<Parsed>) -> Option<Misfit>
    ensures { result ≡ spec.name_misfit (class_within scope.now) (name_said one.now) }
{
    match class_of(scope, &one.name) {
        Some(_) => None,
        None => Some(Misfit::NoClass(one.at)),
    }
}

/// What is wrong with the first name that means no class, if there is one.
fn no_class(scope: &Scope, names: &Vec<Ident<Parsed>>) -> Option<Misfit>
    ensures { result ≡ spec.no_class (class_within scope.now) (names_said names.now.items) }
{
    for one in names {
        if let Some(found) = name_misfit(scope, one) {
            return Some(found);
        }
    }
    None
}

/// Whether a type parameter of this universe with these constraints is a region that has any.
fn is_constrained_region(universe: Universe, classes: &Vec<Ident<Parsed>>) -> bool
    ensures { result ≡ spec.is_constrained_region universe (names_said classes.now.items) }
{
    match universe {
        Universe::Free => false,
        Universe::Linear => false,
        Universe::AnyType => false,
        Universe::Region => !classes.is_empty(),
    }
}

/// What is wrong with a type parameter, if anything is.
fn misfit_of(scope: &Scope, one: &Generic<Parsed>) -> Option<Misfit>
    ensures { result ≡ spec.misfit_of (class_within scope.now) (generic_said one.now) }
{
    if is_constrained_region(one.parameter.universe, &one.classes) {
        Some(Misfit::OfRegion(one.parameter.name.at))
    } else {
        no_class(scope, &one.classes)
    }
}

/// What is first wrong with type parameters, if anything is.
fn first_misfit(scope: &Scope, written: &[Generic<Parsed>]) -> Option<Misfit>
    ensures { result ≡ spec.first_misfit (class_within scope.now) (generics_said written.now) }
{
    for one in written {
        if let Some(found) = misfit_of(scope, one) {
            return Some(found);
        }
    }
    None
}

/// Puts a class, if it is one.
fn push_class(classes: &mut Sequence<DeclAt>, found: Option<DeclAt>) -> Result<(), Memory>
    ensures { OnOk result (classes.new ≡ classes.old ++ option_to_list found) }
{
    match found {
        Some(at) => classes.push(at),
        None => Ok(()),
    }
}

/// The classes that names mean.
fn classes_meant(
    alloc: Global,
    scope: &Scope,
    names: &Vec<Ident<Parsed>>,
) -> Result<Sequence<DeclAt>, Memory>
    ensures { IfOk result (λ classes.
        classes ≡ spec.classes_meant (class_within scope.now) (names_said names.now.items)) }
{
    let mut classes = Sequence::new(alloc);
    for one in names {
        push_class(&mut classes, class_of(scope, &one.name))?;
    }
    Ok(classes)
}

/// The classes of each type parameter.
fn all_classes(
    alloc: Global,
    scope: &Scope,
    written: &[Generic<Parsed>],
) -> Result<Vec<Sequence<DeclAt>>, Memory>
    ensures { IfOk result (λ all.
        all.items ≡ map (spec.constraints (class_within scope.now)) (generics_said written.now)) }
{
    let mut all = Vec::new(alloc);
    for one in written {
        all.push(classes_meant(alloc, scope, &one.classes)?)?;
    }
    Ok(all)
}

/// What type parameters behind `generic` mean, among the names of types and classes that are visible and
/// the rows of the declared types of the program. A class is a declaration that is visible and has no row,
/// under a name that is neither built in nor that of one of the type parameters.
///
/// # Errors
///
/// Only for want of memory.
pub fn generics_of(
    alloc: Global,
    visible: &Table<DeclAt>,
    heads: &Heads,
    written: &[Generic<Parsed>],
) -> Result<Meant, Memory>
    ensures { IfOk result (λ meant.
        meant ≡ spec.generics_meant visible.now heads.now (generics_said written.now)) }
{
    let params = params_of(alloc, written)?;
    let scope = Scope {
        regions: &[],
        params: &params,
        names: visible,
        heads,
    };
    match first_misfit(&scope, written) {
        Some(found) => Ok(Meant::Fails(found)),
        None => {
            let classes = all_classes(alloc, &scope, written)?;
            Ok(Meant::Are(Generics::of(params, classes)))
        }
    }
}
