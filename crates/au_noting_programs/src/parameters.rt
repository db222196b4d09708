//! The type parameters of a declaration with the classes of their constraints.

ghost use Rattle.std.specs.Prelude.{◌≡◌, ◌++◌, IfOk, OnOk, Some, map, option_to_list};
ghost use Rattle.au_typing.specs.Bodies as bodies;
ghost use Rattle.au_judged_types.specs.Meanings as spec;
ghost use Rattle.au_judged_types.specs.GenericViews.{class_within};
ghost use Rattle.au_sights.specs.Sights.{outside_seen};
ghost use Rattle.au_syntax.specs.contracts.parsed.ParsedPhase.TheImpl.{ghosts as parsed};
ghost use Rattle.au_syntax.specs.Plain.{Bytes};
ghost use Rattle.au_syntax.specs.Views.{constrained, in_universe, placed};
ghost use Rattle.au_types.specs.WrittenViews.{said};

use au_base::{Memory, Name, Sequence};
use au_judged_types::Generics;
use au_sights::Surroundings;
use au_syntax::{Generic, Ident, Parsed, TypeParameter};
use au_types::{DeclAt, Parameter, Params, Scope, Sense, sense_of};
use std::alloc::Global;

/// A type parameter as it is written.
fn parameter_of(alloc: Global, one: &TypeParameter<Parsed>) -> Result<Parameter, Memory>
    ensures { IfOk result (λ made. made ≡ spec.parameter (in_universe parsed one.now)) }
{
    let universe = one.universe;
    let name = one.name.name.copy(alloc)?;
    Ok(Parameter { name, universe })
}

/// The type parameters as they are written.
fn params_of(alloc: Global, written: &Vec<Generic<Parsed>>) -> Result<Params, Memory>
    ensures { IfOk result (λ params. params
        ≡ spec.written_params (map (constrained parsed) written.now.items)) }
{
    let mut params = Params::new(alloc);
    for one in written {
        params.push(parameter_of(alloc, &one.parameter)?)?;
    }
    Ok(params)
}

/// The class that a sense is, if it is one.
fn class_in(sense: &Sense) -> Option<DeclAt>
    ensures { (name : Bytes) → result ≡ spec.class_in (Some (said name sense.now)) }
{
    match sense {
        Sense::Unit => None,
        Sense::Bool => None,
        Sense::Int(_) => None,
        Sense::Param => None,
        Sense::Span => None,
        Sense::Static => None,
        Sense::Region => None,
        Sense::Declared(_, _) => None,
        Sense::Class(at) => Some(*at),
    }
}

/// The class that a name means, if it means one.
fn class_of(scope: &Scope, name: &Name) -> Option<DeclAt>
    ensures { result ≡ class_within scope.now name.now }
{
    match sense_of(scope, name) {
        Some(sense) => class_in(&sense),
        None => None,
    }
}

/// Puts a class, if it is one.
fn push_class(classes: &mut Sequence<DeclAt>, found: Option<DeclAt>) -> Result<(), Memory>
    ensures { OnOk result (classes.new ≡ classes.old ++ option_to_list found) }
{
    match found {
        Some(at) => classes.push(at),
        None => Ok(()),
    }
}

/// The classes that names mean.
fn classes_meant(
    alloc: Global,
    scope: &Scope,
    names: &Vec<Ident<Parsed>>,
) -> Result<Sequence<DeclAt>, Memory>
    ensures { IfOk result (λ classes. classes
        ≡ spec.classes_meant (class_within scope.now) (map (placed parsed) names.now.items)) }
{
    let mut classes = Sequence::new(alloc);
    for one in names {
        push_class(&mut classes, class_of(scope, &one.name))?;
    }
    Ok(classes)
}

/// The classes of each type parameter.
fn all_classes(
    alloc: Global,
    scope: &Scope,
    written: &Vec<Generic<Parsed>>,
) -> Result<Vec<Sequence<DeclAt>>, Memory>
    ensures { IfOk result (λ all. all.items
        ≡ map (spec.constraints (class_within scope.now)) (map (constrained parsed) written.now.items)) }
{
    let mut all = Vec::new(alloc);
    for one in written {
        all.push(classes_meant(alloc, scope, &one.classes)?)?;
    }
    Ok(all)
}

/// The type parameters of a declaration in a part of a module, each with the classes that its constraints
/// mean there; what means no class is left out.
pub(crate) fn generics_in(
    alloc: Global,
    outside: &Surroundings,
    written: &Vec<Generic<Parsed>>,
) -> Result<Generics, Memory>
    ensures { IfOk result (λ generics. generics
        ≡ bodies.generics_in (outside_seen outside.now) (map (constrained parsed) written.now.items)) }
{
    let params = params_of(alloc, written)?;
    let scope = Scope {
        regions: &[],
        params: &params,
        names: &outside.names.types,
        heads: outside.program.heads_ref(),
    };
    let classes = all_classes(alloc, &scope, written)?;
    Ok(Generics::of(params, classes))
}
