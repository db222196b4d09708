//! Which row gives the instance of a class at a closed type.

ghost use Rattle.std.specs.Prelude.{◌≡◌, Some, length, slice_get, option_copied, unwrap_or, []};
ghost use Rattle.std.specs.List.{list_all};
ghost use Rattle.std.specs.Option.{option_map};
ghost use Rattle.au_types.specs.Universes as universes;
ghost use Rattle.au_types.specs.Views.{argument_all, meaning};
ghost use Rattle.au_type_texts.specs.Closing.{closed};
ghost use Rattle.au_type_texts.specs.Types.{reads, writes};
ghost use Rattle.au_type_texts.specs.Views.{closed_meaning, closed_meanings};
ghost use Rattle.au_judged_types.specs.Bounds as bounds;
ghost use Rattle.au_instances.specs.ClosedInstances as spec;
ghost use Rattle.au_instances.specs.Constructors as constructors;
ghost use Rattle.au_instances.specs.Forms as forms;
ghost use Rattle.au_instances.specs.Rows.{row_said};

use crate::constructors::{Constructor, constructor_of, constructor_of_closed};
use crate::forms::{arguments_of, type_name};
use crate::instances::Instances;
use crate::rows::{ClassAt, Row};
use crate::universes::closed_universe;
use au_base::Name;
use au_judged_types::Generics;
use au_matching::takes;
use au_type_texts::Closed;
use au_types::{Arg, Heads, Params, Ty, universe_in};

/// The row that gives the instance of a class at a closed type.
#[cycle(closed_row)]
pub(crate) fn closed_row<'a>(
    of: &Closed,
    instances: &'a Instances,
    heads: &Heads,
    class: ClassAt,
) -> Option<&'a Row>
    ensures { option_map row_said (option_copied result)
        ≡ spec.closed_row instances.now heads.now (closed_meaning of.now) class }
{
    let row = instances.row_of(class, constructor_of_closed(of)?)?;
    if gives(of, instances, heads, row) {
        Some(row)
    } else {
        None
    }
}

/// Whether the head of a row becomes a closed type, and the row's constraints hold.
#[tactic(auto, using(au_type_texts::proofs::ClosedLemmas::closed_steps))]
#[cycle(closed_row)]
fn gives(of: &Closed, instances: &Instances, heads: &Heads, row: &Row) -> bool
    ensures { let t = closed_meaning of.now in
        result
        ≡ spec.gives heads.now row.now.generics (meaning row.now.head) t
        (spec.parts_in instances.now heads.now t) }
{
    if row.generics.len() == 0 {
        return closes_to(of, &row.head);
    }
    let names = arguments_of(&row.head);
    match of {
        Closed::Named { args, .. } => all_stand(args, instances, heads, &row.generics, names),
        _ => type_count(names) == 0,
    }
}

/// Whether closed types may stand for the types among the arguments of a head, which are type parameters,
/// each for that in its place, and have the classes of these.
#[cycle(closed_row)]
fn all_stand(
    args: &Vec<Closed>,
    instances: &Instances,
    heads: &Heads,
    generics: &Generics,
    names: &[Arg],
) -> bool
    ensures { result ≡ spec.all_closed_stand heads.now generics.now
        (spec.types_in (argument_all names.now))
        (spec.parts_of instances.now heads.now (closed_meanings args.now.items)) }
{
    if args.len() != type_count(names) {
        return false;
    }
    for (index, one) in args.iter().enumerate() {
        let Some(name) = nth_type(names, index) else {
            unreachable!()
        };
        if !stands(one, instances, heads, generics, name) {
            return false;
        }
    }
    true
}

/// Whether a closed type may stand for another, which is a type parameter of these, and has its classes.
#[cycle(closed_row)]
fn stands(
    one: &Closed,
    instances: &Instances,
    heads: &Heads,
    generics: &Generics,
    name: &Ty,
) -> bool
    ensures { result ≡ spec.closed_stands heads.now generics.now (forms.type_name (meaning name.now))
        (spec.part_of instances.now heads.now (closed_meaning one.now)) }
{
    let Some(name) = type_name(name) else {
        return false;
    };
    is_taken(heads, generics.params(), name, one)
        && have_instances(one, instances, heads, classes_of(generics, name))
}

/// Whether each of these classes has an instance at a closed type.
#[cycle(closed_row)]
fn have_instances(one: &Closed, instances: &Instances, heads: &Heads, classes: &[ClassAt]) -> bool
    ensures { result
        ≡ list_all (spec.has_instance instances.now heads.now (closed_meaning one.now)) classes.now }
{
    for class in classes {
        if closed_row(one, instances, heads, *class).is_none() {
            return false;
        }
    }
    true
}

/// The classes of a type parameter.
fn classes_of<'a>(generics: &'a Generics, name: &Name) -> &'a [ClassAt]
    ensures { result.now ≡ unwrap_or (bounds.classes_of generics.now name.now) [] }
{
    match generics.classes_of(name) {
        Some(classes) => classes,
        None => &[],
    }
}

/// Whether the parameter of a name takes a closed type.
fn is_taken(heads: &Heads, params: &Params, name: &Name, one: &Closed) -> bool
    ensures { result
        ≡ spec.closed_taken heads.now (universes.universe_in params.now name.now) (closed_meaning one.now) }
{
    match universe_in(params, name) {
        Some(universe) => takes(universe, closed_universe(heads, one)),
        None => false,
    }
}

/// How many of the arguments are types.
fn type_count(args: &[Arg]) -> usize
    ensures { result ≡ length (spec.types_in (argument_all args.now)) }
{
    let mut count = 0;
    for one in args {
        match one {
            Arg::Of(_) => count += 1,
            Arg::In(_) => {}
        }
    }
    count
}

/// The type among the arguments that so many others stand before, if there is one.
fn nth_type(args: &[Arg], place: usize) -> Option<&Ty>
    ensures { option_map meaning (option_copied result)
        ≡ slice_get (spec.types_in (argument_all args.now)) place }
{
    let mut left = place;
    for one in args {
        let Arg::Of(of) = one else {
            continue;
        };
        if left == 0 {
            return Some(of);
        }
        left -= 1;
    }
    None
}

/// Whether a type closes to a closed type.
#[tactic(auto, using(au_type_texts::proofs::ClosedLemmas::closed_steps))]
#[cycle(closes_to)]
fn closes_to(target: &Closed, of: &Ty) -> bool
    ensures { result ≡ spec.closes_to (closed (meaning of.now)) (closed_meaning target.now) }
{
    match target {
        Closed::Unit => is_headed(Constructor::Unit, of),
        Closed::Bool => is_headed(Constructor::Bool, of),
        Closed::Int(kind) => is_headed(Constructor::Int(*kind), of),
        Closed::Text => is_headed(Constructor::Text, of),
        Closed::Named { of: at, args } => {
            is_headed(Constructor::Declared(*at), of) && all_close_to(args, arguments_of(of))
        }
        Closed::Read(to) => read_closes_to(to, of),
        Closed::Write(to) => write_closes_to(to, of),
    }
}

/// Whether a type is a reference that reads, and what is behind it closes to a closed type.
#[cycle(closes_to)]
fn read_closes_to(target: &Closed, of: &Ty) -> bool
    ensures { result ≡ spec.closes_to (closed (meaning of.now)) (reads (closed_meaning target.now)) }
{
    match of {
        Ty::Read { to, .. } => closes_to(target, to),
        _ => false,
    }
}

/// Whether a type is a reference that writes, and what is behind it closes to a closed type.
#[cycle(closes_to)]
fn write_closes_to(target: &Closed, of: &Ty) -> bool
    ensures { result ≡ spec.closes_to (closed (meaning of.now)) (writes (closed_meaning target.now)) }
{
    match of {
        Ty::Write { to, .. } => closes_to(target, to),
        _ => false,
    }
}

/// Whether the types among arguments close to closed types, each to that in its place.
#[cycle(closes_to)]
fn all_close_to(targets: &Vec<Closed>, args: &[Arg]) -> bool
    ensures { result
        ≡ spec.all_close_to (spec.types_in (argument_all args.now)) (closed_meanings targets.now.items) }
{
    if targets.len() != type_count(args) {
        return false;
    }
    for (index, one) in targets.iter().enumerate() {
        let Some(of) = nth_type(args, index) else {
            unreachable!()
        };
        if !closes_to(one, of) {
            return false;
        }
    }
    true
}

/// Whether a constructor heads a type.
fn is_headed(constructor: Constructor, of: &Ty) -> bool
    ensures { result
        ≡ constructors.is_constructor constructor (constructors.constructor_of (meaning of.now)) }
{
    match constructor_of(of) {
        Some(other) => constructor == other,
        None => false,
    }
}
