//! The rows of instances of classes at closed types, and what they give for their type parameters.

ghost use Rattle.std.specs.Prelude.{◌≡◌, [], ◌++◌, ◌∷◌, IfOk, List, OnOk, map, option_copied};
ghost use Rattle.std.specs.Option.{option_map};
ghost use Rattle.au_closed_trees.specs.TypeNames.{type_names};
ghost use Rattle.au_type_texts.specs.Views.{closed_meaning};
ghost use Rattle.au_closing.specs.Instances as spec;
ghost use Rattle.au_type_texts.specs.GivenViews.{given_said};
ghost use Rattle.au_instances.specs.ClosedInstances.{closed_row, types_in};
ghost use Rattle.au_instances.specs.Forms as forms;
ghost use Rattle.au_instances.specs.Rows.{row_said};
ghost use Rattle.au_types.specs.Views.{argument_all, meaning};

use au_base::{Memory, Name};
use au_closed_trees::{is_region, push_given};
use au_instances::{ClassAt, Instances, Row, constructor_of_closed};
use au_type_texts::{Closed, GivenType, copy_closed, given_for};
use au_types::{Arg, Heads, Params, Ty};
use std::alloc::Global;

/// The row that gives the instance of a class at a closed type, if there is one.
pub(crate) fn row_at<'a>(
    instances: &'a Instances,
    heads: &Heads,
    class: ClassAt,
    of: &Closed,
) -> Option<&'a Row>
    ensures { option_map row_said (option_copied result)
        ≡ closed_row instances.now heads.now (closed_meaning of.now) class }
{
    instances.is_table();
    let _given = instances.instance_for(heads, class, of)?;
    instances.row_of(class, constructor_of_closed(of)?)
}

/// The arguments of a type, which a declared type alone may have.
#[tactic(auto, using(au_types::proofs::TypeLemmas::type_steps))]
fn arguments_of(of: &Ty) -> &[Arg]
    ensures { argument_all result.now ≡ forms.arguments_of (meaning of.now) }
{
    match of {
        Ty::Unit => &[],
        Ty::Bool => &[],
        Ty::Int(_) => &[],
        Ty::Text => &[],
        Ty::Param(_) => &[],
        Ty::Named { args, .. } => args.as_slice(),
        Ty::Read { .. } => &[],
        Ty::Write { .. } => &[],
    }
}

/// The closed types in a closed type.
#[tactic(auto, using(au_type_texts::proofs::ClosedLemmas::closed_steps))]
fn types_within(of: &Closed) -> &[Closed]
    ensures { map closed_meaning result.now ≡ spec.types_within (closed_meaning of.now) }
{
    match of {
        Closed::Unit => &[],
        Closed::Bool => &[],
        Closed::Int(_) => &[],
        Closed::Text => &[],
        Closed::Named { args, .. } => args.as_slice(),
        Closed::Read(_) => &[],
        Closed::Write(_) => &[],
    }
}

/// The name of a type parameter.
#[tactic(auto, using(au_types::proofs::TypeLemmas::type_steps))]
fn type_name(of: &Ty) -> Option<&Name>
    ensures { option_copied result ≡ forms.type_name (meaning of.now) }
{
    match of {
        Ty::Unit => None,
        Ty::Bool => None,
        Ty::Int(_) => None,
        Ty::Text => None,
        Ty::Param(name) => Some(name),
        Ty::Named { .. } => None,
        Ty::Read { .. } => None,
        Ty::Write { .. } => None,
    }
}

/// Puts a closed type behind others, by the name of a type that is a type parameter.
fn push_pair(alloc: Global, list: &mut Vec<GivenType>, of: &Ty, to: &Closed) -> Result<(), Memory>
    ensures { OnOk result (given_said list.new.items
        ≡ given_said list.old.items
        ++ spec.pair_before (forms.type_name (meaning of.now)) (closed_meaning to.now) []) }
{
    match type_name(of) {
        None => Ok(()),
        Some(name) => push_given(list, name.copy(alloc)?, copy_closed(alloc, to)?),
    }
}

/// Each name among the types of some arguments, which are type parameters, with the closed type in its place.
fn paired(alloc: Global, args: &[Arg], list: &[Closed]) -> Result<Vec<GivenType>, Memory>
    ensures { IfOk result (λ made.
        given_said made.items
        ≡ spec.paired (types_in (argument_all args.now)) (map closed_meaning list.now)) }
{
    let mut made = Vec::new(alloc);
    let mut at = 0;
    for one in args {
        let Arg::Of(of) = one else {
            continue;
        };
        if at >= list.len() {
            return Ok(made);
        }
        push_pair(alloc, &mut made, of, &list[at])?;
        at += 1;
    }
    Ok(made)
}

/// What is given for the type parameters that aren't regions, in declared order.
fn picked(alloc: Global, pairs: &[GivenType], params: &Params) -> Result<Vec<GivenType>, Memory>
    ensures { IfOk result (λ made.
        given_said made.items ≡ spec.picked (given_said pairs.now) (type_names params.now)) }
{
    let mut made = Vec::new(alloc);
    for index in 0..params.len() {
        let one = params.at(index);
        if is_region(one.universe) {
            continue;
        }
        let of = given_for(alloc, pairs, &one.name)?;
        push_given(&mut made, one.name.copy(alloc)?, of)?;
    }
    Ok(made)
}

/// What a row gives for its type parameters where its head becomes a closed type.
pub(crate) fn given_of_row(alloc: Global, row: &Row, of: &Closed) -> Result<Vec<GivenType>, Memory>
    ensures { IfOk result (λ made.
        given_said made.items ≡ spec.given_of_row (row_said row.now) (closed_meaning of.now)) }
{
    let pairs = paired(alloc, arguments_of(&row.head), types_within(of))?;
    picked(alloc, &pairs, row.generics.params())
}
