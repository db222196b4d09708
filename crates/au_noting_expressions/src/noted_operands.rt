//! The arguments of a call, and what a call begins with.

ghost use Rattle.std.specs.Prelude.{◌≡◌, ◌<◌, IfOk, length, slice_index_or};
ghost use Rattle.au_noting.specs.Giving.{Gives};
ghost use Rattle.au_noting.specs.Modes.{wanted};
ghost use Rattle.au_noting.specs.Said.{all_typed, meanings};
ghost use Rattle.au_noting.specs.Scopes.{scope_said};
ghost use Rattle.au_noting_expressions.specs.Arguments.{mistaken, takes, values};
ghost use Rattle.au_noting_expressions.specs.Passing.{begun_said, call_begun};
ghost use Rattle.au_typing.specs.Faults.{known_or};

use crate::argument_types::{begun, by_labels, in_order};
use au_base::Name;
use au_matching::Substitution;
use au_noting::lookups::called;
use au_noting::{Fault, Scope};
use au_sights::{Callable, Typed};
use au_syntax::{Argument, Expr, Parsed};
use au_types::Ty;
use std::alloc::Global;

/// The arguments of a call.
#[derive(Clone, Copy)]
pub(crate) enum Operands<'a> {
    /// Arguments in the order of the parameters.
    Positional(&'a Vec<Expr<Parsed>>),
    /// Arguments by the names of the parameters.
    Labelled(&'a Vec<Argument<Parsed>>),
}

/// An argument, without its label.
pub(crate) fn operand_at<'a>(ops: &Operands<'a>, index: usize) -> &'a Expr<Parsed>
    requires { index < length (values ops.now) }
    ensures { result.now ≡ slice_index_or (values ops.now) index result.now }
{
    match ops {
        Operands::Positional(args) => &args[index],
        Operands::Labelled(args) => &args[index].value,
    }
}

/// The types that the arguments get from the parameters.
///
/// # Errors
///
/// How many arguments are wanted, or that other labels are.
fn argument_types(alloc: Global, ops: &Operands, params: &[Typed]) -> Result<Vec<Ty>, Fault>
    ensures gives { Gives (λ types. meanings types.items) result (known_or
        (mistaken ops.now (all_typed params.now)) (takes ops.now (all_typed params.now))) }
    ensures lengths { IfOk result (λ types. length types.items ≡ length (values ops.now)) }
{
    match ops {
        Operands::Positional(args) => in_order(alloc, args.len(), params),
        Operands::Labelled(args) => by_labels(alloc, args.as_slice(), params),
    }
}

/// What is called, the types of its arguments, and the substitution that it begins with.
///
/// # Errors
///
/// The clause that fails.
pub(crate) fn begin_call(
    alloc: Global,
    scope: &Scope,
    mode: Option<&Ty>,
    name: &Name,
    ops: &Operands,
) -> Result<(Callable, Vec<Ty>, Substitution), Fault>
    ensures gives { Gives begun_said result (call_begun (scope_said scope.now) name.now
        (takes ops.now) (mistaken ops.now) (wanted mode.entry)) }
    ensures lengths { IfOk result (λ y. length y.1.items ≡ length (values ops.now)) }
{
    let one = called(alloc, scope, name)?;
    let types = argument_types(alloc, ops, one.parameters.as_slice())?;
    let s = begun(alloc, mode, &one.result)?;
    Ok((one, types, s))
}
