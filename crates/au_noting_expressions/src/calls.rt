//! Calls, over their noted arguments.

ghost use Rattle.std.specs.Prelude.{◌≡◌, IfOk};
ghost use Rattle.au_noting.specs.Giving.{Gives};
ghost use Rattle.au_noting.specs.Modes.{wanted};
ghost use Rattle.au_noting.specs.Scopes.{scope_said};
ghost use Rattle.au_noting_expressions.specs.Made as spec;
ghost use Rattle.au_noting_expressions.specs.Said.{all_said, call_said};
ghost use Rattle.au_sights.specs.contracts.noted.NotedPhase.TheImpl.{ghosts as noted};
ghost use Rattle.au_sights.specs.Views.{note};
ghost use Rattle.au_sights.specs.Sights.{callable_said};
ghost use Rattle.au_syntax.specs.contracts.parsed.ParsedPhase.TheImpl.{ghosts as parsed};
ghost use Rattle.au_syntax.specs.Views.{argument_all, expression, node, placed};
ghost use Rattle.au_typing.specs.Search.{labelled};
ghost use Rattle.au_typing.specs.SearchCalls as search;

use crate::operands::noted_site;
use au_base::Memory;
use au_matching::Substitution;
use au_noting::called::called_note;
use au_noting::{Fault, Scope};
use au_sights::{Callable, Noted, Notes, copy_name};
use au_syntax::{Argument, Expr, Ident, Parsed, Site};
use au_types::Ty;
use std::alloc::Global;

/// The note of a call, where the rules after those on arguments hold, and its noted arguments.
///
/// # Errors
///
/// The limit or the clause that fails.
pub fn with_arguments(
    alloc: Global,
    scope: &Scope,
    mode: Option<&Ty>,
    one: &Callable,
    args: Vec<Expr<Noted>>,
    s: Substitution,
) -> Result<(Notes, Vec<Expr<Noted>>), Fault>
    ensures { Gives call_said result (search.with_arguments (scope_said scope.now)
        (wanted mode.entry) (callable_said one.now) (all_said args.items, s)) }
{
    let notes = called_note(alloc, scope, mode, one, s)?;
    Ok((notes, args))
}

/// A call with positional arguments, of its note and its noted arguments.
///
/// # Errors
///
/// Only for want of memory.
pub fn make_call(
    alloc: Global,
    site: &Site<Parsed>,
    name: &Ident<Parsed>,
    notes: Notes,
    args: Vec<Expr<Noted>>,
) -> Result<Expr<Noted>, Fault>
    ensures { Gives (expression noted) result (spec.call_made
        (node parsed site.now) (placed parsed name.now) (note notes, all_said args.items)) }
{
    let name = copy_name(alloc, name)?;
    Ok(Expr::Call(noted_site(site, notes), name, args, ()))
}

/// Noted arguments with the labels of those without notes.
fn label_arguments(
    alloc: Global,
    old: &Vec<Argument<Parsed>>,
    args: Vec<Expr<Noted>>,
) -> Result<Vec<Argument<Noted>>, Memory>
    ensures { IfOk result (λ made. argument_all noted made.items
        ≡ labelled (argument_all parsed old.now.items) (all_said args.items)) }
{
    let mut made = Vec::new(alloc);
    let mut values = args.into_iter();
    for one in old {
        let label = copy_name(alloc, &one.label)?;
        match values.next() {
            Some(value) => made.push(Argument { label, value })?,
            None => return Ok(made),
        }
    }
    Ok(made)
}

/// A call with labelled arguments, of its note and its noted arguments, in the order of the labels.
///
/// # Errors
///
/// Only for want of memory.
pub fn make_named_call(
    alloc: Global,
    site: &Site<Parsed>,
    name: &Ident<Parsed>,
    old: &Vec<Argument<Parsed>>,
    notes: Notes,
    args: Vec<Expr<Noted>>,
) -> Result<Expr<Noted>, Fault>
    ensures { Gives (expression noted) result (spec.named_call_made (node parsed site.now)
        (placed parsed name.now) (argument_all parsed old.now.items) (note notes, all_said args.items)) }
{
    let args = label_arguments(alloc, old, args)?;
    let name = copy_name(alloc, name)?;
    Ok(Expr::NamedCall(noted_site(site, notes), name, args, ()))
}
