//! Whether arguments fit in universe.

ghost use Rattle.std.specs.Prelude.{◌≡◌, IfOk};
ghost use Rattle.std.specs.Option.{option_map};
ghost use Rattle.au_syntax.specs.declared.declarations.Universe.TheVariants as universes;
ghost use Rattle.au_types.specs.Types.{of_type};
ghost use Rattle.au_types.specs.Views.{argument, argument_all, meaning};
ghost use Rattle.au_judged_types.specs.Views.{ArgumentStandsIn, StandForIn, StandsIn, first_unfit_in, reason};
ghost use Rattle.au_judged_types.specs.Views.{unfit_in};

use crate::reasons::Reason;
use au_base::Memory;
use au_matching::{takes, universe_of};
use au_syntax::Universe;
use au_types::{Arg, Params, Scope, Ty, copy_type};
use std::alloc::Global;

/// Why the first of the arguments that don't fit type parameters in universe doesn't, if one doesn't.
pub(crate) fn first_unfit(
    alloc: Global,
    scope: &Scope,
    expected: &Params,
    args: &Vec<Arg>,
) -> Result<Option<Reason>, Memory>
    requires { StandForIn scope.now expected.now (argument_all args.now.items) }
    ensures { IfOk result (λ why. option_map reason why
        ≡ first_unfit_in scope.now expected.now (argument_all args.now.items)) }
{
    for (index, one) in args.iter().enumerate() {
        let wanted = expected.at(index).universe;
        match unfit(alloc, scope, wanted, one)? {
            Some(why) => return Ok(Some(why)),
            None => {}
        }
    }
    Ok(None)
}

/// Why an argument doesn't fit a type parameter in universe, if it doesn't.
fn unfit(
    alloc: Global,
    scope: &Scope,
    wanted: Universe,
    one: &Arg,
) -> Result<Option<Reason>, Memory>
    requires { ArgumentStandsIn scope.now (argument one.now) }
    ensures { IfOk result (λ why. option_map reason why ≡ unfit_in scope.now wanted (argument one.now)) }
{
    match one {
        Arg::Of(of) => unfit_type(alloc, scope, wanted, of),
        Arg::In(_) => Ok(None),
    }
}

/// Why a type doesn't fit, if it doesn't.
fn unfit_type(
    alloc: Global,
    scope: &Scope,
    wanted: Universe,
    of: &Ty,
) -> Result<Option<Reason>, Memory>
    requires { StandsIn scope.now (meaning of.now) }
    ensures { IfOk result (λ why. option_map reason why
        ≡ unfit_in scope.now wanted (of_type (meaning of.now))) }
{
    match wanted {
        Universe::Free => unfit_free(alloc, scope, of),
        Universe::Linear => Ok(unfit_linear(scope, of)),
        Universe::AnyType => Ok(None),
        Universe::Region => Ok(None),
    }
}

/// Why a type doesn't fit where `Free` is wanted, if it doesn't.
fn unfit_free(alloc: Global, scope: &Scope, of: &Ty) -> Result<Option<Reason>, Memory>
    requires { StandsIn scope.now (meaning of.now) }
    ensures { IfOk result (λ why. option_map reason why
        ≡ unfit_in scope.now universes.Free (of_type (meaning of.now))) }
{
    if takes(Universe::Free, universe_of(scope.heads, scope.params, of)) {
        return Ok(None);
    }
    Ok(Some(Reason::NotFree(copy_type(alloc, of)?)))
}

/// Why a type doesn't fit where `Linear` is wanted, if it doesn't.
fn unfit_linear(scope: &Scope, of: &Ty) -> Option<Reason>
    requires { StandsIn scope.now (meaning of.now) }
    ensures { option_map reason result ≡ unfit_in scope.now universes.Linear (of_type (meaning of.now)) }
{
    if takes(Universe::Linear, universe_of(scope.heads, scope.params, of)) {
        None
    } else {
        Some(Reason::LinearWanted)
    }
}
