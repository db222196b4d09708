//! The closed type of a type.

ghost use Rattle.std.specs.Prelude.{◌≡◌, IfOk};
ghost use Rattle.std.specs.Option.{option_map};
ghost use Rattle.au_types.specs.Views.{argument_all, meaning};
ghost use Rattle.au_type_texts.specs.Closing.{all_closed, closed};
ghost use Rattle.au_type_texts.specs.Types.{named, reads, writes};
ghost use Rattle.au_type_texts.specs.Views.{boxed_meaning, closed_meaning, listed_meaning};

use crate::types::Closed;
use au_base::Memory;
use au_types::{Arg, DeclAt, Ty};
use std::alloc::Global;

/// The type with its regions left out, those among the arguments of declared types too, and `None` exactly
/// where a type parameter stands in it.
///
/// # Errors
///
/// `Memory` when memory runs out.
#[tactic(auto, using(au_types::proofs::TypeLemmas::type_steps, crate::proofs::ClosedLemmas::closed_steps))]
#[cycle(closed_of)]
pub fn closed_of(alloc: Global, of: &Ty) -> Result<Option<Closed>, Memory>
    ensures { IfOk result (λ answer. option_map closed_meaning answer ≡ closed (meaning of.now)) }
{
    match of {
        Ty::Unit => Ok(Some(Closed::Unit)),
        Ty::Bool => Ok(Some(Closed::Bool)),
        Ty::Int(kind) => Ok(Some(Closed::Int(*kind))),
        Ty::Text => Ok(Some(Closed::Text)),
        Ty::Param(_) => Ok(None),
        Ty::Named { of, args } => {
            let args = closed_arguments(alloc, args)?;
            Ok(named_over(*of, args))
        }
        Ty::Read { to, region: _ } => {
            let to = closed_box(alloc, to)?;
            Ok(read_of(to))
        }
        Ty::Write { to, region: _ } => {
            let to = closed_box(alloc, to)?;
            Ok(write_of(to))
        }
    }
}

/// The closed type of what stands behind a reference.
#[cycle(closed_of)]
fn closed_box(alloc: Global, of: &Ty) -> Result<Option<Box<Closed>>, Memory>
    ensures { IfOk result (λ answer. option_map boxed_meaning answer ≡ closed (meaning of.now)) }
{
    match closed_of(alloc, of)? {
        Some(closed) => Ok(Some(Box::new(alloc, closed)?)),
        None => Ok(None),
    }
}

/// The closed types of arguments, where a region has none.
#[cycle(closed_of)]
fn closed_arguments(alloc: Global, args: &Vec<Arg>) -> Result<Option<Vec<Closed>>, Memory>
    ensures { IfOk result (λ answer. option_map listed_meaning answer
        ≡ all_closed (argument_all args.now.items)) }
{
    let mut list = Vec::new(alloc);
    for one in args {
        let Arg::Of(of) = one else {
            continue;
        };
        let Some(closed) = closed_of(alloc, of)? else {
            return Ok(None);
        };
        list.push(closed)?;
    }
    Ok(Some(list))
}

/// A declared type over arguments, where they are closed.
#[tactic(auto, using(crate::proofs::ClosedLemmas::closed_steps))]
fn named_over(at: DeclAt, args: Option<Vec<Closed>>) -> Option<Closed>
    ensures { option_map closed_meaning result ≡ option_map (named at) (option_map listed_meaning args) }
{
    match args {
        Some(args) => Some(Closed::Named { of: at, args }),
        None => None,
    }
}

/// A reference that reads, where what stands behind it is closed.
#[tactic(auto, using(crate::proofs::ClosedLemmas::closed_steps))]
fn read_of(to: Option<Box<Closed>>) -> Option<Closed>
    ensures { option_map closed_meaning result ≡ option_map reads (option_map boxed_meaning to) }
{
    match to {
        Some(to) => Some(Closed::Read(to)),
        None => None,
    }
}

/// A reference that writes, where what stands behind it is closed.
#[tactic(auto, using(crate::proofs::ClosedLemmas::closed_steps))]
fn write_of(to: Option<Box<Closed>>) -> Option<Closed>
    ensures { option_map closed_meaning result ≡ option_map writes (option_map boxed_meaning to) }
{
    match to {
        Some(to) => Some(Closed::Write(to)),
        None => None,
    }
}
