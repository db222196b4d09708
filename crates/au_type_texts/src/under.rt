//! The closed type of a type once closed types are put for its type parameters.

ghost use Rattle.std.specs.Prelude.{◌≡◌, IfOk};
ghost use Rattle.std.specs.Map.{lookup};
ghost use Rattle.std.specs.Option.{option_copied, option_map};
ghost use Rattle.std.specs.Str.{bytes_eq};
ghost use Rattle.au_types.specs.Views.{argument_all, meaning};
ghost use Rattle.au_type_texts.specs.Views.{closed_meaning, closed_meanings};
ghost use Rattle.au_type_texts.specs.Given as spec;
ghost use Rattle.au_type_texts.specs.GivenViews.{given_said};

use crate::given_types::GivenType;
use crate::{Closed, copy_closed};
use au_base::{Memory, Name};
use au_types::{Arg, Ty};
use std::alloc::Global;

/// What is given for a type parameter, if anything is.
fn find<'a>(given: &'a [GivenType], name: &Name) -> Option<&'a Closed>
    ensures { option_map closed_meaning (option_copied result)
        ≡ lookup (bytes_eq name.now) (given_said given.now) }
{
    for one in given {
        if name.as_bytes() == one.name.as_bytes() {
            return Some(&one.of);
        }
    }
    None
}

/// What is given for a type parameter, and Unit where nothing is.
///
/// # Errors
///
/// Only for want of memory.
pub fn given_for(alloc: Global, given: &[GivenType], name: &Name) -> Result<Closed, Memory>
    ensures { IfOk result (λ made. closed_meaning made ≡ spec.given_for (given_said given.now) name.now) }
{
    match find(given, name) {
        Some(of) => copy_closed(alloc, of),
        None => Ok(Closed::Unit),
    }
}

/// The closed type of a type once what is given is put for its type parameters. Its regions are left out.
/// Unit is put for a type parameter for which nothing is given.
///
/// # Errors
///
/// Only for want of memory.
#[cycle(closed_under)]
pub fn closed_under(alloc: Global, given: &[GivenType], of: &Ty) -> Result<Closed, Memory>
    ensures { IfOk result (λ made.
        closed_meaning made ≡ spec.closed_under (given_said given.now) (meaning of.now)) }
{
    match of {
        Ty::Unit => Ok(Closed::Unit),
        Ty::Bool => Ok(Closed::Bool),
        Ty::Int(kind) => Ok(Closed::Int(*kind)),
        Ty::Text => Ok(Closed::Text),
        Ty::Param(name) => given_for(alloc, given, name),
        Ty::Named { of, args } => {
            let args = all_under(alloc, given, args)?;
            Ok(Closed::Named { of: *of, args })
        }
        Ty::Read { to, region: _ } => {
            let to = boxed_under(alloc, given, to)?;
            Ok(Closed::Read(to))
        }
        Ty::Write { to, region: _ } => {
            let to = boxed_under(alloc, given, to)?;
            Ok(Closed::Write(to))
        }
    }
}

/// The closed type of what stands behind a reference.
#[cycle(closed_under)]
fn boxed_under(alloc: Global, given: &[GivenType], of: &Ty) -> Result<Box<Closed>, Memory>
    ensures { IfOk result (λ made.
        closed_meaning made.value ≡ spec.closed_under (given_said given.now) (meaning of.now)) }
{
    let made = closed_under(alloc, given, of)?;
    Ok(Box::new(alloc, made)?)
}

/// The closed types of the arguments that are types, in order.
#[cycle(closed_under)]
fn all_under(alloc: Global, given: &[GivenType], args: &Vec<Arg>) -> Result<Vec<Closed>, Memory>
    ensures { IfOk result (λ made.
        closed_meanings made.items
        ≡ spec.all_closed_under (given_said given.now) (argument_all args.now.items)) }
{
    let mut made = Vec::new(alloc);
    for one in args {
        let Arg::Of(of) = one else {
            continue;
        };
        let closed = closed_under(alloc, given, of)?;
        made.push(closed)?;
    }
    Ok(made)
}
