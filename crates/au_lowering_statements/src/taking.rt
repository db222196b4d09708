//! The fields that are bound of a value that is taken apart, or behind a reference.

ghost use Rattle.std.specs.Prelude.{◌≡◌, IfOk, Some};
ghost use Rattle.au_type_texts.specs.Views.{closed_meaning};
ghost use Rattle.au_lowering_statements.specs.Views as views;
ghost use Rattle.au_meaning.specs.Names as names;

use au_base::Memory;
use au_syntax::Access;
use au_type_texts::{Closed, copy_closed};
use std::alloc::Global;

/// Which fields are bound.
#[derive(Clone, Copy)]
pub struct Taken<'a> {
    /// The type that has the case.
    pub of: &'a Closed,
    /// The number of the case; that of a record is 0.
    pub tag: u32,
    /// The access of the reference behind which the value stands, if it stands behind one.
    pub through: Option<Access>,
}

/// The type whose cases a `case` over a type tells apart: the type itself, or the one behind a reference.
#[tactic(auto, using(au_type_texts::proofs::ClosedLemmas::closed_steps))]
pub fn told_type(of: &Closed) -> &Closed
    ensures { closed_meaning result.now ≡ names.told_type (closed_meaning of.now) }
{
    match of {
        Closed::Unit => of,
        Closed::Bool => of,
        Closed::Int(_) => of,
        Closed::Text => of,
        Closed::Named { .. } => of,
        Closed::Read(to) => &**to,
        Closed::Write(to) => &**to,
    }
}

/// The access of a reference, if the type is that of one.
#[tactic(auto, using(au_type_texts::proofs::ClosedLemmas::closed_steps))]
pub fn access_behind(of: &Closed) -> Option<Access>
    ensures { result ≡ views.access_behind (closed_meaning of.now) }
{
    match of {
        Closed::Unit => None,
        Closed::Bool => None,
        Closed::Int(_) => None,
        Closed::Text => None,
        Closed::Named { .. } => None,
        Closed::Read(_) => Some(Access::Read),
        Closed::Write(_) => Some(Access::Write),
    }
}

/// The type of a reference of an access.
fn refer(alloc: Global, access: Access, of: Closed) -> Result<Closed, Memory>
    ensures { IfOk result (λ made. closed_meaning made ≡ views.reached (Some access) (closed_meaning of)) }
{
    match access {
        Access::Read => Ok(Closed::Read(Box::new(alloc, of)?)),
        Access::Write => Ok(Closed::Write(Box::new(alloc, of)?)),
    }
}

/// The type of what is reached through a reference of an access, or not through one.
///
/// # Errors
///
/// Only for want of memory.
pub fn reached(alloc: Global, through: Option<Access>, of: &Closed) -> Result<Closed, Memory>
    ensures { IfOk result (λ made. closed_meaning made ≡ views.reached through (closed_meaning of.now)) }
{
    let copy = copy_closed(alloc, of)?;
    match through {
        None => Ok(copy),
        Some(access) => refer(alloc, access, copy),
    }
}
