//! The names of the parameters of shipped calls, and which of the calls are births.

ghost use Rattle.std.specs.Prelude.{◌≡◌, ◌<◌, ◌≤◌, ◌∷◌, [], IfOk, length};
ghost use Rattle.std.specs.Option.{option_map};
ghost use Rattle.au_base.specs.Limits.{most_name_bytes};
ghost use Rattle.au_type_texts.specs.Views.{closed_meaning};
ghost use Rattle.au_closed_meanings.specs.Shipped as spec;

use au_base::{Memory, Name};
use au_shipped::ShippedCall;
use au_type_texts::{Closed, copy_closed};
use std::alloc::Global;

/// A list of one name.
fn one(alloc: Global, name: &[u8]) -> Result<Vec<Name>, Memory>
    requires some { 0 < length name.now }
    requires most { length name.now ≤ most_name_bytes }
    ensures { IfOk result (λ made. made.items ≡ name.now ∷ []) }
{
    let name = Name::copy_of(alloc, name)?;
    let mut names = Vec::new(alloc);
    names.push(name)?;
    Ok(names)
}

/// A list of two names.
fn two(alloc: Global, name: &[u8], next: &[u8]) -> Result<Vec<Name>, Memory>
    requires some { 0 < length name.now }
    requires most { length name.now ≤ most_name_bytes }
    requires next_some { 0 < length next.now }
    requires next_most { length next.now ≤ most_name_bytes }
    ensures { IfOk result (λ made. made.items ≡ name.now ∷ next.now ∷ []) }
{
    let next = Name::copy_of(alloc, next)?;
    let mut names = one(alloc, name)?;
    names.push(next)?;
    Ok(names)
}

/// The names `ref`, `index` and `value`.
fn replacing(alloc: Global) -> Result<Vec<Name>, Memory>
    ensures { IfOk result (λ made. made.items ≡ spec.shipped_parameters spec.replaces) }
{
    let value = Name::copy_of(alloc, b"value")?;
    let mut names = two(alloc, b"ref", b"index")?;
    names.push(value)?;
    Ok(names)
}

/// The names of the parameters of a shipped call, in declared order.
///
/// # Errors
///
/// Only for want of memory.
pub fn shipped_parameters(alloc: Global, call: ShippedCall) -> Result<Vec<Name>, Memory>
    ensures { IfOk result (λ made. made.items ≡ spec.shipped_parameters call) }
{
    match call {
        ShippedCall::PrintText => one(alloc, b"value"),
        ShippedCall::PrintInt => one(alloc, b"value"),
        ShippedCall::PrintBool => one(alloc, b"value"),
        ShippedCall::PrintLnText => one(alloc, b"value"),
        ShippedCall::PrintLnInt => one(alloc, b"value"),
        ShippedCall::PrintLnBool => one(alloc, b"value"),
        ShippedCall::Wrap(_, _) => two(alloc, b"lhs", b"rhs"),
        ShippedCall::Convert(_) => one(alloc, b"value"),
        ShippedCall::SurrenderRoot => one(alloc, b"root"),
        ShippedCall::Abort => one(alloc, b"message"),
        ShippedCall::SpanLength => one(alloc, b"span"),
        ShippedCall::Swap => two(alloc, b"ref", b"value"),
        ShippedCall::MakeBox => one(alloc, b"value"),
        ShippedCall::Unbox => one(alloc, b"box"),
        ShippedCall::BoxGet => one(alloc, b"ref"),
        ShippedCall::BoxGetMut => one(alloc, b"ref"),
        ShippedCall::MakeEmpty => Ok(Vec::new(alloc)),
        ShippedCall::DestroyEmpty => one(alloc, b"buffer"),
        ShippedCall::Length => one(alloc, b"ref"),
        ShippedCall::InsertBack => two(alloc, b"ref", b"value"),
        ShippedCall::RemoveBack => one(alloc, b"ref"),
        ShippedCall::Nth => two(alloc, b"ref", b"index"),
        ShippedCall::ReplaceNth => replacing(alloc),
        ShippedCall::AcquireTerminal => one(alloc, b"root"),
        ShippedCall::ReadByte => one(alloc, b"ref"),
        ShippedCall::WriteByte => two(alloc, b"ref", b"byte"),
        ShippedCall::ReleaseTerminal => one(alloc, b"terminal"),
    }
}

/// The type of what is born, where a call gives a value of a type: a box, a buffer or a terminal is born.
///
/// # Errors
///
/// Only for want of memory.
pub fn born(alloc: Global, call: ShippedCall, of: &Closed) -> Result<Option<Closed>, Memory>
    ensures { IfOk result (λ made. option_map closed_meaning made ≡ spec.born call (closed_meaning of.now)) }
{
    match call {
        ShippedCall::MakeBox => Ok(Some(copy_closed(alloc, of)?)),
        ShippedCall::MakeEmpty => Ok(Some(copy_closed(alloc, of)?)),
        ShippedCall::AcquireTerminal => Ok(Some(copy_closed(alloc, of)?)),
        _ => Ok(None),
    }
}
