//! The shipped calls by name.

use au_base::{IntKind, Memory, Name};
use au_shipped::{ShippedCall, prim_of};
use std::alloc::Global;

/// The names of a module and a call, the kind of integers that the call is for, and the shipped call that it
/// is.
type Row = (
    &'static [u8],
    &'static [u8],
    Option<IntKind>,
    Option<ShippedCall>,
);

/// A call that is chosen by its kind, one that has none, one that converts, one of another module, and a name
/// that is a call of another module alone.
const CALLS: [Row; 5] = [
    (
        b"Austral.Pervasive",
        b"print",
        Some(IntKind::Nat8),
        Some(ShippedCall::PrintInt),
    ),
    (
        b"Austral.Pervasive",
        b"print",
        None,
        Some(ShippedCall::PrintText),
    ),
    (
        b"Austral.Pervasive",
        b"toIndex",
        Some(IntKind::Nat8),
        Some(ShippedCall::Convert(IntKind::Index)),
    ),
    (b"Standard.Buffer", b"nth", None, Some(ShippedCall::Nth)),
    (b"Standard.Box", b"nth", None, None),
];

/// A name of these bytes. Bytes that are no name stand in no row: they are answered by `Memory`.
fn name_of(alloc: Global, bytes: &[u8]) -> Result<Name, Memory> {
    if bytes.is_empty() || bytes.len() > 64 {
        return Err(Memory);
    }
    Name::copy_of(alloc, bytes)
}

/// Whether the call of a row is the one that is due.
fn is_due(alloc: Global, row: &Row) -> Result<bool, Memory> {
    let (home, call, of, due) = *row;
    let home = name_of(alloc, home)?;
    let call = name_of(alloc, call)?;
    Ok(prim_of(&home, &call, of) == due)
}

/// A shipped call is found by the name of its module, its own and its kind, and no other is.
#[test]
fn shipped_calls_are_found_by_their_names(rt: HostRuntime) {
    for row in &CALLS {
        assert!(rt; matches!(is_due(rt.alloc(), row), Ok(true)));
    }
}
