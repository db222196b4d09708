//! Cells that are made, changed, copied and read back, with ample memory.

use au_base::IntKind;
use au_cells::cells::{Cell, Computed};
use au_cells::copying::copy;
use au_cells::forms::{make, truth_in};
use au_cells::numbers::{compute, convert_cell, number_in, number_of};
use au_cells::paths::{part, replace};
use au_ints::IntOp;
use std::test::Fail;

/// A field of a record in a record is put, and a copy of the whole has it.
#[test]
fn a_part_is_put(rt: HostRuntime) -> Result<(), Fail> {
    let alloc = rt.alloc();
    let fields = vec![in alloc; Cell::Nat8(1), Cell::Nat8(2)]?;
    let inner = make(alloc, 0, None, fields)?;
    let fields = vec![in alloc; Cell::Truth(true), inner]?;
    let mut whole = make(alloc, 0, None, fields)?;
    let old = replace(&mut whole, &[1, 0], Cell::Nat8(7)).ok_or("no part")?;
    assert_eq!(rt; number_in(&old), Some((IntKind::Nat8, 1)));
    let again = copy(alloc, &whole)?;
    let put = part(&again, &[1, 0]).ok_or("no part")?;
    assert_eq!(rt; number_in(put), Some((IntKind::Nat8, 7)));
    let first = part(&again, &[0]).ok_or("no part")?;
    assert_eq!(rt; truth_in(first), Some(true));
    Ok(())
}

/// A sum that fits is the sum, one that doesn't is an abort, and a number of another kind is neither.
#[test]
fn sums_are_exact(rt: HostRuntime) -> Result<(), Fail> {
    let add = IntOp::Add;
    let kind = IntKind::Nat8;
    assert!(rt;
        matches!(
            compute(add, kind, &Cell::Nat8(250), &Cell::Nat8(5)),
            Computed::Value(_)
        )
    );
    assert!(rt;
        matches!(
            compute(add, kind, &Cell::Nat8(250), &Cell::Nat8(6)),
            Computed::Fault
        )
    );
    assert!(rt;
        matches!(
            compute(add, kind, &Cell::Nat8(250), &Cell::Int8(6)),
            Computed::NoRule
        )
    );
    let Computed::Value(option) = convert_cell(rt.alloc(), IntKind::Int8, &Cell::Nat8(127))? else {
        return Err(Fail::from("no value"));
    };
    let held = part(&option, &[0]).ok_or("none")?;
    assert_eq!(rt; number_of(IntKind::Int8, held), Some(127));
    Ok(())
}
