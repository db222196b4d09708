//! What is told of types.

ghost use Rattle.std.specs.Prelude.{◌≡◌, [], IfOk, OnOk, Some, map};
ghost use Rattle.au_type_texts.specs.Keys.{key_of};
ghost use Rattle.au_closed_programs.specs.Views.{row_said, rows_said};
ghost use Rattle.au_lowering.specs.Closed.{told_by};
ghost use Rattle.au_lowering.specs.Rows.{rows_in, rows_told};
ghost use Rattle.au_types.specs.Tables.{find, with_all, with_pair};

use crate::tables::{TypeTable, key_of_type};
use au_base::{Memory, Sequence};
use au_closed_programs::TypeRow;
use au_closing::name_of;
use au_low::LowType;
use indexmap::IndexMap;
use std::alloc::Global;

/// What is told of types, by their keys: a type is found without a walk through the rows.
#[derive(Drop)]
pub struct TypeRows {
    entries: IndexMap<Vec<u32>, LowType>,
}

/// What the code has of a type with this row.
fn low_of(alloc: Global, row: &TypeRow) -> Result<LowType, Memory>
    ensures { IfOk result (λ low. low ≡ told_by (Some (row_said row.now))) }
{
    let text = row.text.copy(alloc)?;
    let module = name_of(alloc, &row.home)?;
    Ok(LowType {
        text,
        module,
        linear: row.linear,
    })
}

/// The same.
fn copy_low(alloc: Global, low: &LowType) -> Result<LowType, Memory>
    ensures { IfOk result (λ made. made ≡ low.now) }
{
    let text = low.text.copy(alloc)?;
    let module = low.module.copy(alloc)?;
    Ok(LowType {
        text,
        module,
        linear: low.linear,
    })
}

/// Puts what is told under a key, unless something is told there.
fn put_row(rows: &mut TypeRows, key: Vec<u32>, low: LowType) -> Result<(), Memory>
    ensures { OnOk result (rows_in rows.new ≡ with_pair (rows_in rows.old) key.items low) }
{
    if rows.entries.contains_key(key.as_slice()) {
        return Ok(());
    }
    rows.entries.insert(key, low)?;
    Ok(())
}

/// Puts what a row tells, unless its type has a row.
fn tell_row(alloc: Global, rows: &mut TypeRows, row: &TypeRow) -> Result<(), Memory>
    ensures { OnOk result (rows_in rows.new
        ≡ with_pair (rows_in rows.old) (key_of (row_said row.now).of) (told_by (Some (row_said row.now)))) }
{
    let key = key_of_type(alloc, &row.of)?;
    let low = low_of(alloc, row)?;
    put_row(rows, key, low)
}

/// What rows tell.
///
/// # Errors
///
/// `Memory` for want of memory, or where the module of a row has no name.
pub fn tell_rows(alloc: Global, rows: &Vec<TypeRow>) -> Result<TypeRows, Memory>
    ensures { IfOk result (λ made. rows_in made ≡ with_all [] (rows_told (rows_said rows.now.items))) }
{
    let mut made = TypeRows {
        entries: IndexMap::new(alloc),
    };
    for one in rows {
        tell_row(alloc, &mut made, one)?;
    }
    Ok(made)
}

/// What is told of the type of a key.
fn tell_type(alloc: Global, rows: &TypeRows, key: &Vec<u32>) -> Result<LowType, Memory>
    ensures { IfOk result (λ low. Some low ≡ find key.now.items (rows_in rows.now)) }
{
    match rows.entries.get(key.as_slice()) {
        None => Err(Memory),
        Some(low) => copy_low(alloc, low),
    }
}

/// What is told of types.
///
/// # Errors
///
/// `Memory` for want of memory, or where a type has no row.
pub fn tell_types(
    alloc: Global,
    rows: &TypeRows,
    types: &TypeTable,
) -> Result<Sequence<LowType>, Memory>
    ensures { IfOk result (λ all.
        map Some all ≡ map (λ key. find key (rows_in rows.now)) types.now) }
{
    let mut all = Vec::new(alloc);
    for key in types.keys() {
        let low = tell_type(alloc, rows, key)?;
        all.push(low)?;
    }
    Ok(Sequence::from_vec(all))
}
