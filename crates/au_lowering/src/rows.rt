//! What is read from the rows of closed types.

ghost use Rattle.std.specs.Prelude.{◌≡◌, ◌<◌, IfOk, length, map, slice_get};
ghost use Rattle.std.specs.Option.{option_copied, option_map};
ghost use Rattle.au_closed_trees.specs.Views.{case_said, cases_said, fields_said};
ghost use Rattle.au_closed_programs.specs.Views.{row_said, rows_said};
ghost use Rattle.au_closed_meanings.specs.Programs.{case_from};
ghost use Rattle.au_closed_meanings.specs.Surroundings.{field_names};
ghost use Rattle.au_closed_meanings.specs.Views.{found_said};
ghost use Rattle.au_lowering.specs.Views.{case_in, row_held, rows_held};
ghost use Rattle.au_lowering.specs.Closed.{case_seen, fields_seen, row_seen};
ghost use Rattle.au_meaning.specs.Names.{field_of};

use crate::seen::{SeenCase, SeenRow};
use au_base::{Memory, Name};
use au_closed_meanings::Found;
use au_closed_programs::TypeRow;
use au_closed_trees::{ClosedCase, ClosedField};
use std::alloc::Global;

/// The number and the type of the field of a name.
fn find_field<'a>(fields: &'a Vec<ClosedField>, name: &Name) -> Option<Found<'a>>
    requires { length fields.now.items < 4294967296 }
    ensures { option_map found_said result
        ≡ field_of name.now (fields_seen (fields_said fields.now.items)) }
{
    for (at, one) in fields.iter().enumerate() {
        if one.name.as_bytes() == name.as_bytes() {
            return Some(Found {
                number: at as u32,
                of: &one.of,
            });
        }
    }
    None
}

/// The names of fields, or of parameters.
///
/// # Errors
///
/// Only for want of memory.
pub fn names_of(alloc: Global, fields: &Vec<ClosedField>) -> Result<Vec<Name>, Memory>
    ensures { IfOk result (λ made.
        made.items ≡ field_names (fields_seen (fields_said fields.now.items))) }
{
    let mut names = Vec::new(alloc);
    for one in fields {
        let name = one.name.copy(alloc)?;
        names.push(name)?;
    }
    Ok(names)
}

/// How many fields a case has.
pub fn count_of(case: &SeenCase<'_>) -> u32
    ensures { result ≡ length (case_in case.now).fields }
{
    case.case.fields.len() as u32
}

/// The number and the type of the field of a name in a case.
pub fn field_in<'r>(case: &'r SeenCase<'_>, name: &Name) -> Option<Found<'r>>
    ensures { option_map found_said result ≡ field_of name.now (case_in case.now).fields }
{
    find_field(&case.case.fields, name)
}

/// The number of the case of a name.
fn find_case(cases: &Vec<SeenCase<'_>>, name: &Name) -> Option<u32>
    requires { length cases.now.items < 4294967296 }
    ensures { result ≡ case_from 0 name.now (map case_in cases.now.items) }
{
    for (at, one) in cases.iter().enumerate() {
        if one.case.name.as_bytes() == name.as_bytes() {
            return Some(at as u32);
        }
    }
    None
}

/// The number of the case of a name of a type.
pub fn tag_in(row: &SeenRow<'_>, name: &Name) -> Option<u32>
    ensures { result ≡ case_from 0 name.now (row_held row.now).cases }
{
    find_case(&row.cases, name)
}

/// A case, if its fields have numbers of at most 32 bits.
fn see_case<'a>(case: &'a ClosedCase) -> Result<SeenCase<'a>, Memory>
    ensures { IfOk result (λ made. case_in made ≡ case_seen (case_said case.now)) }
{
    if case.fields.len() > u32::MAX as usize {
        return Err(Memory);
    }
    Ok(SeenCase { case })
}

/// Cases with their fields.
fn see_cases<'a>(alloc: Global, cases: &'a Vec<ClosedCase>) -> Result<Vec<SeenCase<'a>>, Memory>
    ensures { IfOk result (λ made. map case_in made.items ≡ map case_seen (cases_said cases.now.items)) }
{
    let mut made = Vec::new(alloc);
    for one in cases {
        let case = see_case(one)?;
        made.push(case)?;
    }
    Ok(made)
}

/// A type, if its cases and their fields have numbers of at most 32 bits.
fn see_row<'a>(alloc: Global, row: &'a TypeRow) -> Result<SeenRow<'a>, Memory>
    ensures { IfOk result (λ made. row_held made ≡ row_seen (row_said row.now)) }
{
    let cases = see_cases(alloc, &row.cases)?;
    if cases.len() > u32::MAX as usize {
        return Err(Memory);
    }
    Ok(SeenRow {
        of: &row.of,
        linear: row.linear,
        cases,
    })
}

/// The rows of types.
///
/// # Errors
///
/// `Memory` when memory runs out, and where a case or a field has a number of more than 32 bits.
pub fn see_rows<'a>(alloc: Global, rows: &'a Vec<TypeRow>) -> Result<Vec<SeenRow<'a>>, Memory>
    ensures { IfOk result (λ made. rows_held made.items ≡ map row_seen (rows_said rows.now.items)) }
{
    let mut made = Vec::new(alloc);
    for one in rows {
        let row = see_row(alloc, one)?;
        made.push(row)?;
    }
    Ok(made)
}

/// The case of a number.
pub fn case_at<'r, 'a>(row: &'r SeenRow<'a>, tag: u32) -> Option<&'r SeenCase<'a>>
    ensures { option_map case_in (option_copied result) ≡ slice_get (row_held row.now).cases tag }
{
    row.cases.get(tag as usize)
}
