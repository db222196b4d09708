//! Copies of what binds names to variables.

ghost use Rattle.std.specs.Prelude.{◌≡◌, IfOk, map};
ghost use Rattle.au_sights.specs.contracts.noted.NotedPhase.TheImpl.{ghosts as noted};
ghost use Rattle.au_syntax.specs.contracts.parsed.ParsedPhase.TheImpl.{ghosts as parsed};
ghost use Rattle.au_syntax.specs.Views.{bound, placed};

use crate::names::{copy_name, copy_renamed};
use crate::noted::Noted;
use crate::texts::copy_text_of_type;
use au_base::Memory;
use au_syntax::{Bind, BorrowNames, Parsed};
use std::alloc::Global;

/// The same field, bound to the same variable.
///
/// # Errors
///
/// Only for want of memory.
pub fn copy_bind(alloc: Global, one: &Bind<Parsed>) -> Result<Bind<Noted>, Memory>
    ensures { IfOk result (λ copy. bound noted copy ≡ bound parsed one.now) }
{
    let name = copy_renamed(alloc, &one.name)?;
    let of = copy_text_of_type(alloc, &one.of)?;
    Ok(Bind { name, of })
}

/// The same fields in the same order, each bound to the same variable.
///
/// # Errors
///
/// Only for want of memory.
pub fn copy_binds(alloc: Global, all: &Vec<Bind<Parsed>>) -> Result<Vec<Bind<Noted>>, Memory>
    ensures { IfOk result (λ copies. map (bound noted) copies.items ≡ map (bound parsed) all.now.items) }
{
    let mut copies = Vec::new(alloc);
    for one in all {
        copies.push(copy_bind(alloc, one)?)?;
    }
    Ok(copies)
}

/// The same names of a borrow statement.
///
/// # Errors
///
/// Only for want of memory.
pub fn copy_borrow_names(
    alloc: Global,
    names: &BorrowNames<Parsed>,
) -> Result<BorrowNames<Noted>, Memory>
    ensures variable { IfOk result (λ copy. placed noted copy.variable ≡ placed parsed names.now.variable) }
    ensures reference { IfOk result (λ copy.
        placed noted copy.reference ≡ placed parsed names.now.reference) }
    ensures region { IfOk result (λ copy. placed noted copy.region ≡ placed parsed names.now.region) }
{
    let variable = copy_name(alloc, &names.variable)?;
    let reference = copy_name(alloc, &names.reference)?;
    let region = copy_name(alloc, &names.region)?;
    Ok(BorrowNames {
        variable,
        reference,
        region,
    })
}
