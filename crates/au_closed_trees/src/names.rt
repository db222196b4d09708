//! Copies of names and of what is bound, for a closed tree.

ghost use Rattle.std.specs.Prelude.{◌≡◌, IfOk, map};
ghost use Rattle.au_sights.specs.contracts.noted.NotedPhase.TheImpl.{ghosts as noted};
ghost use Rattle.au_syntax.specs.Views.{bound, placed, renaming};
ghost use Rattle.au_closed_trees.specs.contracts.phase.ClosedTreesPhase.TheImpl.{ghosts as closed};

use crate::phase::ClosedTrees;
use au_base::Memory;
use au_sights::{Noted, copy_text_of_type};
use au_syntax::{Bind, BorrowNames, Ident, Renamed};
use std::alloc::Global;

/// The same name at the same place.
pub(crate) fn copy_name(alloc: Global, of: &Ident<Noted>) -> Result<Ident<ClosedTrees>, Memory>
    ensures { IfOk result (λ copy. placed closed copy ≡ placed noted of.now) }
{
    let name = of.name.copy(alloc)?;
    Ok(Ident { name, at: of.at })
}

/// The same names in the same order.
pub(crate) fn copy_names(
    alloc: Global,
    all: &Vec<Ident<Noted>>,
) -> Result<Vec<Ident<ClosedTrees>>, Memory>
    ensures { IfOk result (λ copies. map (placed closed) copies.items ≡ map (placed noted) all.now.items) }
{
    let mut copies = Vec::new(alloc);
    for one in all {
        copies.push(copy_name(alloc, one)?)?;
    }
    Ok(copies)
}

/// The same name, with the same name behind it.
fn copy_renamed(alloc: Global, of: &Renamed<Noted>) -> Result<Renamed<ClosedTrees>, Memory>
    ensures { IfOk result (λ copy. renaming closed copy ≡ renaming noted of.now) }
{
    let name = copy_name(alloc, &of.name)?;
    match &of.alias {
        Some(alias) => {
            let alias = Some(copy_name(alloc, alias)?);
            Ok(Renamed { name, alias })
        }
        None => Ok(Renamed { name, alias: None }),
    }
}

/// The same field, bound to the same variable.
fn copy_bind(alloc: Global, one: &Bind<Noted>) -> Result<Bind<ClosedTrees>, Memory>
    ensures { IfOk result (λ copy. bound closed copy ≡ bound noted one.now) }
{
    let name = copy_renamed(alloc, &one.name)?;
    let of = copy_text_of_type(alloc, &one.of)?;
    Ok(Bind { name, of })
}

/// The same fields in the same order, each bound to the same variable.
pub(crate) fn copy_binds(
    alloc: Global,
    all: &Vec<Bind<Noted>>,
) -> Result<Vec<Bind<ClosedTrees>>, Memory>
    ensures { IfOk result (λ copies. map (bound closed) copies.items ≡ map (bound noted) all.now.items) }
{
    let mut copies = Vec::new(alloc);
    for one in all {
        copies.push(copy_bind(alloc, one)?)?;
    }
    Ok(copies)
}

/// The same names of a borrow statement.
pub(crate) fn copy_borrow_names(
    alloc: Global,
    names: &BorrowNames<Noted>,
) -> Result<BorrowNames<ClosedTrees>, Memory>
    ensures variable { IfOk result (λ copy.
        placed closed copy.variable ≡ placed noted names.now.variable) }
    ensures reference { IfOk result (λ copy.
        placed closed copy.reference ≡ placed noted names.now.reference) }
    ensures region { IfOk result (λ copy. placed closed copy.region ≡ placed noted names.now.region) }
{
    let variable = copy_name(alloc, &names.variable)?;
    let reference = copy_name(alloc, &names.reference)?;
    let region = copy_name(alloc, &names.region)?;
    Ok(BorrowNames {
        variable,
        reference,
        region,
    })
}
