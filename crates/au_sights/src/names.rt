//! Copies of names.

ghost use Rattle.std.specs.Prelude.{◌≡◌, IfOk, map};
ghost use Rattle.au_sights.specs.contracts.noted.NotedPhase.TheImpl.{ghosts as noted};
ghost use Rattle.au_syntax.specs.contracts.parsed.ParsedPhase.TheImpl.{ghosts as parsed};
ghost use Rattle.au_syntax.specs.Views.{placed, renaming};

use crate::noted::Noted;
use au_base::Memory;
use au_syntax::{Ident, Parsed, Renamed};
use std::alloc::Global;

/// The same name at the same place.
///
/// # Errors
///
/// Only for want of memory.
pub fn copy_name(alloc: Global, of: &Ident<Parsed>) -> Result<Ident<Noted>, Memory>
    ensures { IfOk result (λ copy. placed noted copy ≡ placed parsed of.now) }
{
    let name = of.name.copy(alloc)?;
    Ok(Ident { name, at: of.at })
}

/// The same names in the same order.
///
/// # Errors
///
/// Only for want of memory.
pub fn copy_names(alloc: Global, all: &Vec<Ident<Parsed>>) -> Result<Vec<Ident<Noted>>, Memory>
    ensures { IfOk result (λ copies. map (placed noted) copies.items ≡ map (placed parsed) all.now.items) }
{
    let mut copies = Vec::new(alloc);
    for one in all {
        copies.push(copy_name(alloc, one)?)?;
    }
    Ok(copies)
}

/// The same name, with the same name behind it.
///
/// # Errors
///
/// Only for want of memory.
pub fn copy_renamed(alloc: Global, of: &Renamed<Parsed>) -> Result<Renamed<Noted>, Memory>
    ensures { IfOk result (λ copy. renaming noted copy ≡ renaming parsed of.now) }
{
    let name = copy_name(alloc, &of.name)?;
    match &of.alias {
        Some(alias) => {
            let alias = Some(copy_name(alloc, alias)?);
            Ok(Renamed { name, alias })
        }
        None => Ok(Renamed { name, alias: None }),
    }
}
