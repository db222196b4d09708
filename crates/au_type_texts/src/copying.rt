//! Copies, which say the same.

ghost use Rattle.std.specs.Prelude.{◌≡◌, IfOk};
ghost use Rattle.au_type_texts.specs.Views.{closed_meaning, closed_meanings};

use crate::types::Closed;
use au_base::Memory;
use std::alloc::Global;

/// A closed type that means the same.
///
/// # Errors
///
/// `Memory` when memory runs out.
#[tactic(auto, using(crate::proofs::ClosedLemmas::closed_steps))]
#[cycle(copy_closed)]
pub fn copy_closed(alloc: Global, of: &Closed) -> Result<Closed, Memory>
    ensures { IfOk result (λ copy. closed_meaning copy ≡ closed_meaning of.now) }
{
    match of {
        Closed::Unit => Ok(Closed::Unit),
        Closed::Bool => Ok(Closed::Bool),
        Closed::Int(kind) => Ok(Closed::Int(*kind)),
        Closed::Text => Ok(Closed::Text),
        Closed::Named { of, args } => {
            let args = copy_all(alloc, args)?;
            Ok(Closed::Named { of: *of, args })
        }
        Closed::Read(to) => {
            let to = copy_boxed(alloc, to)?;
            Ok(Closed::Read(to))
        }
        Closed::Write(to) => {
            let to = copy_boxed(alloc, to)?;
            Ok(Closed::Write(to))
        }
    }
}

#[cycle(copy_closed)]
fn copy_boxed(alloc: Global, of: &Closed) -> Result<Box<Closed>, Memory>
    ensures { IfOk result (λ copy. closed_meaning copy.value ≡ closed_meaning of.now) }
{
    let copy = copy_closed(alloc, of)?;
    Ok(Box::new(alloc, copy)?)
}

/// Closed types that mean the same, each in its place.
#[tactic(auto, using(crate::proofs::ClosedLemmas::closed_steps))]
#[cycle(copy_closed)]
fn copy_all(alloc: Global, list: &Vec<Closed>) -> Result<Vec<Closed>, Memory>
    ensures { IfOk result (λ copies. closed_meanings copies.items ≡ closed_meanings list.now.items) }
{
    let mut copies = Vec::new(alloc);
    for one in list {
        let copy = copy_closed(alloc, one)?;
        copies.push(copy)?;
    }
    Ok(copies)
}
