//! Copies, which say the same.

ghost use Rattle.std.specs.Prelude.{◌≡◌, IfOk};
ghost use Rattle.au_types.specs.Views.{meaning, argument, argument_all};

use crate::types::{Arg, Region, Ty};
use au_base::Memory;
use std::alloc::Global;

/// An equal region.
///
/// # Errors
///
/// `Memory` when memory runs out.
pub fn copy_region(alloc: Global, region: &Region) -> Result<Region, Memory>
    ensures { IfOk result (λ copy. copy ≡ region.now) }
{
    match region {
        Region::Static => Ok(Region::Static),
        Region::Named(name) => Ok(Region::Named(name.copy(alloc)?)),
        Region::Anonymous => Ok(Region::Anonymous),
    }
}

/// A type that means the same.
///
/// # Errors
///
/// `Memory` when memory runs out.
#[tactic(auto, using(crate::proofs::TypeLemmas::type_steps))]
#[cycle(copy_type)]
pub fn copy_type(alloc: Global, of: &Ty) -> Result<Ty, Memory>
    ensures { IfOk result (λ copy. meaning copy ≡ meaning of.now) }
{
    match of {
        Ty::Unit => Ok(Ty::Unit),
        Ty::Bool => Ok(Ty::Bool),
        Ty::Int(kind) => Ok(Ty::Int(*kind)),
        Ty::Text => Ok(Ty::Text),
        Ty::Param(name) => Ok(Ty::Param(name.copy(alloc)?)),
        Ty::Named { of, args } => {
            let args = copy_arguments(alloc, args)?;
            Ok(Ty::Named { of: *of, args })
        }
        Ty::Read { to, region } => {
            let to = copy_boxed_type(alloc, to)?;
            let region = copy_region(alloc, region)?;
            Ok(Ty::Read { to, region })
        }
        Ty::Write { to, region } => {
            let to = copy_boxed_type(alloc, to)?;
            let region = copy_region(alloc, region)?;
            Ok(Ty::Write { to, region })
        }
    }
}

#[cycle(copy_type)]
fn copy_boxed_type(alloc: Global, of: &Ty) -> Result<Box<Ty>, Memory>
    ensures { IfOk result (λ copy. meaning copy.value ≡ meaning of.now) }
{
    let copy = copy_type(alloc, of)?;
    Ok(Box::new(alloc, copy)?)
}

/// An argument that means the same.
///
/// # Errors
///
/// `Memory` when memory runs out.
#[tactic(auto, using(crate::proofs::TypeLemmas::type_steps))]
#[cycle(copy_type)]
pub fn copy_argument(alloc: Global, one: &Arg) -> Result<Arg, Memory>
    ensures { IfOk result (λ copy. argument copy ≡ argument one.now) }
{
    match one {
        Arg::Of(of) => {
            let of = copy_type(alloc, of)?;
            Ok(Arg::Of(of))
        }
        Arg::In(region) => {
            let region = copy_region(alloc, region)?;
            Ok(Arg::In(region))
        }
    }
}

/// Arguments that mean the same, each in its place.
///
/// # Errors
///
/// `Memory` when memory runs out.
#[tactic(auto, using(crate::proofs::TypeLemmas::type_steps))]
#[cycle(copy_type)]
pub fn copy_arguments(alloc: Global, args: &Vec<Arg>) -> Result<Vec<Arg>, Memory>
    ensures { IfOk result (λ copies. argument_all copies.items ≡ argument_all args.now.items) }
{
    let mut copies = Vec::new(alloc);
    for one in args {
        let copy = copy_argument(alloc, one)?;
        copies.push(copy)?;
    }
    Ok(copies)
}
