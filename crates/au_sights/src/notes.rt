//! What is noted at each expression.

ghost use Rattle.std.specs.Prelude.{◌≡◌, IfOk};
ghost use Rattle.std.specs.Option.{option_map};
ghost use Rattle.au_types.specs.Views.{meaning};
ghost use Rattle.au_sights.specs.Views.{note};

use au_base::Memory;
use au_matching::Substitution;
use au_types::{Ty, copy_type};
use std::alloc::Global;

/// What is noted at an expression.
#[derive(Drop)]
pub struct Notes {
    /// The type that is wanted of it, if one is.
    pub mode: Option<Ty>,
    /// Its type.
    pub of: Ty,
    /// What the type parameters of what is called stand for, at a call alone.
    pub call: Option<Substitution>,
}

impl Notes {
    /// A note that says the same.
    ///
    /// # Errors
    ///
    /// `Memory` when memory runs out.
    pub fn copy(&self, alloc: Global) -> Result<Notes, Memory>
        ensures { IfOk result (λ copy. note copy ≡ note self.now) }
    {
        let mode = copy_mode(alloc, &self.mode)?;
        let of = copy_type(alloc, &self.of)?;
        let call = copy_call(alloc, &self.call)?;
        Ok(Notes { mode, of, call })
    }
}

/// A wanted type that means the same, if there is one.
fn copy_mode(alloc: Global, mode: &Option<Ty>) -> Result<Option<Ty>, Memory>
    ensures { IfOk result (λ copy. option_map meaning copy ≡ option_map meaning mode.now) }
{
    match mode {
        None => Ok(None),
        Some(wanted) => {
            let copy = copy_type(alloc, wanted)?;
            Ok(Some(copy))
        }
    }
}

/// An equal substitution, if there is one.
fn copy_call(alloc: Global, call: &Option<Substitution>) -> Result<Option<Substitution>, Memory>
    ensures { IfOk result (λ copy. copy ≡ call.now) }
{
    match call {
        None => Ok(None),
        Some(substitution) => {
            let copy = substitution.copy(alloc)?;
            Ok(Some(copy))
        }
    }
}
