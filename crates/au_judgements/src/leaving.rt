//! The blocks of borrow statements: what comes into scope in them, and how it leaves again.

ghost use Rattle.std.specs.Prelude.{◌≡◌, OnOk};
ghost use Rattle.au_typing.specs.InScope as spec;
ghost use Rattle.au_noting.specs.Scopes.{closed_in, opened_in, scope_said, without};
ghost use Rattle.au_types.specs.Views.{meaning};

use crate::declaring::declare_fixed;
use au_base::{Memory, Name};
use au_noting::Scope;
use au_types::Ty;
use std::alloc::Global;

/// Enters the block of a borrow statement: its region is opened, and its reference declared.
///
/// # Errors
///
/// Only for want of memory; the region may be open then.
pub fn enter_reference(
    alloc: Global,
    scope: &mut Scope,
    name: &Name,
    region: &Name,
    of: Ty,
) -> Result<(), Memory>
    ensures { OnOk result (scope_said scope.new
        ≡ spec.with_reference name.now region.now (meaning of) (scope_said scope.old)) }
{
    open_region(alloc, scope, region)?;
    declare_fixed(alloc, scope, name, of)
}

/// Opens a region of this name, which is the innermost then.
fn open_region(alloc: Global, scope: &mut Scope, region: &Name) -> Result<(), Memory>
    ensures { OnOk result (scope_said scope.new ≡ opened_in region.now (scope_said scope.old)) }
{
    let name = region.copy(alloc)?;
    scope.enter_region(name)
}

/// Leaves the block of a borrow statement: the innermost variable and the innermost region are there no more.
pub fn leave_reference(scope: &mut Scope)
    ensures { scope_said scope.new ≡ closed_in (without 1 (scope_said scope.old)) }
{
    let depth = scope.depth();
    scope.leave_to(depth.saturating_sub(1));
    scope.leave_region();
}
