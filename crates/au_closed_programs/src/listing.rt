//! The functions of a closed program.

ghost use Rattle.std.specs.Prelude.{◌≡◌, IfOk, Some, map};
ghost use Rattle.au_closed_programs.specs.FunctionViews.{functions_said};
ghost use Rattle.au_closing.specs.Closes as closes;
ghost use Rattle.au_modules.specs.Slots as slots;
ghost use Rattle.au_noting_programs.specs.Said.{modules_said};

use crate::calls::Bodies;
use crate::functions::{ClosedFunction, instance_closed};
use crate::known::Known;
use au_base::Memory;
use au_closing::Reached;
use std::alloc::Global;

/// The instances of a list with their closed trees, over this list, in its order.
///
/// # Errors
///
/// Only for want of memory. It is also what is answered where the body of an instance isn't there, which
/// isn't so in a derived program.
pub fn closed_functions(
    alloc: Global,
    bodies: &Bodies,
    reached: &Reached,
) -> Result<Vec<ClosedFunction>, Memory>
    ensures { IfOk result (λ made.
        map Some (functions_said made.items)
        ≡ map (closes.instance_closed (slots.modules bodies.now.program.now)
        (modules_said bodies.now.modules.now) reached.now) reached.now) }
{
    let known = Known {
        bodies: *bodies,
        reached,
    };
    let mut made = Vec::new(alloc);
    for one in reached.list() {
        let function = instance_closed(alloc, &known, one)?;
        made.push(function)?;
    }
    Ok(made)
}
