//! What calls of methods of classes lead to.

ghost use Rattle.std.specs.Prelude.{◌≡◌, IfOk};
ghost use Rattle.au_type_texts.specs.Views.{closed_meaning};
ghost use Rattle.au_closing.specs.Instances as instances;
ghost use Rattle.au_closing.specs.Leading as spec;
ghost use Rattle.au_closing.specs.ClosingViews.{instance_said, lead_said};
ghost use Rattle.au_instances.specs.Rows.{row_said};
ghost use Rattle.au_modules.specs.Slots as slots;

use crate::instances::{Instance, Lead};
use crate::rows::{given_of_row, row_at};
use crate::shipped::shipped_method;
use au_base::{Memory, Name, Text};
use au_imports::Resolved;
use au_instances::{ClassAt, Instances, Row};
use au_names::Target;
use au_type_texts::Closed;
use std::alloc::Global;

/// The instance of a method of a name at a closed type, by the row of the instance of its class.
fn method_at(alloc: Global, name: &Name, of: &Closed, row: &Row) -> Result<Instance, Memory>
    ensures { IfOk result (λ made.
        instance_said made ≡ instances.method_at name.now (closed_meaning of.now) (row_said row.now)) }
{
    let given = given_of_row(alloc, row, of)?;
    let name = Text::copy_of(alloc, name.as_bytes())?;
    let at = row.instance;
    Ok(Instance {
        of: Target { at, name },
        given,
    })
}

/// What a call of a method leads to at a closed type, by the row of the instance of its class: a shipped
/// call, or else an instance.
fn method_leads(
    alloc: Global,
    program: &Resolved,
    name: &Name,
    of: &Closed,
    row: &Row,
) -> Result<Lead, Memory>
    ensures { IfOk result (λ lead.
        lead_said lead
        ≡ spec.method_by_row (slots.modules program.now) name.now (closed_meaning of.now)
        (row_said row.now)) }
{
    match shipped_method(program, row.instance.module, name, of) {
        Some(call) => Ok(Lead::Shipped(call)),
        None => Ok(Lead::To(method_at(alloc, name, of, row)?)),
    }
}

/// What a call of a method of a class leads to at a closed type.
pub(crate) fn class_leads(
    alloc: Global,
    program: &Resolved,
    instances: &Instances,
    class: ClassAt,
    name: &Name,
    of: &Closed,
) -> Result<Lead, Memory>
    ensures { IfOk result (λ lead.
        lead_said lead
        ≡ spec.class_leads (slots.modules program.now) instances.now class name.now (closed_meaning of.now)) }
{
    match row_at(instances, program.heads_ref(), class, of) {
        None => Ok(Lead::Nowhere),
        Some(row) => method_leads(alloc, program, name, of, row),
    }
}
