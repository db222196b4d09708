//! What calls of functions lead to.

ghost use Rattle.std.specs.Prelude.{◌≡◌, [], IfOk, unwrap_or};
ghost use Rattle.au_closed_trees.specs.TypeNames.{type_names};
ghost use Rattle.au_closing.specs.Leading as spec;
ghost use Rattle.au_closing.specs.ClosingViews.{lead_said};
ghost use Rattle.au_judged_types.specs.Meanings.{written_params};
ghost use Rattle.au_type_texts.specs.Given as given_types;
ghost use Rattle.au_type_texts.specs.GivenViews.{given_said};
ghost use Rattle.au_modules.specs.Slots as slots;
ghost use Rattle.au_promises.specs.Written.{generics_of};

use crate::instances::{Instance, Lead};
use crate::shipped::shipped_function;
use au_base::{Memory, Name};
use au_closed_trees::{is_region, push_given};
use au_imports::Resolved;
use au_matching::Substitution;
use au_names::Target;
use au_syntax::{Generic, Parsed};
use au_type_texts::{GivenType, value_under};
use std::alloc::Global;

/// What the substitution of a call gives for the type parameters of a function that aren't regions, in
/// declared order, where this is given for those of the caller.
fn given_by(
    alloc: Global,
    given: &[GivenType],
    call: &Option<Substitution>,
    generics: &Vec<Generic<Parsed>>,
) -> Result<Vec<GivenType>, Memory>
    ensures { IfOk result (λ made.
        given_said made.items
        ≡ given_types.given_by (given_said given.now) (unwrap_or call.now [])
        (type_names (written_params (generics_of generics.now.items)))) }
{
    let mut made = Vec::new(alloc);
    for one in generics {
        if is_region(one.parameter.universe) {
            continue;
        }
        let name = &one.parameter.name.name;
        let of = value_under(alloc, given, call, name)?;
        push_given(&mut made, name.copy(alloc)?, of)?;
    }
    Ok(made)
}

/// What a call of a function of this name leads to, which a declaration with these type parameters declares:
/// a shipped call, or else an instance.
pub(crate) fn function_leads(
    alloc: Global,
    program: &Resolved,
    given: &[GivenType],
    call: &Option<Substitution>,
    target: &Target,
    name: &Name,
    generics: &Vec<Generic<Parsed>>,
) -> Result<Lead, Memory>
    ensures { IfOk result (λ lead.
        lead_said lead
        ≡ spec.function_leads (slots.modules program.now) target.now name.now
        (given_types.given_by (given_said given.now) (unwrap_or call.now [])
        (type_names (written_params (generics_of generics.now.items))))) }
{
    match shipped_function(program, target.at.module, name) {
        Some(call) => Ok(Lead::Shipped(call)),
        None => {
            let given = given_by(alloc, given, call, generics)?;
            let of = target.copy(alloc)?;
            Ok(Lead::To(Instance { of, given }))
        }
    }
}
