//! Why a function or a method is refused.

ghost use Rattle.std.specs.Prelude.{◌≡◌, IfOk};
ghost use Rattle.std.specs.Option.{option_map};
ghost use Rattle.au_linear.specs.Telling.{refusal_of, sorted};
ghost use Rattle.au_lives.specs.Refusals.{first_refused};
ghost use Rattle.au_lives.specs.Scopes.{scopes_of};
ghost use Rattle.au_promises.specs.Said.{header_said, methods_said};
ghost use Rattle.au_imports.specs.Choices.{first_of};
ghost use Rattle.au_program_lives.specs.LinearFaults as spec;
ghost use Rattle.au_program_lives.specs.ProgramSaid.{body_said, scope_of};

use crate::choices::Choices;
use crate::faults::LinearFault;
use crate::{TypeScope, sorts_of};
use au_base::{Memory, Name};
use au_formed::Visible;
use au_linear::{LinearFault as BodyFault, Refused, Why, check_body};
use au_lives::lives::Sort;
use au_syntax::{Block, Method, Parsed, Signature};
use au_types::Params;
use std::alloc::Global;

/// What is told of a variable of a function that is refused.
fn told(function: Name, refused: Refused) -> LinearFault
    ensures { result ≡ spec.fault_of function refused.variable refused.at (refusal_of refused.why) }
{
    let Refused { variable, at, why } = refused;
    match why {
        Why::InLoop(place) => LinearFault::InLoop {
            variable,
            at: place,
        },
        Why::InPart(place) => LinearFault::InPart {
            variable,
            at: place,
        },
        Why::OnPath(kind, path) => LinearFault::Life {
            function,
            variable,
            at,
            kind,
            path: Choices::of(path),
        },
    }
}

/// What is told of a function, given what the types of its variables ask.
fn body_fault(
    alloc: Global,
    signature: &Signature<Parsed>,
    body: &Block<Parsed>,
    sorts: &[Sort],
) -> Result<Option<LinearFault>, Memory>
    ensures { IfOk result (λ found. found
        ≡ option_map (spec.fault_told (header_said signature.now).name.name)
        (first_refused
        (sorted (scopes_of (header_said signature.now).parameters (body_said body.now)) sorts.now))) }
{
    match check_body(alloc, &signature.parameters, body, sorts) {
        Ok(()) => Ok(None),
        Err(BodyFault::Memory) => Err(Memory),
        Err(BodyFault::Refused(refused)) => {
            let function = signature.name.name.copy(alloc)?;
            Ok(Some(told(function, refused)))
        }
    }
}

/// What is told of a function with these type parameters, where this is visible.
pub(crate) fn function_fault(
    alloc: Global,
    visible: &Visible,
    params: &Params,
    signature: &Signature<Parsed>,
    body: &Block<Parsed>,
) -> Result<Option<LinearFault>, Memory>
    ensures { IfOk result (λ found. found
        ≡ spec.function_fault (header_said signature.now) (body_said body.now)
        (scope_of params.now visible.now)) }
{
    let mut scope = TypeScope {
        regions: Vec::new(alloc),
        params,
        names: visible.names,
        heads: visible.heads,
    };
    let sorts = sorts_of(alloc, &mut scope, &signature.parameters, body)?;
    body_fault(alloc, signature, body, sorts.as_slice())
}

/// What is told of the first of some methods that is refused.
pub(crate) fn methods_fault(
    alloc: Global,
    visible: &Visible,
    params: &Params,
    methods: &Vec<Method<Parsed>>,
) -> Result<Option<LinearFault>, Memory>
    ensures { IfOk result (λ found. found
        ≡ first_of (spec.method_fault (scope_of params.now visible.now)) (methods_said methods.now.items)) }
{
    for one in methods {
        match function_fault(alloc, visible, params, &one.signature, &one.body)? {
            Some(fault) => return Ok(Some(fault)),
            None => {}
        }
    }
    Ok(None)
}
