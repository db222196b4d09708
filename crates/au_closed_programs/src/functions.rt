//! One function of a closed program.

ghost use Rattle.std.specs.Prelude.{◌≡◌, ◌<◌, IfOk, Some, length, map};
ghost use Rattle.au_closed_programs.specs.Defined.{body_said};
ghost use Rattle.au_closed_programs.specs.FunctionViews.{function_said};
ghost use Rattle.au_closed_trees.specs.Parts as parts_of;
ghost use Rattle.au_closed_trees.specs.Views.{fields_said};
ghost use Rattle.au_closed_trees.specs.contracts.phase.ClosedTreesPhase.TheImpl.{ghosts as closed};
ghost use Rattle.au_closed_trees.specs.Renoted.{block_renoted};
ghost use Rattle.au_type_texts.specs.Views.{closed_meaning};
ghost use Rattle.au_closing.specs.Closes as closes;
ghost use Rattle.au_closing.specs.ClosingViews.{instance_said};
ghost use Rattle.au_type_texts.specs.GivenViews.{given_said};
ghost use Rattle.au_modules.specs.Slots as slots;
ghost use Rattle.au_names.specs.HeadsOf.{heads_of};
ghost use Rattle.au_noting_programs.specs.Said.{modules_said};
ghost use Rattle.au_typing.specs.Written.{types_at};
ghost use Rattle.au_syntax.specs.declared.modules.Part.TheVariants as parts;
ghost use Rattle.au_syntax.specs.Views.{block};

use crate::bodies::Body;
use crate::calls::{Bodies, body_in, home_of, sight_at, types_of};
use crate::headers::{closed_fields, params_of};
use crate::known::Known;
use au_base::{Memory, Name};
use au_closed_trees::{ClosedField, ClosedTrees, Written, written_under};
use au_closing::{Instance, block_closed};
use au_syntax::Block;
use au_type_texts::{Closed, GivenType};
use au_types::Params;
use std::alloc::Global;

/// An instance with its closed tree.
#[derive(Drop)]
pub struct ClosedFunction {
    /// The name of its module.
    pub home: Name,
    /// Its parameters with their closed types.
    pub parameters: Vec<ClosedField>,
    /// The closed type of its result.
    pub result: Closed,
    /// Its closed tree.
    pub body: Block<ClosedTrees>,
}

/// The closed types of what is written before a body, over these type parameters and under what is given for
/// them: of the parameters, and of the result.
fn header_closed(
    alloc: Global,
    bodies: &Bodies,
    params: &Params,
    given: &[GivenType],
    body: &Body,
) -> Result<(Vec<ClosedField>, Closed), Memory>
    requires { body.now.place < length (slots.modules bodies.now.program.now) }
    ensures parameters { IfOk result (λ made.
        fields_said made.0.items
        ≡ map (parts_of.field_under
        (types_at (slots.modules bodies.now.program.now) body.now.place parts.Body)
        (heads_of (slots.modules bodies.now.program.now)) params.now (given_said given.now))
        (body_said body.now).header.parameters) }
    ensures result { IfOk result (λ made.
        closed_meaning made.1
        ≡ parts_of.written_under (types_at (slots.modules bodies.now.program.now) body.now.place parts.Body)
        (heads_of (slots.modules bodies.now.program.now)) params.now (given_said given.now)
        (body_said body.now).header.result) }
{
    let place = Written {
        names: types_of(bodies, body.place),
        heads: bodies.program.heads_ref(),
        params,
        given,
    };
    let parameters = closed_fields(alloc, &place, &body.signature.parameters)?;
    let result = written_under(alloc, &place, &body.signature.result)?;
    Ok((parameters, result))
}

/// The closed tree of a body, over these type parameters and under what is given for them.
fn tree_closed(
    alloc: Global,
    known: &Known,
    params: &Params,
    given: &[GivenType],
    body: &Body,
) -> Result<Block<ClosedTrees>, Memory>
    requires { body.now.place < length (slots.modules known.now.bodies.program.now) }
    ensures { IfOk result (λ made.
        block closed made
        ≡ block_renoted (closes.change_of (slots.modules known.now.bodies.program.now)
        (modules_said known.now.bodies.modules.now) known.now.reached.now body.now.place params.now
        (given_said given.now)) (body_said body.now).block) }
{
    let sight = sight_at(&known.bodies, body.place);
    block_closed(alloc, &sight, params, given, known, body.block)
}

/// A body with its closed tree, under what is given for its type parameters.
fn body_closed(
    alloc: Global,
    known: &Known,
    given: &[GivenType],
    body: &Body,
) -> Result<ClosedFunction, Memory>
    requires { body.now.place < length (slots.modules known.now.bodies.program.now) }
    ensures { IfOk result (λ made.
        function_said made
        ≡ closes.body_closed (slots.modules known.now.bodies.program.now)
        (modules_said known.now.bodies.modules.now) known.now.reached.now (given_said given.now)
        (body_said body.now)) }
{
    let params = params_of(alloc, body.generics)?;
    let (parameters, result) = header_closed(alloc, &known.bodies, &params, given, body)?;
    let body_made = tree_closed(alloc, known, &params, given, body)?;
    let home = home_of(alloc, &known.bodies, body.place)?;
    Ok(ClosedFunction {
        home,
        parameters,
        result,
        body: body_made,
    })
}

/// An instance with its closed tree. Want of memory is also what is answered where its body isn't there.
pub(crate) fn instance_closed(
    alloc: Global,
    known: &Known,
    one: &Instance,
) -> Result<ClosedFunction, Memory>
    ensures { IfOk result (λ made.
        closes.instance_closed (slots.modules known.now.bodies.program.now)
        (modules_said known.now.bodies.modules.now) known.now.reached.now (instance_said one.now)
        ≡ Some (function_said made)) }
{
    let found = body_in(alloc, &known.bodies, one)?;
    match found {
        None => Err(Memory),
        Some(body) => body_closed(alloc, known, &one.given, &body),
    }
}
