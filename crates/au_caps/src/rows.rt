//! The rows of reports.

ghost use Rattle.std.specs.Prelude.{◌≡◌, ◌<◌, ◌++◌, ◌∷◌, IfOk, List, length};
ghost use Rattle.au_caps_lists.specs.Bodies.{params_of as body_params};
ghost use Rattle.au_caps.specs.Reports.{AreRowsOf, IsRowOf};
ghost use Rattle.au_caps_lists.specs.Views.{AreWithin, bodies_said, body_said};
ghost use Rattle.au_caps.specs.Views.{AreLabelled, HasLabel, IsLabelled};
ghost use Rattle.au_caps_text.specs.Lists.{IsListOf};
ghost use Rattle.au_caps_types.specs.Views.{IsReaching};
ghost use Rattle.au_caps.specs.Calls.{module_name};
ghost use Rattle.au_modules.specs.Slots as slots;
ghost use Rattle.au_typing.specs.Trees.{NotedParts};

use au_base::{Memory, Name, Sequence, Text};
use au_caps_lists::{Body, hands_of, holds_of, params_of, push_heads};
use au_caps_text::{Row, list_of};
use au_caps_types::Reaching;
use au_graphs::Graph;
use au_imports::Resolved;
use au_types::Params;
use std::alloc::Global;

/// The name of a function or method of a module: the module's name, a colon and its own.
fn full_name(alloc: Global, owner: &Name, name: &Name) -> Result<Text, Memory>
    ensures { IfOk result (λ text. text ≡ owner.now ++ 58 ∷ name.now) }
{
    let mut text = Text::copy_of(alloc, owner.as_bytes())?;
    text.append(b":")?;
    text.append(name.as_bytes())?;
    Ok(text)
}

/// The name of the module at a place.
fn owner_of(program: &Resolved, place: usize) -> &Name
    requires { place < length (slots.modules program.now) }
    ensures { result.now ≡ module_name (slots.modules program.now) place }
{
    program.modules().name(place)
}

/// What a body can make, by the heads that come to its number.
fn makes_of(
    alloc: Global,
    program: &Resolved,
    reaching: &Reaching,
    made: &Graph,
    number: usize,
) -> Result<Sequence<Text>, Memory>
    ensures { IfOk result (IsListOf (HasLabel (slots.modules program.now) reaching.now made.now number)) }
{
    let mut texts = Vec::new(alloc);
    push_heads(&mut texts, program, reaching, made.successors(number))?;
    list_of(alloc, texts)
}

/// The row of a body of this number.
pub(crate) fn row_of(
    alloc: Global,
    program: &Resolved,
    reaching: &Reaching,
    made: &Graph,
    params: &Params,
    body: &Body,
    number: usize,
) -> Result<Row, Memory>
    requires place { body.now.place < length (slots.modules program.now) }
    requires reached { IsReaching (slots.modules program.now) reaching.now }
    requires params { params.now ≡ body_params (body_said body.now) }
    ensures { IfOk result (λ row. (noted : List NotedParts)
        → IsLabelled (slots.modules program.now) noted reaching.now made.now (body_said body.now) number
        → IsRowOf (slots.modules program.now) noted (body_said body.now) row) }
{
    let owner = owner_of(program, body.place);
    let function = full_name(alloc, owner, &body.signature.name.name)?;
    let makes = makes_of(alloc, program, reaching, made, number)?;
    let holds = holds_of(alloc, program, reaching, params, body)?;
    let hands = hands_of(alloc, program, reaching, params, body)?;
    Ok(Row {
        function,
        makes,
        holds,
        hands,
    })
}

/// The rows of bodies, to whose numbers these heads come.
pub(crate) fn rows_of(
    alloc: Global,
    program: &Resolved,
    reaching: &Reaching,
    made: &Graph,
    bodies: &Vec<Body>,
) -> Result<Vec<Row>, Memory>
    requires within { AreWithin (slots.modules program.now) (bodies_said bodies.now.items) }
    requires reached { IsReaching (slots.modules program.now) reaching.now }
    ensures { IfOk result (λ rows. (noted : List NotedParts)
        → AreLabelled (slots.modules program.now) noted reaching.now (bodies_said bodies.now.items) made.now
        → AreRowsOf (slots.modules program.now) noted (bodies_said bodies.now.items) rows.items) }
{
    let mut rows = Vec::new(alloc);
    for (own, one) in bodies.iter().enumerate() {
        let params = params_of(alloc, one.generics)?;
        let row = row_of(alloc, program, reaching, made, &params, one, own)?;
        rows.push(row)?;
    }
    Ok(rows)
}
