//! The lists of what the variables of a body can hold, and of what it can hand on.

ghost use Rattle.std.specs.Prelude.{◌≡◌, ◌<◌, IfOk, length};
ghost use Rattle.au_caps_lists.specs.Bodies.{params_of as body_params};
ghost use Rattle.au_caps_lists.specs.Holding.{Hands, Holds};
ghost use Rattle.au_caps_lists.specs.Reaching.{Reaches};
ghost use Rattle.au_caps_lists.specs.Views.{body_said, mentions_said};
ghost use Rattle.au_caps_text.specs.Lists.{IsListOf};
ghost use Rattle.au_caps_types.specs.Views.{IsReaching};
ghost use Rattle.au_modules.specs.Slots as slots;

use crate::bodies::Body;
use crate::entries::entries_of;
use crate::mentions::{Mention, push_written};
use crate::scopes::scope_of;
use crate::{handing, holding};
use au_base::{Memory, Sequence, Text};
use au_caps_text::list_of;
use au_caps_types::Reaching;
use au_imports::Resolved;
use au_types::Params;
use std::alloc::Global;

/// The sorted list of the entries of what types mention.
fn entries_listed<'a>(
    alloc: Global,
    program: &'a Resolved,
    reaching: &Reaching,
    params: &Params,
    mentions: &Vec<Mention<'a>>,
) -> Result<Sequence<Text>, Memory>
    requires { IsReaching (slots.modules program.now) reaching.now }
    ensures { IfOk result (IsListOf
        (Reaches (slots.modules program.now) params.now (mentions_said mentions.now.items))) }
{
    let texts = entries_of(alloc, program, reaching, params, mentions)?;
    list_of(alloc, texts)
}

/// What the variables of a body can hold, by its type parameters.
///
/// # Errors
///
/// Only for want of memory.
pub fn holds_of(
    alloc: Global,
    program: &Resolved,
    reaching: &Reaching,
    params: &Params,
    body: &Body,
) -> Result<Sequence<Text>, Memory>
    requires place { body.now.place < length (slots.modules program.now) }
    requires reached { IsReaching (slots.modules program.now) reaching.now }
    requires params { params.now ≡ body_params (body_said body.now) }
    ensures { IfOk result (IsListOf (Holds (slots.modules program.now) (body_said body.now))) }
{
    let scope = scope_of(program, params, body.place);
    let mut mentions = Vec::new(alloc);
    holding::push_parameters(&mut mentions, &scope, &body.signature.parameters)?;
    holding::push_block(&mut mentions, &scope, body.block)?;
    entries_listed(alloc, program, reaching, params, &mentions)
}

/// What a body can hand on, by its type parameters.
///
/// # Errors
///
/// Only for want of memory.
pub fn hands_of(
    alloc: Global,
    program: &Resolved,
    reaching: &Reaching,
    params: &Params,
    body: &Body,
) -> Result<Sequence<Text>, Memory>
    requires place { body.now.place < length (slots.modules program.now) }
    requires reached { IsReaching (slots.modules program.now) reaching.now }
    requires params { params.now ≡ body_params (body_said body.now) }
    ensures { IfOk result (IsListOf (Hands (slots.modules program.now) (body_said body.now))) }
{
    let scope = scope_of(program, params, body.place);
    let mut mentions = Vec::new(alloc);
    push_written(&mut mentions, &scope, &body.signature.result)?;
    handing::push_block(&mut mentions, body.block)?;
    entries_listed(alloc, program, reaching, params, &mentions)
}
