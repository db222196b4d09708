//! The entries of what types mention.

ghost use Rattle.std.specs.Prelude.{◌≡◌, ◌++◌, ◌∷◌, [], IfOk, OnOk, if◌then◌else◌, option_copied};
ghost use Rattle.std.specs.Prelude.{option_to_list};
ghost use Rattle.au_caps_lists.specs.Entries as spec;
ghost use Rattle.au_caps_lists.specs.Views.{mention_said, mentions_said};
ghost use Rattle.au_caps_text.specs.Views.{texts_in};
ghost use Rattle.au_caps_types.specs.Heads as heads;
ghost use Rattle.au_modules.specs.Slots as slots;

use crate::mentions::Mention;
use au_base::{Memory, Name};
use au_caps_types::{Reaching, head_of, is_kept};
use au_imports::Resolved;
use au_types::{Params, universe_in};
use std::alloc::Global;

/// Whether values of the type that this name stands for may be capabilities.
fn may_stand(params: &Params, name: &Name) -> bool
    ensures { result ≡ heads.may_stand params.now name.now }
{
    match universe_in(params, name) {
        None => false,
        Some(universe) => is_kept(universe),
    }
}

/// The head at a place, if there is one.
fn head_at<'a>(program: &'a Resolved, reaching: &Reaching, place: usize) -> Option<&'a [u8]>
    ensures { option_copied result ≡ spec.head_at (slots.modules program.now) reaching.now place }
{
    match reaching.head(place) {
        None => None,
        Some(at) => head_of(program, at),
    }
}

/// Puts a text, if there is one.
fn push_text<'a>(made: &mut Vec<&'a [u8]>, text: Option<&'a [u8]>) -> Result<(), Memory>
    ensures { OnOk result (texts_in made.new.items
        ≡ texts_in made.old.items ++ option_to_list (option_copied text.entry)) }
{
    match text {
        None => Ok(()),
        Some(text) => {
            made.push(text)?;
            Ok(())
        }
    }
}

/// Puts the heads at some places.
pub fn push_heads<'a>(
    made: &mut Vec<&'a [u8]>,
    program: &'a Resolved,
    reaching: &Reaching,
    places: &[usize],
) -> Result<(), Memory>
    ensures { OnOk result (texts_in made.new.items
        ≡ texts_in made.old.items ++ spec.heads_at (slots.modules program.now) reaching.now places.now) }
{
    for place in places {
        push_text(made, head_at(program, reaching, *place))?;
    }
    Ok(())
}

/// Puts the name of a type parameter, if values of the type that it stands for may be capabilities.
fn push_parameter<'a>(
    made: &mut Vec<&'a [u8]>,
    params: &Params,
    name: &'a Name,
) -> Result<(), Memory>
    ensures { OnOk result (texts_in made.new.items
        ≡ texts_in made.old.items ++ (if heads.may_stand params.now name.now then name.now ∷ [] else [])) }
{
    if may_stand(params, name) {
        return push_text(made, Some(name.as_bytes()));
    }
    Ok(())
}

/// Puts what a mention adds.
fn push_entries<'a>(
    made: &mut Vec<&'a [u8]>,
    program: &'a Resolved,
    reaching: &Reaching,
    params: &Params,
    one: Mention<'a>,
) -> Result<(), Memory>
    ensures { OnOk result (texts_in made.new.items
        ≡ texts_in made.old.items
        ++ spec.entries_in (slots.modules program.now) reaching.now params.now (mention_said one.entry)) }
{
    match one {
        Mention::Declared(at) => push_heads(made, program, reaching, reaching.places(at)),
        Mention::Parameter(name) => push_parameter(made, params, name),
    }
}

/// The texts of the heads that mentioned types reach, and the names of mentioned type parameters that may
/// stand for capabilities. One may stand there more than once.
pub(crate) fn entries_of<'a>(
    alloc: Global,
    program: &'a Resolved,
    reaching: &Reaching,
    params: &Params,
    mentions: &Vec<Mention<'a>>,
) -> Result<Vec<&'a [u8]>, Memory>
    ensures { IfOk result (λ made. texts_in made.items
        ≡ spec.entries (slots.modules program.now) reaching.now params.now
        (mentions_said mentions.now.items)) }
{
    let mut made = Vec::new(alloc);
    for one in mentions {
        push_entries(&mut made, program, reaching, params, *one)?;
    }
    Ok(made)
}
