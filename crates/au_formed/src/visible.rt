//! What is visible in a part of a module.

ghost use Rattle.std.specs.Prelude.{◌≡◌, ◌<◌, length};
ghost use Rattle.au_formed.specs.Said.{spot_said};
ghost use Rattle.au_formed.specs.Text as texts;
ghost use Rattle.au_names.specs.HeadsOf as rows;
ghost use Rattle.au_modules.specs.Slots as slots;

use crate::texts::Spot;
use au_imports::Resolved;
use au_types::{DeclAt, Heads, Table};

/// What is visible among types in a part of a module.
#[derive(Clone, Copy)]
pub struct Visible<'a> {
    /// The names of types and classes.
    pub names: &'a Table<DeclAt>,
    /// The declared types of the program.
    pub heads: &'a Heads,
}

/// What is visible where a declaration stands.
pub fn visible_at<'a>(resolved: &'a Resolved, one: &Spot) -> Visible<'a>
    requires { one.now.at.«module» < length (slots.modules resolved.now) }
    ensures names { result.names.now ≡ texts.visible_at (slots.modules resolved.now) (spot_said one.now) }
    ensures heads { result.heads.now ≡ rows.heads_of (slots.modules resolved.now) }
{
    let names = resolved.names(one.at.module as usize, one.part);
    Visible {
        names: &names.types,
        heads: resolved.heads_ref(),
    }
}
