//! Single mentions of a variable.

ghost use Rattle.std.specs.Prelude.{◌≡◌, ◌++◌, OnOk, if◌then◌else◌, false, true};
ghost use Rattle.std.specs.Str.{bytes_eq};
ghost use Rattle.au_explain.specs.Mentions as spec;
ghost use Rattle.au_explain.specs.Said.{name_said, names_said};

use crate::{Mention, MentionKind};
use au_base::{Memory, Name, Pos};
use au_syntax::{Access, BorrowMode, Ident, Parsed};

/// Whether a name is that of the variable.
pub(crate) fn is_named(x: &Name, name: &Ident<Parsed>) -> bool
    ensures { result ≡ bytes_eq (name_said name.now).name x.now }
{
    name.name.as_bytes() == x.as_bytes()
}

/// How a path mentions the variable at its head.
pub(crate) fn path_kind(looks: bool, fields: &Vec<Ident<Parsed>>) -> MentionKind
    ensures { result ≡ spec.path_kind looks (names_said fields.now.items) }
{
    if looks || !fields.is_empty() {
        MentionKind::Looked
    } else {
        MentionKind::Consumed
    }
}

/// How a borrow statement without a written type mentions what it borrows.
pub(crate) fn access_kind(access: Access) -> MentionKind
    ensures { result ≡ spec.access_kind access }
{
    match access {
        Access::Read => MentionKind::Read,
        Access::Write => MentionKind::Written,
    }
}

/// How a borrow mentions what it borrows.
pub(crate) fn mode_kind(mode: BorrowMode) -> MentionKind
    ensures { result ≡ spec.mode_kind mode }
{
    match mode {
        BorrowMode::Read => MentionKind::Read,
        BorrowMode::Write => MentionKind::Written,
        BorrowMode::Reborrow => MentionKind::Written,
    }
}

/// Adds a mention, if it is one of the variable.
pub(crate) fn add_mention(
    x: &Name,
    name: &Ident<Parsed>,
    kind: MentionKind,
    until: Option<Pos>,
    made: &mut Vec<Mention>,
) -> Result<(), Memory>
    ensures { OnOk result (made.new.items
        ≡ made.old.items ++ spec.mention_of x.now (name_said name.now) kind until) }
{
    if is_named(x, name) {
        made.push(Mention {
            kind,
            at: name.at,
            until,
        })?;
    }
    Ok(())
}
