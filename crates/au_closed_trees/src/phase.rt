//! The phase of trees whose types are closed: names are their bytes.

ghost use Rattle.std.specs.Prelude.{◌≡◌, true};
ghost use Rattle.std.specs.Prelude.{List, ℕ};
ghost use Rattle.au_closed_trees.specs.ClosedNotes.{Callee as CalleeSeen, ClosedNote as NoteSeen};
ghost use Rattle.au_closed_trees.specs.TreeViews.{callee, closed_note};

use crate::notes::{Callee, ClosedNote};
use au_base::{Memory, Name};
use au_syntax::Phase;
use std::alloc::Global;

/// The phase of trees whose types are closed.
#[derive(Clone, Copy, Debug)]
pub struct ClosedTrees;

impl Phase for ClosedTrees {
    type Name = Name;

    type TypeNote = ClosedNote;

    type CallNote = Callee;

    ghost SeenName = { List ℕ };

    ghost SeenType = { NoteSeen };

    ghost SeenCall = { CalleeSeen ℕ };

    ghost see_name = { λ name. name };

    ghost see_type = { λ note. closed_note note };

    ghost see_call = { λ note. callee note };

    ghost name_bytes = { λ name. name };

    ghost allows_type = { λ _. true };

    ghost allows_call = { λ _. true };

    fn bytes_of(name: &Name) -> &[u8] {
        name.as_bytes()
    }

    fn copy_name(alloc: Global, name: &Name) -> Result<Name, Memory> {
        name.copy(alloc)
    }

    fn copy_type_note(alloc: Global, note: &ClosedNote) -> Result<ClosedNote, Memory> {
        note.copy(alloc)
    }

    fn copy_call_note(alloc: Global, note: &Callee) -> Result<Callee, Memory> {
        note.copy(alloc)
    }
}
