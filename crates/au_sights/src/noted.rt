//! The phase of trees that are noted: names are their bytes, and each expression has its note.

ghost use Rattle.std.specs.Prelude.{◌≡◌, true};
ghost use Rattle.std.specs.Prelude.{List, ℕ};
ghost use Rattle.au_sights.specs.Views.{note};
ghost use Rattle.au_typing.specs.Notes.{Note};

use crate::notes::Notes;
use au_base::{Memory, Name};
use au_syntax::Phase;
use std::alloc::Global;

/// The phase of trees that are noted.
#[derive(Clone, Copy, Debug)]
pub struct Noted;

impl Phase for Noted {
    type Name = Name;

    type TypeNote = Notes;

    type CallNote = ();

    ghost SeenName = { List ℕ };

    ghost SeenType = { Note };

    ghost SeenCall = { Unit {0} };

    ghost see_name = { λ name. name };

    ghost see_type = { λ one. note one };

    ghost see_call = { λ _. tt };

    ghost name_bytes = { λ name. name };

    ghost allows_type = { λ _. true };

    ghost allows_call = { λ _. true };

    fn bytes_of(name: &Name) -> &[u8] {
        name.as_bytes()
    }

    fn copy_name(alloc: Global, name: &Name) -> Result<Name, Memory> {
        name.copy(alloc)
    }

    fn copy_type_note(alloc: Global, note: &Notes) -> Result<Notes, Memory> {
        note.copy(alloc)
    }

    fn copy_call_note(_alloc: Global, _note: &()) -> Result<(), Memory> {
        Ok(())
    }
}
