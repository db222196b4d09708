//! The phase of trees as they are read: names are their bytes, and nothing is noted.

ghost use Rattle.std.specs.Prelude.{◌≡◌, true};
ghost use Rattle.std.specs.Prelude.{List, ℕ};

use crate::phases::Phase;
use au_base::{Memory, Name};
use std::alloc::Global;

/// The phase of trees as they are read.
#[derive(Clone, Copy, Debug)]
pub struct Parsed;

impl Phase for Parsed {
    type Name = Name;

    type TypeNote = ();

    type CallNote = ();

    ghost SeenName = { List ℕ };

    ghost SeenType = { Unit {0} };

    ghost SeenCall = { Unit {0} };

    ghost see_name = { λ name. name };

    ghost see_type = { λ _. tt };

    ghost see_call = { λ _. tt };

    ghost name_bytes = { λ name. name };

    ghost allows_type = { λ _. true };

    ghost allows_call = { λ _. true };

    fn bytes_of(name: &Name) -> &[u8] {
        name.as_bytes()
    }

    fn copy_name(alloc: Global, name: &Name) -> Result<Name, Memory> {
        name.copy(alloc)
    }

    fn copy_type_note(_alloc: Global, _note: &()) -> Result<(), Memory> {
        Ok(())
    }

    fn copy_call_note(_alloc: Global, _note: &()) -> Result<(), Memory> {
        Ok(())
    }
}
