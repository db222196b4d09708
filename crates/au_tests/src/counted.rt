//! A phase whose notes are numbers, and the turn that counts them, into that phase and into the one that has
//! none.

ghost use Rattle.std.specs.Prelude.{◌<◌};

use au_base::{Memory, Name};
use au_mapping::Turn;
use au_syntax::{Parsed, Phase};
use std::alloc::Global;

/// The phase whose notes are numbers from 1.
pub(crate) struct Counted;

impl Phase for Counted {
    ghost use Rattle.std.specs.Prelude.{List, ℕ, nat_lt};

    type Name = Name;

    type TypeNote = u32;

    type CallNote = u32;

    ghost SeenName = { List ℕ };

    ghost SeenType = { ℕ };

    ghost SeenCall = { ℕ };

    ghost see_name = { λ name. name };

    ghost see_type = { λ note. note };

    ghost see_call = { λ note. note };

    ghost name_bytes = { λ name. name };

    ghost allows_type = { λ note. nat_lt 0 note };

    ghost allows_call = { λ note. nat_lt 0 note };

    fn bytes_of(name: &Name) -> &[u8] {
        name.as_bytes()
    }

    fn copy_name(alloc: Global, name: &Name) -> Result<Name, Memory> {
        name.copy(alloc)
    }

    fn copy_type_note(_alloc: Global, note: &u32) -> Result<u32, Memory> {
        Ok(*note)
    }

    fn copy_call_note(_alloc: Global, note: &u32) -> Result<u32, Memory> {
        Ok(*note)
    }
}

/// How many notes were made.
#[derive(Drop)]
pub(crate) struct Count {
    pub(crate) made: u32,
}

impl Count {
    /// The next number.
    fn next(&mut self) -> u32
        ensures { 0 < result }
    {
        self.made = self.made.saturating_add(1);
        self.made
    }
}

impl Turn<Parsed, Counted> for Count {
    fn name(&mut self, _alloc: Global, old: Name) -> Result<Name, Memory> {
        Ok(old)
    }

    fn type_note(&mut self, _alloc: Global, _old: ()) -> Result<u32, Memory> {
        Ok(self.next())
    }

    fn call_note(&mut self, _alloc: Global, _old: ()) -> Result<u32, Memory> {
        Ok(self.next())
    }
}

impl Turn<Parsed, Parsed> for Count {
    fn name(&mut self, _alloc: Global, old: Name) -> Result<Name, Memory> {
        Ok(old)
    }

    fn type_note(&mut self, _alloc: Global, _old: ()) -> Result<(), Memory> {
        let _ = self.next();
        Ok(())
    }

    fn call_note(&mut self, _alloc: Global, _old: ()) -> Result<(), Memory> {
        let _ = self.next();
        Ok(())
    }
}
