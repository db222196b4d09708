//! Names.

ghost use Rattle.std.specs.Prelude.{◌≡◌, ◌<◌, ◌≤◌, length, IfOk};
ghost use Rattle.au_base.specs.Limits.{most_name_bytes};

use crate::faults::Memory;
use crate::texts::Text;
use std::alloc::Global;
use std::marker::Model;

/// A name of 1 to 64 bytes, seen by contracts as its bytes. A module's name may hold dots.
#[derive(Debug, Drop)]
pub struct Name {
    text: Text,
}

impl Model for Name {
    ghost use Rattle.std.specs.Prelude.{List, ℕ, ◌<◌, ◌≤◌, length};
    ghost use Rattle.au_base.specs.Limits.{most_name_bytes};

    ghost Value = { List ℕ };

    ghost view = { λ n. n.text };

    ghost invariant = { λ n. (0 < length n.text) × (length n.text ≤ most_name_bytes) };
}

impl Name {
    /// The name of these bytes.
    pub fn copy_of(alloc: Global, bytes: &[u8]) -> Result<Name, Memory>
        requires some { 0 < length bytes.now }
        requires most { length bytes.now ≤ most_name_bytes }
        ensures { IfOk result (λ n. n ≡ bytes.now) }
    {
        let text = Text::copy_of(alloc, bytes)?;
        Ok(Name { text })
    }

    /// A name equal to this one.
    pub fn copy(&self, alloc: Global) -> Result<Name, Memory>
        ensures { IfOk result (λ n. n ≡ self.now) }
    {
        let text = self.text.copy(alloc)?;
        Ok(Name { text })
    }

    /// The bytes.
    pub fn as_bytes(&self) -> &[u8]
        ensures bytes { result.now ≡ self.now }
        ensures some { 0 < length self.now }
        ensures most { length self.now ≤ most_name_bytes }
    {
        self.text.as_bytes()
    }
}

/// The function that a program begins with.
#[derive(Debug, Drop)]
pub struct Entry {
    /// The name of its module, with dots.
    pub module: Name,
    /// Its own name.
    pub function: Name,
}
