//! What names mean.

ghost use Rattle.std.specs.Prelude.{◌≡◌, IfOk};

use au_base::{Memory, Text};
use au_types::DeclAt;
use std::alloc::Global;

/// What a name means: a declaration, or a case or a method in it.
#[derive(Drop)]
pub struct Target {
    /// The declaration.
    pub at: DeclAt,
    /// The name under which it, or its case or method, is declared.
    pub name: Text,
}

impl Target {
    /// An equal one.
    ///
    /// # Errors
    ///
    /// Only for want of memory.
    pub fn copy(&self, alloc: Global) -> Result<Target, Memory>
        ensures { IfOk result (λ copy. copy ≡ self.now) }
    {
        let at = self.at;
        let name = self.name.copy(alloc)?;
        Ok(Target { at, name })
    }
}
