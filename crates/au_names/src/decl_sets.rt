//! Sets of declarations.

ghost use Rattle.std.specs.Prelude.{◌≡◌, [], not, IfOk, OnOk};
ghost use Rattle.au_names.specs.Along.{is_among, with_declaration};

use au_base::Memory;
use au_types::DeclAt;
use indexmap::IndexSet;
use std::alloc::Global;
use std::marker::Model;

/// Declarations, each once, seen by contracts as the list of them in the order in which they came.
#[derive(Drop)]
pub struct DeclSet {
    places: IndexSet<DeclAt>,
}

impl Model for DeclSet {
    ghost use Rattle.std.specs.Prelude.{List};
    ghost use Rattle.au_types.specs.declared.types.DeclAt.{DeclAt};

    ghost Value = { List DeclAt };

    ghost view = { λ s. s.places.keys };
}

impl DeclSet {
    /// No declarations.
    pub fn new(alloc: Global) -> DeclSet
        ensures { result ≡ [] }
    {
        DeclSet {
            places: IndexSet::new(alloc),
        }
    }

    /// Puts a declaration, and answers whether it is new.
    ///
    /// # Errors
    ///
    /// Only for want of memory.
    pub fn put(&mut self, at: DeclAt) -> Result<bool, Memory>
        ensures fresh { IfOk result (λ fresh. fresh ≡ not (is_among at self.old)) }
        ensures places { OnOk result (self.new ≡ with_declaration self.old at) }
    {
        let fresh = self.places.insert(at)?;
        Ok(fresh)
    }
}
