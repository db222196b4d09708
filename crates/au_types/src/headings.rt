//! What is known of each declared type before its fields are looked at.

ghost use Rattle.std.specs.Prelude.{◌≡◌, ◌<◌, ◌++◌, ◌∷◌, [], None, Some, length, slice_get, option_copied};
ghost use Rattle.std.specs.Prelude.{IfOk, OnOk, OnErr};
ghost use Rattle.au_types.specs.Rows.{head_of};

use crate::parameters::Params;
use crate::types::DeclAt;
use au_base::{Memory, Text};
use au_syntax::Universe;
use indexmap::IndexMap;
use std::alloc::Global;
use std::marker::Model;

/// A declared type.
#[derive(Drop)]
pub struct Head {
    /// Its module's name, a colon and its own name.
    pub text: Text,
    /// Its universe.
    pub universe: Universe,
    /// Its type parameters.
    pub params: Params,
}

impl Head {
    /// An equal head.
    ///
    /// # Errors
    ///
    /// `Memory` when memory runs out.
    pub fn copy(&self, alloc: Global) -> Result<Head, Memory>
        ensures { IfOk result (λ copy. copy ≡ self.now) }
    {
        let universe = self.universe;
        let text = self.text.copy(alloc)?;
        let params = self.params.copy(alloc)?;
        Ok(Head {
            text,
            universe,
            params,
        })
    }
}

/// The heads of declared types, each with its declaration, seen by contracts as the list of these rows in
/// the order in which they came.
#[derive(Drop)]
pub struct Heads {
    rows: IndexMap<DeclAt, Head>,
}

impl Model for Heads {
    ghost use Rattle.std.specs.Prelude.{List};
    ghost use Rattle.au_types.specs.declared.types.DeclAt.{DeclAt};
    ghost use Rattle.au_types.specs.declared.headings.Head.{Head};

    ghost Value = { List (DeclAt × Head) };

    ghost view = { λ h. h.rows.entries };
}

impl Heads {
    /// No row.
    pub fn new(alloc: Global) -> Heads
        ensures { result ≡ [] }
    {
        Heads {
            rows: IndexMap::new(alloc),
        }
    }

    /// Puts a row at the end, where none is of this declaration.
    ///
    /// # Errors
    ///
    /// `Memory` when memory runs out, and the rows are as they were.
    pub fn push(&mut self, at: DeclAt, head: Head) -> Result<(), Memory>
        requires { head_of self.old at ≡ None }
        ensures ok { OnOk result (self.new ≡ self.old ++ (at, head) ∷ []) }
        ensures err { OnErr result (self.new ≡ self.old) }
    {
        self.rows.insert(at, head)?;
        Ok(())
    }

    /// The head of a declaration, and `None` where no row is of it.
    pub fn row(&self, at: DeclAt) -> Option<&Head>
        ensures { option_copied result ≡ head_of self.now at }
    {
        self.rows.get(&at)
    }

    /// The row at an index below the length.
    pub fn at(&self, index: usize) -> (DeclAt, &Head)
        requires { index < length self.now }
        ensures row { slice_get self.now index ≡ Some (result.0, result.1.now) }
        ensures found { head_of self.now result.0 ≡ Some result.1.now }
    {
        match self.rows.get_index(index) {
            Some((at, head)) => (*at, head),
            None => unreachable!(),
        }
    }

    /// How many rows there are.
    pub fn len(&self) -> usize
        ensures { result ≡ length self.now }
    {
        self.rows.len()
    }
}
