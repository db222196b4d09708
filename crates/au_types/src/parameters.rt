//! Type parameters and their universes.

ghost use Rattle.std.specs.Prelude.{◌≡◌, ◌<◌, ◌++◌, ◌∷◌, [], Some, length, slice_get, IfOk, OnOk, OnErr};
ghost use Rattle.au_types.specs.Universes.{universe_in};

use au_base::{Memory, Name};
use au_syntax::Universe;
use std::alloc::Global;
use std::marker::Model;

/// A type parameter.
#[derive(Drop)]
pub struct Parameter {
    /// Its name.
    pub name: Name,
    /// Its universe.
    pub universe: Universe,
}

impl Parameter {
    /// An equal type parameter.
    ///
    /// # Errors
    ///
    /// `Memory` when memory runs out.
    pub fn copy(&self, alloc: Global) -> Result<Parameter, Memory>
        ensures { IfOk result (λ copy. copy ≡ self.now) }
    {
        let universe = self.universe;
        let name = self.name.copy(alloc)?;
        Ok(Parameter { name, universe })
    }
}

/// Type parameters in declared order, seen by contracts as a list.
#[derive(Drop)]
pub struct Params {
    list: Vec<Parameter>,
}

impl Model for Params {
    ghost use Rattle.std.specs.Prelude.{List};
    ghost use Rattle.au_types.specs.declared.parameters.Parameter.{Parameter};

    ghost Value = { List Parameter };

    ghost view = { λ p. p.list.items };
}

impl Params {
    /// No type parameter.
    pub fn new(alloc: Global) -> Params
        ensures { result ≡ [] }
    {
        Params {
            list: Vec::new(alloc),
        }
    }

    /// Puts a type parameter at the end.
    ///
    /// # Errors
    ///
    /// `Memory` when memory runs out, and the list is as it was.
    pub fn push(&mut self, one: Parameter) -> Result<(), Memory>
        ensures ok { OnOk result (self.new ≡ self.old ++ one ∷ []) }
        ensures err { OnErr result (self.new ≡ self.old) }
    {
        self.list.push(one)?;
        Ok(())
    }

    /// How many type parameters there are.
    pub fn len(&self) -> usize
        ensures { result ≡ length self.now }
    {
        self.list.len()
    }

    /// The type parameter at an index below the length.
    pub fn at(&self, index: usize) -> &Parameter
        requires { index < length self.now }
        ensures { slice_get self.now index ≡ Some result.now }
    {
        &self.list[index]
    }

    /// An equal list.
    ///
    /// # Errors
    ///
    /// `Memory` when memory runs out.
    pub fn copy(&self, alloc: Global) -> Result<Params, Memory>
        ensures { IfOk result (λ copy. copy ≡ self.now) }
    {
        let list = copy_all(alloc, &self.list)?;
        Ok(Params { list })
    }
}

fn copy_all(alloc: Global, list: &Vec<Parameter>) -> Result<Vec<Parameter>, Memory>
    ensures { IfOk result (λ copies. copies.items ≡ list.now.items) }
{
    let mut copies = Vec::new(alloc);
    for one in list {
        let copy = one.copy(alloc)?;
        copies.push(copy)?;
    }
    Ok(copies)
}

/// The universe of the first type parameter that has this name, and `None` where none has it.
pub fn universe_in(params: &Params, name: &Name) -> Option<Universe>
    ensures { result ≡ universe_in params.now name.now }
{
    for one in &params.list {
        if one.name.as_bytes() == name.as_bytes() {
            return Some(one.universe);
        }
    }
    None
}
