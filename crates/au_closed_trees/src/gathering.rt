//! The closed declared types that occur in a program, gathered one after another.

ghost use Rattle.std.specs.Prelude.{◌≡◌, [], ◌∷◌, OnOk, map, true};
ghost use Rattle.au_closed_trees.specs.Gathering.{parts_of};
ghost use Rattle.au_closed_trees.specs.Occurring.{all_occurring, counts_in};
ghost use Rattle.au_graphs.specs.Reached.{adds};
ghost use Rattle.au_type_texts.specs.Keys as keys;
ghost use Rattle.au_type_texts.specs.Same.{same};
ghost use Rattle.au_type_texts.specs.Types.{ClosedType};
ghost use Rattle.au_type_texts.specs.Views.{closed_meaning, closed_meanings};

use crate::listing::key_of;
use au_base::Memory;
use au_type_texts::{Closed, copy_closed};
use indexmap::IndexSet;
use std::alloc::Global;
use std::marker::Model;

/// Closed declared types, seen by contracts as the list of them in the order in which they were first found,
/// each once. What occurs in a type is gone through the first time alone.
#[derive(Drop)]
pub struct Gathered {
    list: Vec<Closed>,
    /// The keys of types with all that occur in them.
    whole: IndexSet<Vec<u32>>,
}

impl Model for Gathered {
    ghost use Rattle.std.specs.Coded.{coded_list};
    ghost use Rattle.std.specs.Prelude.{List, [], map};
    ghost use Rattle.au_closed_trees.specs.Gathering.{AreWhole};
    ghost use Rattle.au_closed_trees.specs.Telling.{type_coded};
    ghost use Rattle.au_graphs.specs.Reached.{adds};
    ghost use Rattle.au_type_texts.specs.Same.{same};
    ghost use Rattle.au_type_texts.specs.Types.{ClosedType};
    ghost use Rattle.au_type_texts.specs.Views.{closed_meaning};

    ghost Value = { List ClosedType };

    ghost coded = { coded_list type_coded };

    ghost view = { λ g. adds same [] (map closed_meaning g.list.items) };

    ghost invariant = { λ g. AreWhole (adds same [] (map closed_meaning g.list.items)) g.whole.keys };
}

impl Gathered {
    /// No type.
    pub fn new(alloc: Global) -> Gathered
        ensures { result ≡ [] }
    {
        Gathered {
            list: Vec::new(alloc),
            whole: IndexSet::new(alloc),
        }
    }

    /// The types, in their order.
    pub fn into_list(self) -> Vec<Closed>
        ensures { adds same [] (map closed_meaning result.items) ≡ self }
    {
        self.list
    }

    /// Whether the type of a key is there with all that occur in it.
    fn is_whole(&self, key: &Vec<u32>) -> bool
        ensures { (of : ClosedType) → key.now.items ≡ keys.key_of of → result ≡ true
            → adds same self.now (parts_of of) ≡ self.now }
    {
        self.whole.contains(key)
    }

    /// Puts a type at the end, if it isn't there yet.
    fn put(&mut self, alloc: Global, of: &Closed) -> Result<(), Memory>
        ensures { OnOk result (self.new ≡ adds same self.old (closed_meaning of.now ∷ [])) }
    {
        let copy = copy_closed(alloc, of)?;
        self.list.push(copy)?;
        Ok(())
    }

    /// Notes that the type of a key is there with all that occur in it.
    fn close(&mut self, key: Vec<u32>) -> Result<(), Memory>
        requires { (of : ClosedType) → key.items ≡ keys.key_of of → adds same self.old (parts_of of) ≡ self.old }
        ensures { OnOk result (self.new ≡ self.old) }
    {
        self.whole.insert(key)?;
        Ok(())
    }
}

/// Puts the declared types that occur in a closed type at the end, each if it isn't there yet.
///
/// # Errors
///
/// Only for want of memory.
#[tactic(auto, using(au_type_texts::proofs::ClosedLemmas::closed_steps, au_graphs::proofs::HasLemmas::adds_both))]
#[cycle(gather)]
pub fn gather(alloc: Global, of: &Closed, found: &mut Gathered) -> Result<(), Memory>
    ensures { OnOk result (found.new ≡ adds same found.old (parts_of (closed_meaning of.now))) }
{
    match of {
        Closed::Unit => Ok(()),
        Closed::Bool => Ok(()),
        Closed::Int(_) => Ok(()),
        Closed::Text => Ok(()),
        Closed::Named { args, .. } => {
            let key = key_of(alloc, of)?;
            if found.is_whole(&key) {
                return Ok(());
            }
            found.put(alloc, of)?;
            gather_all(alloc, args, found)?;
            found.close(key)
        }
        Closed::Read(to) => gather(alloc, to, found),
        Closed::Write(to) => gather(alloc, to, found),
    }
}

/// Puts those that occur in closed types at the end, each if it isn't there yet.
#[tactic(auto, using(au_type_texts::proofs::ClosedLemmas::closed_steps, au_graphs::proofs::HasLemmas::adds_both))]
#[cycle(gather)]
fn gather_all(alloc: Global, list: &Vec<Closed>, found: &mut Gathered) -> Result<(), Memory>
    ensures { OnOk result (found.new
        ≡ adds same found.old (all_occurring (counts_in true []) (closed_meanings list.now.items))) }
{
    for one in list {
        gather(alloc, one, found)?;
    }
    Ok(())
}
