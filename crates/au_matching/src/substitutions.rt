//! Substitutions.

ghost use Rattle.std.specs.Prelude.{◌≡◌, ◌≤◌, [], None, Some, length, vec_len, IfOk, OnOk, OnErr};
ghost use Rattle.std.specs.Prelude.{MatchOption};
ghost use Rattle.std.specs.Cmp.Lexicographic.{slice_cmp};
ghost use Rattle.std.specs.List.{insert};
ghost use Rattle.std.specs.Ordering.{is_lt, nat_cmp};
ghost use Rattle.au_matching.specs.Bindings.{IsInOrder, value_of, with_pair};
ghost use Rattle.au_matching.specs.Listed.{pair_of, pairs};
ghost use Rattle.au_types.specs.Types.{Argument};
ghost use Rattle.au_types.specs.Views.{argument};

use au_base::{Memory, Name};
use au_types::{Arg, copy_argument};
use std::alloc::Global;
use std::marker::Model;

/// A name and what it stands for.
#[derive(Drop)]
struct Binding {
    name: Name,
    value: Arg,
}

/// What names stand for, each name listed once and in the order of their bytes, seen by contracts as the
/// list of these names, each with the type or the region that it stands for.
#[derive(Drop)]
pub struct Substitution {
    bindings: Vec<Binding>,
}

impl Model for Substitution {
    ghost use Rattle.std.specs.Prelude.{List, ℕ};
    ghost use Rattle.std.specs.Coded.{coded_list, coded×, coded_ℕ};
    ghost use Rattle.au_types.specs.Types.{Argument};
    ghost use Rattle.au_matching.specs.Codes.{argument_coded};

    ghost Value = { List (List ℕ × Argument) };

    ghost coded = { coded_list (coded× (coded_list coded_ℕ) argument_coded) };

    ghost use Rattle.au_matching.specs.Bindings.{IsInOrder};
    ghost use Rattle.au_matching.specs.Listed.{pairs};

    ghost view = { λ s. pairs s.bindings.items };

    ghost invariant = { λ s. IsInOrder (pairs s.bindings.items) };
}

impl Substitution {
    /// The substitution that lists nothing.
    pub fn new(alloc: Global) -> Substitution
        ensures { result ≡ [] }
    {
        Substitution {
            bindings: Vec::new(alloc),
        }
    }

    /// How many names are listed. They are listed in order.
    pub fn len(&self) -> usize
        ensures count { result ≡ length self.now }
        ensures ordered { IsInOrder self.now }
    {
        self.bindings.len()
    }

    /// What a name stands for, and `None` where it isn't listed.
    pub fn value_of(&self, name: &Name) -> Option<&Arg>
        ensures { MatchOption result (value_of name.now self.now ≡ None)
            (λ value. value_of name.now self.now ≡ Some (argument value.now)) }
    {
        find(&self.bindings, name)
    }

    /// Lets a name that isn't listed stand for a type or a region.
    ///
    /// # Errors
    ///
    /// `Memory` when memory runs out, and the substitution is as it was.
    pub fn put(&mut self, name: Name, value: Arg) -> Result<(), Memory>
        requires { value_of name self.old ≡ None }
        ensures ok { OnOk result (self.new ≡ with_pair name (argument value) self.old) }
        ensures err { OnErr result (self.new ≡ self.old) }
    {
        let place = place_of(&self.bindings, &name);
        self.bindings.insert(place, Binding { name, value })?;
        Ok(())
    }

    /// An equal substitution.
    ///
    /// # Errors
    ///
    /// `Memory` when memory runs out.
    pub fn copy(&self, alloc: Global) -> Result<Substitution, Memory>
        ensures { IfOk result (λ copy. copy ≡ self.now) }
    {
        let bindings = copy_all(alloc, &self.bindings)?;
        Ok(Substitution { bindings })
    }
}

/// What the first binding of a name has.
fn find<'a>(bindings: &'a Vec<Binding>, name: &Name) -> Option<&'a Arg>
    ensures { let listed = pairs bindings.now.items in
        MatchOption result (value_of name.now listed ≡ None)
        (λ value. value_of name.now listed ≡ Some (argument value.now)) }
{
    for one in bindings {
        if name.as_bytes() == one.name.as_bytes() {
            return Some(&one.value);
        }
    }
    None
}

/// Whether a name stands before another one in the order of bytes.
fn is_before(one: &Name, other: &Name) -> bool
    ensures { result ≡ is_lt (slice_cmp nat_cmp one.now other.now) }
{
    one.as_bytes().cmp(&other.as_bytes()).is_lt()
}

/// The place of a name that isn't listed among those that are.
fn place_of(bindings: &Vec<Binding>, name: &Name) -> usize
    requires { value_of name.now (pairs bindings.now.items) ≡ None }
    ensures within { result ≤ vec_len bindings.now }
    ensures place { (value : Argument) → let listed = pairs bindings.now.items in
        with_pair name.now value listed ≡ insert listed result (name.now, value) }
{
    for (index, one) in bindings.iter().enumerate() {
        if is_before(name, &one.name) {
            return index;
        }
    }
    bindings.len()
}

fn copy_all(alloc: Global, bindings: &Vec<Binding>) -> Result<Vec<Binding>, Memory>
    ensures { IfOk result (λ copies. pairs copies.items ≡ pairs bindings.now.items) }
{
    let mut copies = Vec::new(alloc);
    for one in bindings {
        let copy = copy_binding(alloc, one)?;
        copies.push(copy)?;
    }
    Ok(copies)
}

fn copy_binding(alloc: Global, one: &Binding) -> Result<Binding, Memory>
    ensures { IfOk result (λ copy. pair_of copy ≡ pair_of one.now) }
{
    let value = copy_argument(alloc, &one.value)?;
    let name = one.name.copy(alloc)?;
    Ok(Binding { name, value })
}
