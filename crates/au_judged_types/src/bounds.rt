//! Type parameters with the classes that constrain them.

ghost use Rattle.std.specs.Prelude.{◌≡◌, IfOk, length, option_copied};
ghost use Rattle.std.specs.List.{list_any};
ghost use Rattle.au_judged_types.specs.Bounds as spec;
ghost use Rattle.au_types.specs.Rows.{same_place};

use au_base::{Memory, Name, Sequence};
use au_types::{DeclAt, Params};
use std::alloc::Global;
use std::marker::Model;

/// Type parameters in the order of the text, each with the classes that constrain it, seen by contracts as
/// a list.
#[derive(Drop)]
pub struct Generics {
    params: Params,
    classes: Vec<Sequence<DeclAt>>,
}

impl Model for Generics {
    ghost use Rattle.std.specs.Prelude.{◌≡◌, List, length};
    ghost use Rattle.au_judged_types.specs.Bounds.{Bounded, bounded};

    ghost Value = { List Bounded };

    ghost view = { λ g. bounded g.params g.classes.items };

    ghost invariant = { λ g. length g.params ≡ length g.classes.items };
}

impl Generics {
    /// The type parameters, each with the classes in its place.
    pub fn of(params: Params, classes: Vec<Sequence<DeclAt>>) -> Generics
        requires { length params ≡ length classes.items }
        ensures { result ≡ spec.bounded params classes.items }
    {
        Generics { params, classes }
    }

    /// The type parameters alone, with their universes.
    pub fn params(&self) -> &Params
        ensures { result.now ≡ spec.parameters self.now }
    {
        &self.params
    }

    /// How many type parameters there are.
    pub fn len(&self) -> usize
        ensures { result ≡ length self.now }
    {
        self.params.len()
    }

    /// The classes that constrain the first type parameter of a name, in the order of the text, and `None`
    /// where no type parameter has the name.
    pub fn classes_of(&self, name: &Name) -> Option<&[DeclAt]>
        ensures { option_copied result ≡ spec.classes_of self.now name.now }
    {
        classes_in(&self.params, &self.classes, name)
    }

    /// Whether a class constrains the first type parameter of a name.
    pub fn constrains(&self, name: &Name, class: DeclAt) -> bool
        ensures { result ≡ spec.constrains self.now name.now class }
    {
        match self.classes_of(name) {
            Some(classes) => is_among(class, classes),
            None => false,
        }
    }

    /// An equal list.
    ///
    /// # Errors
    ///
    /// `Memory` when memory runs out.
    pub fn copy(&self, alloc: Global) -> Result<Generics, Memory>
        ensures { IfOk result (λ copy. copy ≡ self.now) }
    {
        let params = self.params.copy(alloc)?;
        let classes = copy_all(alloc, &self.classes)?;
        Ok(Generics { params, classes })
    }
}

/// The classes in the place of the first type parameter of a name.
fn classes_in<'a>(
    params: &Params,
    classes: &'a Vec<Sequence<DeclAt>>,
    name: &Name,
) -> Option<&'a [DeclAt]>
    requires { length params.now ≡ length classes.now.items }
    ensures { option_copied result ≡ spec.classes_of (spec.bounded params.now classes.now.items) name.now }
{
    for (index, one) in classes.iter().enumerate() {
        if params.at(index).name.as_bytes() == name.as_bytes() {
            return Some(one.as_slice());
        }
    }
    None
}

/// Whether a class is among these.
fn is_among(class: DeclAt, classes: &[DeclAt]) -> bool
    ensures { result ≡ list_any (same_place class) classes.now }
{
    classes.iter().any(|one| class == *one)
}

/// Equal lists of classes.
fn copy_all(alloc: Global, list: &Vec<Sequence<DeclAt>>) -> Result<Vec<Sequence<DeclAt>>, Memory>
    ensures { IfOk result (λ copies. copies.items ≡ list.now.items) }
{
    let mut copies = Vec::new(alloc);
    for one in list {
        let copy = one.as_slice().to_vec(alloc)?;
        copies.push(Sequence::from_vec(copy))?;
    }
    Ok(copies)
}
