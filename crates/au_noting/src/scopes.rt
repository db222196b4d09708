//! What is in scope at a place of a function.

ghost use Rattle.std.specs.Prelude.{◌≡◌, ◌++◌, ◌-◌, [], IfOk, OnErr, OnOk, length, unwrap_or};
ghost use Rattle.au_judged_types.specs.Bounds.{classes_of, parameters};
ghost use Rattle.au_instances.specs.Pairs.{constraints_of, named_with};
ghost use Rattle.au_noting.specs.Scopes.{closed_in, declared_in, opened_in, scope_said, without};
ghost use Rattle.au_noting.specs.Variables.{variable_said};

use au_base::{Memory, Name};
use au_instances::ClassAt;
use au_judged_types::Generics;
use au_sights::Surroundings;
use au_types::{Params, Scope as WrittenScope, Ty};
use au_typing::{Variable, Variables};
use std::alloc::Global;
use std::marker::Model;

/// Type parameters with the classes that constrain them, and the same as a list of constraints. Contracts see
/// the type parameters alone.
#[derive(Drop)]
pub struct Bounds {
    generics: Generics,
    known: Vec<(Name, ClassAt)>,
}

impl Model for Bounds {
    ghost use Rattle.std.specs.Prelude.{◌≡◌, List};
    ghost use Rattle.au_judged_types.specs.Bounds.{Bounded};
    ghost use Rattle.au_instances.specs.Pairs.{constraints_of};

    ghost Value = { List Bounded };

    ghost view = { λ b. b.generics };

    ghost invariant = { λ b. b.known.items ≡ constraints_of b.generics };
}

impl Bounds {
    /// These type parameters.
    ///
    /// # Errors
    ///
    /// Only for want of memory.
    pub fn of(alloc: Global, generics: Generics) -> Result<Bounds, Memory>
        ensures { IfOk result (λ bounds. bounds ≡ generics) }
    {
        let known = constraints(alloc, &generics)?;
        Ok(Bounds { generics, known })
    }

    /// The type parameters with the classes that constrain them.
    pub fn generics(&self) -> &Generics
        ensures { result.now ≡ self.now }
    {
        &self.generics
    }

    /// The type parameters alone.
    pub fn params(&self) -> &Params
        ensures { result.now ≡ parameters self.now }
    {
        self.generics.params()
    }

    /// The constraints of the type parameters from left to right.
    pub fn known(&self) -> &[(Name, ClassAt)]
        ensures { result.now ≡ constraints_of self.now }
    {
        self.known.as_slice()
    }
}

/// The constraints of type parameters from left to right.
///
/// # Errors
///
/// Only for want of memory.
pub fn constraints(alloc: Global, generics: &Generics) -> Result<Vec<(Name, ClassAt)>, Memory>
    ensures { IfOk result (λ known. known.items ≡ constraints_of generics.now) }
{
    let mut known = Vec::new(alloc);
    for index in 0..generics.len() {
        add_constraints(
            alloc,
            &mut known,
            generics,
            &generics.params().at(index).name,
        )?;
    }
    Ok(known)
}

/// Adds the constraints of the type parameter of a name.
fn add_constraints(
    alloc: Global,
    known: &mut Vec<(Name, ClassAt)>,
    generics: &Generics,
    name: &Name,
) -> Result<(), Memory>
    ensures { OnOk result (known.new.items ≡ known.old.items
        ++ named_with name.now (unwrap_or (classes_of generics.now name.now) [])) }
{
    match generics.classes_of(name) {
        Some(classes) => add_named(alloc, known, name, classes),
        None => Ok(()),
    }
}

/// Adds classes, each with a name.
fn add_named(
    alloc: Global,
    known: &mut Vec<(Name, ClassAt)>,
    name: &Name,
    classes: &[ClassAt],
) -> Result<(), Memory>
    ensures { OnOk result (known.new.items ≡ known.old.items ++ named_with name.now classes.now) }
{
    for class in classes {
        let copy = name.copy(alloc)?;
        known.push((copy, *class))?;
    }
    Ok(())
}

/// What is in scope at a place of a function.
#[derive(Drop)]
pub struct Scope<'a> {
    /// What is outside of the function.
    pub outside: Surroundings<'a>,
    /// The type parameters.
    pub bounds: Bounds,
    /// The type of the result.
    pub result: Ty,
    /// The regions of the borrow statements that are open, the innermost first.
    pub regions: Vec<Name>,
    /// The variables.
    pub variables: Variables,
}

impl<'a> Scope<'a> {
    /// What stands for names in written types.
    pub fn written<'s>(&'s self) -> WrittenScope<'s>
        ensures regions { result.regions.now ≡ (scope_said self.now).regions }
        ensures params { result.params.now ≡ parameters (scope_said self.now).generics }
        ensures names { result.names.now ≡ (scope_said self.now).outside.visible }
        ensures heads { result.heads.now ≡ (scope_said self.now).outside.heads }
    {
        WrittenScope {
            regions: self.regions.as_slice(),
            params: self.bounds.params(),
            names: &self.outside.names.types,
            heads: self.outside.program.heads_ref(),
        }
    }

    /// How many variables there are.
    pub fn depth(&self) -> usize
        ensures { result ≡ length (scope_said self.now).variables }
    {
        self.variables.len()
    }

    /// Declares a variable, which is the innermost then.
    ///
    /// # Errors
    ///
    /// Only for want of memory; nothing changes then.
    pub fn declare(&mut self, one: Variable) -> Result<(), Memory>
        ensures ok { OnOk result
            (scope_said self.new ≡ declared_in (variable_said one) (scope_said self.old)) }
        ensures err { OnErr result (scope_said self.new ≡ scope_said self.old) }
    {
        self.variables.declare(one)
    }

    /// Forgets the innermost variables, so that as many as this are left.
    pub fn leave_to(&mut self, count: usize)
        ensures { scope_said self.new
            ≡ without (length (scope_said self.old).variables - count) (scope_said self.old) }
    {
        self.variables.leave_to(count);
    }

    /// Opens a region, which is the innermost then.
    ///
    /// # Errors
    ///
    /// Only for want of memory; nothing changes then.
    pub fn enter_region(&mut self, name: Name) -> Result<(), Memory>
        ensures ok { OnOk result (scope_said self.new ≡ opened_in name (scope_said self.old)) }
        ensures err { OnErr result (scope_said self.new ≡ scope_said self.old) }
    {
        self.regions.insert(0, name)?;
        Ok(())
    }

    /// Closes the innermost region, if one is open.
    pub fn leave_region(&mut self)
        ensures { scope_said self.new ≡ closed_in (scope_said self.old) }
    {
        if !self.regions.is_empty() {
            let _left = self.regions.remove(0);
        }
    }
}
