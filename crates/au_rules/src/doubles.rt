//! The names of a program that are declared again.

ghost use Rattle.std.specs.Prelude.{◌≡◌, ◌<◌, IfOk, Some, length, slice_get};
ghost use Rattle.std.specs.Option.{option_copied};
ghost use Rattle.au_rules.specs.Doubles.{double_at, doubles_of, first_double, numbered_double};
ghost use Rattle.au_rules.specs.Scopes.{no_scopes};
ghost use Rattle.au_modules.specs.Programs.{ModuleParts};
ghost use Rattle.au_modules.specs.Slots as slots;
ghost use Rattle.au_types.specs.declared.types.DeclAt.{DeclAt};

use crate::finding::judge_part;
use crate::scopes::Scopes;
use au_base::{Memory, Name, Pos};
use au_imports::Resolved;
use au_syntax::Part;
use au_types::DeclAt;
use std::alloc::Global;
use std::marker::Model;

/// A name that is declared again, and the place where it is.
#[derive(Drop)]
pub struct Double {
    /// The name.
    pub name: Name,
    /// Its place: that of the later name in the text.
    pub at: Pos,
}

/// The names of a module that are declared again, for each declaration by its number the first.
#[derive(Drop)]
struct ModuleDoubles {
    by_number: Vec<Option<Double>>,
}

impl Model for ModuleDoubles {
    ghost use Rattle.std.specs.Prelude.{List, Option};
    ghost use Rattle.au_rules.specs.declared.doubles.Double.{Double};

    ghost Value = { List (Option Double) };

    ghost view = { λ d. d.by_number.items };
}

impl ModuleDoubles {
    /// Those of the module at a place, with tables in which nothing stands.
    fn with(
        alloc: Global,
        resolved: &Resolved,
        place: usize,
        scopes: &mut Scopes,
    ) -> Result<ModuleDoubles, Memory>
        requires within { place < length (slots.modules resolved.now) }
        requires empty { scopes.old ≡ no_scopes }
        ensures { (m : ModuleParts) → slice_get (slots.modules resolved.now) place ≡ Some m
            → IfOk result (λ doubles. doubles ≡ doubles_of (slots.modules resolved.now) place m) }
    {
        let mut by_number = Vec::new(alloc);
        judge_part(
            alloc,
            &mut by_number,
            scopes,
            resolved,
            place,
            Part::Interface,
        )?;
        judge_part(alloc, &mut by_number, scopes, resolved, place, Part::Body)?;
        Ok(ModuleDoubles { by_number })
    }

    /// Those of the module at a place.
    fn of(alloc: Global, resolved: &Resolved, place: usize) -> Result<ModuleDoubles, Memory>
        requires { place < length (slots.modules resolved.now) }
        ensures { (m : ModuleParts) → slice_get (slots.modules resolved.now) place ≡ Some m
            → IfOk result (λ doubles. doubles ≡ doubles_of (slots.modules resolved.now) place m) }
    {
        let mut scopes = Scopes::new(alloc)?;
        ModuleDoubles::with(alloc, resolved, place, &mut scopes)
    }

    /// That of the declaration of a number.
    fn first(&self, number: usize) -> Option<&Double>
        ensures { option_copied result ≡ numbered_double number (Some self.now) }
    {
        match self.by_number.get(number) {
            None => None,
            Some(found) => found.as_ref(),
        }
    }
}

/// The names of a program that are declared again: for each declaration, by its module and its number, the
/// first, in the order of the text.
#[derive(Drop)]
pub struct Doubles {
    by_place: Vec<ModuleDoubles>,
}

impl Model for Doubles {
    ghost use Rattle.std.specs.Prelude.{List, Option};
    ghost use Rattle.au_rules.specs.declared.doubles.Double.{Double};

    ghost Value = { List (List (Option Double)) };

    ghost view = { λ d. d.by_place.items };
}

impl Doubles {
    /// Those of a program. Its names are judged one after another, with tables of those in scope.
    ///
    /// # Errors
    ///
    /// Only for want of memory.
    pub fn of(alloc: Global, resolved: &Resolved) -> Result<Doubles, Memory>
        ensures { IfOk result (λ doubles. (at : DeclAt) → double_at doubles at
            ≡ first_double (slots.modules resolved.now) at) }
    {
        let mut by_place = Vec::new(alloc);
        for place in 0..resolved.modules().len() {
            let doubles = ModuleDoubles::of(alloc, resolved, place)?;
            by_place.push(doubles)?;
        }
        Ok(Doubles { by_place })
    }

    /// The first name of the declaration with this module and number that is declared again, if there is one.
    pub fn first(&self, at: DeclAt) -> Option<&Double>
        ensures { option_copied result ≡ double_at self.now at }
    {
        match self.by_place.get(at.module as usize) {
            None => None,
            Some(doubles) => doubles.first(at.decl as usize),
        }
    }
}
