//! The variables in scope with their slots.

ghost use Rattle.std.specs.Prelude.{◌≡◌, ◌∷◌, ◌++◌, ◌-◌, [], OnErr, OnOk, length, take};
ghost use Rattle.std.specs.Option.{option_copied, option_map};
ghost use Rattle.au_lowering_expressions.specs.Views.{local_said, scope_said};
ghost use Rattle.au_meaning.specs.Names.{variable_of};

use au_base::{Memory, Name};
use au_type_texts::Closed;
use au_typing::places::Places;
use std::alloc::Global;
use std::marker::Model;

/// A variable with its slot.
#[derive(Drop)]
pub struct Local {
    /// Its name.
    pub name: Name,
    /// Its slot.
    pub slot: u32,
    /// Its type, where it is known.
    pub of: Option<Closed>,
}

/// A variable in scope, with the place of the variable that it hides, if it hides one.
#[derive(Drop)]
pub(crate) struct Held {
    one: Local,
    hides: Option<usize>,
}

/// The variables in scope. One is found by its name without a walk through them: a table tells the place of
/// the innermost variable of each name, and each variable the place of the one that it hides. Contracts see
/// the variables as a list with the innermost last.
#[derive(Drop)]
pub struct Locals {
    list: Vec<Held>,
    places: Places,
}

impl Model for Locals {
    ghost use Rattle.std.specs.Prelude.{List};
    ghost use Rattle.std.specs.Coded.{coded_list};
    ghost use Rattle.au_lowering_expressions.specs.declared.locals.Local.{Local};
    ghost use Rattle.au_lowering_expressions.specs.contracts.locals.Local as local;
    ghost use Rattle.au_lowering_expressions.specs.Innermost.{ArePlaced, alone};

    ghost Value = { List Local };

    ghost coded = { coded_list local.the_row.coded };

    ghost view = { λ v. alone v.list.items };

    ghost invariant = { λ v. ArePlaced v.list.items v.places };
}

impl Locals {
    /// No variables.
    pub fn new(alloc: Global) -> Locals
        ensures { result ≡ [] }
    {
        Locals {
            list: Vec::new(alloc),
            places: Places::new(alloc),
        }
    }

    /// How many variables there are.
    pub fn len(&self) -> usize
        ensures { result ≡ length self.now }
    {
        self.list.len()
    }

    /// Declares a variable, which is the innermost then.
    ///
    /// # Errors
    ///
    /// Only for want of memory; nothing changes then.
    pub fn declare(&mut self, one: Local) -> Result<(), Memory>
        ensures ok { OnOk result (self.new ≡ self.old ++ one ∷ []) }
        ensures err { OnErr result (self.new ≡ self.old) }
    {
        self.places.make_room(one.name.as_bytes())?;
        let hides = self.places.get(one.name.as_bytes());
        let place = self.list.len();
        self.list.push(Held { one, hides })?;
        self.places
            .set(self.list[place].one.name.as_bytes(), Some(place));
        Ok(())
    }

    /// Forgets the innermost variable, if there is one.
    fn leave_one(&mut self)
        ensures { self.new ≡ take (length self.old - 1) self.old }
    {
        if let Some(held) = self.list.pop() {
            self.places.set(held.one.name.as_bytes(), held.hides);
        }
    }

    /// Forgets the innermost variables, so that as many as this are left.
    pub fn leave_to(&mut self, count: usize)
        ensures { self.new ≡ take count self.old }
    {
        while self.len() > count {
            self.leave_one();
        }
    }

    /// The innermost variable of a name, if there is one.
    pub fn find(&self, name: &Name) -> Option<&Local>
        ensures { option_map local_said (option_copied result)
            ≡ variable_of (scope_said self.now) name.now }
    {
        match self.places.get(name.as_bytes()) {
            Some(place) => Some(&self.list[place].one),
            None => None,
        }
    }
}
