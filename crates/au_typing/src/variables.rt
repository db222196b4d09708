//! The variables in scope.

ghost use Rattle.std.specs.Prelude.{◌≡◌, ◌∷◌, ◌-◌, [], OnErr, OnOk, drop, length, find as first};
ghost use Rattle.std.specs.Option.{option_map, option_copied};
ghost use Rattle.std.specs.Str.{bytes_eq};
ghost use Rattle.au_typing.specs.Variables.{variable_said};

use crate::places::Places;
use au_base::{Memory, Name};
use au_types::Ty;
use std::alloc::Global;
use std::marker::Model;

/// A variable.
#[derive(Drop)]
pub struct Variable {
    /// Its name.
    pub name: Name,
    /// Its type.
    pub of: Ty,
    /// Whether it may be assigned to.
    pub assignable: bool,
}

/// A variable in scope, with the place of the variable that it hides, if it hides one.
#[derive(Drop)]
pub(crate) struct Held {
    one: Variable,
    hides: Option<usize>,
}

/// The variables in scope. One is found by its name without a walk through them: a table tells the place of
/// the innermost variable of each name, and each variable the place of the one that it hides. Contracts see
/// the variables as a list with the innermost first.
#[derive(Drop)]
pub struct Variables {
    list: Vec<Held>,
    places: Places,
}

impl Model for Variables {
    ghost use Rattle.std.specs.Prelude.{List, map, reverse};
    ghost use Rattle.std.specs.Coded.{coded_list};
    ghost use Rattle.au_typing.specs.Codes.{variable_code};
    ghost use Rattle.au_typing.specs.Scopes as scopes;
    ghost use Rattle.au_typing.specs.Places.{ArePlaced, alone, held_said};

    ghost Value = { List scopes.Variable };

    ghost coded = { coded_list variable_code };

    ghost view = { λ v. alone (reverse (map held_said v.list.items)) };

    ghost invariant = { λ v. ArePlaced (reverse (map held_said v.list.items)) v.places };
}

impl Variables {
    /// No variables.
    pub fn new(alloc: Global) -> Variables
        ensures { result ≡ [] }
    {
        Variables {
            list: Vec::new(alloc),
            places: Places::new(alloc),
        }
    }

    /// How many variables there are.
    pub fn len(&self) -> usize
        ensures { result ≡ length self.now }
    {
        self.list.len()
    }

    /// Declares a variable, which is the innermost then.
    ///
    /// # Errors
    ///
    /// Only for want of memory; nothing changes then.
    pub fn declare(&mut self, one: Variable) -> Result<(), Memory>
        ensures ok { OnOk result (self.new ≡ variable_said one ∷ self.old) }
        ensures err { OnErr result (self.new ≡ self.old) }
    {
        self.places.make_room(one.name.as_bytes())?;
        let hides = self.places.get(one.name.as_bytes());
        let place = self.list.len();
        self.list.push(Held { one, hides })?;
        self.places
            .set(self.list[place].one.name.as_bytes(), Some(place));
        Ok(())
    }

    /// Forgets the innermost variable, if there is one.
    fn leave_one(&mut self)
        ensures { self.new ≡ drop 1 self.old }
    {
        if let Some(held) = self.list.pop() {
            self.places.set(held.one.name.as_bytes(), held.hides);
        }
    }

    /// Forgets the innermost variables, so that as many as this are left.
    pub fn leave_to(&mut self, count: usize)
        ensures { self.new ≡ drop (length self.old - count) self.old }
    {
        while self.len() > count {
            self.leave_one();
        }
    }

    /// The innermost variable of a name, if there is one.
    pub fn get(&self, name: &Name) -> Option<&Variable>
        ensures { option_map variable_said (option_copied result)
            ≡ first (λ one. bytes_eq one.name name.now) self.now }
    {
        match self.places.get(name.as_bytes()) {
            Some(place) => Some(&self.list[place].one),
            None => None,
        }
    }
}
