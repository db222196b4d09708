//! The tables that are kept while the text of a module is read.

ghost use Rattle.std.specs.Prelude.{◌≡◌, IfOk, OnOk, replicate};
ghost use Rattle.au_rules.specs.Scopes as spec;
ghost use Rattle.au_types.specs.Tables.{has_name};

use crate::marks::{Kind, Role};
use crate::nests::Nest;
use au_base::Memory;
use au_types::Table;
use std::alloc::Global;
use std::marker::Model;

/// The names of one kind that are declared so far, by their roles, and the local ones of the blocks that are
/// open.
#[derive(Drop)]
pub struct Names {
    /// The local names.
    pub locals: Table<()>,
    /// Those at the top of the module that stand for themselves.
    pub wholes: Table<()>,
    /// Those that the interface promises.
    pub promises: Table<()>,
    /// Those that the body may define.
    pub definitions: Table<()>,
    /// The local names in scope.
    pub nest: Nest<()>,
}

/// Whether a table has a name.
fn has(table: &Table<()>, name: &[u8]) -> bool
    ensures { result ≡ has_name name.now table.now }
{
    table.get(name).is_some()
}

impl Names {
    /// No names.
    fn new(alloc: Global) -> Names
        ensures { result ≡ spec.no_names }
    {
        Names {
            locals: Table::new(alloc),
            wholes: Table::new(alloc),
            promises: Table::new(alloc),
            definitions: Table::new(alloc),
            nest: Nest::new(alloc),
        }
    }

    /// Notes that a name is declared.
    fn note(&mut self, role: Role, name: &[u8]) -> Result<(), Memory>
        ensures { OnOk result (self.new ≡ spec.noted role name.now self.old) }
    {
        match role {
            Role::Local => {
                self.locals.put(name, ())?;
                self.nest.put(name, ())?;
            }
            Role::Whole => {
                self.wholes.put(name, ())?;
            }
            Role::Promise => {
                self.promises.put(name, ())?;
            }
            Role::Definition => {
                self.definitions.put(name, ())?;
            }
        }
        Ok(())
    }

    /// Notes that a block begins.
    fn enter(&mut self) -> Result<(), Memory>
        ensures { OnOk result (self.new ≡ spec.opened self.old) }
    {
        self.nest.enter()
    }

    /// Notes that a block ends.
    fn leave(&mut self)
        ensures { self.new ≡ spec.closed self.old }
    {
        self.nest.leave()
    }

    /// Whether a name stands at the top of the module.
    fn is_top(&self, name: &[u8]) -> bool
        ensures { result ≡ spec.is_top_in self.now name.now }
    {
        has(&self.wholes, name) || has(&self.promises, name) || has(&self.definitions, name)
    }

    /// Whether a name is declared anywhere.
    fn is_known(&self, name: &[u8]) -> bool
        ensures { result ≡ spec.is_known_in self.now name.now }
    {
        has(&self.locals, name) || self.is_top(name)
    }

    /// Whether a name that is declared now is declared again, given whether it comes from elsewhere too.
    fn is_again(&self, foreign: bool, role: Role, name: &[u8]) -> bool
        ensures { result ≡ spec.is_again_in foreign self.now role name.now }
    {
        match role {
            Role::Local => foreign || self.is_top(name) || self.nest.get(name).is_some(),
            Role::Whole => self.is_known(name),
            Role::Promise => self.is_known(name),
            Role::Definition => {
                if has(&self.promises, name) {
                    has(&self.definitions, name)
                } else {
                    self.is_known(name)
                }
            }
        }
    }
}

/// How many kinds of names there are.
const KINDS: usize = 4;

/// Which of the kinds a kind is, counted from 0.
fn number_of(kind: Kind) -> usize
    ensures { result ≡ spec.number_of kind }
{
    match kind {
        Kind::Values => 0,
        Kind::Callables => 1,
        Kind::Types => 2,
        Kind::Fields => 3,
    }
}

/// The names that are declared so far, by their kinds. Contracts see those of each kind in order.
#[derive(Drop)]
pub struct Scopes {
    by_kind: Vec<Names>,
}

impl Model for Scopes {
    ghost use Rattle.std.specs.Prelude.{List};
    ghost use Rattle.au_rules.specs.declared.scopes.Names.{Names};

    ghost Value = { List Names };

    ghost view = { λ s. s.by_kind.items };
}

impl Scopes {
    /// No names.
    pub fn new(alloc: Global) -> Result<Scopes, Memory>
        ensures { IfOk result (λ scopes. scopes ≡ replicate 4 spec.no_names) }
    {
        let mut by_kind = Vec::new(alloc);
        for _kind in 0..KINDS {
            by_kind.push(Names::new(alloc))?;
        }
        Ok(Scopes { by_kind })
    }

    /// Notes that a name is declared.
    pub fn note(&mut self, role: Role, kind: Kind, name: &[u8]) -> Result<(), Memory>
        ensures { OnOk result (self.new ≡ spec.changed kind (spec.noted role name.now) self.old) }
    {
        let number = number_of(kind);
        if number < self.by_kind.len() {
            self.by_kind[number].note(role, name)?;
        }
        Ok(())
    }

    /// Notes that a block begins, for one kind.
    fn enter_kind(&mut self, kind: Kind) -> Result<(), Memory>
        ensures { OnOk result (self.new ≡ spec.changed kind spec.opened self.old) }
    {
        let number = number_of(kind);
        if number < self.by_kind.len() {
            self.by_kind[number].enter()?;
        }
        Ok(())
    }

    /// Notes that a block begins.
    pub fn enter(&mut self) -> Result<(), Memory>
        ensures { OnOk result (self.new ≡ spec.changed_each spec.opened self.old) }
    {
        self.enter_kind(Kind::Values)?;
        self.enter_kind(Kind::Callables)?;
        self.enter_kind(Kind::Types)?;
        self.enter_kind(Kind::Fields)
    }

    /// Notes that a block ends, for one kind.
    fn leave_kind(&mut self, kind: Kind)
        ensures { self.new ≡ spec.changed kind spec.closed self.old }
    {
        let number = number_of(kind);
        if number < self.by_kind.len() {
            self.by_kind[number].leave();
        }
    }

    /// Notes that a block ends.
    pub fn leave(&mut self)
        ensures { self.new ≡ spec.changed_each spec.closed self.old }
    {
        self.leave_kind(Kind::Values);
        self.leave_kind(Kind::Callables);
        self.leave_kind(Kind::Types);
        self.leave_kind(Kind::Fields);
    }

    /// Whether a name that is declared now is declared again, given whether it comes from elsewhere too.
    pub fn is_again(&self, foreign: bool, role: Role, kind: Kind, name: &[u8]) -> bool
        ensures { result ≡ spec.is_again_among foreign self.now role kind name.now }
    {
        match self.by_kind.get(number_of(kind)) {
            None => foreign,
            Some(names) => names.is_again(foreign, role, name),
        }
    }
}
