//! Where the definitions of a body stand among its declarations, so that none is found by a walk through
//! the body.

ghost use Rattle.std.specs.Prelude.{◌≡◌, IfOk, OnOk, find, slice_get};
ghost use Rattle.std.specs.Option.{option_copied};
ghost use Rattle.au_promises.specs.Defining as defining;
ghost use Rattle.au_promises.specs.Defining.{AreDefinitions, AreFirst, AreNamed};
ghost use Rattle.au_promises.specs.Promises as spec;
ghost use Rattle.au_promises.specs.Written.{declarations_of, declared_of, declared_seen, sight_in};

use crate::keys::{KeySort, first_keyed};
use crate::sights::Sight;
use au_base::{Memory, Name};
use au_syntax::{Decl, Parsed};
use au_types::Table;
use std::alloc::Global;

/// A sort of definitions that have names.
#[derive(Clone, Copy)]
pub enum Sort {
    /// Constants.
    Constants,
    /// Types: records and unions.
    Types,
    /// Functions.
    Functions,
}

/// Where the first definitions of a body stand by their names, by their indices among its declarations.
#[derive(Drop)]
pub struct ByName {
    /// The first constant of each name.
    pub constants: Table<usize>,
    /// The first type of each name.
    pub types: Table<usize>,
    /// The first function of each name.
    pub functions: Table<usize>,
}

/// Where the definitions of a body stand, by their indices among its declarations.
#[derive(Drop)]
pub struct Definitions {
    /// The first of each name.
    pub names: ByName,
    /// The first instance of each class and written type.
    pub worded: Table<usize>,
    /// The first instance of each class whose type means nothing.
    pub meaningless: Table<usize>,
}

/// The name that a declaration defines of a sort, if it defines one.
fn name_defined(sort: Sort, decl: &Decl<Parsed>) -> Option<&Name>
    ensures { option_copied result ≡ defining.name_defined sort (declared_of decl.now) }
{
    match (sort, decl) {
        (Sort::Constants, Decl::ConstantBody(_, name, ..)) => Some(&name.name),
        (Sort::Types, Decl::Record(_, name, ..) | Decl::Union(_, name, ..)) => Some(&name.name),
        (Sort::Functions, Decl::FunctionBody(_, _, signature, ..)) => Some(&signature.name.name),
        _ => None,
    }
}

/// Puts an index under a name, if there is one and it has no index.
fn put_name(table: &mut Table<usize>, name: Option<&Name>, index: usize) -> Result<(), Memory>
    ensures { OnOk result (table.new ≡ defining.with_name table.old (option_copied name.entry) index) }
{
    match name {
        None => Ok(()),
        Some(name) => {
            table.put(name.as_bytes(), index)?;
            Ok(())
        }
    }
}

/// The first definition of each name of a sort, by its index.
fn first_defined(alloc: Global, sort: Sort, decls: &[Decl<Parsed>]) -> Result<Table<usize>, Memory>
    ensures { IfOk result (λ table. AreFirst (defining.name_defined sort)
        (declarations_of decls.now) table) }
{
    let mut table = Table::new(alloc);
    for (index, one) in decls.iter().enumerate() {
        put_name(&mut table, name_defined(sort, one), index)?;
    }
    Ok(table)
}

impl ByName {
    /// The first definitions of a body by their names.
    fn of(alloc: Global, decls: &[Decl<Parsed>]) -> Result<ByName, Memory>
        ensures { IfOk result (λ names. AreNamed (declarations_of decls.now) names) }
    {
        let constants = first_defined(alloc, Sort::Constants, decls)?;
        let types = first_defined(alloc, Sort::Types, decls)?;
        let functions = first_defined(alloc, Sort::Functions, decls)?;
        Ok(ByName {
            constants,
            types,
            functions,
        })
    }

    /// The table of a sort.
    fn table(&self, sort: Sort) -> &Table<usize>
        ensures { result.now ≡ defining.table_of sort self.now }
    {
        match sort {
            Sort::Constants => &self.constants,
            Sort::Types => &self.types,
            Sort::Functions => &self.functions,
        }
    }
}

impl Definitions {
    /// The definitions of a body.
    ///
    /// # Errors
    ///
    /// Only for want of memory.
    pub fn of(alloc: Global, sight: &Sight, decls: &[Decl<Parsed>]) -> Result<Definitions, Memory>
        ensures { IfOk result (λ definitions. AreDefinitions (sight_in sight.now)
            (declarations_of decls.now) definitions) }
    {
        let worded = first_keyed(alloc, sight, KeySort::Worded, decls)?;
        let meaningless = first_keyed(alloc, sight, KeySort::Meaningless, decls)?;
        let names = ByName::of(alloc, decls)?;
        Ok(Definitions {
            names,
            worded,
            meaningless,
        })
    }
}

/// The declaration of an index, if there is one.
pub fn declared_at(decls: &Vec<Decl<Parsed>>, index: usize) -> Option<&Decl<Parsed>>
    ensures { declared_seen result ≡ slice_get (declarations_of decls.now.items) index }
{
    decls.get(index)
}

/// The first definition of a name of a sort, if there is one, given those of the body by their names.
pub fn found_by<'a>(
    decls: &'a Vec<Decl<Parsed>>,
    names: &ByName,
    sort: Sort,
    name: &Name,
) -> Option<&'a Decl<Parsed>>
    requires { AreNamed (declarations_of decls.now.items) names.now }
    ensures { declared_seen result ≡ find (defining.is_defined sort name.now)
        (declarations_of decls.now.items) }
{
    match names.table(sort).get(name.as_bytes()) {
        None => None,
        Some(index) => declared_at(decls, *index),
    }
}
