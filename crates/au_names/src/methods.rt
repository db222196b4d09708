//! The methods of the classes of a program, by name.

ghost use Rattle.std.specs.Prelude.{◌≡◌, ◌<◌, ◌++◌, List, IfOk, OnOk, length, map, slice_get, Some};
ghost use Rattle.std.specs.Option.{option_map};
ghost use Rattle.au_modules.specs.Programs.{ModuleParts};
ghost use Rattle.au_modules.specs.Seen.{tree_seen};
ghost use Rattle.au_modules.specs.Slots as slots;
ghost use Rattle.au_names.specs.Exporting.{declarations_seen};
ghost use Rattle.au_names.specs.Methods as spec;
ghost use Rattle.au_names.specs.Methods.{AreMethods, method_seen};
ghost use Rattle.au_names.specs.Standing.{standing_at};
ghost use Rattle.au_names.specs.Walks.{written, written_all};
ghost use Rattle.au_types.specs.Tables as tables;
ghost use Rattle.au_types.specs.Tables.{with_all};

use crate::declarations::declaration;
use crate::trees::tree_of;
use au_base::{Memory, Text};
use au_modules::Modules;
use au_syntax::{Decl, Parsed, Signature, Whole};
use au_types::{DeclAt, Table};
use std::alloc::Global;

/// What is made once for a program, so that a method of a class is found without a walk.
#[derive(Drop)]
pub struct Methods {
    /// The indices of the methods among those of their class, by their names: of each declaration, by the
    /// place of its module and its number there. Whatever is no class has none.
    pub by_place: Vec<Vec<Table<usize>>>,
}

/// The methods of a declaration, if it is a class.
fn class_methods(decl: &Decl<Parsed>) -> Option<&Vec<Signature<Parsed>>>
    ensures { spec.methods_seen result ≡ spec.methods_in (written decl.now) }
{
    match decl {
        Decl::Class(_, _, _, methods) => Some(methods),
        _ => None,
    }
}

/// Puts the indices of the methods of a class under their names.
fn put_methods(table: &mut Table<usize>, methods: &Vec<Signature<Parsed>>) -> Result<(), Memory>
    ensures { OnOk result
        (table.new ≡ with_all table.old (spec.methods_from 0 (spec.written_methods methods.now.items))) }
{
    for (index, one) in methods.iter().enumerate() {
        table.put(one.name.name.as_bytes(), index)?;
    }
    Ok(())
}

/// Puts the indices of the methods of a declaration, if it is a class.
fn put_those_of(table: &mut Table<usize>, decl: &Decl<Parsed>) -> Result<(), Memory>
    ensures { OnOk result
        (table.new ≡ with_all table.old (spec.methods_from 0 (spec.methods_in (written decl.now)))) }
{
    match class_methods(decl) {
        None => Ok(()),
        Some(methods) => put_methods(table, methods),
    }
}

/// The table of the methods of a declaration.
fn methods_of(alloc: Global, decl: &Decl<Parsed>) -> Result<Table<usize>, Memory>
    ensures { IfOk result (λ table. table ≡ spec.methods_of (written decl.now)) }
{
    let mut table = Table::new(alloc);
    put_those_of(&mut table, decl)?;
    Ok(table)
}

/// Puts the tables of the methods of these declarations behind others.
fn push_tables(
    alloc: Global,
    all: &mut Vec<Table<usize>>,
    decls: &Vec<Decl<Parsed>>,
) -> Result<(), Memory>
    ensures { OnOk result
        (all.new.items ≡ all.old.items ++ map spec.methods_of (written_all decls.now.items)) }
{
    for decl in decls {
        let table = methods_of(alloc, decl)?;
        all.push(table)?;
    }
    Ok(())
}

/// Puts those of the declarations of a file behind others, if it is there.
fn push_part(
    alloc: Global,
    all: &mut Vec<Table<usize>>,
    file: Option<&Whole<Parsed>>,
) -> Result<(), Memory>
    ensures { OnOk result
        (all.new.items ≡ all.old.items ++ map spec.methods_of (declarations_seen (tree_seen file.entry))) }
{
    match file {
        None => Ok(()),
        Some(file) => push_tables(alloc, all, &tree_of(file).declarations),
    }
}

/// The tables of the methods of the declarations of the module at a place.
fn methods_at(alloc: Global, modules: &Modules, place: usize) -> Result<Vec<Table<usize>>, Memory>
    requires { place < length (slots.modules modules.now) }
    ensures { IfOk result
        (λ all. option_map spec.methods_by_number (slice_get (slots.modules modules.now) place)
        ≡ Some all.items) }
{
    let mut all = Vec::new(alloc);
    push_part(alloc, &mut all, modules.interface(place))?;
    push_part(alloc, &mut all, modules.body(place))?;
    Ok(all)
}

impl Methods {
    /// Those of the modules of a program.
    ///
    /// # Errors
    ///
    /// Only for want of memory.
    pub fn of(alloc: Global, modules: &Modules) -> Result<Methods, Memory>
        ensures { IfOk result (λ methods. AreMethods methods (slots.modules modules.now)) }
    {
        let mut by_place = Vec::new(alloc);
        for place in 0..modules.len() {
            let all = methods_at(alloc, modules, place)?;
            by_place.push(all)?;
        }
        Ok(Methods { by_place })
    }

    /// The index of the first method of a name in the class with this module and number.
    fn index(&self, class: DeclAt, name: &Text) -> Option<usize>
        ensures { (program : List ModuleParts) → AreMethods self.now program
            → result ≡ tables.find name.now (spec.methods_there (standing_at program class)) }
    {
        let place = class.module as usize;
        if place < self.by_place.len() {
            index_among(&self.by_place[place], class.decl as usize, name)
        } else {
            None
        }
    }
}

/// The index that the table of a number gives to a name.
fn index_among(all: &Vec<Table<usize>>, number: usize, name: &Text) -> Option<usize>
    ensures { result ≡ tables.find name.now (spec.table_there (slice_get all.now.items number)) }
{
    if number < all.len() {
        all[number].get(name.as_bytes()).copied()
    } else {
        None
    }
}

/// The method of an index, if there is one.
fn method_of(methods: &Vec<Signature<Parsed>>, index: usize) -> Option<&Signature<Parsed>>
    ensures { method_seen result ≡ slice_get (spec.written_methods methods.now.items) index }
{
    methods.get(index)
}

/// The method of an index of a declaration, if it is a class that has it.
fn method_in(decl: &Decl<Parsed>, index: usize) -> Option<&Signature<Parsed>>
    ensures { method_seen result ≡ slice_get (spec.methods_in (written decl.now)) index }
{
    match class_methods(decl) {
        None => None,
        Some(methods) => method_of(methods, index),
    }
}

/// The first method of a name in the class with this module and number, if both are there.
pub(crate) fn method<'a>(
    modules: &'a Modules,
    methods: &Methods,
    class: DeclAt,
    name: &Text,
) -> Option<&'a Signature<Parsed>>
    requires { AreMethods methods.now (slots.modules modules.now) }
    ensures { method_seen result ≡ spec.method_at (slots.modules modules.now) class name.now }
{
    match declaration(modules, class) {
        None => None,
        Some(found) => match methods.index(class, name) {
            None => None,
            Some(index) => method_in(found.decl, index),
        },
    }
}
