//! Puts the cases of unions and the methods of classes.

ghost use Rattle.std.specs.Prelude.{◌≡◌, OnOk, map};
ghost use Rattle.au_modules.specs.Seen.{tree_seen};
ghost use Rattle.au_names.specs.Exporting.{declarations_seen, members_at};
ghost use Rattle.au_names.specs.Importing.{members};
ghost use Rattle.au_names.specs.Owned.{targets};
ghost use Rattle.au_names.specs.Walks.{written, written_all};
ghost use Rattle.au_syntax.specs.Plain.{plain_header, plain_variant};
ghost use Rattle.au_syntax.specs.Views.{header, variant};
ghost use Rattle.au_syntax.specs.contracts.parsed.ParsedPhase.TheImpl.{ghosts as parsed};
ghost use Rattle.au_types.specs.DeclaredNames.{given};
ghost use Rattle.au_types.specs.Tables.{with_all};

use crate::putting::put_target;
use crate::targets::Target;
use crate::trees::tree_of;
use au_base::Memory;
use au_syntax::{Decl, Parsed, Signature, UnionCase, Whole};
use au_types::{DeclAt, Table};
use std::alloc::Global;

/// Puts a union's cases.
fn put_cases(
    alloc: Global,
    table: &mut Table<Target>,
    at: DeclAt,
    cases: &Vec<UnionCase<Parsed>>,
) -> Result<(), Memory>
    ensures { OnOk result
        (table.new ≡ with_all table.old
        (targets at.«module» (given at.decl
        (map (λ c. c.name.name)
        (map (plain_variant parsed.name_bytes) (map (variant parsed) cases.now.items)))))) }
{
    for one in cases {
        let name = one.name.name.as_bytes();
        put_target(alloc, table, name, name, at)?;
    }
    Ok(())
}

/// Puts a class's methods.
fn put_methods(
    alloc: Global,
    table: &mut Table<Target>,
    at: DeclAt,
    methods: &Vec<Signature<Parsed>>,
) -> Result<(), Memory>
    ensures { OnOk result
        (table.new ≡ with_all table.old
        (targets at.«module» (given at.decl
        (map (λ h. h.name.name)
        (map (plain_header parsed.name_bytes) (map (header parsed) methods.now.items)))))) }
{
    for one in methods {
        let name = one.name.name.as_bytes();
        put_target(alloc, table, name, name, at)?;
    }
    Ok(())
}

/// Puts the cases or methods of a declaration.
fn put_members(
    alloc: Global,
    table: &mut Table<Target>,
    at: DeclAt,
    decl: &Decl<Parsed>,
) -> Result<(), Memory>
    ensures { OnOk result
        (table.new ≡ with_all table.old
        (targets at.«module» (given at.decl
        (members (written decl.now))))) }
{
    match decl {
        Decl::Union(_, _, _, _, cases) => put_cases(alloc, table, at, cases),
        Decl::Class(_, _, _, methods) => put_methods(alloc, table, at, methods),
        _ => Ok(()),
    }
}

/// Puts the cases or methods of the declaration of a number, if there is one.
fn put_members_at(
    alloc: Global,
    table: &mut Table<Target>,
    at: DeclAt,
    declarations: &Vec<Decl<Parsed>>,
) -> Result<(), Memory>
    ensures { OnOk result
        (table.new ≡ with_all table.old
        (members_at at.«module» at.decl (written_all declarations.now.items))) }
{
    match declarations.get(at.decl as usize) {
        None => Ok(()),
        Some(decl) => put_members(alloc, table, at, decl),
    }
}

/// Puts the cases or methods of the declaration of a number in a file, if it has it.
pub fn put_members_in(
    alloc: Global,
    table: &mut Table<Target>,
    at: DeclAt,
    file: Option<&Whole<Parsed>>,
) -> Result<(), Memory>
    ensures { OnOk result
        (table.new ≡ with_all table.old
        (members_at at.«module» at.decl (declarations_seen (tree_seen file.entry)))) }
{
    match file {
        None => Ok(()),
        Some(file) => {
            let tree = tree_of(file);
            put_members_at(alloc, table, at, &tree.declarations)
        }
    }
}
