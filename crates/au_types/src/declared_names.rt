//! Puts the names that one declaration brings in.

ghost use Rattle.std.specs.Prelude.{◌≡◌, OnOk};
ghost use Rattle.au_syntax.specs.Plain.{plain_declaration};
ghost use Rattle.au_syntax.specs.Views.{declaration};
ghost use Rattle.au_types.specs.DeclaredNames.{callable_names, case_names, declaration_said};
ghost use Rattle.au_types.specs.DeclaredNames.{declared_names, given, method_names, type_names, value_names};
ghost use Rattle.au_types.specs.Tables.{with_all, with_pair};

use crate::spaces::Space;
use crate::tables::Table;
use au_base::Memory;
use au_syntax::{Decl, Ident, Phase, Signature, UnionCase};

/// Puts a name with a number.
fn put_name<P: Phase>(table: &mut Table<u32>, name: &Ident<P>, number: u32) -> Result<(), Memory>
    ensures { OnOk result (table.new ≡ with_pair table.old (P.name_bytes (P.see_name name.now.name)) number) }
{
    table.put(P::bytes_of(&name.name), number)?;
    Ok(())
}

/// Puts the names of a union's cases.
fn put_cases<P: Phase>(
    table: &mut Table<u32>,
    cases: &Vec<UnionCase<P>>,
    number: u32,
) -> Result<(), Memory>
    ensures { OnOk result
        (table.new ≡ with_all table.old (given number (case_names P.Phase cases.now.items))) }
{
    for one in cases {
        put_name(table, &one.name, number)?;
    }
    Ok(())
}

/// Puts the names of a class's methods.
fn put_methods<P: Phase>(
    table: &mut Table<u32>,
    methods: &Vec<Signature<P>>,
    number: u32,
) -> Result<(), Memory>
    ensures { OnOk result
        (table.new ≡ with_all table.old (given number (method_names P.Phase methods.now.items))) }
{
    for one in methods {
        put_name(table, &one.name, number)?;
    }
    Ok(())
}

/// Puts the values that a declaration brings in.
fn put_values<P: Phase>(table: &mut Table<u32>, decl: &Decl<P>, number: u32) -> Result<(), Memory>
    ensures { OnOk result
        (table.new ≡ with_all table.old (given number (value_names (declaration_said P.Phase decl.now)))) }
{
    match decl {
        Decl::Constant(_, name, _) | Decl::ConstantBody(_, name, _, _) => {
            put_name(table, name, number)
        }
        _ => Ok(()),
    }
}

/// Puts the callables that a declaration brings in.
fn put_callables<P: Phase>(
    table: &mut Table<u32>,
    decl: &Decl<P>,
    number: u32,
) -> Result<(), Memory>
    ensures { OnOk result
        (table.new ≡ with_all table.old (given number (callable_names (declaration_said P.Phase decl.now)))) }
{
    match decl {
        Decl::Record(_, name, _, _, _) => put_name(table, name, number),
        Decl::Union(_, _, _, _, cases) => put_cases(table, cases, number),
        Decl::Function(_, _, signature) | Decl::FunctionBody(_, _, signature, _, _) => {
            put_name(table, &signature.name, number)
        }
        Decl::Class(_, _, _, methods) => put_methods(table, methods, number),
        _ => Ok(()),
    }
}

/// Puts the types that a declaration brings in.
fn put_types<P: Phase>(table: &mut Table<u32>, decl: &Decl<P>, number: u32) -> Result<(), Memory>
    ensures { OnOk result
        (table.new ≡ with_all table.old (given number (type_names (declaration_said P.Phase decl.now)))) }
{
    match decl {
        Decl::Opaque(_, name, _, _)
        | Decl::Record(_, name, _, _, _)
        | Decl::Union(_, name, _, _, _)
        | Decl::Class(_, name, _, _) => put_name(table, name, number),
        _ => Ok(()),
    }
}

/// Puts the names of a space that a declaration brings in.
///
/// # Errors
///
/// Only for want of memory.
pub fn put_declared<P: Phase>(
    table: &mut Table<u32>,
    space: Space,
    decl: &Decl<P>,
    number: u32,
) -> Result<(), Memory>
    ensures { OnOk result
        (table.new ≡ with_all table.old (given number
        (declared_names space (plain_declaration P.name_bytes (declaration P.Phase decl.now))))) }
{
    match space {
        Space::Values => put_values(table, decl, number),
        Space::Callables => put_callables(table, decl, number),
        Space::Types => put_types(table, decl, number),
    }
}
