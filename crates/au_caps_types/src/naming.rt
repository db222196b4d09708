//! The declared types that the fields of records and unions name.

ghost use Rattle.std.specs.Prelude.{◌≡◌, ◌++◌, OnOk, Some, option_to_list};
ghost use Rattle.std.specs.List.{flat_map};
ghost use Rattle.au_caps_types.specs.Naming.{no_holder};
ghost use Rattle.au_formed.specs.Naming as formed;
ghost use Rattle.au_names.specs.Walks as walks;
ghost use Rattle.au_promises.specs.Said.{cases_said, fields_said};
ghost use Rattle.au_syntax.specs.Plain.{Bytes};
ghost use Rattle.au_syntax.specs.Views.{written, written_all};
ghost use Rattle.au_types.specs.WrittenViews.{said, sense_in};

use au_base::{Memory, Name};
use au_syntax::{Decl, Field, Parsed, TypeText, UnionCase};
use au_types::{DeclAt, Scope, Sense, sense_of};

/// The declared type that a sense is, if it is one.
fn declared_by(sense: &Sense) -> Option<DeclAt>
    ensures { (name : Bytes) → result ≡ formed.declared_type (Some (said name sense.now)) }
{
    match sense {
        Sense::Unit => None,
        Sense::Bool => None,
        Sense::Int(_) => None,
        Sense::Param => None,
        Sense::Span => None,
        Sense::Static => None,
        Sense::Region => None,
        Sense::Declared(at, _) => Some(*at),
        Sense::Class(_) => None,
    }
}

/// The declared type that a name means, if it means one.
fn declared_type(scope: &Scope, name: &Name) -> Option<DeclAt>
    ensures { result ≡ formed.declared_type (sense_in scope.now name.now) }
{
    match sense_of(scope, name) {
        Some(sense) => declared_by(&sense),
        None => None,
    }
}

/// Puts a declared type, if there is one.
fn push_found(list: &mut Vec<DeclAt>, found: Option<DeclAt>) -> Result<(), Memory>
    ensures { OnOk result (list.new.items ≡ list.old.items ++ option_to_list found) }
{
    match found {
        None => Ok(()),
        Some(at) => {
            list.push(at)?;
            Ok(())
        }
    }
}

/// Puts the declared types that are named in a written type, behind references too.
#[tactic(auto, using(au_syntax::proofs::TypeLemmas::type_steps, crate::proofs::NamedLemmas::named_steps, std::proofs::lemmas::Grind::common_steps))]
#[cycle(push_named)]
fn push_named(list: &mut Vec<DeclAt>, scope: &Scope, node: &TypeText) -> Result<(), Memory>
    ensures { OnOk result
        (list.new.items ≡ list.old.items ++ formed.types_named (sense_in scope.now) no_holder
        (written node.now)) }
{
    match node {
        TypeText::Named(name, args) => {
            push_found(list, declared_type(scope, &name.name))?;
            push_all(list, scope, args)
        }
        TypeText::Reference(_, _, target, _) => push_named(list, scope, target),
    }
}

/// Puts the declared types that are named in written types.
#[cycle(push_named)]
fn push_all(list: &mut Vec<DeclAt>, scope: &Scope, nodes: &Vec<TypeText>) -> Result<(), Memory>
    ensures { OnOk result
        (list.new.items ≡ list.old.items
        ++ formed.all_named (sense_in scope.now) no_holder (written_all nodes.now.items)) }
{
    for one in nodes {
        push_named(list, scope, one)?;
    }
    Ok(())
}

/// Puts the declared types that are named in the types of fields.
fn push_fields(
    list: &mut Vec<DeclAt>,
    scope: &Scope,
    fields: &Vec<Field<Parsed>>,
) -> Result<(), Memory>
    ensures { OnOk result
        (list.new.items ≡ list.old.items
        ++ formed.fields_name (sense_in scope.now) no_holder (fields_said fields.now.items)) }
{
    for one in fields {
        push_named(list, scope, &one.of)?;
    }
    Ok(())
}

/// Puts the declared types that are named in the fields of a union's cases.
fn push_cases(
    list: &mut Vec<DeclAt>,
    scope: &Scope,
    cases: &Vec<UnionCase<Parsed>>,
) -> Result<(), Memory>
    ensures { OnOk result
        (list.new.items ≡ list.old.items
        ++ flat_map (formed.case_names (sense_in scope.now) no_holder) (cases_said cases.now.items)) }
{
    for one in cases {
        push_fields(list, scope, &one.fields)?;
    }
    Ok(())
}

/// Puts the declared types that are named in the fields of a record or a union.
///
/// # Errors
///
/// Only for want of memory.
pub(crate) fn push_names(
    list: &mut Vec<DeclAt>,
    scope: &Scope,
    decl: &Decl<Parsed>,
) -> Result<(), Memory>
    ensures { OnOk result
        (list.new.items ≡ list.old.items
        ++ formed.declaration_names (sense_in scope.now) no_holder (walks.written decl.now)) }
{
    match decl {
        Decl::Constant(_, _, _) => Ok(()),
        Decl::Opaque(_, _, _, _) => Ok(()),
        Decl::Record(_, _, _, _, fields) => push_fields(list, scope, fields),
        Decl::Union(_, _, _, _, cases) => push_cases(list, scope, cases),
        Decl::Function(_, _, _) => Ok(()),
        Decl::Class(_, _, _, _) => Ok(()),
        Decl::Instance(_, _, _, _) => Ok(()),
        Decl::ConstantBody(_, _, _, _) => Ok(()),
        Decl::FunctionBody(_, _, _, _, _) => Ok(()),
        Decl::InstanceBody(_, _, _, _, _) => Ok(()),
    }
}
