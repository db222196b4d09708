//! The types that records and unions name in their fields, outside the arguments of boxes and buffers.

ghost use Rattle.std.specs.Prelude.{◌≡◌, ◌++◌, ◌||◌, OnOk, None, codes};
ghost use Rattle.std.specs.List.{flat_map};
ghost use Rattle.std.specs.Option.{option_map};
ghost use Rattle.std.specs.Str.{bytes_eq};
ghost use Rattle.au_names.specs.Standing as standing;
ghost use Rattle.au_formed.specs.Naming as spec;
ghost use Rattle.au_names.specs.Walks as walks;
ghost use Rattle.au_promises.specs.Said.{case_said, cases_said, fields_said};
ghost use Rattle.au_syntax.specs.Plain.{Bytes};
ghost use Rattle.au_syntax.specs.Views.{written, written_all};
ghost use Rattle.au_types.specs.WrittenViews.{said, sense_in};
ghost use Rattle.std.specs.Prelude.{Some, option_copied};

use crate::visible::Visible;
use au_base::{Memory, Name};
use au_syntax::{Decl, Field, Parsed, TypeText, UnionCase};
use au_types::{DeclAt, Heads, Scope, Sense, sense_of};

/// The declared type that a sense is, if it is one.
fn declared_by(sense: &Sense) -> Option<DeclAt>
    ensures { (name : Bytes) → result ≡ spec.declared_type (Some (said name sense.now)) }
{
    match sense {
        Sense::Unit => None,
        Sense::Bool => None,
        Sense::Int(_) => None,
        Sense::Param => None,
        Sense::Span => None,
        Sense::Static => None,
        Sense::Region => None,
        Sense::Declared(at, _) => Some(*at),
        Sense::Class(_) => None,
    }
}

/// The declared type that a name means, if it means one.
fn declared_type(scope: &Scope, name: &Name) -> Option<DeclAt>
    ensures { result ≡ spec.declared_type (sense_in scope.now name.now) }
{
    match sense_of(scope, name) {
        Some(sense) => declared_by(&sense),
        None => None,
    }
}

/// Whether the text of a declared type is that of `Box` or `Buffer`.
fn is_holder_text(text: &[u8]) -> bool
    ensures { result ≡ (bytes_eq text.now (codes "Standard.Box:Box") || bytes_eq text.now
        (codes "Standard.Buffer:Buffer")) }
{
    is_text(text, b"Standard.Box:Box") || is_text(text, b"Standard.Buffer:Buffer")
}

fn is_text(text: &[u8], other: &[u8]) -> bool
    ensures { result ≡ bytes_eq text.now other.now }
{
    text == other
}

/// Whether a declared type holds its argument apart, as `Box` and `Buffer` do.
fn is_holder(heads: &Heads, at: DeclAt) -> bool
    ensures { result ≡ spec.holder_in heads.now at }
{
    match heads.row(at) {
        None => false,
        Some(head) => is_holder_text(head.text.as_bytes()),
    }
}

/// Puts the declared types that are named in a written type, under references too.
#[tactic(auto, using(au_syntax::proofs::TypeLemmas::type_steps, crate::proofs::NamedLemmas::named_steps, std::proofs::lemmas::Grind::common_steps))]
#[cycle(push_named)]
fn push_named(list: &mut Vec<DeclAt>, scope: &Scope, node: &TypeText) -> Result<(), Memory>
    ensures { OnOk result
        (list.new.items ≡ list.old.items
        ++ spec.types_named (sense_in scope.now) (spec.holder_in scope.now.heads.now) (written node.now)) }
{
    match node {
        TypeText::Named(name, args) => push_with(
            list,
            scope,
            declared_type(scope, &name.name),
            args,
        ),
        TypeText::Reference(_, _, target, _) => push_named(list, scope, target),
    }
}

/// Puts the declared type that a name means, if it means one, and those that are named in its arguments.
#[cycle(push_named)]
fn push_with(
    list: &mut Vec<DeclAt>,
    scope: &Scope,
    at: Option<DeclAt>,
    args: &Vec<TypeText>,
) -> Result<(), Memory>
    ensures { OnOk result
        (list.new.items ≡ list.old.items
        ++ spec.named_by (spec.holder_in scope.now.heads.now) at
        (spec.all_named (sense_in scope.now) (spec.holder_in scope.now.heads.now)
        (written_all args.now.items))) }
{
    let Some(at) = at else {
        return push_all(list, scope, args);
    };
    list.push(at)?;
    if is_holder(scope.heads, at) {
        Ok(())
    } else {
        push_all(list, scope, args)
    }
}

/// Puts the declared types that are named in written types.
#[cycle(push_named)]
fn push_all(list: &mut Vec<DeclAt>, scope: &Scope, nodes: &Vec<TypeText>) -> Result<(), Memory>
    ensures { OnOk result
        (list.new.items ≡ list.old.items
        ++ spec.all_named (sense_in scope.now) (spec.holder_in scope.now.heads.now)
        (written_all nodes.now.items)) }
{
    for one in nodes {
        push_named(list, scope, one)?;
    }
    Ok(())
}

/// Puts the declared types that are named in the types of fields.
fn push_fields(
    list: &mut Vec<DeclAt>,
    scope: &Scope,
    fields: &Vec<Field<Parsed>>,
) -> Result<(), Memory>
    ensures { OnOk result
        (list.new.items ≡ list.old.items
        ++ spec.fields_name (sense_in scope.now) (spec.holder_in scope.now.heads.now)
        (fields_said fields.now.items)) }
{
    for one in fields {
        push_named(list, scope, &one.of)?;
    }
    Ok(())
}

/// Puts the declared types that are named in the fields of a union's cases.
fn push_cases(
    list: &mut Vec<DeclAt>,
    scope: &Scope,
    cases: &Vec<UnionCase<Parsed>>,
) -> Result<(), Memory>
    ensures { OnOk result
        (list.new.items ≡ list.old.items
        ++ flat_map (spec.case_names (sense_in scope.now) (spec.holder_in scope.now.heads.now))
        (cases_said cases.now.items)) }
{
    for one in cases {
        push_fields(list, scope, &one.fields)?;
    }
    Ok(())
}

/// Puts the declared types that are named in the fields of a record or a union.
///
/// # Errors
///
/// Only for want of memory.
pub fn push_names(list: &mut Vec<DeclAt>, scope: &Scope, decl: &Decl<Parsed>) -> Result<(), Memory>
    ensures { OnOk result
        (list.new.items ≡ list.old.items
        ++ spec.declaration_names (sense_in scope.now) (spec.holder_in scope.now.heads.now)
        (walks.written decl.now)) }
{
    match decl {
        Decl::Constant(_, _, _) => Ok(()),
        Decl::Opaque(_, _, _, _) => Ok(()),
        Decl::Record(_, _, _, _, fields) => push_fields(list, scope, fields),
        Decl::Union(_, _, _, _, cases) => push_cases(list, scope, cases),
        Decl::Function(_, _, _) => Ok(()),
        Decl::Class(_, _, _, _) => Ok(()),
        Decl::Instance(_, _, _, _) => Ok(()),
        Decl::ConstantBody(_, _, _, _) => Ok(()),
        Decl::FunctionBody(_, _, _, _, _) => Ok(()),
        Decl::InstanceBody(_, _, _, _, _) => Ok(()),
    }
}

/// The name of a record or a union.
fn whole_name(decl: &Decl<Parsed>) -> Option<&Name>
    ensures { option_copied result ≡ standing.whole_name (walks.written decl.now) }
{
    match decl {
        Decl::Constant(_, _, _) => None,
        Decl::Opaque(_, _, _, _) => None,
        Decl::Record(_, name, _, _, _) => Some(&name.name),
        Decl::Union(_, name, _, _, _) => Some(&name.name),
        Decl::Function(_, _, _) => None,
        Decl::Class(_, _, _, _) => None,
        Decl::Instance(_, _, _, _) => None,
        Decl::ConstantBody(_, _, _, _) => None,
        Decl::FunctionBody(_, _, _, _, _) => None,
        Decl::InstanceBody(_, _, _, _, _) => None,
    }
}

/// The type that a record or a union declares: what its name means where it stands. For what defines an
/// opaque type it is the opaque type. `None` for all else.
pub fn type_of(visible: &Visible, decl: &Decl<Parsed>) -> Option<DeclAt>
    ensures { result ≡ spec.type_of visible.now.names.now (walks.written decl.now) }
{
    match whole_name(decl) {
        None => None,
        Some(name) => visible.names.get(name.as_bytes()).copied(),
    }
}
