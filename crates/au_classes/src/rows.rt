//! The rows of instances.

ghost use Rattle.std.specs.Prelude.{◌≡◌, [], IfOk, Some};
ghost use Rattle.std.specs.Option.{option_map};
ghost use Rattle.au_classes.specs.Rows as spec;
ghost use Rattle.au_judged_types.specs.Bounds.{parameters};
ghost use Rattle.au_judged_types.specs.Meanings as generics;
ghost use Rattle.au_classes.specs.InstanceViews.{text_said};
ghost use Rattle.au_instances.specs.Rows.{row_said};
ghost use Rattle.au_judged_types.specs.Agreement.{found};
ghost use Rattle.au_judged_types.specs.Judging.{judged};
ghost use Rattle.au_judged_types.specs.Views.{judged_in};
ghost use Rattle.au_syntax.specs.Plain.{Bytes};
ghost use Rattle.au_syntax.specs.Views.{written};
ghost use Rattle.au_types.specs.Views.{meaning};
ghost use Rattle.au_types.specs.WrittenViews.{said};

use crate::InstanceText;
use au_base::{Memory, Name};
use au_instances::{ClassAt, Row};
use au_judged_types::{Generics, Judged, Meant, generics_of, judge_type};
use au_syntax::TypeText;
use au_types::{DeclAt, Heads, Params, Scope, Sense, Table, Ty, sense_of};
use std::alloc::Global;

/// The class that a sense is, if it is one.
fn class_in(sense: &Sense) -> Option<ClassAt>
    ensures { (name : Bytes) → result ≡ generics.class_in (Some (said name sense.now)) }
{
    match sense {
        Sense::Unit => None,
        Sense::Bool => None,
        Sense::Int(_) => None,
        Sense::Param => None,
        Sense::Span => None,
        Sense::Static => None,
        Sense::Region => None,
        Sense::Declared(_, _) => None,
        Sense::Class(at) => Some(*at),
    }
}

/// The class that a name means among these names and rows, if it means one.
fn class_meant(alloc: Global, names: &Table<DeclAt>, heads: &Heads, name: &Name) -> Option<ClassAt>
    ensures { result ≡ generics.class_meant [] names.now heads.now name.now }
{
    let params = Params::new(alloc);
    let scope = Scope {
        regions: &[],
        params: &params,
        names,
        heads,
    };
    match sense_of(&scope, name) {
        Some(sense) => class_in(&sense),
        None => None,
    }
}

/// The type that a written type is judged to mean, if it means one that is well formed.
fn type_judged(alloc: Global, scope: &Scope, node: &TypeText) -> Result<Option<Ty>, Memory>
    ensures { IfOk result (λ of. option_map meaning of ≡ found (judged_in scope.now (written node.now))) }
{
    match judge_type(alloc, scope, node)? {
        Judged::Means(of) => Ok(Some(of)),
        Judged::Fails(_) => Ok(None),
    }
}

/// The type of an instance with these type parameters, if it means one that is well formed.
fn head_judged(
    alloc: Global,
    names: &Table<DeclAt>,
    heads: &Heads,
    generics: &Generics,
    node: &TypeText,
) -> Result<Option<Ty>, Memory>
    ensures { IfOk result (λ of. option_map meaning of
        ≡ found (judged [] (parameters generics.now) names.now heads.now (written node.now))) }
{
    let scope = Scope {
        regions: &[],
        params: generics.params(),
        names,
        heads,
    };
    type_judged(alloc, &scope, node)
}

/// The row of an instance of this class with these type parameters, if it has one.
fn row_over(
    alloc: Global,
    text: &InstanceText,
    names: &Table<DeclAt>,
    heads: &Heads,
    class: ClassAt,
    generics: Generics,
) -> Result<Option<Row>, Memory>
    ensures { IfOk result (λ row. option_map row_said row
        ≡ spec.row_over (text_said text.now) names.now heads.now class (Meant.Are generics)) }
{
    match head_judged(alloc, names, heads, &generics, text.of)? {
        None => Ok(None),
        Some(head) => Ok(Some(Row {
            instance: text.number,
            class,
            generics,
            head,
        })),
    }
}

/// The row of an instance of this class, if it has one.
fn row_of_class(
    alloc: Global,
    text: &InstanceText,
    names: &Table<DeclAt>,
    heads: &Heads,
    class: ClassAt,
) -> Result<Option<Row>, Memory>
    ensures { IfOk result (λ row. option_map row_said row
        ≡ spec.row_of_class (text_said text.now) names.now heads.now (Some class)) }
{
    match generics_of(alloc, names, heads, text.generics.as_slice())? {
        Meant::Are(generics) => row_over(alloc, text, names, heads, class, generics),
        Meant::Fails(_) => Ok(None),
    }
}

/// The row of an instance by the names that are seen where it is written and the rows of declared types, if
/// it has one: its class, its type parameters and its type mean something, and the type is well formed.
///
/// # Errors
///
/// Only for want of memory.
pub(crate) fn row_in(
    alloc: Global,
    text: &InstanceText,
    names: &Table<DeclAt>,
    heads: &Heads,
) -> Result<Option<Row>, Memory>
    ensures { IfOk result (λ row. option_map row_said row
        ≡ spec.row_in (text_said text.now) names.now heads.now) }
{
    match class_meant(alloc, names, heads, &text.name.name) {
        None => Ok(None),
        Some(class) => row_of_class(alloc, text, names, heads, class),
    }
}
