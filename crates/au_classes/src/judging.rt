//! What one instance is refused for.

ghost use Rattle.std.specs.Prelude.{◌≡◌, [], IfOk};
ghost use Rattle.std.specs.Option.{option_map};
ghost use Rattle.au_classes.specs.Views.{class_said};
ghost use Rattle.au_classes.specs.Faults as spec;
ghost use Rattle.au_classes.specs.ClassViews.{known_said};
ghost use Rattle.au_judged_types.specs.Bounds.{parameters};
ghost use Rattle.au_classes.specs.InstanceViews.{methods_seen, text_said};
ghost use Rattle.au_instances.specs.Rows.{row_said};
ghost use Rattle.au_types.specs.Views.{meaning};
ghost use Rattle.au_matching.specs.Forming.{StandsOver};

use crate::faults::ClassFault;
use crate::known::Known;
use crate::{ClassText, InstanceText, are_methods};
use au_base::Memory;
use au_instances::{Constructor, Row, constructor_of, has_form};
use au_matching::{takes, universe_of};
use au_syntax::{Method, Parsed};
use au_types::{DeclAt, Heads, Table};
use std::alloc::Global;

/// Whether the head of a row is one for its class: it has the form, and fits the universe of the class's
/// parameter.
fn is_head(heads: &Heads, class: &ClassText, row: &Row) -> bool
    requires { StandsOver heads.now (parameters row.now.generics) (meaning row.now.head) }
    ensures { result ≡ spec.is_head heads.now (class_said class.now) (row_said row.now) }
{
    has_form(&row.generics, &row.head)
        && takes(
            class.parameter.universe,
            universe_of(heads, row.generics.params(), &row.head),
        )
}

/// The place of the module of what heads a type.
fn home_of(constructor: Option<Constructor>) -> u16
    ensures { result ≡ spec.home_of constructor }
{
    match constructor {
        None => 0,
        Some(Constructor::Unit) => 0,
        Some(Constructor::Bool) => 0,
        Some(Constructor::Int(_)) => 0,
        Some(Constructor::Text) => 0,
        Some(Constructor::Declared(at)) => at.module,
    }
}

/// Whether a row may stand in the module at a place: its class or its head type does.
fn is_home(place: u16, row: &Row) -> bool
    ensures { result ≡ spec.is_home place (row_said row.now) }
{
    place == row.class.module || place == home_of(constructor_of(&row.head))
}

/// A fault, unless something holds.
fn unless(holds: bool, fault: ClassFault) -> Option<ClassFault>
    ensures { result ≡ spec.unless holds fault }
{
    if holds { None } else { Some(fault) }
}

/// Whether methods, if any are written, are those of a class.
fn are_written(
    alloc: Global,
    heads: &Heads,
    names: &Table<DeclAt>,
    class: &ClassText,
    row: &Row,
    methods: Option<&Vec<Method<Parsed>>>,
) -> Result<bool, Memory>
    ensures { IfOk result (λ are. are
        ≡ spec.are_written heads.now names.now (class_said class.now) (row_said row.now)
        (methods_seen methods.entry)) }
{
    match methods {
        None => Ok(true),
        Some(methods) => {
            let params = row.generics.params();
            are_methods(alloc, heads, class, &row.head, names, params, methods)
        }
    }
}

/// What the methods of an instance are refused for.
fn methods_fault(
    alloc: Global,
    heads: &Heads,
    text: &InstanceText,
    names: &Table<DeclAt>,
    row: &Row,
    class: &ClassText,
) -> Result<Option<ClassFault>, Memory>
    ensures { IfOk result (λ fault. fault
        ≡ spec.methods_fault heads.now [] (text_said text.now) names.now (row_said row.now)
        (class_said class.now)) }
{
    let are = are_written(alloc, heads, names, class, row, text.methods)?;
    Ok(unless(are, ClassFault::MethodDiffers(text.at)))
}

/// What an instance is refused for that overlaps one that is known, if there is one.
fn overlap_fault(known: &Known, text: &InstanceText, row: &Row) -> Option<ClassFault>
    ensures { result ≡ spec.overlap text.now.at
        (option_map spec.place_of (spec.first_like (known_said known.now) (row_said row.now))) }
{
    match known.place_like(row) {
        None => None,
        Some(earlier) => Some(ClassFault::Overlap(text.at, earlier)),
    }
}

/// What an instance with this row and this class is refused for, after those that are known.
pub(crate) fn row_fault(
    alloc: Global,
    heads: &Heads,
    known: &Known,
    text: &InstanceText,
    names: &Table<DeclAt>,
    row: &Row,
    class: &ClassText,
) -> Result<Option<ClassFault>, Memory>
    requires { StandsOver heads.now (parameters row.now.generics) (meaning row.now.head) }
    ensures { IfOk result (λ fault. fault
        ≡ spec.row_fault heads.now (known_said known.now) (text_said text.now) names.now (row_said row.now)
        (class_said class.now)) }
{
    if !is_head(heads, class, row) {
        return Ok(Some(ClassFault::BadHead(text.at)));
    }
    if !is_home(text.number.module, row) {
        return Ok(Some(ClassFault::Orphan(text.at)));
    }
    if let Some(found) = overlap_fault(known, text, row) {
        return Ok(Some(found));
    }
    methods_fault(alloc, heads, text, names, row, class)
}
