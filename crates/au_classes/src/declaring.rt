//! The table of a program's instances, if it is good.

ghost use Rattle.std.specs.Prelude.{◌≡◌, ◌⊎◌, ◌++◌, Err, IfOk, None, Some};
ghost use Rattle.au_classes.specs.Faults as spec;
ghost use Rattle.au_classes.specs.Good.{InstancesAreGood};
ghost use Rattle.au_classes.specs.Rows.{rows_of};
ghost use Rattle.au_classes.specs.Views.{class_said};
ghost use Rattle.au_classes.specs.ClassViews.{known_said};
ghost use Rattle.au_judged_types.specs.Bounds.{parameters};
ghost use Rattle.au_names.specs.HeadsOf.{heads_of};
ghost use Rattle.au_classes.specs.InstanceViews.{text_said, texts_said};
ghost use Rattle.au_instances.specs.Rows.{row_said};
ghost use Rattle.au_modules.specs.Slots as slots;
ghost use Rattle.au_types.specs.Views.{meaning};
ghost use Rattle.au_matching.specs.Forming.{StandsOver};

use crate::faults::ClassFault;
use crate::judging::row_fault;
use crate::known::Known;
use crate::rows::row_in;
use crate::{ClassText, InstanceText, class_at, instances_of};
use au_base::Memory;
use au_imports::Resolved;
use au_instances::{Instances, Row};
use au_syntax::Part;
use au_types::{DeclAt, Heads, Table};
use std::alloc::Global;

/// The instances of a program whose table is good, and the rows of its declared types.
#[derive(Drop)]
pub struct Classes {
    /// The instances in the order of the text.
    pub instances: Instances,
    /// The rows of the declared types.
    pub heads: Heads,
}

/// Judges an instance with this row and this class after those that are known, and puts it behind them if it
/// is good.
fn admit_in(
    alloc: Global,
    heads: &Heads,
    known: &mut Known,
    text: &InstanceText,
    names: &Table<DeclAt>,
    row: Row,
    class: &ClassText,
) -> Result<Option<ClassFault>, Memory>
    requires { StandsOver heads.now (parameters row.generics) (meaning row.head) }
    ensures fault { IfOk result (λ fault. fault
        ≡ spec.row_fault heads.now (known_said known.old) (text_said text.now) names.now (row_said row)
        (class_said class.now)) }
    ensures known { IfOk result (λ fault. fault ≡ None
        → known_said known.new ≡ known_said known.old ++ spec.known_of text.now.at (Some (row_said row))) }
{
    match row_fault(alloc, heads, known, text, names, &row, class)? {
        Some(fault) => Ok(Some(fault)),
        None => {
            known.add(text.at, row)?;
            Ok(None)
        }
    }
}

/// Judges an instance with this row after those that are known, and puts it behind them if it is good.
fn admit(
    alloc: Global,
    program: &Resolved,
    known: &mut Known,
    text: &InstanceText,
    names: &Table<DeclAt>,
    row: Row,
) -> Result<Option<ClassFault>, Memory>
    requires { StandsOver (heads_of (slots.modules program.now)) (parameters row.generics)
        (meaning row.head) }
    ensures fault { IfOk result (λ fault. fault
        ≡ spec.read_fault (heads_of (slots.modules program.now)) (known_said known.old) (text_said text.now)
        (slots.modules program.now) names.now (Some (row_said row))) }
    ensures known { IfOk result (λ fault. fault ≡ None
        → known_said known.new ≡ known_said known.old ++ spec.known_of text.now.at (Some (row_said row))) }
{
    match class_at(program, row.class) {
        None => Ok(Some(ClassFault::BadHead(text.at))),
        Some(class) => admit_in(alloc, program.heads_ref(), known, text, names, row, &class),
    }
}

/// Judges an instance of a program after those that are known, and puts it behind them if it is good.
fn admit_text(
    alloc: Global,
    program: &Resolved,
    known: &mut Known,
    text: &InstanceText,
) -> Result<Option<ClassFault>, Memory>
    ensures fault { IfOk result (λ fault. fault
        ≡ spec.fault_of (slots.modules program.now) (known_said known.old) (text_said text.now)) }
    ensures known { IfOk result (λ fault. fault ≡ None
        → known_said known.new ≡ spec.with_text (slots.modules program.now) (known_said known.old)
        (text_said text.now)) }
{
    let place = text.number.module as usize;
    if place >= program.modules().len() {
        return Ok(Some(ClassFault::BadHead(text.at)));
    }
    let names = &program.names(place, text.part).types;
    match row_in(alloc, text, names, program.heads_ref())? {
        None => Ok(Some(ClassFault::BadHead(text.at))),
        Some(row) => {
            let own = &program.names(place, Part::Body).types;
            admit(alloc, program, known, text, own, row)
        }
    }
}

/// Judges instances of a program in order after those that are known, and puts each behind them, until one is
/// refused.
fn admit_all(
    alloc: Global,
    program: &Resolved,
    known: &mut Known,
    texts: &Vec<InstanceText>,
) -> Result<Option<ClassFault>, Memory>
    ensures fault { IfOk result (λ fault. fault
        ≡ spec.first_fault (slots.modules program.now) (known_said known.old) (texts_said texts.now.items)) }
    ensures known { IfOk result (λ fault. fault ≡ None
        → known_said known.new ≡ spec.with_texts (slots.modules program.now) (known_said known.old)
        (texts_said texts.now.items)) }
{
    for text in texts {
        if let Some(found) = admit_text(alloc, program, known, text)? {
            return Ok(Some(found));
        }
    }
    Ok(None)
}

/// The instances of a program with the rows of its declared types.
fn classes_of(alloc: Global, program: &Resolved, instances: Instances) -> Result<Classes, Memory>
    ensures instances { IfOk result (λ classes. classes.instances ≡ instances) }
    ensures heads { IfOk result (λ classes. classes.heads ≡ heads_of (slots.modules program.now)) }
{
    let heads = program.heads(alloc)?;
    Ok(Classes { instances, heads })
}

/// The table of a program's instances, with the rows of its declared types: of each that is given is known
/// that it is good. Each instance has a head of the form of a head, which fits the universe of its class's
/// parameter; it stands in the module of its class or of its head type, where what is built in belongs to
/// the first module; no other one is of its class with its head constructor; and its methods are exactly
/// those of its class.
///
/// The names and the declarations of the program are good already. An instance whose class, type parameters
/// or type mean nothing, or whose type isn't well formed, has a bad head.
///
/// # Errors
///
/// What the instances are refused for, the first in the order of the text, and of one instance the first of
/// these: `ClassFault::BadHead`, `ClassFault::Orphan`, `ClassFault::Overlap`, `ClassFault::MethodDiffers`.
/// `ClassFault::Memory` where no memory was found, in place of any other answer.
pub fn declare(alloc: Global, program: &Resolved) -> Result<Classes, ClassFault>
    // The instances are all of the program's, in order, and the rows are those of its declared types.
    ensures instances { IfOk result (λ classes. classes.instances ≡ rows_of (slots.modules program.now)) }
    ensures heads { IfOk result (λ classes. classes.heads ≡ heads_of (slots.modules program.now)) }
    // Each of them is good.
    ensures good { IfOk result (λ classes. InstancesAreGood (slots.modules program.now)) }
    // What is refused is refused for this, or memory ran out.
    ensures refused { (e : ClassFault) → result ≡ Err e
        → (e ≡ ClassFault.Memory) ⊎ (spec.instance_fault (slots.modules program.now) ≡ Some e) }
{
    let texts = instances_of(alloc, program)?;
    let mut known = Known::new(alloc);
    match admit_all(alloc, program, &mut known, &texts)? {
        Some(fault) => Err(fault),
        None => Ok(classes_of(alloc, program, known.rows)?),
    }
}
