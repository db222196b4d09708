//! The closed declared types of a program.

ghost use Rattle.std.specs.Prelude.{◌≡◌, IfOk, map};
ghost use Rattle.au_type_texts.specs.Keys as keys;
ghost use Rattle.au_closed_programs.specs.Programs as spec;
ghost use Rattle.au_closed_programs.specs.Views.{row_said, rows_said};
ghost use Rattle.au_type_texts.specs.ClosedTexts.{text_of};
ghost use Rattle.au_type_texts.specs.Views.{closed_meaning};
ghost use Rattle.au_closing.specs.Leading.{module_name};
ghost use Rattle.au_instances.specs.ClosedInstances as instances;
ghost use Rattle.au_modules.specs.Slots as slots;
ghost use Rattle.au_names.specs.HeadsOf.{heads_of};
ghost use Rattle.au_matching.specs.Universes as universes;

use au_base::{Memory, Text};
use au_closed_trees::{ClosedCase, cases_of};
use au_imports::Resolved;
use au_instances::universes::closed_universe;
use au_matching::TypeUniverse;
use au_type_texts::{Closed, add_key, closed_text, copy_closed};
use au_types::Heads;
use std::alloc::Global;
use std::cmp::Ordering;

/// A closed declared type.
#[derive(Drop)]
pub struct TypeRow {
    /// The type.
    pub of: Closed,
    /// Its key, from which it is told.
    pub key: Vec<u32>,
    /// Its text.
    pub text: Text,
    /// The name of its module.
    pub home: Text,
    /// Whether it is Linear.
    pub linear: bool,
    /// Its cases in declared order; of a record, the record itself.
    pub cases: Vec<ClosedCase>,
}

/// Whether a closed type is Linear.
fn is_linear(heads: &Heads, of: &Closed) -> bool
    ensures { result ≡ universes.is_linear (instances.closed_universe heads.now (closed_meaning of.now)) }
{
    match closed_universe(heads, of) {
        TypeUniverse::Free => false,
        TypeUniverse::Linear => true,
        TypeUniverse::AnyUniverse => false,
    }
}

/// The key of a closed type.
fn key_of(alloc: Global, of: &Closed) -> Result<Vec<u32>, Memory>
    ensures { IfOk result (λ key. key.items ≡ keys.key_of (closed_meaning of.now)) }
{
    let mut key = Vec::new(alloc);
    add_key(&mut key, of)?;
    Ok(key)
}

/// The name of the module at a place, and nothing where there is none.
fn name_at(alloc: Global, program: &Resolved, place: u16) -> Result<Text, Memory>
    ensures { IfOk result (λ name. name ≡ module_name (slots.modules program.now) place) }
{
    let modules = program.modules();
    if (place as usize) < modules.len() {
        Text::copy_of(alloc, modules.name(place as usize).as_bytes())
    } else {
        Ok(Text::new(alloc))
    }
}

/// The name of the module of a declared type.
#[tactic(auto, using(au_type_texts::proofs::ClosedLemmas::closed_steps))]
fn home_of(alloc: Global, program: &Resolved, of: &Closed) -> Result<Text, Memory>
    ensures { IfOk result (λ name.
        name ≡ spec.home_of (slots.modules program.now) (closed_meaning of.now)) }
{
    match of {
        Closed::Unit => Ok(Text::new(alloc)),
        Closed::Bool => Ok(Text::new(alloc)),
        Closed::Int(_) => Ok(Text::new(alloc)),
        Closed::Text => Ok(Text::new(alloc)),
        Closed::Named { of: at, .. } => name_at(alloc, program, at.module),
        Closed::Read(_) => Ok(Text::new(alloc)),
        Closed::Write(_) => Ok(Text::new(alloc)),
    }
}

/// The key of a closed type, its text, and the name of its module.
fn names_of(
    alloc: Global,
    program: &Resolved,
    of: &Closed,
) -> Result<(Vec<u32>, Text, Text), Memory>
    ensures key { IfOk result (λ made. made.0.items ≡ keys.key_of (closed_meaning of.now)) }
    ensures text { IfOk result (λ made.
        made.1 ≡ text_of (heads_of (slots.modules program.now)) (closed_meaning of.now)) }
    ensures home { IfOk result (λ made.
        made.2 ≡ spec.home_of (slots.modules program.now) (closed_meaning of.now)) }
{
    let key = key_of(alloc, of)?;
    let text = closed_text(alloc, program.heads_ref(), of)?;
    let home = home_of(alloc, program, of)?;
    Ok((key, text, home))
}

/// A closed declared type of a program.
fn row_of(alloc: Global, program: &Resolved, of: &Closed) -> Result<TypeRow, Memory>
    ensures { IfOk result (λ row.
        row_said row ≡ spec.row_of (slots.modules program.now) (closed_meaning of.now)) }
{
    let (key, text, home) = names_of(alloc, program, of)?;
    let cases = cases_of(alloc, program, of)?;
    let linear = is_linear(program.heads_ref(), of);
    let of = copy_closed(alloc, of)?;
    Ok(TypeRow {
        of,
        key,
        text,
        home,
        linear,
        cases,
    })
}

/// The rows of closed declared types.
pub(crate) fn rows_of(
    alloc: Global,
    program: &Resolved,
    list: &[Closed],
) -> Result<Vec<TypeRow>, Memory>
    ensures { IfOk result (λ rows.
        rows_said rows.items
        ≡ map (spec.row_of (slots.modules program.now)) (map closed_meaning list.now)) }
{
    let mut rows = Vec::new(alloc);
    for one in list {
        let row = row_of(alloc, program, one)?;
        rows.push(row)?;
    }
    Ok(rows)
}

/// How two rows stand in their order: by the bytes of their texts, and by their keys where these are equal.
pub(crate) fn row_cmp(one: &TypeRow, other: &TypeRow) -> Ordering
    ensures { result ≡ spec.row_cmp (row_said one.now) (row_said other.now) }
{
    let by_text = one.text.as_bytes().cmp(&other.text.as_bytes());
    by_text.then(one.key.cmp(&other.key))
}
