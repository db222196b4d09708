//! The arms of cases: where they begin, and what they bind.

ghost use Rattle.std.specs.Prelude.{◌≡◌, ◌+◌, ◌++◌, ◌∷◌, [], IfOk, OnOk, Some, length, map, max, set};
ghost use Rattle.au_closed_trees.specs.contracts.phase.ClosedTreesPhase.TheImpl.{ghosts as closed};
ghost use Rattle.au_closed_trees.specs.TreeViews.{closed_note};
ghost use Rattle.au_closed_meanings.specs.Surroundings.{view_in};
ghost use Rattle.au_low.specs.declared.instructions.Instr.TheVariants.{Case};
ghost use Rattle.au_lowered.specs.Drafts.{does, plain};
ghost use Rattle.au_lowered.specs.Slots as slots;
ghost use Rattle.au_lowered.specs.Statements as spec;
ghost use Rattle.au_lowering_expressions.specs.Views.{drafts_said, scope_said};
ghost use Rattle.au_lowering_expressions.specs.Wrote.{wrote};
ghost use Rattle.au_lowering_statements.specs.Ends.{with_jumps};
ghost use Rattle.au_lowering_statements.specs.Views.{Begins, starts_said};
ghost use Rattle.au_meaning.specs.Statements as meant;
ghost use Rattle.au_syntax.specs.Views.{bound};

use crate::entering::{bind_fields, further};
use crate::jumps::end_jumps;
use crate::taking::{Taken, access_behind, told_type};
use au_base::{Memory, Name, Sequence};
use au_closed_meanings::Lookup;
use au_closed_trees::{ClosedNote, ClosedTrees};
use au_low::Instr;
use au_lowering_expressions::{Draft, Locals, here, patch, put};
use au_syntax::Bind;
use std::alloc::Global;

/// Where an arm begins.
#[derive(Clone, Copy)]
pub struct Start {
    /// The number of its case, if there is such a case.
    pub tag: Option<u32>,
    /// The place.
    pub place: u32,
}

/// Keeps that the arm of a case begins here.
pub fn put_start<R: Lookup>(
    lookup: &R,
    note: &ClosedNote,
    name: &Name,
    starts: &mut Vec<Start>,
    out: &Vec<Draft>,
) -> Result<(), Memory>
    ensures { OnOk result (starts_said starts.new.items
        ≡ starts_said starts.old.items
        ++ (
          meant.tag_told (view_in (R.round lookup.now)) (closed_note note.now) name.now,
          length (drafts_said out.now.items),
        ) ∷ []) }
{
    let place = here(out)?;
    let tag = lookup.tag(told_type(&note.of), name);
    starts.push(Start { tag, place })?;
    Ok(())
}

/// How many fields the case of an arm has.
pub fn fields_of_arm<R: Lookup>(lookup: &R, note: &ClosedNote, name: &Name) -> u32
    ensures { result
        ≡ length (slots.fields_of_case (view_in (R.round lookup.now)) (closed_note note.now) name.now) }
{
    let of = told_type(&note.of);
    match lookup.tag(of, name) {
        None => 0,
        Some(tag) => lookup.count(of, tag),
    }
}

/// Declares the fields that an arm binds, and answers the next slot that is free.
pub fn enter_arm<R: Lookup>(
    alloc: Global,
    lookup: &R,
    slot: u32,
    note: &ClosedNote,
    name: &Name,
    binds: &Vec<Bind<ClosedTrees>>,
    scope: &mut Locals,
) -> Result<u32, Memory>
    ensures next { IfOk result (λ next. next
        ≡ slot + length (slots.fields_of_case (view_in (R.round lookup.now)) (closed_note note.now)
        name.now)) }
    ensures said { OnOk result (scope_said scope.new
        ≡ slots.with_fields
        (slots.fields_of_case (view_in (R.round lookup.now)) (closed_note note.now) name.now) slot
        (map (bound closed) binds.now.items) (scope_said scope.old)) }
    ensures keeps { OnOk result (Begins scope.old scope.new) }
{
    let of = told_type(&note.of);
    match lookup.tag(of, name) {
        None => Ok(slot),
        Some(tag) => {
            let taken = Taken {
                of,
                tag,
                through: access_behind(&note.of),
            };
            bind_fields(alloc, lookup, &taken, slot, binds, scope)?;
            let next = further(slot, lookup.count(of, tag))?;
            Ok(next)
        }
    }
}

/// Writes the instruction of a case, whose labels aren't known yet, and answers its place.
pub fn put_case(alloc: Global, out: &mut Vec<Draft>, slot: u32) -> Result<usize, Memory>
    ensures at { IfOk result (λ at. at ≡ length (drafts_said out.old.items)) }
    ensures code { OnOk result (drafts_said out.new.items
        ≡ wrote (does (Case slot [])) (drafts_said out.old.items)) }
{
    let at = out.len();
    let labels = Sequence::new(alloc);
    put(out, Instr::Case { slot, labels })?;
    Ok(at)
}

/// The greater of a number of cases and that which an arm tells.
#[tactic(auto, using(crate::proofs::CaseLemmas::counted_none, crate::proofs::CaseLemmas::counted_some))]
fn counted(one: Start, count: u32) -> Result<u32, Memory>
    ensures { IfOk result (λ made. made ≡ max count (spec.count_of_cases ((one.tag, one.place) ∷ []))) }
{
    match one.tag {
        None => Ok(count),
        Some(tag) => {
            let above = further(tag, 1)?;
            if above > count { Ok(above) } else { Ok(count) }
        }
    }
}

/// How many cases there are: each has its arm.
#[tactic(auto, using(crate::proofs::CaseLemmas::count_more))]
fn count_of_cases(starts: &Vec<Start>) -> Result<u32, Memory>
    ensures { IfOk result (λ count. count ≡ spec.count_of_cases (starts_said starts.now.items)) }
{
    let mut count = 0;
    for one in starts {
        count = counted(*one, count)?;
    }
    Ok(count)
}

/// Whether a number is that of a case, if there is one.
fn is_tag(tag: u32, of: Option<u32>) -> bool
    ensures { result ≡ meant.is_tag tag of }
{
    match of {
        None => false,
        Some(other) => other == tag,
    }
}

/// Where the arm of a case begins.
#[tactic(auto, using(crate::proofs::CaseLemmas::start_found, crate::proofs::CaseLemmas::start_passed))]
fn start_of(tag: u32, starts: &Vec<Start>) -> u32
    ensures { result ≡ spec.start_of tag (starts_said starts.now.items) }
{
    for one in starts {
        if is_tag(tag, one.tag) {
            return one.place;
        }
    }
    0
}

/// The labels of the cases, in declared order.
fn labels_of(alloc: Global, starts: &Vec<Start>) -> Result<Sequence<u32>, Memory>
    ensures { IfOk result (λ labels. labels
        ≡ spec.labels_of (spec.count_of_cases (starts_said starts.now.items))
        (starts_said starts.now.items)) }
{
    let count = count_of_cases(starts)?;
    let mut labels = Vec::new(alloc);
    for tag in 0..count {
        labels.push(start_of(tag, starts))?;
    }
    Ok(Sequence::from_vec(labels))
}

/// Lets jumps go to the next instruction, where a case ends, and gives the case at a place its labels.
pub fn end_case(
    alloc: Global,
    out: &mut Vec<Draft>,
    at: usize,
    slot: u32,
    starts: &Vec<Start>,
    jumps: &Vec<usize>,
) -> Result<(), Memory>
    ensures { OnOk result (drafts_said out.new.items
        ≡ set (with_jumps (length (drafts_said out.old.items)) jumps.now.items (drafts_said out.old.items)) at
        (plain (Case slot (spec.labels_of (spec.count_of_cases (starts_said starts.now.items))
        (starts_said starts.now.items))))) }
{
    end_jumps(out, jumps)?;
    let labels = labels_of(alloc, starts)?;
    patch(out, at, Instr::Case { slot, labels });
    Ok(())
}
