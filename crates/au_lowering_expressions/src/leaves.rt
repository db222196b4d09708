//! The code of expressions without parts.

ghost use Rattle.std.specs.Prelude.{◌≡◌, IfOk, OnOk, is_some, map, neg_ℤ};
ghost use Rattle.std.specs.Option.{option_copied, option_map};
ghost use Rattle.au_closed_trees.specs.contracts.phase.ClosedTreesPhase.TheImpl.{ghosts as closed};
ghost use Rattle.au_closed_trees.specs.TreeViews.{closed_note};
ghost use Rattle.au_closed_meanings.specs.Surroundings as around;
ghost use Rattle.au_closed_meanings.specs.Surroundings.{view_in};
ghost use Rattle.au_lowered.specs.Drafts.{given, nothing, one, pushes_text};
ghost use Rattle.au_lowered.specs.Expressions as spec;
ghost use Rattle.au_meaning.specs.Expressions.{alone as alone_in};
ghost use Rattle.au_lowering_expressions.specs.Parts.{looks, opening, path_code, reads};
ghost use Rattle.au_lowering_expressions.specs.Parts.{refers};
ghost use Rattle.au_lowering_expressions.specs.Views.{drafts_said, local_said, scope_said};
ghost use Rattle.au_lowering_expressions.specs.Wrote.{wrote};
ghost use Rattle.au_meaning.specs.Expressions.{names_of};
ghost use Rattle.au_meaning.specs.Names.{variable_of};
ghost use Rattle.au_syntax.specs.Views.{expression, placed};

use crate::drafts::{Draft, put, put_draft};
use crate::locals::{Local, Locals};
use crate::parts::{part_of, part_past};
use crate::types::kind_in;
use au_base::{Memory, Name, Sequence, Text};
use au_closed_meanings::Lookup;
use au_closed_trees::{ClosedNote, ClosedTrees, Literal};
use au_low::{Instr, Mode};
use au_syntax::{BorrowMode, Expr, Ident};
use std::alloc::Global;

/// Writes an integer literal.
///
/// # Errors
///
/// Only for want of memory.
pub fn put_integer<R: Lookup>(
    _lookup: &R,
    note: &ClosedNote,
    value: i128,
    out: &mut Vec<Draft>,
) -> Result<(), Memory>
    ensures { OnOk result (drafts_said out.new.items
        ≡ wrote (spec.integer (view_in (R.round _lookup.now)) (closed_note note.now) value)
        (drafts_said out.old.items)) }
{
    match kind_in(&note.of) {
        None => Ok(()),
        Some(kind) => put(out, Instr::Push { kind, value }),
    }
}

/// Writes an integer literal with the other sign, and answers `Memory` where that is too great.
///
/// # Errors
///
/// Only for want of memory.
pub fn put_negative<R: Lookup>(
    lookup: &R,
    note: &ClosedNote,
    value: i128,
    out: &mut Vec<Draft>,
) -> Result<(), Memory>
    ensures { OnOk result (drafts_said out.new.items
        ≡ wrote (spec.integer (view_in (R.round lookup.now)) (closed_note note.now) (neg_ℤ value))
        (drafts_said out.old.items)) }
{
    match value.checked_neg() {
        None => Err(Memory),
        Some(negative) => put_integer(lookup, note, negative, out),
    }
}

/// Writes a text.
///
/// # Errors
///
/// Only for want of memory.
pub fn put_text(alloc: Global, text: &Text, out: &mut Vec<Draft>) -> Result<(), Memory>
    ensures { OnOk result (drafts_said out.new.items
        ≡ wrote (one (pushes_text text.now)) (drafts_said out.old.items)) }
{
    let text = text.copy(alloc)?;
    put_draft(out, Draft::Text(text))
}

/// Writes the literal of a constant.
fn put_literal(alloc: Global, literal: &Literal, out: &mut Vec<Draft>) -> Result<(), Memory>
    ensures { OnOk result (drafts_said out.new.items
        ≡ wrote (spec.literal (around.literal_value literal.now)) (drafts_said out.old.items)) }
{
    match literal {
        Literal::Int(kind, value) => put(
            out,
            Instr::Push {
                kind: *kind,
                value: *value,
            },
        ),
        Literal::Bool(value) => put(out, Instr::PushBool(*value)),
        Literal::Unit => put(out, Instr::PushUnit),
        Literal::Text(text) => put_text(alloc, text, out),
    }
}

/// Writes the constant that is mentioned.
fn put_constant(alloc: Global, note: &ClosedNote, out: &mut Vec<Draft>) -> Result<(), Memory>
    ensures { OnOk result (drafts_said out.new.items
        ≡ wrote (given (around.constant_noted (closed_note note.now)) spec.literal)
        (drafts_said out.old.items)) }
{
    match &note.literal {
        None => Ok(()),
        Some(literal) => put_literal(alloc, literal, out),
    }
}

/// Whether the noted type is Free.
fn is_free(note: &ClosedNote) -> bool
    ensures { result ≡ around.is_free (closed_note note.now) }
{
    match note.free {
        None => false,
        Some(free) => free,
    }
}

/// Writes what a variable holds, which is copied where it is Free.
fn put_taken(alloc: Global, free: bool, one: &Local, out: &mut Vec<Draft>) -> Result<(), Memory>
    ensures { OnOk result (drafts_said out.new.items
        ≡ wrote (spec.taken free (local_said one.now)) (drafts_said out.old.items)) }
{
    if free {
        let path = Sequence::new(alloc);
        put(
            out,
            Instr::Look {
                slot: one.slot,
                path,
            },
        )
    } else {
        put(out, Instr::Move(one.slot))
    }
}

/// Writes a name, of whose expression this is the note.
fn put_mention<R: Lookup>(
    alloc: Global,
    _lookup: &R,
    scope: &Locals,
    note: &ClosedNote,
    name: &Name,
    out: &mut Vec<Draft>,
) -> Result<(), Memory>
    ensures { OnOk result (drafts_said out.new.items
        ≡ wrote (spec.mention (view_in (R.round _lookup.now)) (closed_note note.now)
        (variable_of (scope_said scope.now) name.now) name.now) (drafts_said out.old.items)) }
{
    match scope.find(name) {
        None => put_constant(alloc, note, out),
        Some(one) => put_taken(alloc, is_free(note), one, out),
    }
}

/// Writes a copy of a part of a variable.
fn put_look<R: Lookup>(
    alloc: Global,
    lookup: &R,
    scope: &Locals,
    name: &Name,
    fields: &Vec<Ident<ClosedTrees>>,
    out: &mut Vec<Draft>,
) -> Result<(), Memory>
    ensures { OnOk result (drafts_said out.new.items
        ≡ wrote (spec.part_of (view_in (R.round lookup.now)) (variable_of (scope_said scope.now) name.now)
        (names_of (map (placed closed) fields.now.items)) looks) (drafts_said out.old.items)) }
{
    match part_of(alloc, lookup, scope, name, fields)? {
        None => Ok(()),
        Some(part) => put(
            out,
            Instr::Look {
                slot: part.slot,
                path: part.path,
            },
        ),
    }
}

/// Writes a name, or a part of what has the name, of whose expression this is the note.
///
/// # Errors
///
/// Only for want of memory.
pub fn put_path<R: Lookup>(
    alloc: Global,
    lookup: &R,
    scope: &Locals,
    note: &ClosedNote,
    name: &Name,
    fields: &Vec<Ident<ClosedTrees>>,
    out: &mut Vec<Draft>,
) -> Result<(), Memory>
    ensures { OnOk result (drafts_said out.new.items
        ≡ wrote (path_code (view_in (R.round lookup.now)) (scope_said scope.now) (closed_note note.now)
        name.now
        (map (placed closed) fields.now.items)) (drafts_said out.old.items)) }
{
    if fields.is_empty() {
        put_mention(alloc, lookup, scope, note, name, out)
    } else {
        put_look(alloc, lookup, scope, name, fields, out)
    }
}

/// Writes a copy of a part of what a variable refers to.
///
/// # Errors
///
/// Only for want of memory.
pub fn put_read<R: Lookup>(
    alloc: Global,
    lookup: &R,
    scope: &Locals,
    name: &Name,
    fields: &Vec<Ident<ClosedTrees>>,
    out: &mut Vec<Draft>,
) -> Result<(), Memory>
    ensures { OnOk result (drafts_said out.new.items
        ≡ wrote (spec.part_behind (view_in (R.round lookup.now)) (variable_of (scope_said scope.now) name.now)
        (names_of (map (placed closed) fields.now.items)) reads) (drafts_said out.old.items)) }
{
    match part_past(alloc, lookup, scope, name, fields)? {
        None => Ok(()),
        Some(part) => put(
            out,
            Instr::Read {
                slot: part.slot,
                path: part.path,
            },
        ),
    }
}

/// Writes a reference to a part of what a variable refers to.
///
/// # Errors
///
/// Only for want of memory.
pub fn put_part<R: Lookup>(
    alloc: Global,
    lookup: &R,
    scope: &Locals,
    name: &Name,
    fields: &Vec<Ident<ClosedTrees>>,
    out: &mut Vec<Draft>,
) -> Result<(), Memory>
    ensures { OnOk result (drafts_said out.new.items
        ≡ wrote (spec.part_behind (view_in (R.round lookup.now)) (variable_of (scope_said scope.now) name.now)
        (names_of (map (placed closed) fields.now.items)) refers) (drafts_said out.old.items)) }
{
    match part_past(alloc, lookup, scope, name, fields)? {
        None => Ok(()),
        Some(part) => put(
            out,
            Instr::Part {
                slot: part.slot,
                path: part.path,
            },
        ),
    }
}

/// Writes a borrow of a variable in a slot.
fn put_opening(mode: BorrowMode, slot: u32, out: &mut Vec<Draft>) -> Result<(), Memory>
    ensures { OnOk result (drafts_said out.new.items
        ≡ wrote (opening mode slot) (drafts_said out.old.items)) }
{
    match mode {
        BorrowMode::Read => put(
            out,
            Instr::Open {
                slot,
                mode: Mode::Read,
            },
        ),
        BorrowMode::Write => put(
            out,
            Instr::Open {
                slot,
                mode: Mode::Write,
            },
        ),
        BorrowMode::Reborrow => put(out, Instr::Again(slot)),
    }
}

/// Writes a borrow of a variable.
///
/// # Errors
///
/// Only for want of memory.
pub fn put_borrow(
    scope: &Locals,
    mode: BorrowMode,
    name: &Name,
    out: &mut Vec<Draft>,
) -> Result<(), Memory>
    ensures { OnOk result (drafts_said out.new.items
        ≡ wrote (given (variable_of (scope_said scope.now) name.now) (spec.borrows mode))
        (drafts_said out.old.items)) }
{
    match scope.find(name) {
        None => Ok(()),
        Some(one) => put_opening(mode, one.slot, out),
    }
}

/// The variable that stands alone or in parentheses.
#[tactic(auto, using(au_syntax::proofs::ExpressionLemmas::expression_steps))]
fn alone<'a>(scope: &'a Locals, of: &Expr<ClosedTrees>) -> Option<&'a Local>
    ensures { option_map local_said (option_copied result)
        ≡ alone_in (scope_said scope.now) (expression closed of.now) }
{
    match of {
        Expr::Path(_, name, fields) => {
            if fields.is_empty() {
                scope.find(&name.name)
            } else {
                None
            }
        }
        Expr::Parenthesized(_, inner) => alone(scope, inner),
        Expr::Number(_, _) => None,
        Expr::Negative(_, _) => None,
        Expr::Text(_, _) => None,
        Expr::Bool(_, _) => None,
        Expr::Nil(_) => None,
        Expr::Arrow(_, _, _) => None,
        Expr::Borrow(_, _, _) => None,
        Expr::BorrowPart(_, _, _) => None,
        Expr::Call(_, _, _, _) => None,
        Expr::NamedCall(_, _, _, _) => None,
        Expr::Dereference(_, _) => None,
        Expr::Not(_, _) => None,
        Expr::Typed(_, _, _) => None,
        Expr::Binary(_, _, _, _) => None,
        Expr::If(_, _, _, _) => None,
    }
}

/// Writes a copy of the variable that stands alone or in parentheses, if one does, and answers whether one
/// does.
///
/// # Errors
///
/// Only for want of memory.
pub fn put_alone(
    alloc: Global,
    scope: &Locals,
    of: &Expr<ClosedTrees>,
    out: &mut Vec<Draft>,
) -> Result<bool, Memory>
    ensures found { IfOk result (λ found. found ≡ is_some
        (alone_in (scope_said scope.now) (expression closed of.now))) }
    ensures written { OnOk result (drafts_said out.new.items
        ≡ wrote (spec.looked_at (alone_in (scope_said scope.now) (expression closed of.now)) nothing)
        (drafts_said out.old.items)) }
{
    match alone(scope, of) {
        None => Ok(false),
        Some(one) => {
            put_taken(alloc, true, one, out)?;
            Ok(true)
        }
    }
}
