//! The variables that statements declare, and their slots.

ghost use Rattle.std.specs.Prelude.{◌≡◌, ◌+◌, IfOk, OnOk, Some, length, map};
ghost use Rattle.std.specs.Option.{option_map};
ghost use Rattle.au_closed_trees.specs.contracts.phase.ClosedTreesPhase.TheImpl.{ghosts as closed};
ghost use Rattle.au_closed_trees.specs.TreeViews.{closed_note};
ghost use Rattle.au_type_texts.specs.Views.{closed_meaning};
ghost use Rattle.au_closed_meanings.specs.Surroundings.{fields_in, view_in};
ghost use Rattle.au_closed_meanings.specs.Views.{found_said};
ghost use Rattle.au_lowered.specs.Slots as slots;
ghost use Rattle.au_lowering_expressions.specs.Views.{scope_said};
ghost use Rattle.au_lowering_statements.specs.Views as views;
ghost use Rattle.au_lowering_statements.specs.Views.{Begins};
ghost use Rattle.au_meaning.specs.Names as names;
ghost use Rattle.au_syntax.specs.Views.{bound, renaming, statement};

use crate::taking::{Taken, reached};
use au_base::{Memory, Name};
use au_closed_meanings::{Found, Lookup};
use au_closed_trees::{ClosedNote, ClosedTrees};
use au_lowering_expressions::{Local, Locals, note_of};
use au_syntax::{Access, Bind, Renamed, Stmt};
use au_type_texts::{Closed, copy_closed};
use std::alloc::Global;

/// A slot that is so many further on.
///
/// # Errors
///
/// `Memory` where it has more than 32 bits.
pub fn further(slot: u32, count: u32) -> Result<u32, Memory>
    ensures { IfOk result (λ made. made ≡ slot + count) }
{
    match slot.checked_add(count) {
        None => Err(Memory),
        Some(made) => Ok(made),
    }
}

/// Declares a variable in a slot. It is the innermost then.
///
/// # Errors
///
/// Only for want of memory.
pub fn declare(
    alloc: Global,
    scope: &mut Locals,
    name: &Name,
    slot: u32,
    of: Option<Closed>,
) -> Result<(), Memory>
    ensures said { OnOk result (scope_said scope.new
        ≡ names.with_name name.now slot (option_map closed_meaning of) (scope_said scope.old)) }
    ensures keeps { OnOk result (Begins scope.old scope.new) }
{
    let name = name.copy(alloc)?;
    scope.declare(Local { name, slot, of })?;
    Ok(())
}

/// The name of the variable that a field is bound to.
fn bound_name(name: &Renamed<ClosedTrees>) -> &Name
    ensures { result.now ≡ names.bound_name (renaming closed name.now) }
{
    match &name.alias {
        None => &name.name.name,
        Some(alias) => &alias.name,
    }
}

/// Declares a variable for a field that was found, where the first field of the case has this slot.
fn declare_found(
    alloc: Global,
    scope: &mut Locals,
    name: &Name,
    slot: u32,
    through: Option<Access>,
    found: Found<'_>,
) -> Result<(), Memory>
    ensures said { OnOk result (scope_said scope.new
        ≡ names.with_name name.now (slot + (found_said found.entry).0)
        (Some (views.reached through (found_said found.entry).1)) (scope_said scope.old)) }
    ensures keeps { OnOk result (Begins scope.old scope.new) }
{
    let slot = further(slot, found.number)?;
    let of = reached(alloc, through, found.of)?;
    declare(alloc, scope, name, slot, Some(of))
}

/// Declares the variable that a field is bound to, where the first field of the case has this slot.
fn bind_field<R: Lookup>(
    alloc: Global,
    lookup: &R,
    taken: &Taken<'_>,
    slot: u32,
    bind: &Bind<ClosedTrees>,
    scope: &mut Locals,
) -> Result<(), Memory>
    ensures said { OnOk result (scope_said scope.new
        ≡ slots.with_field slot (names.bound_name (bound closed bind.now).name)
        (names.field_of (bound closed bind.now).name.name.name
        (views.fields_taken (R.round lookup.now) taken.now))
        (scope_said scope.old)) }
    ensures keeps { OnOk result (Begins scope.old scope.new) }
{
    match lookup.field(taken.of, taken.tag, &bind.name.name.name) {
        None => Ok(()),
        Some(found) => {
            declare_found(
                alloc,
                scope,
                bound_name(&bind.name),
                slot,
                taken.through,
                found,
            )?;
            Ok(())
        }
    }
}

/// Declares the variables that the fields of a case are bound to, where the first field has this slot.
///
/// # Errors
///
/// Only for want of memory.
pub fn bind_fields<R: Lookup>(
    alloc: Global,
    lookup: &R,
    taken: &Taken<'_>,
    slot: u32,
    binds: &Vec<Bind<ClosedTrees>>,
    scope: &mut Locals,
) -> Result<(), Memory>
    ensures said { OnOk result (scope_said scope.new
        ≡ slots.with_fields (views.fields_taken (R.round lookup.now) taken.now) slot
        (map (bound closed) binds.now.items) (scope_said scope.old)) }
    ensures keeps { OnOk result (Begins scope.old scope.new) }
{
    for one in binds {
        bind_field(alloc, lookup, taken, slot, one, scope)?;
    }
    Ok(())
}

/// Declares the variables that the fields of a record are bound to, where the first field has this slot.
fn bind_record<R: Lookup>(
    alloc: Global,
    lookup: &R,
    of: &Closed,
    slot: u32,
    binds: &Vec<Bind<ClosedTrees>>,
    scope: &mut Locals,
) -> Result<(), Memory>
    ensures said { OnOk result (scope_said scope.new
        ≡ slots.with_fields (fields_in (R.round lookup.now) (closed_meaning of.now) 0) slot
        (map (bound closed) binds.now.items) (scope_said scope.old)) }
    ensures keeps { OnOk result (Begins scope.old scope.new) }
{
    let taken = Taken {
        of,
        tag: 0,
        through: None,
    };
    bind_fields(alloc, lookup, &taken, slot, binds, scope)?;
    Ok(())
}

/// Declares a variable of the type that is noted.
pub fn declare_noted(
    alloc: Global,
    scope: &mut Locals,
    name: &Name,
    slot: u32,
    note: &ClosedNote,
) -> Result<(), Memory>
    ensures said { OnOk result (scope_said scope.new
        ≡ names.with_name name.now slot (Some (closed_meaning note.now.of)) (scope_said scope.old)) }
    ensures keeps { OnOk result (Begins scope.old scope.new) }
{
    let of = copy_closed(alloc, &note.of)?;
    declare(alloc, scope, name, slot, Some(of))
}

/// Declares what a statement leaves in scope, where so many slots were in use before it.
///
/// # Errors
///
/// Only for want of memory.
#[tactic(auto, using(au_syntax::proofs::StatementLemmas::statement_steps, crate::proofs::BlockLemmas::begins_same))]
pub fn enter<R: Lookup>(
    alloc: Global,
    lookup: &R,
    slot: u32,
    of: &Stmt<ClosedTrees>,
    scope: &mut Locals,
) -> Result<(), Memory>
    ensures said { OnOk result (scope_said scope.new
        ≡ slots.after (view_in (R.round lookup.now)) slot (statement closed of.now)
        (scope_said scope.old)) }
    ensures keeps { OnOk result (Begins scope.old scope.new) }
{
    match of {
        Stmt::Let(_, _, name, _, value) => {
            declare_noted(alloc, scope, &name.name, slot, note_of(value))?;
            Ok(())
        }
        Stmt::Destructure(_, binds, value) => {
            bind_record(alloc, lookup, &note_of(value).of, slot, binds, scope)?;
            Ok(())
        }
        Stmt::Skip(_) => Ok(()),
        Stmt::Assign(_, _, _, _) => Ok(()),
        Stmt::AssignThrough(_, _, _, _) => Ok(()),
        Stmt::If(_, _) => Ok(()),
        Stmt::IfElse(_, _, _) => Ok(()),
        Stmt::Case(_, _, _) => Ok(()),
        Stmt::While(_, _, _) => Ok(()),
        Stmt::For(_, _, _, _, _) => Ok(()),
        Stmt::Borrow(_, _, _, _, _) => Ok(()),
        Stmt::BorrowTyped(_, _, _, _, _, _, _) => Ok(()),
        Stmt::Call(_, _) => Ok(()),
        Stmt::Return(_, _) => Ok(()),
    }
}

/// How many fields a record has, by the note of an expression.
pub fn fields_of<R: Lookup>(lookup: &R, note: &ClosedNote) -> u32
    ensures { result ≡ length (slots.fields_in (view_in (R.round lookup.now)) (closed_note note.now)) }
{
    lookup.count(&note.of, 0)
}

/// How many slots are in use after a statement that weren't before it.
pub fn kept<R: Lookup>(lookup: &R, of: &Stmt<ClosedTrees>) -> u32
    ensures { result ≡ slots.kept (view_in (R.round lookup.now)) (statement closed of.now) }
{
    match of {
        Stmt::Let(_, _, _, _, _) => 1,
        Stmt::Destructure(_, _, value) => fields_of(lookup, note_of(value)),
        Stmt::Skip(_) => 0,
        Stmt::Assign(_, _, _, _) => 0,
        Stmt::AssignThrough(_, _, _, _) => 0,
        Stmt::If(_, _) => 0,
        Stmt::IfElse(_, _, _) => 0,
        Stmt::Case(_, _, _) => 0,
        Stmt::While(_, _, _) => 0,
        Stmt::For(_, _, _, _, _) => 0,
        Stmt::Borrow(_, _, _, _, _) => 0,
        Stmt::BorrowTyped(_, _, _, _, _, _, _) => 0,
        Stmt::Call(_, _) => 0,
        Stmt::Return(_, _) => 0,
    }
}
