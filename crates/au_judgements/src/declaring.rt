//! What comes into scope by statements and in their blocks.

ghost use Rattle.std.specs.Prelude.{◌≡◌, IfOk, OnErr, OnOk};
ghost use Rattle.std.specs.Option.{option_map};
ghost use Rattle.au_typing.specs.InScope as spec;
ghost use Rattle.au_judgements.specs.Said.{bind_said, binds_said};
ghost use Rattle.au_judgements.specs.Steps as steps;
ghost use Rattle.au_noting.specs.Scopes.{scope_said};
ghost use Rattle.au_syntax.specs.contracts.parsed.ParsedPhase.TheImpl.{ghosts as parsed};
ghost use Rattle.au_syntax.specs.Views.{renaming, statement, written};
ghost use Rattle.au_names.specs.Importing as importing;
ghost use Rattle.au_types.specs.Views.{meaning};
ghost use Rattle.au_typing.specs.Lookups as lookups;

use au_base::{Memory, Name};
use au_judged_types::{Judged, judge_type};
use au_noting::{Scope, Variable};
use au_syntax::{Bind, Binding, Parsed, Renamed, Stmt, TypeText};
use au_types::Ty;
use std::alloc::Global;

/// Declares a variable of a type, which is the innermost then.
///
/// # Errors
///
/// Only for want of memory; nothing changes then.
fn declare(
    alloc: Global,
    scope: &mut Scope,
    name: &Name,
    of: Ty,
    assignable: bool,
) -> Result<(), Memory>
    ensures ok { OnOk result (scope_said scope.new ≡ spec.with_variable
        (record { name = name.now; of = meaning of; assignable = assignable }) (scope_said scope.old)) }
    ensures err { OnErr result (scope_said scope.new ≡ scope_said scope.old) }
{
    let name = name.copy(alloc)?;
    scope.declare(Variable {
        name,
        of,
        assignable,
    })
}

/// Declares a variable that isn't assigned to, which is the innermost then.
///
/// # Errors
///
/// Only for want of memory; nothing changes then.
pub fn declare_fixed(alloc: Global, scope: &mut Scope, name: &Name, of: Ty) -> Result<(), Memory>
    ensures ok { OnOk result (scope_said scope.new
        ≡ spec.with_variable (spec.fixed_variable name.now (meaning of)) (scope_said scope.old)) }
    ensures err { OnErr result (scope_said scope.new ≡ scope_said scope.old) }
{
    declare(alloc, scope, name, of, false)
}

/// Declares a variable with the type that is written with it, and none where that is no type.
///
/// # Errors
///
/// Only for want of memory; nothing changes then.
pub fn declare_typed(
    alloc: Global,
    scope: &mut Scope,
    name: &Name,
    assignable: bool,
    text: &TypeText,
) -> Result<(), Memory>
    ensures ok { OnOk result (scope_said scope.new ≡ spec.with_typed name.now assignable
        (lookups.written_type (scope_said scope.old) (written text.now)) (scope_said scope.old)) }
    ensures err { OnErr result (scope_said scope.new ≡ scope_said scope.old) }
{
    let found = formed_type(alloc, scope, text)?;
    match found {
        Some(of) => declare(alloc, scope, name, of, assignable),
        None => Ok(()),
    }
}

/// The type that a written type means, if it is well formed.
fn formed_type(alloc: Global, scope: &Scope, text: &TypeText) -> Result<Option<Ty>, Memory>
    ensures { IfOk result (λ found. option_map meaning found
        ≡ steps.formed (lookups.written_type (scope_said scope.now) (written text.now))) }
{
    match judge_type(alloc, &scope.written(), text)? {
        Judged::Means(of) => Ok(Some(of)),
        Judged::Fails(_) => Ok(None),
    }
}

/// The name of the variable that a field is bound to: that after its `as`, or its own.
fn variable_name(item: &Renamed<Parsed>) -> &Name
    ensures { result.now ≡ importing.given_name (renaming parsed item.now) }
{
    match &item.alias {
        None => &item.name.name,
        Some(alias) => &alias.name,
    }
}

/// Declares the variable that a field is bound to.
fn declare_one(alloc: Global, scope: &mut Scope, bind: &Bind<Parsed>) -> Result<(), Memory>
    ensures { OnOk result (scope_said scope.new
        ≡ steps.with_one (bind_said bind.now) (scope_said scope.old)) }
{
    declare_typed(alloc, scope, variable_name(&bind.name), false, &bind.of)
}

/// Declares the variables that are bound to fields, from left to right, with the types that are written with
/// them.
///
/// # Errors
///
/// Only for want of memory; some of the variables may be in scope then.
pub fn declare_bound(alloc: Global, scope: &mut Scope, binds: &[Bind<Parsed>]) -> Result<(), Memory>
    ensures { OnOk result (scope_said scope.new
        ≡ spec.with_bound (binds_said binds.now) (scope_said scope.old)) }
{
    for bind in binds {
        declare_one(alloc, scope, bind)?;
    }
    Ok(())
}

/// Whether a binding is `var`.
fn is_var(binding: Binding) -> bool
    ensures { result ≡ spec.is_var binding }
{
    match binding {
        Binding::Let => false,
        Binding::Var => true,
    }
}

/// Declares what a statement declares for those behind it.
///
/// # Errors
///
/// Only for want of memory; some of the variables may be in scope then.
pub fn declare_after(alloc: Global, scope: &mut Scope, stmt: &Stmt<Parsed>) -> Result<(), Memory>
    ensures { OnOk result (scope_said scope.new
        ≡ spec.after (statement parsed stmt.now) (scope_said scope.old)) }
{
    match stmt {
        Stmt::Skip(_) => Ok(()),
        Stmt::Let(_, binding, name, text, _) => {
            declare_typed(alloc, scope, &name.name, is_var(*binding), text)
        }
        Stmt::Destructure(_, binds, _) => declare_bound(alloc, scope, binds.as_slice()),
        Stmt::Assign(_, _, _, _) => Ok(()),
        Stmt::AssignThrough(_, _, _, _) => Ok(()),
        Stmt::If(_, _) => Ok(()),
        Stmt::IfElse(_, _, _) => Ok(()),
        Stmt::Case(_, _, _) => Ok(()),
        Stmt::While(_, _, _) => Ok(()),
        Stmt::For(_, _, _, _, _) => Ok(()),
        Stmt::Borrow(_, _, _, _, _) => Ok(()),
        Stmt::BorrowTyped(_, _, _, _, _, _, _) => Ok(()),
        Stmt::Call(_, _) => Ok(()),
        Stmt::Return(_, _) => Ok(()),
    }
}
