//! Statements that hold no block.

ghost use Rattle.au_typing.specs.DerivationSearch as spec;
ghost use Rattle.au_judgements.specs.Refusing.{Judges};
ghost use Rattle.au_judgements.specs.Said.{binds_said};
ghost use Rattle.au_sights.specs.contracts.noted.NotedPhase.TheImpl.{ghosts as noted};
ghost use Rattle.au_noting.specs.Said.{fields_said};
ghost use Rattle.au_noting.specs.Scopes.{scope_said};
ghost use Rattle.au_syntax.specs.contracts.parsed.ParsedPhase.TheImpl.{ghosts as parsed};
ghost use Rattle.au_syntax.specs.Statements as form;
ghost use Rattle.au_syntax.specs.Views.{expression, placed, statement, written};

use crate::parts::{
    note_assigned, note_declared, note_discarded, note_put, note_returned, note_taken,
};
use au_base::Pos;
use au_judgements::{Refused, refused_at};
use au_noting::Scope;
use au_sights::{Noted, copy_binds, copy_name, copy_names, copy_text_of_type};
use au_syntax::{Bind, Binding, Expr, Ident, Parsed, Stmt, TypeText};
use std::alloc::Global;

/// `let` and `var`.
pub fn note_let(
    alloc: Global,
    scope: &Scope,
    at: Pos,
    binding: Binding,
    name: &Ident<Parsed>,
    of: &TypeText,
    value: &Expr<Parsed>,
) -> Result<Stmt<Noted>, Refused>
    ensures { Judges (statement noted) result (spec.note_statement
        (form.declare at binding (placed parsed name.now) (written of.now) (expression parsed value.now))
        (scope_said scope.now)) }
{
    match note_declared(alloc, scope, of, value) {
        Ok(value) => {
            let name = copy_name(alloc, name)?;
            let of = copy_text_of_type(alloc, of)?;
            Ok(Stmt::Let(at, binding, name, of, value))
        }
        Err(fault) => Err(refused_at(at, fault)),
    }
}

/// A destructuring `let`.
pub fn note_destructure(
    alloc: Global,
    scope: &Scope,
    at: Pos,
    binds: &Vec<Bind<Parsed>>,
    value: &Expr<Parsed>,
) -> Result<Stmt<Noted>, Refused>
    ensures { Judges (statement noted) result (spec.note_statement
        (form.destructure at (binds_said binds.now.items) (expression parsed value.now))
        (scope_said scope.now)) }
{
    match note_taken(alloc, scope, binds, value) {
        Ok(value) => Ok(Stmt::Destructure(at, copy_binds(alloc, binds)?, value)),
        Err(fault) => Err(refused_at(at, fault)),
    }
}

/// An assignment to a variable or to a part of one.
pub fn note_assign(
    alloc: Global,
    scope: &Scope,
    at: Pos,
    name: &Ident<Parsed>,
    path: &Vec<Ident<Parsed>>,
    value: &Expr<Parsed>,
) -> Result<Stmt<Noted>, Refused>
    ensures { Judges (statement noted) result (spec.note_statement
        (form.assign at (placed parsed name.now) (fields_said path.now.items) (expression parsed value.now))
        (scope_said scope.now)) }
{
    match note_assigned(alloc, scope, &name.name, path, value) {
        Ok(value) => {
            let name = copy_name(alloc, name)?;
            let path = copy_names(alloc, path)?;
            Ok(Stmt::Assign(at, name, path, value))
        }
        Err(fault) => Err(refused_at(at, fault)),
    }
}

/// An assignment behind a write reference.
pub fn note_assign_through(
    alloc: Global,
    scope: &Scope,
    at: Pos,
    name: &Ident<Parsed>,
    path: &Vec<Ident<Parsed>>,
    value: &Expr<Parsed>,
) -> Result<Stmt<Noted>, Refused>
    ensures { Judges (statement noted) result (spec.note_statement
        (form.assign_through at (placed parsed name.now) (fields_said path.now.items)
        (expression parsed value.now)) (scope_said scope.now)) }
{
    match note_put(alloc, scope, &name.name, path, value) {
        Ok(value) => {
            let name = copy_name(alloc, name)?;
            let path = copy_names(alloc, path)?;
            Ok(Stmt::AssignThrough(at, name, path, value))
        }
        Err(fault) => Err(refused_at(at, fault)),
    }
}

/// A call statement.
pub fn note_call(
    alloc: Global,
    scope: &Scope,
    at: Pos,
    value: &Expr<Parsed>,
) -> Result<Stmt<Noted>, Refused>
    ensures { Judges (statement noted) result
        (spec.note_statement (form.discard at (expression parsed value.now)) (scope_said scope.now)) }
{
    match note_discarded(alloc, scope, value) {
        Ok(value) => Ok(Stmt::Call(at, value)),
        Err(fault) => Err(refused_at(at, fault)),
    }
}

/// A `return`.
pub fn note_return(
    alloc: Global,
    scope: &Scope,
    at: Pos,
    value: &Expr<Parsed>,
) -> Result<Stmt<Noted>, Refused>
    ensures { Judges (statement noted) result
        (spec.note_statement (form.return_of at (expression parsed value.now)) (scope_said scope.now)) }
{
    match note_returned(alloc, scope, value) {
        Ok(value) => Ok(Stmt::Return(at, value)),
        Err(fault) => Err(refused_at(at, fault)),
    }
}
