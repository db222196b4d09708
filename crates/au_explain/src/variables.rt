//! The lives of single variables.

ghost use Rattle.std.specs.Prelude.{◌≡◌, ◌++◌, IfOk, OnOk, Some};
ghost use Rattle.au_explain.specs.Said.{binds_said, name_said, parameters_said};
ghost use Rattle.au_explain.specs.Said.{statement_said, statements_said};
ghost use Rattle.au_explain.specs.Variables as spec;
ghost use Rattle.au_noting.specs.Scopes.{scope_said};
ghost use Rattle.au_types.specs.Views.{meaning};

use crate::VariableLives;
use crate::blocks::{bound_name, mentions_of_all};
use au_base::Memory;
use au_noting::Scope;
use au_noting::lookups::{is_free_in, variable_type};
use au_syntax::{Bind, Field, Ident, Parsed, Stmt};
use au_type_texts::type_text;
use au_types::Ty;
use std::alloc::Global;

/// The life of a variable of a type, over statements.
fn life(
    alloc: Global,
    scope: &Scope,
    name: &Ident<Parsed>,
    stmts: &[Stmt<Parsed>],
    of: &Ty,
) -> Result<VariableLives, Memory>
    ensures { IfOk result (λ made. made ≡ spec.life (scope_said scope.now) (name_said name.now)
        (statements_said stmts.now) (meaning of.now)) }
{
    let mentions = mentions_of_all(alloc, &name.name, stmts)?;
    let of = type_text(alloc, scope.outside.program.heads_ref(), of)?;
    let copy = name.name.copy(alloc)?;
    Ok(VariableLives {
        name: copy,
        at: name.at,
        of,
        mentions,
    })
}

/// Puts the life of a variable of a type, if the type isn't Free.
fn push_typed(
    alloc: Global,
    scope: &Scope,
    name: &Ident<Parsed>,
    stmts: &[Stmt<Parsed>],
    of: &Ty,
    made: &mut Vec<VariableLives>,
) -> Result<(), Memory>
    ensures { OnOk result (made.new.items ≡ made.old.items ++ spec.listed_as (scope_said scope.now)
        (name_said name.now) (statements_said stmts.now) (Some (meaning of.now))) }
{
    if is_free_in(scope, of) {
        return Ok(());
    }
    let one = life(alloc, scope, name, stmts, of)?;
    made.push(one)?;
    Ok(())
}

/// Puts the life of a variable that was declared, over statements, if its type isn't Free.
pub(crate) fn push_variable(
    alloc: Global,
    scope: &Scope,
    name: &Ident<Parsed>,
    stmts: &[Stmt<Parsed>],
    made: &mut Vec<VariableLives>,
) -> Result<(), Memory>
    ensures { OnOk result (made.new.items ≡ made.old.items
        ++ spec.listed (scope_said scope.now) (name_said name.now) (statements_said stmts.now)) }
{
    match variable_type(scope, &name.name) {
        Some(of) => push_typed(alloc, scope, name, stmts, of, made),
        None => Ok(()),
    }
}

/// Puts the lives of variables that are bound to fields.
pub(crate) fn push_binds(
    alloc: Global,
    scope: &Scope,
    binds: &Vec<Bind<Parsed>>,
    stmts: &[Stmt<Parsed>],
    made: &mut Vec<VariableLives>,
) -> Result<(), Memory>
    ensures { OnOk result (made.new.items ≡ made.old.items ++ spec.listed_binds (scope_said scope.now)
        (binds_said binds.now.items) (statements_said stmts.now)) }
{
    for one in binds {
        push_variable(alloc, scope, bound_name(one), stmts, made)?;
    }
    Ok(())
}

/// Puts the lives of parameters.
pub(crate) fn push_parameters(
    alloc: Global,
    scope: &Scope,
    parameters: &Vec<Field<Parsed>>,
    stmts: &[Stmt<Parsed>],
    made: &mut Vec<VariableLives>,
) -> Result<(), Memory>
    ensures { OnOk result (made.new.items ≡ made.old.items ++ spec.listed_parameters (scope_said scope.now)
        (parameters_said parameters.now.items) (statements_said stmts.now)) }
{
    for one in parameters {
        push_variable(alloc, scope, &one.name, stmts, made)?;
    }
    Ok(())
}

/// Puts the lives of the variables that a statement declares for those behind it, which are in scope.
#[tactic(auto, using(au_syntax::proofs::StatementLemmas::statement_steps, std::proofs::lemmas::Grind::common_steps))]
pub(crate) fn push_after(
    alloc: Global,
    scope: &Scope,
    stmt: &Stmt<Parsed>,
    rest: &[Stmt<Parsed>],
    made: &mut Vec<VariableLives>,
) -> Result<(), Memory>
    ensures { OnOk result (made.new.items ≡ made.old.items
        ++ spec.listed_after (statement_said stmt.now) (statements_said rest.now) (scope_said scope.now)) }
{
    match stmt {
        Stmt::Let(_, _, name, _, _) => push_variable(alloc, scope, name, rest, made),
        Stmt::Destructure(_, binds, _) => push_binds(alloc, scope, binds, rest, made),
        Stmt::Skip(_) => Ok(()),
        Stmt::Assign(_, _, _, _) => Ok(()),
        Stmt::AssignThrough(_, _, _, _) => Ok(()),
        Stmt::If(_, _) => Ok(()),
        Stmt::IfElse(_, _, _) => Ok(()),
        Stmt::Case(_, _, _) => Ok(()),
        Stmt::While(_, _, _) => Ok(()),
        Stmt::For(_, _, _, _, _) => Ok(()),
        Stmt::Borrow(_, _, _, _, _) => Ok(()),
        Stmt::BorrowTyped(_, _, _, _, _, _, _) => Ok(()),
        Stmt::Call(_, _) => Ok(()),
        Stmt::Return(_, _) => Ok(()),
    }
}
