//! Constants with their notes.

ghost use Rattle.std.specs.Prelude.{◌≡◌, [], IfOk};
ghost use Rattle.au_typing.specs.Bodies as bodies;
ghost use Rattle.au_typing.specs.ProgramSearch as spec;
ghost use Rattle.au_judgements.specs.Refusing.{Judges};
ghost use Rattle.au_sights.specs.contracts.noted.NotedPhase.TheImpl.{ghosts as noted};
ghost use Rattle.au_noting.specs.Giving.{Gives};
ghost use Rattle.au_noting.specs.Scopes.{scope_said};
ghost use Rattle.au_noting_programs.specs.Said.{boxed_said};
ghost use Rattle.au_noting_programs.specs.Steps as steps;
ghost use Rattle.au_sights.specs.Sights.{outside_seen};
ghost use Rattle.au_syntax.specs.contracts.parsed.ParsedPhase.TheImpl.{ghosts as parsed};
ghost use Rattle.au_syntax.specs.Modules.{constant_body};
ghost use Rattle.au_syntax.specs.Views.{declaration, expression, placed, written};
ghost use Rattle.au_types.specs.Views.{meaning};

use crate::bodies::outer_scope;
use crate::heads::copy_constant;
use au_base::{Memory, Pos};
use au_judged_types::Generics;
use au_judgements::literals::is_literal;
use au_judgements::{Refused, refused_at};
use au_noting::faults::other_form;
use au_noting::lookups::written_type;
use au_noting::{Fault, Scope};
use au_noting_statements::note_boxed;
use au_sights::{Form, Noted, Surroundings};
use au_syntax::{Decl, Expr, Ident, Parsed, TypeText};
use au_types::{Params, Ty};
use std::alloc::Global;

/// The value of a constant of a type, with its notes.
fn note_value(
    alloc: Global,
    scope: &Scope,
    of: &Ty,
    value: &Expr<Parsed>,
) -> Result<Box<Expr<Noted>>, Fault>
    ensures { Gives boxed_said result
        (steps.note_value (scope_said scope.now) (expression parsed value.now) (meaning of.now)) }
{
    if is_literal(value) {
        note_boxed(alloc, scope, Some(of), value)
    } else {
        Err(other_form(Form::Assignable))
    }
}

/// A scope in which nothing is but what is outside of functions.
fn bare_scope<'a>(alloc: Global, outside: &Surroundings<'a>) -> Result<Scope<'a>, Memory>
    ensures { IfOk result (λ scope. scope_said scope ≡ bodies.outer_scope (outside_seen outside.now) []) }
{
    let none = Generics::of(Params::new(alloc), Vec::new(alloc));
    outer_scope(alloc, outside, none)
}

/// The value of a constant of a written type, with its notes.
fn note_constant(
    alloc: Global,
    outside: &Surroundings,
    of: &TypeText,
    value: &Expr<Parsed>,
) -> Result<Box<Expr<Noted>>, Fault>
    ensures { Gives boxed_said result
        (spec.note_constant (outside_seen outside.now) (written of.now) (expression parsed value.now)) }
{
    let scope = bare_scope(alloc, outside)?;
    let of = written_type(alloc, &scope, of)?;
    note_value(alloc, &scope, &of, value)
}

/// A constant with this value.
fn constant_with(
    alloc: Global,
    at: Pos,
    name: &Ident<Parsed>,
    of: &TypeText,
    value: Box<Expr<Noted>>,
) -> Result<Decl<Noted>, Memory>
    ensures { IfOk result (λ made. declaration noted made
        ≡ constant_body at (placed parsed name.now) (written of.now) (boxed_said value)) }
{
    let (name, of) = copy_constant(alloc, name, of)?;
    Ok(Decl::ConstantBody(at, name, of, value))
}

/// A constant with the notes of its value.
pub(crate) fn note_constant_body(
    alloc: Global,
    outside: &Surroundings,
    at: Pos,
    name: &Ident<Parsed>,
    of: &TypeText,
    value: &Expr<Parsed>,
) -> Result<Decl<Noted>, Refused>
    ensures { Judges (declaration noted) result (spec.note_declaration (outside_seen outside.now)
        (constant_body at (placed parsed name.now) (written of.now) (expression parsed value.now))) }
{
    match note_constant(alloc, outside, of, value) {
        Ok(made) => Ok(constant_with(alloc, at, name, of, made)?),
        Err(fault) => Err(refused_at(at, fault)),
    }
}
