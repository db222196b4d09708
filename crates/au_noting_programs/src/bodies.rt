//! What is in scope in a body, and bodies with their notes.

ghost use Rattle.std.specs.Prelude.{◌≡◌, IfOk, map};
ghost use Rattle.au_typing.specs.Bodies as spec;
ghost use Rattle.au_typing.specs.ProgramSearch as programs;
ghost use Rattle.au_judgements.specs.Refusing.{Judges};
ghost use Rattle.au_sights.specs.contracts.noted.NotedPhase.TheImpl.{ghosts as noted};
ghost use Rattle.au_noting.specs.Giving.{Gives};
ghost use Rattle.au_noting.specs.Scopes.{scope_said};
ghost use Rattle.au_noting_programs.specs.Steps as steps;
ghost use Rattle.au_sights.specs.Sights.{outside_seen};
ghost use Rattle.au_syntax.specs.contracts.parsed.ParsedPhase.TheImpl.{ghosts as parsed};
ghost use Rattle.au_syntax.specs.Views as views;

use crate::parameters::generics_in;
use au_base::{Memory, Pos};
use au_judged_types::Generics;
use au_judgements::returning::block_returns;
use au_judgements::{Refused, refused_at};
use au_noting::lookups::written_type;
use au_noting::{Bounds, Fault, Scope, Variable, Variables};
use au_noting_statements::note_block;
use au_sights::{Noted, Surroundings, Why};
use au_syntax::{Block, Field, Generic, Parsed, Signature, TypeText};
use au_types::Ty;
use std::alloc::Global;

/// A scope in which nothing is but what is outside of functions and these type parameters.
pub(crate) fn outer_scope<'a>(
    alloc: Global,
    outside: &Surroundings<'a>,
    generics: Generics,
) -> Result<Scope<'a>, Memory>
    ensures { IfOk result (λ scope. scope_said scope ≡ spec.outer_scope (outside_seen outside.now) generics) }
{
    let bounds = Bounds::of(alloc, generics)?;
    Ok(Scope {
        outside: *outside,
        bounds,
        result: Ty::Unit,
        regions: Vec::new(alloc),
        variables: Variables::new(alloc),
    })
}

/// Declares a parameter, which isn't assigned to.
fn with_parameter(alloc: Global, scope: &mut Scope, one: &Field<Parsed>) -> Result<(), Fault>
    ensures { Gives (λ _. scope_said scope.new) result
        (steps.with_parameter (views.labelled parsed one.now) (scope_said scope.old)) }
{
    let of = written_type(alloc, scope, &one.of)?;
    let name = one.name.name.copy(alloc)?;
    scope.declare(Variable {
        name,
        of,
        assignable: false,
    })?;
    Ok(())
}

/// Declares parameters in order.
fn with_parameters(
    alloc: Global,
    scope: &mut Scope,
    parameters: &[Field<Parsed>],
) -> Result<(), Fault>
    ensures { Gives (λ _. scope_said scope.new) result
        (spec.with_parameters (map (views.labelled parsed) parameters.now) (scope_said scope.old)) }
{
    for one in parameters {
        with_parameter(alloc, scope, one)?;
    }
    Ok(())
}

/// Sets the type of the result.
fn with_result(alloc: Global, scope: &mut Scope, of: &TypeText) -> Result<(), Fault>
    ensures { Gives (λ _. scope_said scope.new) result
        (spec.with_result (views.written of.now) (scope_said scope.old)) }
{
    scope.result = written_type(alloc, scope, of)?;
    Ok(())
}

/// Declares the parameters and sets the result of a header.
fn with_header(alloc: Global, scope: &mut Scope, header: &Signature<Parsed>) -> Result<(), Fault>
    ensures { Gives (λ _. scope_said scope.new) result
        (steps.with_header (views.header parsed header.now) (scope_said scope.old)) }
{
    with_parameters(alloc, scope, header.parameters.as_slice())?;
    with_result(alloc, scope, &header.result)?;
    Ok(())
}

/// A scope in which nothing is but what is outside of functions and the type parameters of a declaration.
fn generic_scope<'a>(
    alloc: Global,
    outside: &Surroundings<'a>,
    generics: &Vec<Generic<Parsed>>,
) -> Result<Scope<'a>, Memory>
    ensures { IfOk result (λ scope. scope_said scope
        ≡ spec.outer_scope (outside_seen outside.now)
        (spec.generics_in (outside_seen outside.now) (map (views.constrained parsed) generics.now.items))) }
{
    let generics = generics_in(alloc, outside, generics)?;
    outer_scope(alloc, outside, generics)
}

/// What is in scope in the body of a function or method: what is outside, its type parameters, its
/// parameters, and its result.
///
/// # Errors
///
/// Why the type of a parameter or of the result isn't well formed, the first.
pub fn body_scope<'a>(
    alloc: Global,
    outside: &Surroundings<'a>,
    generics: &Vec<Generic<Parsed>>,
    header: &Signature<Parsed>,
) -> Result<Scope<'a>, Fault>
    ensures { Gives scope_said result (spec.body_scope (outside_seen outside.now)
        (map (views.constrained parsed) generics.now.items) (views.header parsed header.now)) }
{
    let mut scope = generic_scope(alloc, outside, generics)?;
    with_header(alloc, &mut scope, header)?;
    Ok(scope)
}

/// A block with its notes, which returns on every path.
fn note_inside(
    alloc: Global,
    scope: &mut Scope,
    body: &Block<Parsed>,
    stop: Pos,
) -> Result<Block<Noted>, Refused>
    ensures { Judges (views.block noted) result
        (steps.note_inside (views.block parsed body.now) stop (scope_said scope.old)) }
{
    let made = note_block(alloc, scope, body)?;
    if block_returns(body) {
        Ok(made)
    } else {
        Err(Refused::Statement {
            at: stop,
            cause: Why::FallsOut,
        })
    }
}

/// The body of a function or method that is declared at a place, with its notes.
pub(crate) fn note_body(
    alloc: Global,
    outside: &Surroundings,
    at: Pos,
    generics: &Vec<Generic<Parsed>>,
    header: &Signature<Parsed>,
    body: &Block<Parsed>,
    stop: Pos,
) -> Result<Block<Noted>, Refused>
    ensures { Judges (views.block noted) result (programs.note_body (outside_seen outside.now) at
        (map (views.constrained parsed) generics.now.items) (views.header parsed header.now)
        (views.block parsed body.now) stop) }
{
    match body_scope(alloc, outside, generics, header) {
        Ok(mut scope) => note_inside(alloc, &mut scope, body, stop),
        Err(fault) => Err(refused_at(at, fault)),
    }
}
