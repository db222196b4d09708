//! The lives of the variables of a program.

ghost use Rattle.std.specs.Prelude.{◌≡◌, ◌++◌, ◌<◌, IfOk, OnOk, length};
ghost use Rattle.au_classes.specs.Rows.{rows_of};
ghost use Rattle.au_formed.specs.Said.{spot_said, spots_said};
ghost use Rattle.au_formed.specs.Text as texts;
ghost use Rattle.au_explain.specs.Programs as spec;
ghost use Rattle.au_modules.specs.Slots as slots;

use crate::functions::push_declaration;
use crate::{FunctionLives, Lives};
use au_base::{Memory, Sequence};
use au_formed::{Spot, all_declarations};
use au_imports::Resolved;
use au_instances::Instances;
use au_noting_programs::NotedProgram;
use au_noting_programs::sights::sight;
use std::alloc::Global;

/// Puts the lives of a declaration of a program.
fn push_spot(
    alloc: Global,
    resolved: &Resolved,
    instances: &Instances,
    spot: &Spot,
    made: &mut Vec<FunctionLives>,
) -> Result<(), Memory>
    requires place { spot.now.at.«module» < length (slots.modules resolved.now) }
    requires instances { instances.now ≡ rows_of (slots.modules resolved.now) }
    ensures { OnOk result (made.new.items
        ≡ made.old.items ++ spec.spot_lives (slots.modules resolved.now) (spot_said spot.now)) }
{
    let place = spot.at.module as usize;
    let outside = sight(resolved, instances, place, spot.part);
    push_declaration(
        alloc,
        &outside,
        resolved.modules().name(place),
        spot.decl,
        made,
    )
}

/// Puts the lives of declarations of a program, which are all.
fn push_spots(
    alloc: Global,
    resolved: &Resolved,
    instances: &Instances,
    all: &Vec<Spot>,
    made: &mut Vec<FunctionLives>,
) -> Result<(), Memory>
    requires all { spots_said all.now.items ≡ texts.text (slots.modules resolved.now) }
    requires instances { instances.now ≡ rows_of (slots.modules resolved.now) }
    ensures { OnOk result (made.new.items
        ≡ made.old.items ++ spec.functions_of (slots.modules resolved.now)) }
{
    for one in all {
        push_spot(alloc, resolved, instances, one, made)?;
    }
    Ok(())
}

/// The functions and methods of a program with the lives of their variables.
fn functions_of(
    alloc: Global,
    resolved: &Resolved,
    instances: &Instances,
) -> Result<Vec<FunctionLives>, Memory>
    requires { instances.now ≡ rows_of (slots.modules resolved.now) }
    ensures { IfOk result (λ made. made.items ≡ spec.functions_of (slots.modules resolved.now)) }
{
    let all = all_declarations(alloc, resolved.modules())?;
    let mut made = Vec::new(alloc);
    push_spots(alloc, resolved, instances, &all, &mut made)?;
    Ok(made)
}

/// The lives of the variables of a program: of each function and method with a body, modules by their places
/// and each in the order of the text, the variables whose types aren't Free, in the order in which they are
/// declared, and of each where it is mentioned, in the order of the text.
///
/// A variable whose type isn't Free is gone through once, over its own scope.
///
/// # Errors
///
/// Only for want of memory.
pub fn lives_of(alloc: Global, noted: &NotedProgram) -> Result<Lives, Memory>
    ensures { IfOk result (λ lives. lives ≡ spec.program_lives (slots.modules noted.now)) }
{
    let functions = functions_of(alloc, noted.program(), &noted.classes().instances)?;
    Ok(Lives {
        functions: Sequence::from_vec(functions),
    })
}
