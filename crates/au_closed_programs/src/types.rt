//! The closed declared types that occur in the functions of a closed program.

ghost use Rattle.std.specs.Prelude.{◌≡◌, [], IfOk, OnOk, true};
ghost use Rattle.std.specs.List.Sorted.{IsPermutation, IsSorted};
ghost use Rattle.au_closed_programs.specs.FunctionViews.{function_said, functions_said};
ghost use Rattle.au_closed_trees.specs.Occurring.{counts_in, occurring_in_fields};
ghost use Rattle.au_closed_trees.specs.Views.{fields_said};
ghost use Rattle.au_closed_programs.specs.Programs as spec;
ghost use Rattle.au_closed_programs.specs.Programs.{ClosesTypes};
ghost use Rattle.au_closed_programs.specs.Views.{rows_said};
ghost use Rattle.au_graphs.specs.Reached.{adds};
ghost use Rattle.au_type_texts.specs.Same.{same};
ghost use Rattle.au_modules.specs.Slots as slots;

use crate::functions::ClosedFunction;
use crate::rows::{TypeRow, row_cmp, rows_of};
use au_base::Memory;
use au_closed_trees::{ClosedField, Gathered, add_types_in_block, gather, types_reached};
use au_imports::Resolved;
use std::alloc::Global;

/// Gathers the declared types that occur in the types of parameters.
fn gather_in_parameters(
    alloc: Global,
    fields: &Vec<ClosedField>,
    found: &mut Gathered,
) -> Result<(), Memory>
    ensures { OnOk result (found.new
        ≡ adds same found.old (occurring_in_fields (counts_in true []) (fields_said fields.now.items))) }
{
    for one in fields {
        gather(alloc, &one.of, found)?;
    }
    Ok(())
}

/// Gathers the declared types that occur in a function.
#[tactic(auto, using(au_graphs::proofs::HasLemmas::adds_both))]
fn gather_in_function(
    alloc: Global,
    one: &ClosedFunction,
    found: &mut Gathered,
) -> Result<(), Memory>
    ensures { OnOk result (found.new
        ≡ adds same found.old (spec.types_in_function [] (function_said one.now))) }
{
    gather_in_parameters(alloc, &one.parameters, found)?;
    gather(alloc, &one.result, found)?;
    add_types_in_block(alloc, &one.body, found)
}

/// The declared types that occur in functions, in order.
fn types_in_functions(alloc: Global, functions: &[ClosedFunction]) -> Result<Gathered, Memory>
    ensures { IfOk result (λ found.
        found ≡ adds same [] (spec.types_in_functions [] (functions_said functions.now))) }
{
    let mut found = Gathered::new(alloc);
    for one in functions {
        gather_in_function(alloc, one, &mut found)?;
    }
    Ok(found)
}

/// Puts rows in their order.
fn sort_rows(rows: &mut Vec<TypeRow>)
    ensures permutation { IsPermutation (rows_said rows.old.items) (rows_said rows.new.items) }
    ensures ordered { IsSorted spec.row_cmp (rows_said rows.new.items) }
{
    rows.sort_unstable_by(|one, other| row_cmp(one, other));
}

/// The closed types of a program, by its closed functions.
pub(crate) fn closed_types(
    alloc: Global,
    program: &Resolved,
    functions: &[ClosedFunction],
) -> Result<Vec<TypeRow>, Memory>
    ensures { IfOk result (λ rows.
        ClosesTypes (slots.modules program.now) (functions_said functions.now) (rows_said rows.items)) }
{
    let found = types_in_functions(alloc, functions)?;
    let reached = types_reached(alloc, program, found.into_list())?;
    let mut rows = rows_of(alloc, program, reached.list())?;
    sort_rows(&mut rows);
    Ok(rows)
}
