//! The code of functions, with texts and types that stand for themselves.

ghost use Rattle.std.specs.Prelude.{◌≡◌, IfOk, OnOk, Some, length, map};
ghost use Rattle.au_closed_programs.specs.FunctionViews.{function_said, functions_said};
ghost use Rattle.au_closed_trees.specs.Views.{fields_said};
ghost use Rattle.au_closed_trees.specs.contracts.phase.ClosedTreesPhase.TheImpl.{ghosts as closed};
ghost use Rattle.au_type_texts.specs.Views.{closed_meaning};
ghost use Rattle.au_closed_meanings.specs.Surroundings.{view_in};
ghost use Rattle.au_lowered.specs.Statements as statements;
ghost use Rattle.au_lowering.specs.Drafts.{drafted_from};
ghost use Rattle.au_lowering.specs.Views.{rows_held};
ghost use Rattle.au_lowering_statements.specs.LoweringExpressions.Views.{drafts_said, scope_said};
ghost use Rattle.au_lowering.specs.Closed.{body_seen, fields_seen};
ghost use Rattle.au_lowering.specs.DraftViews.{all_said, drafted_said};
ghost use Rattle.au_meaning.specs.Names.{with_name, with_parameters};
ghost use Rattle.au_syntax.specs.Views.{block};

use crate::functions::Drafted;
use crate::lookups::Round;
use crate::placing::PlacedRows;
use au_base::Memory;
use au_closed_meanings::Lookup;
use au_closed_programs::ClosedFunction;
use au_closed_trees::{ClosedField, ClosedTrees};
use au_lowering_statements::{Draft, Locals, Writer, declare, further, room_of_block, write_block};
use au_syntax::Block;
use au_type_texts::copy_closed;
use std::alloc::Global;

/// Declares a parameter in a slot.
fn declare_parameter(
    alloc: Global,
    scope: &mut Locals,
    slot: u32,
    one: &ClosedField,
) -> Result<(), Memory>
    ensures { OnOk result (scope_said scope.new
        ≡ with_name one.now.name slot (Some (closed_meaning one.now.of)) (scope_said scope.old)) }
{
    let of = copy_closed(alloc, &one.of)?;
    declare(alloc, scope, &one.name, slot, Some(of))
}

/// Declares parameters, which have the first slots, and answers how many there are.
fn declare_parameters(
    alloc: Global,
    scope: &mut Locals,
    parameters: &Vec<ClosedField>,
) -> Result<u32, Memory>
    ensures count { IfOk result (λ count. count ≡ length parameters.now.items) }
    ensures said { OnOk result (scope_said scope.new
        ≡ with_parameters 0 (fields_seen (fields_said parameters.now.items)) (scope_said scope.old)) }
{
    let mut slot = 0;
    for one in parameters {
        declare_parameter(alloc, scope, slot, one)?;
        slot = further(slot, 1)?;
    }
    Ok(slot)
}

/// The instructions of a block, where so many slots are in use.
#[tactic(auto, using(crate::proofs::DraftLemmas::first_wrote))]
fn body_of<R: Lookup>(
    alloc: Global,
    lookup: &R,
    params: u32,
    scope: &mut Locals,
    of: &Block<ClosedTrees>,
) -> Result<Vec<Draft>, Memory>
    ensures { IfOk result (λ made. drafts_said made.items
        ≡ statements.block (view_in (R.round lookup.now)) 0 params (scope_said scope.old)
        (block closed of.now) 0) }
{
    let mut out = Vec::new(alloc);
    let by = Writer {
        alloc,
        lookup,
        around: 0,
        slot: params,
    };
    write_block(&by, scope, of, &mut out)?;
    Ok(out)
}

/// The code of a function.
fn draft_function(
    alloc: Global,
    functions: &Vec<ClosedFunction>,
    rows: &PlacedRows<'_>,
    one: &ClosedFunction,
) -> Result<Drafted, Memory>
    ensures { IfOk result (λ made. drafted_said made
        ≡ drafted_from (map body_seen (functions_said functions.now.items)) (rows_held rows.now.rows.items)
        (body_seen (function_said one.now))) }
{
    let lookup = Round {
        functions,
        rows,
        home: &one.home,
    };
    let mut scope = Locals::new(alloc);
    let params = declare_parameters(alloc, &mut scope, &one.parameters)?;
    let slots = room_of_block(&lookup, params, &one.body)?;
    let drafts = body_of(alloc, &lookup, params, &mut scope, &one.body)?;
    Ok(Drafted {
        params,
        slots,
        drafts,
    })
}

/// The code of the functions of a program.
///
/// # Errors
///
/// Only for want of memory. It is also what is answered where a place or a slot has more than 32 bits.
pub fn draft_functions(
    alloc: Global,
    functions: &Vec<ClosedFunction>,
    rows: &PlacedRows<'_>,
) -> Result<Vec<Drafted>, Memory>
    ensures { IfOk result (λ made. all_said made.items
        ≡ map (drafted_from (map body_seen (functions_said functions.now.items))
        (rows_held rows.now.rows.items))
        (map body_seen (functions_said functions.now.items))) }
{
    let mut made = Vec::new(alloc);
    for one in functions {
        let drafted = draft_function(alloc, functions, rows, one)?;
        made.push(drafted)?;
    }
    Ok(made)
}
