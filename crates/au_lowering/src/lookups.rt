//! What is looked up round a tree of a closed program.

ghost use Rattle.std.specs.Prelude.{◌≡◌, IfOk, Some, map, slice_get};
ghost use Rattle.std.specs.Option.{option_copied, option_map};
ghost use Rattle.au_closed_programs.specs.FunctionViews.{function_said, functions_said};
ghost use Rattle.au_type_texts.specs.Views.{closed_meaning};
ghost use Rattle.au_closed_meanings.specs.Programs.{Body, fields_at, row_in};
ghost use Rattle.au_closed_meanings.specs.Shipped as shipped;
ghost use Rattle.au_closed_meanings.specs.Surroundings.{field_names, with_parameters};
ghost use Rattle.au_closed_meanings.specs.Views.{called_said};
ghost use Rattle.au_effects.specs.Parts.{along};
ghost use Rattle.au_lowering.specs.Views.{case_in, rows_held};
ghost use Rattle.au_lowering.specs.Closed.{body_seen};
ghost use Rattle.au_meaning.specs.Views.{invokes, makes, ships};

use crate::placing::{PlacedRows, find_row};
use crate::rows::{case_at, count_of, field_in as field_of_case, names_of, tag_in};
use crate::seen::SeenCase;
use au_base::{Memory, Name};
use au_closed_meanings::{Act, Called, Found, Lookup, born, shipped_parameters};
use au_closed_programs::ClosedFunction;
use au_closed_trees::{Callee, ClosedNote};
use au_shipped::ShippedCall;
use au_type_texts::{Closed, copy_closed};
use std::alloc::Global;

/// What is round a tree that stands in the text of a module: the functions and the types of the program.
#[derive(Clone, Copy)]
pub struct Round<'a> {
    /// The functions by their numbers.
    pub functions: &'a Vec<ClosedFunction>,
    /// The rows of types.
    pub rows: &'a PlacedRows<'a>,
    /// The name of the module.
    pub home: &'a Name,
}

/// The function at a place.
fn function_at(functions: &Vec<ClosedFunction>, place: u32) -> Option<&ClosedFunction>
    ensures { option_copied result ≡ slice_get functions.now.items place }
{
    functions.get(place as usize)
}

/// The function of a number.
fn find_function(functions: &Vec<ClosedFunction>, number: u32) -> Option<&ClosedFunction>
    ensures { option_map (λ f. body_seen (function_said f)) (option_copied result)
        ≡ slice_get (map body_seen (functions_said functions.now.items)) number }
{
    function_at(functions, number)
}

/// What a call of the function of a number does.
fn invoked(
    alloc: Global,
    functions: &Vec<ClosedFunction>,
    number: u32,
) -> Result<Option<Called>, Memory>
    ensures { IfOk result (λ made. option_map called_said made
        ≡ with_parameters (option_map (λ (f : Body). field_names f.parameters)
        (slice_get (map body_seen (functions_said functions.now.items)) number)) (invokes number)) }
{
    match find_function(functions, number) {
        None => Ok(None),
        Some(function) => {
            let parameters = names_of(alloc, &function.parameters)?;
            Ok(Some(Called {
                parameters,
                act: Act::Invokes(number),
            }))
        }
    }
}

/// The case of a number of a type.
fn find_case<'r, 'a>(rows: &'r PlacedRows<'a>, of: &Closed, tag: u32) -> Option<&'r SeenCase<'a>>
    ensures { option_map (λ one. (case_in one).fields) (option_copied result)
        ≡ along (row_in (rows_held rows.now.rows.items) (closed_meaning of.now))
        (λ row. fields_at tag row.cases) }
{
    match find_row(rows, of) {
        None => None,
        Some(row) => case_at(row, tag),
    }
}

/// What a call of a constructor does that makes the case of a number of a type.
fn made(
    alloc: Global,
    rows: &PlacedRows<'_>,
    home: &Name,
    of: &Closed,
    tag: u32,
) -> Result<Option<Called>, Memory>
    ensures { IfOk result (λ made. option_map called_said made
        ≡ with_parameters (option_map field_names
        (along (row_in (rows_held rows.now.rows.items) (closed_meaning of.now))
        (λ row. fields_at tag row.cases)))
        (makes (closed_meaning of.now) tag home.now)) }
{
    match find_case(rows, of, tag) {
        None => Ok(None),
        Some(case) => {
            let parameters = names_of(alloc, &case.case.fields)?;
            let of = copy_closed(alloc, of)?;
            let home = home.copy(alloc)?;
            Ok(Some(Called {
                parameters,
                act: Act::Makes { of, tag, home },
            }))
        }
    }
}

/// What a shipped call does that gives a value of a type.
fn shipped_called(alloc: Global, call: ShippedCall, of: &Closed) -> Result<Option<Called>, Memory>
    ensures { IfOk result (λ made. option_map called_said made
        ≡ with_parameters (Some (shipped.shipped_parameters call))
        (ships call (shipped.born call (closed_meaning of.now)))) }
{
    let parameters = shipped_parameters(alloc, call)?;
    let born = born(alloc, call, of)?;
    Ok(Some(Called {
        parameters,
        act: Act::Ships(call, born),
    }))
}

impl<'a> Lookup for Round<'a> {
    ghost use Rattle.std.specs.Prelude.{map};
    ghost use Rattle.au_closed_programs.specs.FunctionViews.{functions_said};
    ghost use Rattle.au_closed_meanings.specs.Programs.{surroundings};
    ghost use Rattle.au_lowering.specs.Views.{rows_held};
    ghost use Rattle.au_lowering.specs.Closed.{body_seen};

    ghost round = { λ r. surroundings (map body_seen (functions_said r.functions.now.items))
        (rows_held r.rows.now.rows.items) r.home.now };

    fn called(
        &self,
        alloc: Global,
        note: &ClosedNote,
        callee: &Callee,
    ) -> Result<Option<Called>, Memory> {
        match callee {
            Callee::Instance(number) => invoked(alloc, self.functions, *number),
            Callee::Constructor { of, tag } => made(alloc, self.rows, self.home, of, *tag),
            Callee::Shipped(call) => shipped_called(alloc, *call, &note.of),
        }
    }

    fn tag(&self, of: &Closed, name: &Name) -> Option<u32> {
        match find_row(self.rows, of) {
            None => None,
            Some(row) => tag_in(row, name),
        }
    }

    fn field(&self, of: &Closed, tag: u32, name: &Name) -> Option<Found<'_>> {
        match find_case(self.rows, of, tag) {
            None => None,
            Some(case) => field_of_case(case, name),
        }
    }

    fn count(&self, of: &Closed, tag: u32) -> u32 {
        match find_case(self.rows, of, tag) {
            None => 0,
            Some(case) => count_of(case),
        }
    }
}
