//! Lowering a closed program.

ghost use Rattle.std.specs.Prelude.{◌≡◌, IfOk, map};
ghost use Rattle.au_closed_programs.specs.Views.{program_said};
ghost use Rattle.au_lowering.specs.Answers.{TellsLimit};
ghost use Rattle.au_lowering.specs.Closed.{code_of, functions_of, is_too_long};
ghost use Rattle.au_lowering.specs.Drafted.{drafted};
ghost use Rattle.au_lowering.specs.DraftViews.{all_said};

use crate::coding::lower_drafted;
use crate::drafting::draft_functions;
use crate::faults::LowerFault;
use crate::functions::Drafted;
use crate::placing::place_rows;
use au_base::Memory;
use au_closed_programs::ClosedProgram;
use au_low::Code;
use std::alloc::Global;

/// The drafts of the functions of a closed program.
#[tactic(auto, using(crate::proofs::DraftLemmas::all_drafted))]
fn drafts_of(alloc: Global, program: &ClosedProgram) -> Result<Vec<Drafted>, Memory>
    ensures { IfOk result (λ made.
        all_said made.items ≡ map drafted (functions_of (program_said program.now))) }
{
    let rows = place_rows(alloc, &program.types)?;
    draft_functions(alloc, &program.functions, &rows)
}

/// The code that a closed program is lowered to.
///
/// # Errors
///
/// `Limit` exactly where it has more instructions than a program may have, unless memory runs out; `Memory`
/// when memory runs out. It is also what is answered where a number, a place or a slot has more than 32 bits.
pub fn lower(alloc: Global, program: &ClosedProgram) -> Result<Code, LowerFault>
    ensures code { IfOk result (λ code. code ≡ code_of (program_said program.now)) }
    ensures limit { TellsLimit result (is_too_long (program_said program.now)) }
{
    match drafts_of(alloc, program) {
        Err(_) => Err(LowerFault::Memory),
        Ok(all) => lower_drafted(alloc, program, all),
    }
}
