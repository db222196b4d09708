//! Jumps to ends that are found later.

ghost use Rattle.std.specs.Prelude.{◌≡◌, ◌||◌, OnOk, length, not};
ghost use Rattle.au_low.specs.declared.instructions.Instr.TheVariants.{Jump};
ghost use Rattle.au_lowered.specs.Drafts.{unless};
ghost use Rattle.au_lowering_expressions.specs.Views.{drafts_said};
ghost use Rattle.au_lowering_expressions.specs.Wrote.{wrote};
ghost use Rattle.au_lowering_statements.specs.Ends.{Holed, with_jumps};

use au_base::Memory;
use au_low::Instr;
use au_lowering_expressions::{Draft, end_jump, put};

/// Writes an instruction, unless what stands before it returns on every path.
///
/// # Errors
///
/// Only for want of memory.
pub fn put_unless(out: &mut Vec<Draft>, returns: bool, instr: Instr) -> Result<(), Memory>
    ensures { OnOk result (drafts_said out.new.items
        ≡ wrote (unless returns instr) (drafts_said out.old.items)) }
{
    if returns {
        return Ok(());
    }
    put(out, instr)?;
    Ok(())
}

/// Lets the jumps at these places go to the next instruction.
///
/// # Errors
///
/// `Memory` where its place has more than 32 bits.
#[tactic(auto, using(crate::proofs::JumpLemmas::jumps_more, std::proofs::lemmas::Grind::common_steps))]
pub fn end_jumps(out: &mut Vec<Draft>, jumps: &Vec<usize>) -> Result<(), Memory>
    ensures { OnOk result (drafts_said out.new.items
        ≡ with_jumps (length (drafts_said out.old.items)) jumps.now.items (drafts_said out.old.items)) }
{
    for at in jumps {
        end_jump(out, *at)?;
    }
    Ok(())
}

/// Writes a jump to an end that is found later, unless it isn't needed, and keeps its place.
///
/// # Errors
///
/// Only for want of memory.
pub fn put_end(out: &mut Vec<Draft>, jumps: &mut Vec<usize>, unneeded: bool) -> Result<(), Memory>
    ensures { OnOk result (Holed (λ m. unless unneeded (Jump m)) jumps.old.items (drafts_said out.old.items)
        jumps.new.items (drafts_said out.new.items)) }
{
    if unneeded {
        return Ok(());
    }
    jumps.push(out.len())?;
    put(out, Instr::Jump(0))?;
    Ok(())
}

/// Whether one of two things holds.
pub fn either(one: bool, other: bool) -> bool
    ensures { result ≡ (one || other) }
{
    one || other
}

/// Whether no jump is needed behind a branch: it returns on every path, or nothing follows it.
pub fn is_last(returns: bool, followed: bool) -> bool
    ensures { result ≡ (returns || not followed) }
{
    returns || !followed
}
