//! Instructions as they are written first.

ghost use Rattle.std.specs.Prelude.{◌≡◌, IfOk, OnOk, length, set};
ghost use Rattle.au_low.specs.declared.instructions.Instr.TheVariants.{Jump, JumpNot};
ghost use Rattle.au_lowered.specs.Drafts.{does, one, plain};
ghost use Rattle.au_lowering_expressions.specs.Views.{draft_said, drafts_said};
ghost use Rattle.au_lowering_expressions.specs.Wrote.{wrote};

use au_base::{Memory, Name, Sequence, Text};
use au_low::Instr;
use au_shipped::ShippedCall;
use au_type_texts::Closed;

/// An instruction as it is written first: texts and types stand for themselves.
#[derive(Drop)]
pub enum Draft {
    /// One that names no text and no type.
    Plain(Instr),
    /// Pushes a text.
    Text(Text),
    /// Makes a value of a case of a type.
    Make {
        /// The type.
        of: Closed,
        /// The number of the case.
        tag: u32,
        /// For each field the number of its argument.
        order: Sequence<u32>,
        /// The name of the module in whose text this stands.
        home: Name,
    },
    /// A shipped call in which a value is born.
    Birth {
        /// The call.
        call: ShippedCall,
        /// The type of the value.
        of: Closed,
        /// For each parameter the number of its argument, where they don't stand in declared order.
        order: Sequence<u32>,
    },
}

/// Writes an instruction that names no text and no type.
///
/// # Errors
///
/// Only for want of memory.
pub fn put(out: &mut Vec<Draft>, instr: Instr) -> Result<(), Memory>
    ensures { OnOk result (drafts_said out.new.items ≡ wrote (does instr) (drafts_said out.old.items)) }
{
    out.push(Draft::Plain(instr))?;
    Ok(())
}

/// Writes an instruction.
///
/// # Errors
///
/// Only for want of memory.
pub fn put_draft(out: &mut Vec<Draft>, draft: Draft) -> Result<(), Memory>
    ensures { OnOk result (drafts_said out.new.items
        ≡ wrote (one (draft_said draft)) (drafts_said out.old.items)) }
{
    out.push(draft)?;
    Ok(())
}

/// Puts an instruction into a place, if it is one of those that were written.
pub fn patch(out: &mut Vec<Draft>, at: usize, instr: Instr)
    ensures { drafts_said out.new.items ≡ set (drafts_said out.old.items) at (plain instr) }
{
    if at < out.len() {
        out[at] = Draft::Plain(instr);
    }
}

/// The place of the next instruction.
///
/// # Errors
///
/// `Memory` where it has more than 32 bits.
pub fn here(out: &Vec<Draft>) -> Result<u32, Memory>
    ensures { IfOk result (λ place. place ≡ length (drafts_said out.now.items)) }
{
    let place = out.len();
    if place > u32::MAX as usize {
        return Err(Memory);
    }
    Ok(place as u32)
}

/// Lets the test at a place go to the next instruction where it is false.
///
/// # Errors
///
/// Only for want of memory.
pub fn end_test(out: &mut Vec<Draft>, at: usize) -> Result<(), Memory>
    ensures { OnOk result (drafts_said out.new.items
        ≡ set (drafts_said out.old.items) at (plain (JumpNot (length (drafts_said out.old.items))))) }
{
    let label = here(out)?;
    patch(out, at, Instr::JumpNot(label));
    Ok(())
}

/// Lets the jump at a place go to the next instruction.
///
/// # Errors
///
/// Only for want of memory.
pub fn end_jump(out: &mut Vec<Draft>, at: usize) -> Result<(), Memory>
    ensures { OnOk result (drafts_said out.new.items
        ≡ set (drafts_said out.old.items) at (plain (Jump (length (drafts_said out.old.items))))) }
{
    let label = here(out)?;
    patch(out, at, Instr::Jump(label));
    Ok(())
}
