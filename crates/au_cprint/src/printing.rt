//! Writes C text.

ghost use Rattle.std.specs.Prelude.{◌≡◌, ◌++◌, Err, IfOk, OnOk};
ghost use Rattle.au_base.specs.Outside.{Adds, AddsFront, HasRisen};
ghost use Rattle.au_cprint.specs.Programs as spec;

use crate::adding::add;
use crate::counting::COUNTING;
use crate::faults::PrintFault;
use crate::lines::add_lines;
use crate::macros::MACROS;
use crate::runtime::RUNTIME;
use au_base::{Memory, Sink, put_all};
use au_low::Code;
use std::alloc::Global;

/// Three pieces, one behind the other.
fn in_row(alloc: Global, a: &[u8], b: &[u8], c: &[u8]) -> Result<Vec<u8>, Memory>
    ensures { IfOk result (λ text. text.items ≡ a.now ++ (b.now ++ c.now)) }
{
    let mut text = Vec::new(alloc);
    add(&mut text, a)?;
    add(&mut text, b)?;
    add(&mut text, c)?;
    Ok(text)
}

/// The prelude.
#[tactic(auto, unfolding(crate::specs::Programs::prelude))]
fn opening(alloc: Global) -> Result<Vec<u8>, Memory>
    ensures { IfOk result (λ text. text.items ≡ spec.prelude) }
{
    in_row(alloc, RUNTIME, COUNTING, MACROS)
}

/// The C text of code.
#[tactic(auto, unfolding(crate::specs::Programs::c_text))]
fn text_of(alloc: Global, code: &Code) -> Result<Vec<u8>, Memory>
    ensures { IfOk result (λ text. text.items ≡ spec.c_text code.now) }
{
    let mut text = opening(alloc)?;
    add_lines(&mut text, code)?;
    Ok(text)
}

/// Writes the C text of code.
///
/// # Errors
///
/// `PrintFault::Write` where the sink failed: a front of the text stands there. `PrintFault::Memory` where no
/// memory was found: nothing was written.
pub fn print_c<O: Sink>(alloc: Global, code: &Code, out: &mut O) -> Result<(), PrintFault>
    ensures written { OnOk result (Adds (O.written out.old) (O.written out.new) (spec.c_text code.now)) }
    ensures quiet { OnOk result (O.faults out.new ≡ O.faults out.old) }
    ensures front { result ≡ Err PrintFault.Write
        → AddsFront (O.written out.old) (O.written out.new) (spec.c_text code.now) }
    ensures risen { result ≡ Err PrintFault.Write → HasRisen (O.faults out.old) (O.faults out.new) }
    ensures memory { result ≡ Err PrintFault.Memory
        → (O.written out.new ≡ O.written out.old) × (O.faults out.new ≡ O.faults out.old) }
{
    let text = text_of(alloc, code)?;
    put_all(out, text.as_slice())?;
    Ok(())
}
