//! Writes the text of lives.

ghost use Rattle.std.specs.Prelude.{◌≡◌, Err, IfOk, OnOk, List, ℕ};
ghost use Rattle.au_base.specs.Outside.{Adds, AddsFront, HasRisen};
ghost use Rattle.au_explain.specs.Lines as spec;

use crate::faults::PrintFault;
use crate::lines::add_functions;
use crate::lists::Lives;
use au_base::{Memory, Sink, put_all};
use std::alloc::Global;

/// The text of the lives of a program.
fn life_text(alloc: Global, lives: &Lives) -> Result<Vec<u8>, Memory>
    ensures { IfOk result (λ text. text.items ≡ spec.life_text lives.now) }
{
    let mut text = Vec::new(alloc);
    add_functions(&mut text, lives.functions.as_slice())?;
    Ok(text)
}

/// Writes the text of the lives of a program.
///
/// # Errors
///
/// `PrintFault::Write` where the sink failed: a front of the text stands there. `PrintFault::Memory` where no
/// memory was found: nothing was written.
pub fn explain<O: Sink>(alloc: Global, lives: &Lives, out: &mut O) -> Result<(), PrintFault>
    ensures written { OnOk result (Adds (O.written out.old) (O.written out.new) (spec.life_text lives.now)) }
    ensures quiet { OnOk result (O.faults out.new ≡ O.faults out.old) }
    ensures front { result ≡ Err PrintFault.Write
        → AddsFront (O.written out.old) (O.written out.new) (spec.life_text lives.now) }
    ensures risen { result ≡ Err PrintFault.Write → HasRisen (O.faults out.old) (O.faults out.new) }
    ensures memory { result ≡ Err PrintFault.Memory
        → (O.written out.new ≡ O.written out.old) × (O.faults out.new ≡ O.faults out.old) }
{
    let text = life_text(alloc, lives)?;
    put_all(out, text.as_slice())?;
    Ok(())
}
