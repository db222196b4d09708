//! Writes the layout of a file.

ghost use Rattle.std.specs.Prelude.{◌≡◌, Err, OnOk, List, ℕ};
ghost use Rattle.au_base.specs.Outside.{Adds, AddsFront, HasRisen};
ghost use Rattle.au_lexer.specs.Cut.{Cut};
ghost use Rattle.au_format.specs.Layout.{IsLayout};

use crate::faults::FormatFault;
use crate::laying::lay_out;
use au_base::{Sink, Token, put_all};
use std::alloc::Global;

/// Writes the layout of a file, whose number is `file` and whose tokens are these.
///
/// # Errors
///
/// `FormatFault::Write` where the sink failed: a front of the layout stands there. `FormatFault::Memory`
/// where no memory was found: nothing was written.
pub fn layout<O: Sink>(
    alloc: Global,
    file: u16,
    bytes: &[u8],
    tokens: &[Token],
    out: &mut O,
) -> Result<(), FormatFault>
    requires { Cut file bytes.now tokens.now }
    ensures written { (text : List ℕ) → IsLayout bytes.now text
        → OnOk result (Adds (O.written out.old) (O.written out.new) text) }
    ensures quiet { OnOk result (O.faults out.new ≡ O.faults out.old) }
    ensures front { (text : List ℕ) → IsLayout bytes.now text → result ≡ Err FormatFault.Write
        → AddsFront (O.written out.old) (O.written out.new) text }
    ensures risen { result ≡ Err FormatFault.Write → HasRisen (O.faults out.old) (O.faults out.new) }
    ensures memory { result ≡ Err FormatFault.Memory
        → (O.written out.new ≡ O.written out.old) × (O.faults out.new ≡ O.faults out.old) }
{
    let text = lay_out(alloc, file, bytes, tokens)?;
    put_all(out, text.as_slice())?;
    Ok(())
}
