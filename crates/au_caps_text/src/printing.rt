//! Writes the text of reports.

ghost use Rattle.std.specs.Prelude.{◌≡◌, Err, IfOk, OnOk};
ghost use Rattle.au_base.specs.Outside.{Adds, AddsFront, HasRisen};
ghost use Rattle.au_caps_text.specs.Lines as spec;

use crate::faults::CapsFault;
use crate::lines::add_rows;
use crate::reports::Report;
use au_base::{Memory, Sink, put_all};
use std::alloc::Global;

/// The text of a report.
fn report_text(alloc: Global, report: &Report) -> Result<Vec<u8>, Memory>
    ensures { IfOk result (λ text. text.items ≡ spec.report_text report.now) }
{
    let mut text = Vec::new(alloc);
    add_rows(&mut text, report.rows.as_slice())?;
    Ok(text)
}

/// Writes the text of a report: of each function and method its name, and then a line each of what it can
/// make, hold and hand on, a word and the entries with a blank before each.
///
/// # Errors
///
/// `CapsFault::Write` where the sink failed: a front of the text stands there. `CapsFault::Memory` where no
/// memory was found: nothing was written.
pub fn print_report<O: Sink>(alloc: Global, report: &Report, out: &mut O) -> Result<(), CapsFault>
    ensures written { OnOk result
        (Adds (O.written out.old) (O.written out.new) (spec.report_text report.now)) }
    ensures quiet { OnOk result (O.faults out.new ≡ O.faults out.old) }
    ensures front { result ≡ Err CapsFault.Write
        → AddsFront (O.written out.old) (O.written out.new) (spec.report_text report.now) }
    ensures risen { result ≡ Err CapsFault.Write → HasRisen (O.faults out.old) (O.faults out.new) }
    ensures memory { result ≡ Err CapsFault.Memory
        → (O.written out.new ≡ O.written out.old) × (O.faults out.new ≡ O.faults out.old) }
{
    let text = report_text(alloc, report)?;
    put_all(out, text.as_slice())?;
    Ok(())
}
