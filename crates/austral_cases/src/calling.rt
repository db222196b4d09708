//! Makes the calls of cases, over a shelf, a source and sinks in memory.

ghost use Rattle.std.specs.Prelude.{IfOk, map};
ghost use Rattle.std.specs.String.{string_bytes};
ghost use Rattle.au_base.specs.Stored.{file_of};
ghost use Rattle.austral_cases.specs.Endings.{CanEnd};

use crate::cases::Call;
use au_base::{Memory, MemoryShelf, MemorySink, MemorySource, Status};
use au_top::austral;
use std::alloc::Global;

/// What a call left: what stands on the sinks, and the status.
#[derive(Drop)]
pub struct Ending {
    /// Standard output.
    pub out: MemorySink,
    /// Standard error.
    pub err: MemorySink,
    /// The status.
    pub status: Status,
}

/// Calls the compiler.
pub fn ending_of(alloc: Global, call: Call) -> Result<Ending, Memory>
    ensures { IfOk result (λ ending. CanEnd (map string_bytes call.words.items)
        (map file_of call.files.items) call.input.items ending.out.written ending.err.written ending.status) }
{
    let mut out = MemorySink::new(alloc, call.out_room, call.out_fails)?;
    let mut err = MemorySink::new(alloc, call.err_room, call.err_fails)?;
    let mut shelf = MemoryShelf::new(call.files, call.fetch_fails);
    let mut input = MemorySource::new(call.input, call.input_fails);
    let words = call.words.as_slice();
    let status = austral(alloc, words, &mut shelf, &mut input, &mut out, &mut err);
    Ok(Ending { out, err, status })
}
