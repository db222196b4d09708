//! Writing a line on `err`, and why an answer is not whole.

ghost use Rattle.std.specs.Prelude.{◌≡◌, OnOk, OnErr, IfOk, IsOkUnless};
ghost use Rattle.au_base.specs.Outside.{HasRisen, Adds, AddsFront};

use au_base::{Memory, Sink, Status, WriteFault, put_all};
use thiserror::Error;

/// The line where the shelf or the input failed.
pub const READ_FAULT_LINE: &[u8] = b"read fault\n";

/// Why what is due was not written whole.
#[derive(Clone, Copy, Debug, PartialEq, Eq, Error)]
pub enum AnswerFault {
    /// A sink failed.
    #[error("a sink failed")]
    Write,
    /// No memory was found.
    #[error("out of memory")]
    Memory,
}

impl From<Memory> for AnswerFault {
    ghost use Rattle.au_top.specs.declared.saying.AnswerFault.TheVariants as fault;

    ghost from_gives = { λ _ e. e ≡ fault.Memory };

    fn from(_e: Memory) -> AnswerFault {
        AnswerFault::Memory
    }
}

impl From<WriteFault> for AnswerFault {
    ghost use Rattle.au_top.specs.declared.saying.AnswerFault.TheVariants as fault;

    ghost from_gives = { λ _ e. e ≡ fault.Write };

    fn from(_e: WriteFault) -> AnswerFault {
        AnswerFault::Write
    }
}

/// Writes a line to `err`, and ends with a status.
pub fn say<E: Sink>(err: &mut E, line: &[u8], status: Status) -> Result<Status, AnswerFault>
    ensures ok { IfOk result (λ ends. ends ≡ status) }
    ensures written { OnOk result (Adds (E.written err.old) (E.written err.new) line.now) }
    ensures quiet { OnOk result (E.faults err.new ≡ E.faults err.old) }
    ensures write { IsOkUnless result AnswerFault.Write }
    ensures front { OnErr result (AddsFront (E.written err.old) (E.written err.new) line.now) }
    ensures risen { OnErr result (HasRisen (E.faults err.old) (E.faults err.new)) }
{
    put_all(err, line)?;
    Ok(status)
}
