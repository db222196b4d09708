//! Writing whole pieces to a sink.

ghost use Rattle.std.specs.Prelude.{◌≡◌, [], IsOk, OnOk, OnErr};
ghost use Rattle.au_base.specs.Outside.{HasRisen, Adds, AddsFront};

use crate::outside::{Put, Sink};
use thiserror::Error;

/// A sink failed.
#[derive(Clone, Copy, Debug, PartialEq, Eq, Error)]
#[error("a sink failed")]
pub struct WriteFault;

/// Writes all bytes, by as many calls as the sink needs, and none for no byte.
/// After a `WriteFault` some front of the bytes stands on the sink.
pub fn put_all<O: Sink>(sink: &mut O, bytes: &[u8]) -> Result<(), WriteFault>
    ensures written { OnOk result (Adds (O.written sink.old) (O.written sink.new) bytes.now) }
    ensures quiet { OnOk result (O.faults sink.new ≡ O.faults sink.old) }
    ensures front { OnErr result (AddsFront (O.written sink.old) (O.written sink.new) bytes.now) }
    ensures risen { OnErr result (HasRisen (O.faults sink.old) (O.faults sink.new)) }
    ensures nothing { bytes.now ≡ [] → IsOk result × (sink.new ≡ sink.old) }
{
    let mut done = 0;
    while done < bytes.len() {
        match sink.put(&bytes[done..]) {
            Put::Took(size) => done += size,
            Put::Failed => return Err(WriteFault),
        }
    }
    Ok(())
}
