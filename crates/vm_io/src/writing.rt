ghost use Rattle.std.specs.Prelude.{◌≡◌, ◌≤◌, OnOk, OnErr};
ghost use Rattle.vm_io.specs.Bytes.{WasAppended, PartAppended};
ghost use Rattle.vm_io.specs.Faults.{Rose};

use crate::{Failed, Sink};
use thiserror::Error;

/// The answer where a sink failed before all bytes had gone out.
#[derive(Clone, Copy, Debug, PartialEq, Eq, Error)]
#[error("the sink failed")]
pub struct WriteFault;

impl From<Failed> for WriteFault {
    fn from(_failed: Failed) -> WriteFault {
        WriteFault
    }
}

/// Writes all bytes, in order, and stops at the first fault. It takes no memory, and ends at every
/// sink, since each write that doesn't fail takes at least one byte.
#[tactic(auto, using(crate::proofs::BytesLemmas::followed_by_twice, crate::proofs::BytesLemmas::take_add_rest))]
pub fn write_all<K: Sink>(sink: &mut K, bytes: &[u8]) -> Result<(), WriteFault>
    ensures all { OnOk result (WasAppended (K.held sink.old) (K.held sink.new) bytes.now) }
    ensures part { OnErr result (PartAppended (K.held sink.old) (K.held sink.new) bytes.now) }
    // No write failed before all bytes had gone out: so none is tried again.
    ensures well { OnOk result (K.faults sink.new ≡ K.faults sink.old) }
    ensures fault { OnErr result (Rose (K.faults sink.old) (K.faults sink.new)) }
    ensures count { K.faults sink.old ≤ K.faults sink.new }
{
    let mut written = 0;
    'pieces: while written < bytes.len() {
        written += sink.write(&bytes[written..])?;
    }
    Ok(())
}
