ghost use Rattle.std.specs.Prelude.{◌≡◌, ◌<◌, ◌≤◌, ◌↔◌, IfOk, OnOk, IsErrOf, IsSome, vec_len};
ghost use Rattle.vm_io.specs.Bytes.{WasRead, SomeRead, NothingLeft, count_read};
ghost use Rattle.vm_io.specs.Faults.{Rose};

use crate::{Failed, Source};
use std::alloc::{AllocError, Global};
use thiserror::Error;

/// How many bytes are asked of a source at once.
const PIECE: usize = 4096;

/// Why a source was not read to its end.
#[derive(Clone, Copy, Debug, PartialEq, Eq, Error)]
pub enum ReadError {
    /// The source failed.
    #[error("the source failed")]
    ReadFault,
    /// More bytes came than the limit allows.
    #[error("too many bytes came")]
    TooLong,
    /// There was no memory for the bytes.
    #[error("out of memory")]
    Memory,
}

impl From<Failed> for ReadError {
    ghost use Rattle.vm_io.specs.declared.reading.ReadError.TheVariants.{ReadFault};

    ghost from_gives = { λ _ e. e ≡ ReadFault };

    fn from(_failed: Failed) -> ReadError {
        ReadError::ReadFault
    }
}

impl From<AllocError> for ReadError {
    ghost use Rattle.vm_io.specs.declared.reading.ReadError.TheVariants.{Memory};

    ghost from_gives = { λ _ e. e ≡ Memory };

    fn from(_refused: AllocError) -> ReadError {
        ReadError::Memory
    }
}

/// All bytes that the source has left, up to its end of input, where they are at most `limit`.
///
/// It ends at every source: each read but the last gives at least one byte, so there are at most
/// `limit + 1` reads. What was read before an error is gone from the source.
pub fn read_all<S: Source>(alloc: Global, src: &mut S, limit: usize) -> Result<Vec<u8>, ReadError>
    ensures all { IfOk result (λ bytes. WasRead (S.left src.old) (S.left src.new) bytes.items) }
    ensures end { OnOk result (NothingLeft (S.left src.new)) }
    ensures within { IfOk result (λ bytes. vec_len bytes ≤ limit) }

    // TooLong comes exactly where more than `limit` bytes came, ReadFault only where the faults
    // rose.
    ensures too_long { IsSome (S.left src.old) →
        (IsErrOf result ReadError.TooLong ↔ (limit < count_read (S.left src.old)
        (S.left src.new))) }
    ensures fault { IsErrOf result ReadError.ReadFault →
        Rose (S.faults src.old) (S.faults src.new) }
    // No read failed before any other answer: so none is tried again.
    ensures well { ¬ (IsErrOf result ReadError.ReadFault) → S.faults src.new ≡ S.faults src.old }

    // Whatever the answer.
    ensures rest { SomeRead (S.left src.old) (S.left src.new) }
    ensures count { S.faults src.old ≤ S.faults src.new }
{
    let mut bytes = Vec::new(alloc);
    let mut piece = [0u8; PIECE];
    'pieces: loop {
        let count = src.read(&mut piece)?;
        if count == 0 {
            return Ok(bytes);
        }
        if count > limit - bytes.len() {
            return Err(ReadError::TooLong);
        }
        bytes.extend_from_slice(&piece[..count])?;
    }
}
