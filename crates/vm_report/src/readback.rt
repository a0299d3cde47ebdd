//! Reads a printed text back.

ghost use Rattle.std.specs.Prelude.{◌≡◌, IfOk, IsErrOf};
ghost use Rattle.vm_report.specs.Logs.{Logs as Told};
ghost use Rattle.vm_report.specs.Printed.{IsPrinted};
ghost use Rattle.vm_report.specs.Reading.{Gives, nothing, finished, read};
ghost use Rattle.vm_report.specs.declared.errors.LogsError.TheVariants.{NotPrinted as Nowhere};

use crate::draft::{Draft, Place};
use crate::errors::LogsError;
use crate::lines::add_line;
use crate::logs::Logs;
use std::alloc::Global;

const NEWLINE: u8 = b'\n';

/// Nothing was read.
fn nothing(alloc: Global) -> Draft
    ensures { result ≡ nothing }
{
    Draft {
        logs: Logs {
            handles: Vec::new(alloc),
            raws: Vec::new(alloc),
            journal: Vec::new(alloc),
            wire: [0; 32],
        },
        place: Place::Opening,
    }
}

/// The logs, where the text is at its end.
fn finish(draft: Draft) -> Result<Logs, LogsError>
    ensures { Gives (finished draft) result }
{
    let Draft { logs, place } = draft;
    match place {
        Place::End => Ok(logs),
        _ => Err(LogsError::NotPrinted),
    }
}

/// The logs that the lines of a text tell.
fn read(alloc: Global, text: &[u8]) -> Result<Logs, LogsError>
    ensures { Gives (read text.now) result }
{
    let mut draft = nothing(alloc);
    for line in text.split(|byte| *byte == NEWLINE) {
        draft = add_line(alloc, draft, line)?;
    }
    finish(draft)
}

/// Reads a printed text back: the logs that print as it. There are none other that do.
///
/// With this a run can be judged by its text alone, whoever printed it. Take a new
/// `vm_local::Local` of the run's model for each handle, and give it the handle's `entries` one
/// after the other by `vm_local::local_step`: the log is legal where each answers true. A handle's
/// calls stand in it with the numbers of the script's lines that asked them, so they can be held
/// against the script. `raws` are the raw lines with the errors that refused them, `journal` is
/// what was mapped in the shared region and given back, and `wire` the SHA-256 of the bytes of all
/// commands and replies, handle by handle.
///
/// What is read is just what is printed: one space between two words, no zeros in front of a
/// number, flags and addresses in lower-case digits, each line ended by a newline. A line's words
/// read as they do in a script, and its reply is one that its call may have. Whether a log is legal
/// isn't asked here, nor whether the digest is that of the calls. The text is read once, in time
/// proportional to its length.
///
/// Source: own.
///
/// # Errors
/// `NotPrinted` exactly where no logs print as the text, `Memory` where there is none for them.
pub fn logs_of(alloc: Global, text: &[u8]) -> Result<Logs, LogsError>
    ensures printed { IfOk result (λ logs. IsPrinted text.now logs) }
    ensures not_printed { IsErrOf result Nowhere → (logs : Told) → IsPrinted text.now logs → ⊥ }
{
    read(alloc, text)
}
