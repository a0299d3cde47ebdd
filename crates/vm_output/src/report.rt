//! The text of a run.

ghost use Rattle.std.specs.Prelude.{◌≡◌, IfOk};
ghost use Rattle.vm_guest.specs.Guest.{IsDone};
ghost use Rattle.vm_guest.specs.Orderly.{IsDriver};
ghost use Rattle.vm_report.specs.Printed.{IsPrintedWith};
ghost use Rattle.vm_script.specs.Reading.{IsReadScript};
ghost use Rattle.vm_output.specs.Printing.{logs_of_run, words_of};

use crate::lent::{lend_handles, words_of};
use std::alloc::Global;
use vm_guest::Guest;
use vm_mem::Memory;
use vm_region::RegionEntry;
use vm_report::{LogsText, print, wire_digest};
use vm_script::Script;

/// The text of a script's run that is done: the logs of the driver's handles, the region's journal,
/// and the digest of what crossed. No script that is read has a raw line yet.
///
/// # Errors
/// `Memory` where there is none for the text.
pub fn text_of_run(
    alloc: Global,
    script: &Script,
    guest: &Guest,
    journal: &[RegionEntry],
) -> Result<Vec<u8>, Memory>
    requires read { IsReadScript script.now }
    requires driver { IsDriver script.now guest.now }
    requires done { IsDone guest.now }
    ensures { IfOk result (λ text. IsPrintedWith (words_of script.now) text.items
        (logs_of_run script.now guest.now journal.now)) }
{
    let words = words_of(alloc, script)?;
    let handles = lend_handles(alloc, script, guest, &words)?;
    let wire = wire_digest(alloc, script.model, &handles)?;
    print(
        alloc,
        &LogsText {
            handles: &handles,
            raws: &[],
            journal,
            wire: &wire,
        },
    )
}
