//! What a script has, and what its run took. A count past 64 bits would be one of more than memory
//! holds, and is answered as want of memory.

ghost use Rattle.std.specs.Prelude.{◌≡◌, IfOk, sum_by};
ghost use Rattle.vm_realm.specs.World.{statement_count};
ghost use Rattle.vmedia.specs.Bulk.{is_frame, frames_in};

use vm_local::{Call, Entry, Reply};
use vm_mem::Memory;
use vm_report::HandleLog;
use vm_script::Script;

/// How many statements a script has.
///
/// # Errors
/// `Memory` where there are more than memory holds.
pub fn count_statements(script: &Script) -> Result<u64, Memory>
    ensures { IfOk result (λ count. count ≡ statement_count script.now) }
{
    let mut count = 0u64;
    for process in &script.processes {
        count = count.checked_add(process.lines.len() as u64).ok_or(Memory)?;
    }
    Ok(count)
}

/// Whether an entry is a `dqbuf` that was answered ok.
fn is_frame(entry: &Entry) -> bool
    ensures { result ≡ is_frame entry.now }
{
    matches!(
        entry,
        Entry::Called {
            call: Call::DqBuf { .. },
            reply: Reply::Frame { .. },
            ..
        }
    )
}

/// How many frames a log took.
fn frames_in(entries: &[Entry]) -> usize
    ensures { result ≡ frames_in entries.now }
{
    entries.iter().filter(|entry| is_frame(entry)).count()
}

/// How many frames all logs took.
///
/// # Errors
/// `Memory` where there are more than memory holds.
pub fn count_frames(logs: &[HandleLog]) -> Result<u64, Memory>
    ensures { IfOk result (λ count. count ≡ sum_by (λ log. frames_in log.entries) logs.now) }
{
    let mut count = 0u64;
    for log in logs {
        count = count
            .checked_add(frames_in(&log.entries) as u64)
            .ok_or(Memory)?;
    }
    Ok(count)
}
