//! The logs of a driver's handles, lent to be printed in the script's words.

ghost use Rattle.std.specs.Prelude.{◌≡◌, ◌≤◌, ◌+◌, ◌++◌, OnOk, IfOk, flat_map, length, map, take};
ghost use Rattle.vm_guest.specs.Orderly.{IsDriver};
ghost use Rattle.vm_report.specs.Lent.{log_in, echoes_in};
ghost use Rattle.vm_script.specs.Lines.{echoes_by_handle};
ghost use Rattle.vm_output.specs.Printing.{handle_logs, process_logs};

use crate::echoes::{Echoes, group_echoes};
use std::alloc::Global;
use vm_guest::Guest;
use vm_handle::Handle;
use vm_local::Name;
use vm_mem::Memory;
use vm_report::HandleText;
use vm_script::Script;

/// The words of the lines on each handle of a script, in the order in which handles are printed.
pub fn words_of(alloc: Global, script: &Script) -> Result<Vec<Echoes<'_>>, Memory>
    ensures { IfOk result (λ words. words.items ≡
        flat_map echoes_by_handle script.now.processes) }
{
    let mut words = Vec::new(alloc);
    for process in &script.processes {
        let mut own = group_echoes(alloc, &process.handles, &process.lines)?;
        words.append(&mut own)?;
    }
    Ok(words)
}

// Lends the logs of a process's handles, each with the words that stand in its place.
fn lend_process<'a, 'b>(
    lent: &mut Vec<HandleText<'b>>,
    process: u32,
    names: &'b [Name],
    handles: &'b [Handle],
    words: &'b [Echoes<'a>],
) -> Result<(), Memory>
    requires names { length names.now ≡ length handles.now }
    requires words { length lent.old.items + length handles.now ≤ length words.now }
    requires echoes { map echoes_in lent.old.items ≡ take (length lent.old.items) words.now }
    ensures logs { OnOk result (map log_in lent.new.items ≡
        map log_in lent.old.items ++ handle_logs process names.now handles.now) }
    ensures echoes { OnOk result
        (map echoes_in lent.new.items ≡ take (length lent.new.items) words.now) }
{
    for (at, handle) in handles.iter().enumerate() {
        lent.push(HandleText {
            process,
            name: &names[at],
            session: handle.session(),
            entries: handle.log(),
            echoes: words[lent.len()].lines(),
        })?;
    }
    Ok(())
}

/// The logs of a driver's handles, process by process, each with its words.
pub fn lend_handles<'a, 'b>(
    alloc: Global,
    script: &'b Script,
    guest: &'b Guest,
    words: &'b [Echoes<'a>],
) -> Result<Vec<HandleText<'b>>, Memory>
    requires driver { IsDriver script.now guest.now }
    requires words { words.now ≡ flat_map echoes_by_handle script.now.processes }
    ensures logs { IfOk result (λ lent. map log_in lent.items ≡
        process_logs 0 script.now.processes guest.now.processes) }
    ensures words { IfOk result (λ lent. map echoes_in lent.items ≡ words.now) }
{
    let mut lent = Vec::new(alloc);
    for (at, process) in script.processes.iter().enumerate() {
        let number = at as u32;
        let handles = guest.handles(number).unwrap();
        lend_process(&mut lent, number, &process.handles, handles, words)?;
    }
    Ok(lent)
}
