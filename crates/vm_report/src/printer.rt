//! Prints logs.

ghost use Rattle.std.specs.Prelude.{◌≡◌, ◌==◌, ◌<◌, ◌++◌, OnOk, IfOk, IfSome, ℕ, List, true, codes, flat_map, map};
ghost use Rattle.std.specs.List.{AllByRecursion, list_any, range_with_len};
ghost use Rattle.hex.specs.Hex.{encode_lower};
ghost use Rattle.vm_script.specs.Reading.{Fits32};
ghost use Rattle.vm_report.specs.Lent.{CanPrint, CanPrintHandle, IsLettered, log_in, echoes_in, raw_log_in, raw_echo_in, logs_lent, words_lent};
ghost use Rattle.vm_report.specs.Printed.{FitsEntry, FitsJournal, FitsReply, HasLetters, IsDigest, IsPrintedWith};
ghost use Rattle.vm_report.specs.Printing.{NumbersFit, own_handle, own_raw, own_text};
ghost use Rattle.vm_report.specs.Text.{call_text, entries_text, handle_text, handles_text, head_text, journal_line, raw_lines_text, raw_text, raws_text, reads, session_text};

use crate::lent::{HandleText, LogsText, RawText};
use crate::lines::PROCESS_LIMIT;
use crate::reply_text::push_reply;
use crate::text::{push, push_address, push_decimal, push_hex, push_number};
use std::alloc::Global;
use vm_local::{Entry, Reply};
use vm_mem::Memory;
use vm_region::RegionEntry;
use vm_script::Echo;

/// Adds a call's line: its number, its words and its reply.
fn push_call(text: &mut Vec<u8>, line: u32, echo: &Echo, reply: &Reply) -> Result<(), Memory>
    requires { HasLetters reply.now }
    ensures text { OnOk result (text.new.items ≡ text.old.items ++
        call_text line echo.now reply.now) }
    ensures fits { OnOk result (Fits32 line × FitsReply reply.now) }
{
    push_number(text, line)?;
    push(text, b" ")?;
    push(text, echo.as_bytes())?;
    push(text, b" = ")?;
    push_reply(text, reply)?;
    push(text, b"\n")
}

/// Adds the id of a session, or a dash where there is none.
fn push_session(text: &mut Vec<u8>, session: Option<u32>) -> Result<(), Memory>
    ensures text { OnOk result (text.new.items ≡ text.old.items ++ session_text session) }
    ensures fits { IfSome session Fits32 }
{
    match session {
        Some(id) => push_number(text, id),
        None => push(text, b"-"),
    }
}

/// Adds the line at the head of a handle's log.
fn push_head(text: &mut Vec<u8>, handle: &HandleText) -> Result<(), Memory>
    ensures text { OnOk result (text.new.items ≡ text.old.items ++ head_text (log_in handle.now)) }
    ensures fits { OnOk result (IfSome handle.now.session Fits32) }
{
    push(text, b"handle ")?;
    push_number(text, handle.process)?;
    push(text, b" ")?;
    push(text, handle.name.as_bytes())?;
    push(text, b" ")?;
    push_session(text, handle.session)?;
    push(text, b"\n")
}

/// Adds a log, each call with the next of the words.
fn push_entries(text: &mut Vec<u8>, entries: &[Entry], echoes: &[&Echo]) -> Result<(), Memory>
    requires letters { AllByRecursion IsLettered entries.now }
    requires reads { (name : List ℕ) ×
        (reads name entries.now (map (λ e. e.now) echoes.now) ≡ true) }
    ensures text { OnOk result (text.new.items ≡ text.old.items ++
        entries_text entries.now (map (λ e. e.now) echoes.now)) }
    ensures fits { OnOk result (AllByRecursion FitsEntry entries.now) }
{
    let mut calls = 0;
    for entry in entries {
        match entry {
            Entry::Called { line, reply, .. } => {
                push_call(text, *line, echoes[calls], reply)?;
                calls += 1;
            }
            Entry::Finish => push(text, b"+ finish\n")?,
            Entry::Bad => push(text, b"+ bad\n")?,
            Entry::Give => push(text, b"+ give\n")?,
        }
    }
    Ok(())
}

/// Adds a handle's head and its log.
fn push_handle(text: &mut Vec<u8>, handle: &HandleText) -> Result<(), Memory>
    requires { CanPrintHandle handle.now }
    ensures text { OnOk result (text.new.items ≡ text.old.items ++
        handle_text (log_in handle.now) (echoes_in handle.now)) }
    ensures fits { OnOk result (NumbersFit handle.now) }
{
    push_head(text, handle)?;
    push_entries(text, handle.entries, handle.echoes)
}

/// Adds a handle where it is of this process.
fn push_own(text: &mut Vec<u8>, process: u32, handle: &HandleText) -> Result<(), Memory>
    requires { CanPrintHandle handle.now }
    ensures text { OnOk result (text.new.items ≡ text.old.items ++ own_handle process handle.now) }
    ensures fits { OnOk result (handle.now.process ≡ process → NumbersFit handle.now) }
{
    if handle.process == process {
        push_handle(text, handle)
    } else {
        Ok(())
    }
}

/// Adds the handles of one process among these.
fn push_handles(text: &mut Vec<u8>, process: u32, handles: &[HandleText]) -> Result<(), Memory>
    requires { AllByRecursion CanPrintHandle handles.now }
    ensures text { OnOk result (text.new.items ≡ text.old.items ++
        handles_text process (map log_in handles.now) (map echoes_in handles.now)) }
    ensures fits { OnOk result
        (AllByRecursion (λ h. h.process ≡ process → NumbersFit h) handles.now) }
{
    for handle in handles {
        push_own(text, process, handle)?;
    }
    Ok(())
}

/// Whether one of these raw lines is of this process.
fn has_raws(process: u32, raws: &[RawText]) -> bool
    ensures { result ≡ list_any (λ r. r.process == process) (map raw_log_in raws.now) }
{
    raws.iter().any(|raw| raw.process == process)
}

/// Adds a raw line.
fn push_raw(text: &mut Vec<u8>, raw: &RawText) -> Result<(), Memory>
    ensures text { OnOk result (text.new.items ≡ text.old.items ++
        raw_text (raw_log_in raw.now) raw.now.echo.now) }
    ensures fits { OnOk result (Fits32 raw.now.line) }
{
    push_call(text, raw.line, raw.echo, &Reply::Refused(raw.errno))
}

/// Adds a raw line where it is of this process.
fn push_own_raw(text: &mut Vec<u8>, process: u32, raw: &RawText) -> Result<(), Memory>
    ensures text { OnOk result (text.new.items ≡ text.old.items ++ own_raw process raw.now) }
    ensures fits { OnOk result (raw.now.process ≡ process → Fits32 raw.now.line) }
{
    if raw.process == process {
        push_raw(text, raw)
    } else {
        Ok(())
    }
}

/// Adds the raw lines of one process among these.
fn push_raw_lines(text: &mut Vec<u8>, process: u32, raws: &[RawText]) -> Result<(), Memory>
    ensures text { OnOk result (text.new.items ≡ text.old.items ++
        raw_lines_text process (map raw_log_in raws.now) (map raw_echo_in raws.now)) }
    ensures fits { OnOk result
        (AllByRecursion (λ r. r.process ≡ process → Fits32 r.line) raws.now) }
{
    for raw in raws {
        push_own_raw(text, process, raw)?;
    }
    Ok(())
}

/// Adds the raw lines of one process among these under their head, where it has any.
fn push_raws(text: &mut Vec<u8>, process: u32, raws: &[RawText]) -> Result<(), Memory>
    ensures text { OnOk result (text.new.items ≡ text.old.items ++
        raws_text process (map raw_log_in raws.now) (map raw_echo_in raws.now)) }
    ensures fits { OnOk result
        (AllByRecursion (λ r. r.process ≡ process → Fits32 r.line) raws.now) }
{
    if !has_raws(process, raws) {
        return Ok(());
    }
    push(text, b"raws ")?;
    push_number(text, process)?;
    push(text, b"\n")?;
    push_raw_lines(text, process, raws)
}

/// Adds each process: its handles, and then its raw lines.
fn push_processes(
    text: &mut Vec<u8>,
    handles: &[HandleText],
    raws: &[RawText],
) -> Result<(), Memory>
    requires { AllByRecursion CanPrintHandle handles.now }
    ensures text { OnOk result (text.new.items ≡ text.old.items ++
        flat_map (own_text handles.now raws.now) (range_with_len 0 16)) }
    ensures handles { OnOk result
        (AllByRecursion (λ h. h.process < 16 → NumbersFit h) handles.now) }
    ensures raws { OnOk result (AllByRecursion (λ r. r.process < 16 → Fits32 r.line) raws.now) }
{
    for process in 0..PROCESS_LIMIT {
        push_handles(text, process, handles)?;
        push_raws(text, process, raws)?;
    }
    Ok(())
}

/// Adds an entry of the region's journal.
fn push_journal_line(text: &mut Vec<u8>, entry: &RegionEntry) -> Result<(), Memory>
    ensures text { OnOk result (text.new.items ≡ text.old.items ++ journal_line entry.now) }
    ensures fits { OnOk result (FitsJournal entry.now) }
{
    match entry {
        RegionEntry::Map { addr, pages, count } => {
            push(text, b"map")?;
            push_address(text, *addr)?;
            push_decimal(text, *pages)?;
            push_decimal(text, *count)?;
        }
        RegionEntry::Drop { addr, count } => {
            push(text, b"drop")?;
            push_address(text, *addr)?;
            push_decimal(text, *count)?;
        }
    }
    push(text, b"\n")
}

/// Adds the region's head and its journal.
fn push_journal(text: &mut Vec<u8>, journal: &[RegionEntry]) -> Result<(), Memory>
    ensures text { OnOk result (text.new.items ≡ text.old.items ++ codes "region\n" ++
        flat_map journal_line journal.now) }
    ensures fits { OnOk result (AllByRecursion FitsJournal journal.now) }
{
    push(text, b"region\n")?;
    for entry in journal {
        push_journal_line(text, entry)?;
    }
    Ok(())
}

/// Adds the line of the digest.
fn push_wire(text: &mut Vec<u8>, wire: &[u8; 32]) -> Result<(), Memory>
    ensures text { OnOk result (text.new.items ≡ text.old.items ++ codes "wire " ++
        encode_lower wire.now ++ codes "\n") }
    ensures fits { OnOk result (IsDigest wire.now) }
{
    push(text, b"wire")?;
    push_hex(text, wire)?;
    push(text, b"\n")
}

/// Prints logs, with the words that are lent with them: process by process each handle's log and
/// then the raw lines, the region's journal, and the digest. `logs_of` gives these logs back.
///
/// Nothing is copied but into the text. The list of handles is gone through once for each of the 16
/// processes that there may be.
///
/// Source: own.
///
/// # Errors
/// `Memory` where there is none for the text.
pub fn print(alloc: Global, logs: &LogsText) -> Result<Vec<u8>, Memory>
    requires { CanPrint logs.now }
    ensures { IfOk result (λ text. IsPrintedWith (words_lent logs.now) text.items
        (logs_lent logs.now)) }
{
    let mut text = Vec::new(alloc);
    push_processes(&mut text, logs.handles, logs.raws)?;
    push_journal(&mut text, logs.journal)?;
    push_wire(&mut text, logs.wire)?;
    Ok(text)
}
