//! The lines of a text, read back one after the other.

ghost use Rattle.std.specs.Prelude.{◌≡◌, ◌<◌, length, map, not, IfOk, IfSome, Some};
ghost use Rattle.std.specs.List.{list_all};
ghost use Rattle.std.specs.Option.{option_map};
ghost use Rattle.vm_script.specs.Words.{parts_words};
ghost use Rattle.vm_report.specs.Reading.{Gives, words_of, is_word, last_equals, statement_told, call_told, chain_told, session_told, step_named, step_told, head_told, process_told, map_told, drop_told, digest_told, with_entry, closed, begins, headed, with_handle, with_raws, with_step, step_at, raw_told, reply_at, with_answer, may_end, with_region, is_region, with_journal, wired, with_wire, is_wire, with_end, with_words, with_line};

use crate::draft::{Draft, Place};
use crate::errors::LogsError;
use crate::logs::{HandleLog, Logs, RawLog};
use crate::raw::raw_in;
use crate::replies::{refusal_in, reply_in};
use crate::words::{address_in, count_in, digest_in};
use std::alloc::Global;
use vm_local::{Entry, Name};
use vm_mem::Memory;
use vm_region::RegionEntry;
use vm_script::{RawChain, Statement, is_built_line, name_of, statement_of};

/// How many processes a script has at most.
pub const PROCESS_LIMIT: u32 = 16;

const SPACE: u8 = b' ';

const TAB: u8 = b'\t';

const CARRIAGE_RETURN: u8 = b'\r';

const EQUALS: &[u8] = b"=";

const DASH: &[u8] = b"-";

const FINISH: &[u8] = b"finish";

const BAD: &[u8] = b"bad";

const GIVE: &[u8] = b"give";

const HANDLE: &[u8] = b"handle";

const RAWS: &[u8] = b"raws";

const PLUS: &[u8] = b"+";

const REGION: &[u8] = b"region";

const MAP: &[u8] = b"map";

const DROP: &[u8] = b"drop";

const WIRE: &[u8] = b"wire";

/// The words of a line, a space between each two.
fn words_of(alloc: Global, line: &[u8]) -> Result<Vec<&[u8]>, Memory>
    ensures { IfOk result (λ words. map (λ word. word.now) words.items ≡ words_of line.now) }
{
    Ok(line.split(|byte| *byte == SPACE).collect(alloc)?)
}

/// Whether this byte parts words.
fn parts_words(byte: u8) -> bool
    ensures { result ≡ parts_words byte }
{
    byte == SPACE || byte == TAB || byte == CARRIAGE_RETURN
}

/// Whether no byte of the word parts words.
fn is_whole(word: &[u8]) -> bool
    ensures { result ≡ list_all (λ b. not (parts_words b)) word.now }
{
    word.iter().all(|byte| !parts_words(*byte))
}

/// Whether the word has bytes, and none that parts words.
#[tactic(auto, using(vm_script::proofs::ReaderLemmas::empty_by_length), unfolding(crate::specs::Reading::is_word))]
fn is_word(word: &[u8]) -> bool
    ensures { result ≡ is_word word.now }
{
    !word.is_empty() && is_whole(word)
}

/// Whether all are words.
#[tactic(auto, using(crate::proofs::CodeLemmas::words_step))]
fn are_words(words: &[&[u8]]) -> bool
    ensures { result ≡ list_all is_word (map (λ word. word.now) words.now) }
{
    for word in words {
        if !is_word(word) {
            return false;
        }
    }
    true
}

/// The place of the last word that is an equals sign. Before it stand the words of a call, behind
/// it those of its reply.
fn last_equals(words: &[&[u8]]) -> Option<usize>
    ensures place { result ≡ last_equals (map (λ word. word.now) words.now) }
    ensures within { IfSome result (λ at. at < length words.now) }
{
    let mut last = None;
    for (at, word) in words.iter().enumerate() {
        if *word == EQUALS {
            last = Some(at);
        }
    }
    last
}

/// The statement that these words are.
fn statement_in(words: &[&[u8]]) -> Option<Statement>
    ensures { result ≡ statement_told (map (λ word. word.now) words.now) }
{
    if !are_words(words) || !is_built_line(words) {
        return None;
    }
    match statement_of(words) {
        Ok(statement) => Some(statement),
        Err(_fault) => None,
    }
}

/// A call on the handle of this name, by its line's number, its words, and those of its reply.
fn call_in(name: &Name, line: &[u8], words: &[&[u8]], reply: &[&[u8]]) -> Option<Entry>
    ensures { result ≡ call_told name.now line.now (map (λ word. word.now) words.now)
        (map (λ word. word.now) reply.now) }
{
    let line = count_in(line)?;
    let Statement { handle, call } = statement_in(words)?;
    if !handle.is(name) {
        return None;
    }
    let reply = reply_in(&call, reply)?;
    Some(Entry::Called { line, call, reply })
}

/// The chain that these words post.
fn chain_in(words: &[&[u8]]) -> Option<RawChain>
    ensures { result ≡ chain_told (map (λ word. word.now) words.now) }
{
    if are_words(words) {
        raw_in(words)
    } else {
        None
    }
}

/// The session's id that this word is printed of: a dash where there is none.
fn session_in(word: &[u8]) -> Option<Option<u32>>
    ensures { result ≡ session_told word.now }
{
    if word == DASH {
        Some(None)
    } else {
        Some(Some(count_in(word)?))
    }
}

/// The step of the device of this name.
fn step_named(word: &[u8]) -> Option<Entry>
    ensures { result ≡ step_named word.now }
{
    if word == FINISH {
        Some(Entry::Finish)
    } else if word == BAD {
        Some(Entry::Bad)
    } else if word == GIVE {
        Some(Entry::Give)
    } else {
        None
    }
}

/// The step that the words behind `+` tell.
fn step_in(words: &[&[u8]]) -> Option<Entry>
    ensures { result ≡ step_told (map (λ word. word.now) words.now) }
{
    match words {
        [word] => step_named(word),
        _ => None,
    }
}

/// The log that the words behind `handle` begin.
fn head_in(alloc: Global, words: &[&[u8]]) -> Option<HandleLog>
    ensures { result ≡ head_told (map (λ word. word.now) words.now) }
{
    match words {
        [process, name, session] => Some(HandleLog {
            process: count_in(process)?,
            name: name_of(name).ok()?,
            session: session_in(session)?,
            entries: Vec::new(alloc),
        }),
        _ => None,
    }
}

/// The process that the words behind `raws` tell.
fn process_in(words: &[&[u8]]) -> Option<u32>
    ensures { result ≡ process_told (map (λ word. word.now) words.now) }
{
    match words {
        [process] => count_in(process),
        _ => None,
    }
}

/// What the words behind `map` tell.
fn map_in(words: &[&[u8]]) -> Option<RegionEntry>
    ensures { result ≡ map_told (map (λ word. word.now) words.now) }
{
    match words {
        [addr, pages, count] => Some(RegionEntry::Map {
            addr: address_in(addr)?,
            pages: count_in(pages)?,
            count: count_in(count)?,
        }),
        _ => None,
    }
}

/// What the words behind `drop` tell.
fn drop_in(words: &[&[u8]]) -> Option<RegionEntry>
    ensures { result ≡ drop_told (map (λ word. word.now) words.now) }
{
    match words {
        [addr, count] => Some(RegionEntry::Drop {
            addr: address_in(addr)?,
            count: count_in(count)?,
        }),
        _ => None,
    }
}

/// The digest that the words behind `wire` tell.
fn wire_in(words: &[&[u8]]) -> Option<[u8; 32]>
    ensures { result ≡ digest_told (map (λ word. word.now) words.now) }
{
    match words {
        [digest] => digest_in(digest),
        _ => None,
    }
}

/// The logs with that of the handle that was read.
fn close(logs: Logs, place: Place) -> Result<Logs, Memory>
    ensures { IfOk result (λ all. all ≡ closed logs place) }
{
    let mut logs = logs;
    if let Place::Log(handle) = place {
        logs.handles.push(handle)?;
    }
    Ok(logs)
}

/// Whether a head of this process may stand here: the processes rise, and a process's handles stand
/// before its raw lines.
fn begins(place: &Place, process: u32) -> bool
    ensures { result ≡ begins place.now process }
{
    match place {
        Place::Opening => true,
        Place::Log(handle) => handle.process <= process,
        Place::Raws(last) => *last < process,
        _ => false,
    }
}

/// Goes on behind a head of this process.
fn add_head(draft: Draft, process: u32, place: Place) -> Result<Draft, LogsError>
    ensures { Gives (headed draft process place) result }
{
    if process >= PROCESS_LIMIT || !begins(&draft.place, process) {
        return Err(LogsError::NotPrinted);
    }
    let Draft { logs, place: last } = draft;
    Ok(Draft {
        logs: close(logs, last)?,
        place,
    })
}

/// `handle P H S`
fn add_handle(alloc: Global, draft: Draft, words: &[&[u8]]) -> Result<Draft, LogsError>
    ensures { Gives (with_handle draft (map (λ word. word.now) words.now)) result }
{
    let Some(log) = head_in(alloc, words) else {
        return Err(LogsError::NotPrinted);
    };
    add_head(draft, log.process, Place::Log(log))
}

/// `raws P`
fn add_raws(draft: Draft, words: &[&[u8]]) -> Result<Draft, LogsError>
    ensures { Gives (with_raws draft (map (λ word. word.now) words.now)) result }
{
    let process = process_in(words).ok_or(LogsError::NotPrinted)?;
    add_head(draft, process, Place::RawHead(process))
}

/// Adds an entry to the log of this handle, where there is one.
fn add_entry(logs: Logs, handle: HandleLog, entry: Option<Entry>) -> Result<Draft, LogsError>
    ensures { Gives (option_map (with_entry logs handle) entry) result }
{
    let entry = match entry {
        Some(Entry::Called { line, call, reply }) => Entry::Called { line, call, reply },
        Some(step) => step,
        None => return Err(LogsError::NotPrinted),
    };
    let mut handle = handle;
    handle.entries.reserve(1).map_err(|_| LogsError::Memory)?;
    handle.entries.push_reserved(entry);
    Ok(Draft {
        logs,
        place: Place::Log(handle),
    })
}

/// `+ finish`, `+ bad` or `+ give`
fn add_step(draft: Draft, words: &[&[u8]]) -> Result<Draft, LogsError>
    ensures { Gives (with_step draft (map (λ word. word.now) words.now)) result }
{
    let Draft { logs, place } = draft;
    match place {
        Place::Log(handle) => add_entry(logs, handle, step_in(words)),
        _ => Err(LogsError::NotPrinted),
    }
}

/// A raw line of this process, by its number, its words, and those of its reply.
fn add_raw(
    logs: Logs,
    process: u32,
    line: &[u8],
    words: &[&[u8]],
    reply: &[&[u8]],
) -> Result<Draft, LogsError>
    ensures { Gives (raw_told logs process line.now (map (λ word. word.now) words.now)
        (map (λ word. word.now) reply.now)) result }
{
    let line = count_in(line).ok_or(LogsError::NotPrinted)?;
    let Some(chain) = chain_in(words) else {
        return Err(LogsError::NotPrinted);
    };
    let errno = refusal_in(reply).ok_or(LogsError::NotPrinted)?;
    let mut logs = logs;
    let raw = RawLog {
        process,
        line,
        chain,
        errno,
    };
    logs.raws.reserve(1).map_err(|_| LogsError::Memory)?;
    logs.raws.push_reserved(raw);
    Ok(Draft {
        logs,
        place: Place::Raws(process),
    })
}

/// A line with a reply, by its number, its words, and those of its reply.
fn add_reply(
    draft: Draft,
    line: &[u8],
    words: &[&[u8]],
    reply: &[&[u8]],
) -> Result<Draft, LogsError>
    ensures { Gives (reply_at draft.logs draft.place line.now (map (λ word. word.now) words.now)
        (map (λ word. word.now) reply.now)) result }
{
    let Draft { logs, place } = draft;
    match place {
        Place::Log(handle) => {
            let entry = call_in(&handle.name, line, words, reply);
            add_entry(logs, handle, entry)
        }
        Place::RawHead(process) => add_raw(logs, process, line, words, reply),
        Place::Raws(process) => add_raw(logs, process, line, words, reply),
        _ => Err(LogsError::NotPrinted),
    }
}

/// `L WORDS = REPLY`, by the number and what is behind it.
fn add_answer(draft: Draft, line: &[u8], words: &[&[u8]]) -> Result<Draft, LogsError>
    ensures { Gives (with_answer draft line.now (map (λ word. word.now) words.now)) result }
{
    let at = last_equals(words).ok_or(LogsError::NotPrinted)?;
    add_reply(draft, line, &words[..at], &words[at + 1..])
}

/// Whether the region's head may stand here.
fn may_end(place: &Place) -> bool
    ensures { result ≡ may_end place.now }
{
    matches!(place, Place::Opening | Place::Log(_) | Place::Raws(_))
}

/// `region`
fn add_region(draft: Draft, words: &[&[u8]]) -> Result<Draft, LogsError>
    ensures { Gives (with_region draft (map (λ word. word.now) words.now)) result }
{
    if !words.is_empty() || !may_end(&draft.place) {
        return Err(LogsError::NotPrinted);
    }
    let Draft { logs, place } = draft;
    Ok(Draft {
        logs: close(logs, place)?,
        place: Place::Region,
    })
}

/// Whether the region's journal goes on here.
fn is_region(place: &Place) -> bool
    ensures { result ≡ is_region place.now }
{
    matches!(place, Place::Region)
}

/// Adds an entry to the region's journal.
fn add_journal(draft: Draft, entry: RegionEntry) -> Result<Draft, LogsError>
    ensures { Gives (with_journal draft entry) result }
{
    if !is_region(&draft.place) {
        return Err(LogsError::NotPrinted);
    }
    let Draft { logs, place: _ } = draft;
    let mut logs = logs;
    logs.journal.push(entry).map_err(|_| LogsError::Memory)?;
    Ok(Draft {
        logs,
        place: Place::Region,
    })
}

/// `wire HEX`
fn add_wire(draft: Draft, words: &[&[u8]]) -> Result<Draft, LogsError>
    ensures { Gives (with_wire draft (map (λ word. word.now) words.now)) result }
{
    let digest = wire_in(words).ok_or(LogsError::NotPrinted)?;
    if !is_region(&draft.place) {
        return Err(LogsError::NotPrinted);
    }
    let Draft { logs, place: _ } = draft;
    let mut logs = logs;
    logs.wire = digest;
    Ok(Draft {
        logs,
        place: Place::Wire,
    })
}

/// What follows the last newline: nothing.
fn add_end(draft: Draft, words: &[&[u8]]) -> Result<Draft, LogsError>
    ensures { Gives (with_end draft (map (λ word. word.now) words.now)) result }
{
    if !words.is_empty() {
        return Err(LogsError::NotPrinted);
    }
    let Draft { logs, place } = draft;
    let Place::Wire = place else {
        return Err(LogsError::NotPrinted);
    };
    Ok(Draft {
        logs,
        place: Place::End,
    })
}

/// Adds the line of these words.
fn add_words(alloc: Global, draft: Draft, words: &[&[u8]]) -> Result<Draft, LogsError>
    ensures { Gives (with_words draft (map (λ word. word.now) words.now)) result }
{
    let (first, words) = words.split_first().ok_or(LogsError::NotPrinted)?;
    if *first == HANDLE {
        add_handle(alloc, draft, words)
    } else if *first == RAWS {
        add_raws(draft, words)
    } else if *first == PLUS {
        add_step(draft, words)
    } else if *first == REGION {
        add_region(draft, words)
    } else if *first == MAP {
        add_journal(draft, map_in(words).ok_or(LogsError::NotPrinted)?)
    } else if *first == DROP {
        add_journal(draft, drop_in(words).ok_or(LogsError::NotPrinted)?)
    } else if *first == WIRE {
        add_wire(draft, words)
    } else if first.is_empty() {
        add_end(draft, words)
    } else {
        add_answer(draft, first, words)
    }
}

/// Adds a line.
///
/// # Errors
/// `NotPrinted` where the line can't stand here, `Memory` where there is none for it.
pub fn add_line(alloc: Global, draft: Draft, line: &[u8]) -> Result<Draft, LogsError>
    ensures { Gives (with_line draft line.now) result }
{
    let words = words_of(alloc, line)?;
    add_words(alloc, draft, &words)
}
