//! What is printed of runs without lines, and what is lent of a driver before its first line.

ghost use Rattle.std.specs.Prelude.{◌≡◌, ◌<◌, IfOk};
ghost use Rattle.vm_guest.specs.Orderly.{IsFitKind, IsFitProcess, IsFitScript, no_lines};
ghost use Rattle.vm_script.specs.Reading.{IsReadScript};

use crate::lent::{lend_handles, words_of};
use crate::text_of_run;
use std::alloc::Global;
use std::test::Fail;
use v4l_const::Model;
use vm_guest::Guest;
use vm_local::{Call, Name};
use vm_region::RegionEntry;
use vm_script::{Echo, Line, LineKind, Process, Script};

/// A range that is mapped once.
const JOURNAL: [RegionEntry; 1] = [RegionEntry::Map {
    addr: 4096,
    pages: 225,
    count: 1,
}];

/// A process that asks nothing.
fn blank(alloc: Global) -> Process
    ensures { result ≡ no_lines }
{
    Process {
        handles: Vec::new(alloc),
        lines: Vec::new(alloc),
    }
}

/// Two of them.
fn blanks(alloc: Global, model: Model) -> Result<Script, Fail>
    ensures read { IfOk result IsReadScript }
    ensures fit { IfOk result IsFitScript }
{
    let mut processes = Vec::with_capacity(alloc, 2)?;
    processes.push_reserved(blank(alloc));
    processes.push_reserved(blank(alloc));
    Ok(Script { model, processes })
}

/// The text of their run.
fn blank_text(alloc: Global, model: Model, journal: &[RegionEntry]) -> Result<Vec<u8>, Fail> {
    let script = blanks(alloc, model)?;
    let guest = Guest::new(alloc, &script)?;
    if !guest.is_done() {
        return Err("a line is left".into());
    }
    Ok(text_of_run(alloc, &script, &guest, journal)?)
}

/// A line that opens or closes one of two handles.
fn line(alloc: Global, number: u32, words: &[u8], h: u32, opens: bool) -> Result<Line, Fail>
    requires { h < 2 }
    ensures { IfOk result (λ l. IsFitKind 2 l.what) }
{
    let echo = Echo::new(alloc, words)?;
    let call = if opens {
        Call::OpenHandle { nonblock: false }
    } else {
        Call::CloseHandle
    };
    Ok(Line {
        number,
        echo,
        what: LineKind::OnHandle { h, call },
    })
}

/// A process with two handles of these names, and three lines.
fn process(alloc: Global, names: [&[u8]; 2], words: [&[u8]; 3]) -> Result<Process, Fail>
    ensures { IfOk result IsFitProcess }
{
    let [first, second] = names;
    let [open, other, close] = words;
    let mut handles = Vec::with_capacity(alloc, 2)?;
    handles.push_reserved(Name::new(first).ok_or("no name")?);
    handles.push_reserved(Name::new(second).ok_or("no name")?);
    let mut lines = Vec::with_capacity(alloc, 3)?;
    lines.push_reserved(line(alloc, 1, open, 0, true)?);
    lines.push_reserved(line(alloc, 2, other, 1, true)?);
    lines.push_reserved(line(alloc, 3, close, 0, false)?);
    Ok(Process { handles, lines })
}

/// Two processes with lines.
fn lined(alloc: Global) -> Result<Script, Fail>
    ensures { IfOk result IsFitScript }
{
    let mut processes = Vec::with_capacity(alloc, 2)?;
    processes.push_reserved(process(alloc, [b"a", b"b"], [b"open a", b"open b", b"close a"])?);
    processes.push_reserved(process(alloc, [b"c", b"a"], [b"open c", b"open a", b"close c"])?);
    Ok(Script {
        model: Model::Capture,
        processes,
    })
}

#[test]
fn each_handle_is_lent_with_its_words(rt: HostRuntime) -> Result<(), Fail> {
    let script = lined(rt.alloc())?;
    let guest = Guest::new(rt.alloc(), &script)?;
    let words = words_of(rt.alloc(), &script)?;
    let lent = lend_handles(rt.alloc(), &script, &guest, &words)?;
    let rows: [(u32, &[u8], &[u8]); 4] = [
        (0, b"a", b"open a.close a."),
        (0, b"b", b"open b."),
        (1, b"c", b"open c.close c."),
        (1, b"a", b"open a."),
    ];
    assert_eq!(rt; lent.len(), rows.len());
    for (handle, (process, name, want)) in lent.iter().zip(rows) {
        assert_eq!(rt; handle.process, process);
        assert_eq!(rt; handle.name.as_bytes(), name);
        assert_eq!(rt; (handle.session, handle.entries.len()), (None, 0));
        let mut text = Vec::new(rt.alloc());
        for echo in handle.echoes {
            text.extend_from_slice(echo.as_bytes())?;
            text.push(b'.')?;
        }
        assert_eq!(rt; text.as_slice(), want);
    }
    Ok(())
}

// The digest is the SHA-256 of nothing.
#[test]
fn a_run_without_lines_is_printed(rt: HostRuntime) -> Result<(), Fail> {
    let rows: [(Model, &[RegionEntry], &[u8]); 2] = [
        (
            Model::Capture,
            &[],
            b"region\nwire e3b0c44298fc1c149afbf4c8996fb92427ae41e4649b934ca495991b7852b855\n",
        ),
        (
            Model::Convert,
            &JOURNAL,
            b"region\nmap 0000000000001000 225 1\nwire e3b0c44298fc1c149afbf4c8996fb92427ae41e4649b934ca495991b7852b855\n",
        ),
    ];
    for (model, journal, want) in rows {
        let text = blank_text(rt.alloc(), model, journal)?;
        assert_eq!(rt; text.as_slice(), want);
    }
    Ok(())
}
