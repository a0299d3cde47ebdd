//! The grammar of statements.

ghost use Rattle.std.specs.Prelude.{◌<◌, ◌≤◌, length};

use crate::{Line, LineKind, Process, ScriptError, ScriptKind, read_script};
use std::alloc::{AllocError, Global};
use std::test::Fail;
use vm_local::{Call, Name, Small};

/// A handle `a` with the memories `u` and `m`, and a handle `b` with none.
const BEFORE: &[u8] = b"open a\nualloc a u 16 0\nmmap a m cap 0\nopen b\n";

/// The lines of a script of one process.
fn lines_of(alloc: Global, script: &[u8]) -> Result<Vec<Line>, ScriptError> {
    if script.len() > 100_000 {
        return Err(ScriptError::Memory);
    }
    let mut script = read_script(alloc, script)?;
    let Process { handles: _, lines } = script.processes.pop().ok_or(ScriptError::Memory)?;
    Ok(lines)
}

/// What these lines come to behind others.
fn lines_behind(alloc: Global, before: &[u8], lines: &[u8]) -> Result<Vec<Line>, ScriptError> {
    let mut script = Vec::new(alloc);
    script
        .extend_from_slice(before)
        .map_err(|_| ScriptError::Memory)?;
    script
        .extend_from_slice(lines)
        .map_err(|_| ScriptError::Memory)?;
    lines_of(alloc, &script)
}

/// What the last of these lines asks.
fn last_of(lines: Result<Vec<Line>, ScriptError>) -> Option<LineKind> {
    let lines = lines.ok()?;
    let line = lines.last()?;
    Some(line.what)
}

/// What is wrong with the first of these lines that is faulty.
fn fault_of(lines: Result<Vec<Line>, ScriptError>) -> Option<ScriptKind> {
    match lines {
        Err(ScriptError::Fault(fault)) => Some(fault.kind),
        Err(ScriptError::Memory) => None,
        Ok(_lines) => None,
    }
}

fn name(bytes: &[u8]) -> Name
    requires some { 0 < length bytes.now }
    requires few { length bytes.now ≤ 8 }
{
    Name::new(bytes).unwrap()
}

fn small(bytes: &[u8]) -> Small
    requires { length bytes.now ≤ 256 }
{
    Small::new(bytes).unwrap()
}

/// `qbuf` of the buffer 1 of `cap`.
fn queue(user: Option<Name>, used: u32, ts: u32) -> Call {
    Call::QBuf {
        t: 1,
        i: 1,
        user,
        used,
        ts,
    }
}

/// Whether these lines ask these calls of the handle `a`.
fn ask(alloc: Global, lines: &[(&[u8], Call)]) -> bool {
    for (line, call) in lines {
        let what = last_of(lines_behind(alloc, BEFORE, line));
        if what != Some(LineKind::OnHandle { h: 0, call: *call }) {
            return false;
        }
    }
    true
}

#[test]
fn reads_calls_on_queues_and_events(rt: HostRuntime) -> Result<(), Fail> {
    let lines: [(&[u8], Call); 10] = [
        (b"reqbufs a cap mmap 4", Call::ReqBufs { t: 1, m: 1, n: 4 }),
        (
            b"reqbufs a out userptr 0",
            Call::ReqBufs { t: 2, m: 2, n: 0 },
        ),
        (
            b"reqbufs a 9 7 4294967295",
            Call::ReqBufs {
                t: 9,
                m: 7,
                n: 4_294_967_295,
            },
        ),
        (b"querybuf a cap 3", Call::QueryBuf { t: 1, i: 3 }),
        (b"streamon a cap", Call::StreamOn { t: 1 }),
        (b"streamoff a out", Call::StreamOff { t: 2 }),
        (b"dqbuf a 2", Call::DqBuf { t: 2 }),
        (b"subscribe a 4", Call::Subscribe { e: 4 }),
        (b"unsubscribe a 0", Call::Unsubscribe { e: 0 }),
        (b"dqevent a", Call::DqEvent),
    ];
    assert!(rt; ask(rt.alloc(), &lines));
    Ok(())
}

#[test]
fn reads_calls_on_memory(rt: HostRuntime) -> Result<(), Fail> {
    let (u, m, v) = (name(b"u"), name(b"m"), name(b"v"));
    let lines: [(&[u8], Call); 13] = [
        (
            b"ualloc a v 925696 4095",
            Call::UAlloc {
                u: v,
                len: 925_696,
                off: 4095,
            },
        ),
        (
            b"ualloc a v 0 4294967295",
            Call::UAlloc {
                u: v,
                len: 0,
                off: 4_294_967_295,
            },
        ),
        (
            b"mmap a v cap 0",
            Call::Mmap {
                m: v,
                t: 1,
                i: 0,
                ro: false,
            },
        ),
        (
            b"mmap a v out 31 ro",
            Call::Mmap {
                m: v,
                t: 2,
                i: 31,
                ro: true,
            },
        ),
        (b"munmap a m", Call::Munmap { m }),
        (b"munmap a u", Call::Munmap { m: u }),
        (b"read a m 0 1", Call::Peek { m, off: 0, len: 1 }),
        (
            b"read a u 4294967295 0256",
            Call::Peek {
                m: u,
                off: 4_294_967_295,
                len: 256,
            },
        ),
        (b"hash a m", Call::Hash { m }),
        (
            b"write a m 0 00",
            Call::Poke {
                m,
                off: 0,
                bytes: small(&[0]),
            },
        ),
        (
            b"write a u 7 0aFf9C",
            Call::Poke {
                m: u,
                off: 7,
                bytes: small(&[10, 255, 156]),
            },
        ),
        (b"fill a m 0", Call::Fill { m, seed: 0 }),
        (b"fill a u 0255", Call::Fill { m: u, seed: 255 }),
    ];
    assert!(rt; ask(rt.alloc(), &lines));
    Ok(())
}

#[test]
fn reads_what_a_buffer_is_queued_with(rt: HostRuntime) -> Result<(), Fail> {
    let (u, m) = (name(b"u"), name(b"m"));
    let lines: [(&[u8], Call); 9] = [
        (b"qbuf a cap 1", queue(None, 0, 0)),
        (b"qbuf a cap 1 used 3072", queue(None, 3072, 0)),
        (b"qbuf a cap 1 ts 4294967295", queue(None, 0, 4_294_967_295)),
        (b"qbuf a cap 1 used 5 ts 6", queue(None, 5, 6)),
        (b"qbuf a cap 1 user u", queue(Some(u), 0, 0)),
        (b"qbuf a cap 1 user m", queue(Some(m), 0, 0)),
        (b"qbuf a cap 1 user u used 5", queue(Some(u), 5, 0)),
        (b"qbuf a cap 1 user u ts 6", queue(Some(u), 0, 6)),
        (b"qbuf a cap 1 user u used 5 ts 6", queue(Some(u), 5, 6)),
    ];
    assert!(rt; ask(rt.alloc(), &lines));
    Ok(())
}

#[test]
fn reads_lines_of_more_handles(rt: HostRuntime) -> Result<(), Fail> {
    let (u, user) = (name(b"u"), name(b"user"));
    let lines: [(&[u8], u32, Call); 4] = [
        (b"open c nonblock", 2, Call::OpenHandle { nonblock: true }),
        (b"ualloc b u 1 0", 1, Call::UAlloc { u, len: 1, off: 0 }),
        (b"mmap b u cap 0\nhash b u", 1, Call::Hash { m: u }),
        (
            b"ualloc a user 1 0\nqbuf a cap 1 user user",
            0,
            queue(Some(user), 0, 0),
        ),
    ];
    for (line, h, call) in lines {
        let what = last_of(lines_behind(rt.alloc(), BEFORE, line));
        assert_eq!(rt; what, Some(LineKind::OnHandle { h, call }));
    }
    Ok(())
}

/// `write` with so many hexadecimal digits.
fn write_line(alloc: Global, digits: usize) -> Result<Vec<u8>, AllocError>
    requires { digits ≤ 1000 }
{
    let mut line = Vec::new(alloc);
    line.extend_from_slice(b"write a m 0 ")?;
    for _ in 0..digits {
        line.push(b'7')?;
    }
    Ok(line)
}

#[test]
fn reads_so_many_bytes(rt: HostRuntime) -> Result<(), Fail> {
    let m = name(b"m");
    let most = write_line(rt.alloc(), 512)?;
    let call = Call::Poke {
        m,
        off: 0,
        bytes: small(&[0x77; 256]),
    };
    let what = last_of(lines_behind(rt.alloc(), BEFORE, &most));
    assert_eq!(rt; what, Some(LineKind::OnHandle { h: 0, call }));
    for digits in [1, 511, 513, 514] {
        let line = write_line(rt.alloc(), digits)?;
        let fault = fault_of(lines_behind(rt.alloc(), BEFORE, &line));
        assert_eq!(rt; fault, Some(ScriptKind::Word));
    }
    Ok(())
}

/// As many statements as a process may have.
fn full_process(alloc: Global) -> Result<Vec<u8>, AllocError> {
    let mut script = Vec::new(alloc);
    script.extend_from_slice(BEFORE)?;
    for _ in 0..1020 {
        script.extend_from_slice(b"hash a m\n")?;
    }
    Ok(script)
}

#[test]
fn takes_so_many_statements_of_any_kind(rt: HostRuntime) -> Result<(), Fail> {
    let full = full_process(rt.alloc())?;
    assert!(rt; lines_of(rt.alloc(), &full).is_ok());
    let lines: [(&[u8], ScriptKind); 6] = [
        (b"ualloc a v 1 0", ScriptKind::TooManyLines),
        (b"mmap a m cap 0", ScriptKind::TooManyLines),
        (b"hash a v", ScriptKind::TooManyLines),
        (b"read a m 0 0", ScriptKind::Number),
        (b"qbuf a cap 0 user 9", ScriptKind::Name),
        (b"write a m 0 0", ScriptKind::Word),
    ];
    for (line, kind) in lines {
        let fault = fault_of(lines_behind(rt.alloc(), &full, line));
        assert_eq!(rt; fault, Some(kind));
    }
    Ok(())
}

/// Whether each of these lines has this fault.
fn are_faulty(alloc: Global, lines: &[&[u8]], kind: ScriptKind) -> bool {
    for line in lines {
        if fault_of(lines_behind(alloc, BEFORE, line)) != Some(kind) {
            return false;
        }
    }
    true
}

#[test]
fn tells_a_wrong_number_of_words(rt: HostRuntime) -> Result<(), Fail> {
    let lines: [&[u8]; 34] = [
        b"open",
        b"open c nonblock x",
        b"reqbufs",
        b"reqbufs a cap mmap",
        b"reqbufs a cap mmap 1 1",
        b"querybuf a cap",
        b"querybuf a cap 0 0",
        b"ualloc a v 1",
        b"ualloc a v 1 0 0",
        b"qbuf a cap",
        b"qbuf a cap 0 user",
        b"qbuf a cap 0 user u used",
        b"qbuf a cap 0 used 1 ts",
        b"qbuf a cap 0 user u used 1 ts",
        b"qbuf a cap 0 user u used 1 ts 2 x",
        b"qbuf 9 x x x",
        b"streamon a",
        b"streamoff a cap 0",
        b"dqbuf a",
        b"mmap a v cap",
        b"mmap a v cap 0 ro ro",
        b"munmap a",
        b"munmap a m m",
        b"read a m 0",
        b"read a m 0 1 1",
        b"hash a",
        b"write a m 0",
        b"write a m 0 00 00",
        b"fill a m",
        b"subscribe a",
        b"unsubscribe a 0 0",
        b"dqevent a 0",
        b"DQBUF a cap",
        b"peek a m 0 1",
    ];
    assert!(rt; are_faulty(rt.alloc(), &lines, ScriptKind::Word));
    Ok(())
}

#[test]
fn tells_a_word_that_no_form_has(rt: HostRuntime) -> Result<(), Fail> {
    let lines: [&[u8]; 20] = [
        b"open c block",
        b"open c Nonblock",
        b"mmap a v cap 0 rw",
        b"mmap a v cap 0 r",
        b"qbuf a cap 0 foo 1",
        b"qbuf a cap 0 ts x used 3",
        b"qbuf a cap 0 ts 1 user u",
        b"qbuf a cap 0 used 1 user u",
        b"qbuf a cap 0 used 1 used 2",
        b"qbuf a cap 0 ts 1 ts 2",
        b"qbuf a cap 0 user u user u",
        b"qbuf a cap 0 user u foo 1",
        b"qbuf a cap 0 used x foo 1 ts 2",
        b"qbuf a cap 0 user u ts 1 used 2",
        b"qbuf a cap 0 user u used 1 foo 2",
        b"write a m 0 0",
        b"write a m 0 0g",
        b"write a m 0 g0",
        b"write a m 0 0x00",
        b"write a m 0 00-0",
    ];
    assert!(rt; are_faulty(rt.alloc(), &lines, ScriptKind::Word));
    Ok(())
}

#[test]
fn tells_a_word_that_is_no_name(rt: HostRuntime) -> Result<(), Fail> {
    let lines: [&[u8]; 26] = [
        b"open 9 block",
        b"open C nonblock",
        b"reqbufs A x x x",
        b"querybuf 1a x x",
        b"ualloc 9 9 x x",
        b"ualloc a 9 x x",
        b"ualloc a abcdefghi 1 0",
        b"qbuf 9x cap 0 ts x used 3",
        b"qbuf a cap 0 user 9",
        b"qbuf a cap 0 user U used x",
        b"qbuf a cap 0 user u_ foo x",
        b"streamon 9 x",
        b"streamoff A cap",
        b"dqbuf a- cap",
        b"mmap 9 9 x x",
        b"mmap a M x x",
        b"mmap a 9 cap 0 rw",
        b"munmap a -",
        b"read 9 m 0 0",
        b"read a abcdefghi x 0",
        b"hash a m_",
        b"write a M x 0",
        b"fill a 1 256",
        b"subscribe 4 a",
        b"unsubscribe A x",
        b"dqevent 1",
    ];
    assert!(rt; are_faulty(rt.alloc(), &lines, ScriptKind::Name));
    Ok(())
}

#[test]
fn tells_a_word_that_is_no_number(rt: HostRuntime) -> Result<(), Fail> {
    let lines: [&[u8]; 32] = [
        b"reqbufs a capt map x",
        b"reqbufs a cap map x",
        b"reqbufs a cap Mmap 1",
        b"reqbufs a cap mmap 4294967296",
        b"querybuf a mmap 0",
        b"querybuf a cap -1",
        b"ualloc a v x x",
        b"ualloc a v 1 00000000000",
        b"qbuf a x x",
        b"qbuf a cap x used y",
        b"qbuf a x 0 foo 1",
        b"qbuf a cap 0 used x",
        b"qbuf a cap 0 ts x",
        b"qbuf a cap 0 used x ts 1",
        b"qbuf a cap 0 user u ts 4294967296",
        b"qbuf a cap 0 user u used x foo 1",
        b"streamon a in",
        b"streamoff a x",
        b"dqbuf a userptr",
        b"mmap a v mmap 0",
        b"mmap a v cap x rw",
        b"read a m x 0",
        b"read a m 0 0",
        b"read a m 0 257",
        b"read a m 0 00000000001",
        b"write a m x 0",
        b"fill a m 256",
        b"fill a m x",
        b"subscribe a cap",
        b"unsubscribe a +1",
        b"read b m 0 0",
        b"fill b u 256",
    ];
    assert!(rt; are_faulty(rt.alloc(), &lines, ScriptKind::Number));
    Ok(())
}

#[test]
fn tells_a_name_that_was_declared(rt: HostRuntime) -> Result<(), Fail> {
    let lines: [&[u8]; 9] = [
        b"open a nonblock",
        b"ualloc a u 1 0",
        b"ualloc a m 1 0",
        b"mmap a u cap 0",
        b"mmap a m cap 0",
        b"mmap a m cap 0 ro",
        b"munmap a m\nmmap a m cap 0",
        b"close a\nualloc a u 1 0",
        b"ualloc b v 1 0\nmmap b v cap 0",
    ];
    assert!(rt; are_faulty(rt.alloc(), &lines, ScriptKind::OpenTwice));
    Ok(())
}

#[test]
fn tells_a_name_that_was_not_declared(rt: HostRuntime) -> Result<(), Fail> {
    let lines: [&[u8]; 25] = [
        b"reqbufs c cap mmap 1",
        b"querybuf c cap 0",
        b"ualloc c v 1 0",
        b"mmap c v cap 0",
        b"qbuf c cap 0 user u",
        b"streamon c cap",
        b"streamoff c cap",
        b"dqbuf c cap",
        b"subscribe c 4",
        b"unsubscribe c 0",
        b"dqevent c",
        b"munmap a v",
        b"read a v 0 1",
        b"hash a v",
        b"write a v 0 00",
        b"fill a v 0",
        b"qbuf a cap 0 user v",
        b"qbuf a cap 0 user v used 1 ts 2",
        b"munmap b m",
        b"read b u 0 1",
        b"hash b m",
        b"write b m 0 00",
        b"fill b u 0",
        b"qbuf b cap 0 user u",
        b"hash a a",
    ];
    assert!(rt; are_faulty(rt.alloc(), &lines, ScriptKind::NotDeclared));
    Ok(())
}
