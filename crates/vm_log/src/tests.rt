use super::*;
use crate::places::{going, let_go, memory_along, number_owed, put_at, settle};
use std::alloc::Global;
use std::test::Fail;
use v4l_const::{Errno, Model};
use vm_frame::{Frame, Held, Mem};
use vm_home::Home;
use vm_local::{Call, Entry, Local, Name, Record, Reply, local_step};

const OPEN: Call = Call::OpenHandle { nonblock: false };

// The reply to the `dqbuf` of the first frame, a whole picture of 64 by 48 bytes.
const TAKEN: Reply = Reply::Frame {
    index: 1,
    used: 3072,
    seq: 0,
    ts: 0,
    flags: 0x2000,
};

// More events than these logs have.
const EVENT_LIMIT: usize = 1000;

// Frames of buffers of the queue 1.
fn frames(alloc: Global, come: &[(u32, u64)]) -> Result<Vec<Held>, Fail> {
    let mut held = Vec::new(alloc);
    for (index, tag) in come {
        held.push(Held {
            queue: 1,
            index: *index,
            mem: Mem::OfFrame(Frame::make_zero(alloc, *tag, 16)?),
        })?;
    }
    Ok(held)
}

// The tag of a memory that is a frame.
fn tag_of(mem: Option<&Mem>) -> Option<u64> {
    match mem {
        Some(Mem::OfFrame(frame)) => Some(frame.tag()),
        Some(Mem::OfUser(_)) | None => None,
    }
}

// Does with the memories what an entry does, which these frames come with.
fn happen(
    alloc: Global,
    kept: &mut Record,
    home: &mut Home,
    entry: &Entry,
    come: &[(u32, u64)],
) -> Result<(), Fail> {
    let mut held = frames(alloc, come)?;
    kept.reserve(1)?;
    home.reserve(32)?;
    match entry {
        Entry::Called { call, reply, .. } => {
            if let Call::QBuf { t, i, user, .. } = call {
                home.forget(memory_along(kept, *t, *i, user));
            }
            let (first, count) = going(kept, call);
            settle(kept, home, call, reply, &mut held);
            kept.after(entry);
            let_go(kept, home, first, count);
        }
        Entry::Finish | Entry::Bad | Entry::Give => {
            if let Some(given) = held.pop() {
                put_at(home, number_owed(kept), given.mem);
            }
            kept.after(entry);
        }
    }
    Ok(())
}

// Whether an entry is legal from a state, which moves by it.
fn is_legal(local: &mut Local, entry: &Entry) -> Result<bool, Fail> {
    if local.events_listed() >= EVENT_LIMIT {
        return Ok(false);
    }
    Ok(local_step(local, entry)?)
}

fn said(call: Call, reply: Reply) -> Entry {
    Entry::Called {
        line: 1,
        call,
        reply,
    }
}

fn qbuf(i: u32) -> Call {
    Call::QBuf {
        t: 1,
        i,
        user: None,
        used: 0,
        ts: 0,
    }
}

#[test]
fn frames_come_home_in_order_and_are_dropped(rt: HostRuntime) -> Result<(), Fail> {
    let m = Name::new(b"m").ok_or("no name")?;
    let mut kept = Record::new(rt.alloc(), Model::Capture);
    let mut local = Local::new(rt.alloc(), Model::Capture);
    let mut home = Home::new(rt.alloc());
    let none: &[(u32, u64)] = &[];
    let (seven, both) = ([Some(7), None, None], [Some(7), Some(8), None]);
    let away = [None, None, None];
    let nine = [None, None, Some(9)];
    for (entry, come, at_home) in [
        (said(OPEN, Reply::Done), none, away),
        (
            said(Call::ReqBufs { t: 1, m: 1, n: 2 }, Reply::Count(2)),
            &[(0, 7), (1, 8)],
            both,
        ),
        (
            said(
                Call::Mmap {
                    m,
                    t: 1,
                    i: 0,
                    ro: false,
                },
                Reply::Mapped {
                    addr: 4096,
                    length: 3072,
                },
            ),
            none,
            both,
        ),
        (said(qbuf(1), Reply::Done), none, seven),
        (said(qbuf(0), Reply::Done), none, away),
        (said(Call::StreamOn { t: 1 }, Reply::Done), none, away),
        (Entry::Finish, none, away),
        (Entry::Give, none, away),
        (Entry::Give, &[(1, 8)], [None, Some(8), None]),
        (
            said(Call::DqBuf { t: 1 }, TAKEN),
            none,
            [None, Some(8), None],
        ),
        (said(qbuf(1), Reply::Done), none, away),
        (
            said(Call::StreamOff { t: 1 }, Reply::Done),
            &[(0, 7), (1, 8)],
            both,
        ),
        (
            said(Call::ReqBufs { t: 1, m: 1, n: 1 }, Reply::Count(1)),
            &[(0, 9)],
            [Some(7), None, Some(9)],
        ),
        (said(Call::Munmap { m }, Reply::Done), none, nine),
        (said(Call::CloseHandle, Reply::Done), none, nine),
        (said(OPEN, Reply::Done), none, away),
    ] {
        happen(rt.alloc(), &mut kept, &mut home, &entry, come)?;
        let tags = [
            tag_of(home.get(0)),
            tag_of(home.get(1)),
            tag_of(home.get(2)),
        ];
        let legal = is_legal(&mut local, &entry)?;
        assert_eq!(rt; (legal, tags), (true, at_home));
    }
    Ok(())
}

// The lines that a log has, with their replies.
fn told(alloc: Global, log: &LegalLog) -> Result<Vec<(u32, Reply)>, Fail> {
    let mut lines = Vec::new(alloc);
    for entry in log.log() {
        if let Entry::Called { line, reply, .. } = entry {
            lines.push((*line, *reply))?;
        }
    }
    Ok(lines)
}

#[test]
fn lines_are_logged_with_their_replies(rt: HostRuntime) -> Result<(), Fail> {
    let u = Name::new(b"u").ok_or("no name")?;
    let mut log = LegalLog::make(rt.alloc(), Model::Capture, 3)?;
    let mut held = Vec::new(rt.alloc());
    log.begin_line();
    log.reply(1, &OPEN, &Reply::Done, &mut held);
    log.begin_line();
    let made = Mem::OfFrame(Frame::make_zero(rt.alloc(), 7, 16)?);
    log.allocate(
        2,
        &Call::UAlloc { u, len: 16, off: 0 },
        &Reply::Pages(1),
        made,
    );
    log.begin_line();
    let Leased::Out(mut lease) = log.lease(3, &Call::Fill { m: u, seed: 93 }) else {
        return Err(Fail::from("no lease"));
    };
    lease.apply();
    let other = log.give_back(lease).is_err();
    let lines = told(rt.alloc(), &log)?;
    assert_eq!(rt; other, false);
    let said = [(1, Reply::Done), (2, Reply::Pages(1)), (3, Reply::Done)];
    assert_eq!(rt; lines.as_slice(), said.as_slice());
    Ok(())
}

#[test]
fn a_line_on_no_memory_is_refused(rt: HostRuntime) -> Result<(), Fail> {
    let m = Name::new(b"m").ok_or("no name")?;
    let mut log = LegalLog::make(rt.alloc(), Model::Capture, 1)?;
    log.begin_line();
    let leased = log.lease(1, &Call::Hash { m });
    let lines = told(rt.alloc(), &log)?;
    assert!(rt; matches!(leased, Leased::Answered));
    let said = [(1, Reply::Refused(Errno::Efault))];
    assert_eq!(rt; lines.as_slice(), said.as_slice());
    Ok(())
}
