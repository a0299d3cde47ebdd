use super::{CAP, GREY, name};
use crate::{Call, Entry, Record, Reply};
use std::test::Fail;
use v4l_const::{EVENT_FRAME_SYNC, Errno, MEMORY_MMAP, Model};
use v4l_format::Fmt;

/// The flag MAPPED, with that of a camera's timestamps.
const MAPPED: u32 = 0x2001;

const QUEUED: u32 = 0x2;

const DONE: u32 = 0x4;

const ERROR: u32 = 0x40;

/// What a record tells of the first buffer of a queue and of the first memory.
#[derive(Clone, Copy, Debug, PartialEq, Eq)]
struct Told {
    /// Why the buffer may not be asked for.
    query: Option<Errno>,
    /// Why it may not be queued.
    queue: Option<Errno>,
    flags: u32,
    /// How many bytes the memory has.
    bytes: u32,
    is_lent: bool,
    is_live: bool,
    made: u64,
}

fn answers(record: &Record) -> Told {
    Told {
        query: record.refusal(&Call::QueryBuf { t: CAP, i: 0 }),
        queue: record.refusal(&queue()),
        flags: record.flags_of(&record.buffer_of(CAP, 0)),
        bytes: record.length_of(0),
        is_lent: record.is_lent(0),
        is_live: record.is_live(0),
        made: record.memories_made(),
    }
}

fn called(call: Call, reply: Reply) -> Entry {
    Entry::Called {
        line: 1,
        call,
        reply,
    }
}

fn queue() -> Call {
    Call::QBuf {
        t: CAP,
        i: 0,
        user: None,
        used: 0,
        ts: 0,
    }
}

fn request(n: u32) -> Call {
    Call::ReqBufs {
        t: CAP,
        m: MEMORY_MMAP,
        n,
    }
}

fn grey(width: u32, height: u32) -> Fmt {
    Fmt {
        code: GREY,
        width,
        height,
    }
}

/// Moves by an entry, where there is room.
fn follow(record: &mut Record, entry: &Entry) -> Told {
    if record.room() > 0 {
        record.after(entry);
    }
    answers(record)
}

/// A record tells what a handle would, after each entry of a log.
#[test]
fn camera(rt: HostRuntime) -> Result<(), Fail> {
    let m = name(b"m");
    let u = name(b"u");
    let shut = Told {
        query: Some(Errno::Ebadf),
        queue: Some(Errno::Ebadf),
        flags: 0x2000,
        bytes: 0,
        is_lent: false,
        is_live: false,
        made: 0,
    };
    let bare = Told {
        query: Some(Errno::Einval),
        queue: Some(Errno::Einval),
        ..shut
    };
    let fresh = Told {
        query: None,
        queue: None,
        bytes: 256,
        is_live: true,
        made: 2,
        ..shut
    };
    let mapped = Told {
        flags: MAPPED,
        ..fresh
    };
    let away = Told {
        queue: Some(Errno::Einval),
        flags: MAPPED | QUEUED,
        is_lent: true,
        ..mapped
    };
    let done = Told {
        flags: MAPPED | DONE,
        is_lent: false,
        ..away
    };
    let freed = Told {
        bytes: 256,
        is_live: true,
        made: 3,
        ..bare
    };
    let mut record = Record::new(rt.alloc(), Model::Capture);
    record.reserve(23)?;
    assert_eq!(rt; answers(&record), shut);
    for (entry, want) in [
        (
            called(
                Call::OpenHandle { nonblock: false },
                Reply::Refused(Errno::Enomem),
            ),
            shut,
        ),
        (
            called(Call::OpenHandle { nonblock: false }, Reply::Done),
            bare,
        ),
        (
            called(
                Call::SFmt {
                    t: CAP,
                    f: GREY,
                    w: 16,
                    h: 16,
                },
                Reply::Format {
                    f: grey(16, 16),
                    line: 16,
                    size: 256,
                },
            ),
            bare,
        ),
        (called(request(2), Reply::Count(2)), fresh),
        (
            called(
                Call::Mmap {
                    m,
                    t: CAP,
                    i: 0,
                    ro: false,
                },
                Reply::Mapped {
                    addr: 4096,
                    length: 256,
                },
            ),
            mapped,
        ),
        (
            called(
                Call::Subscribe {
                    e: EVENT_FRAME_SYNC,
                },
                Reply::Done,
            ),
            mapped,
        ),
        (called(queue(), Reply::Done), away),
        (called(Call::StreamOn { t: CAP }, Reply::Done), away),
        (called(queue(), Reply::Refused(Errno::Einval)), away),
        (Entry::Finish, away),
        (Entry::Give, away),
        (Entry::Give, done),
        (
            called(
                Call::DqEvent,
                Reply::Event {
                    kind: EVENT_FRAME_SYNC,
                    frame: 0,
                    pending: 0,
                    seq: 0,
                },
            ),
            done,
        ),
        (
            called(
                Call::DqBuf { t: CAP },
                Reply::Frame {
                    index: 0,
                    used: 256,
                    seq: 0,
                    ts: 0,
                    flags: MAPPED,
                },
            ),
            mapped,
        ),
        (called(Call::Fill { m, seed: 7 }, Reply::Done), mapped),
        (called(queue(), Reply::Done), away),
        (
            Entry::Bad,
            Told {
                flags: MAPPED | QUEUED | ERROR,
                ..away
            },
        ),
        (
            Entry::Give,
            Told {
                flags: MAPPED | DONE | ERROR,
                ..done
            },
        ),
        (
            called(
                Call::UAlloc {
                    u,
                    len: 300,
                    off: 0,
                },
                Reply::Pages(1),
            ),
            Told {
                flags: MAPPED | DONE | ERROR,
                made: 3,
                ..done
            },
        ),
        (called(request(0), Reply::Count(0)), freed),
        (
            called(Call::Munmap { m }, Reply::Done),
            Told {
                is_live: false,
                ..freed
            },
        ),
        (
            called(Call::CloseHandle, Reply::Done),
            Told {
                bytes: 256,
                made: 3,
                ..shut
            },
        ),
        (
            called(Call::OpenHandle { nonblock: false }, Reply::Done),
            bare,
        ),
    ] {
        assert_eq!(rt; follow(&mut record, &entry), want, "after {entry:?}");
    }
    assert_eq!(rt; record.room(), 0);
    Ok(())
}
