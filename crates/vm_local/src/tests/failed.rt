use super::{CAP, OUT, first_refused, first_refused_with, name, small};
use crate::{Call, Entry, Name, Reply};
use std::test::Fail;
use v4l_const::{Errno, MEMORY_MMAP, Model};

fn called(line: u32, call: Call, reply: Reply) -> Entry {
    Entry::Called { line, call, reply }
}

fn request(t: u32, n: u32) -> Call {
    Call::ReqBufs {
        t,
        m: MEMORY_MMAP,
        n,
    }
}

fn queue(t: u32, i: u32, used: u32, ts: u32) -> Call {
    Call::QBuf {
        t,
        i,
        user: None,
        used,
        ts,
    }
}

fn query(t: u32, i: u32) -> Call {
    Call::QueryBuf { t, i }
}

fn take(t: u32) -> Call {
    Call::DqBuf { t }
}

fn read(m: &Name) -> Call {
    Call::Peek {
        m: *m,
        off: 0,
        len: 4,
    }
}

fn buffer(flags: u32) -> Reply {
    Reply::Buf {
        length: 3072,
        flags,
    }
}

fn frame(index: u32, used: u32, seq: u32, ts: u64, flags: u32) -> Reply {
    Reply::Frame {
        index,
        used,
        seq,
        ts,
        flags,
    }
}

fn event(frame: u32, seq: u32) -> Reply {
    Reply::Event {
        kind: 4,
        frame,
        pending: 0,
        seq,
    }
}

/// A camera fails at its second picture: the buffer has the mark and no byte in use, keeps its
/// bytes, and no event tells of it.
#[test]
fn failed_picture(rt: HostRuntime) -> Result<(), Fail> {
    let m1 = name(b"m1");
    let filled = small(&[0x09, 0x10, 0x17, 0x1e]);
    let pattern = small(&[0x01, 0x02, 0x03, 0x04]);
    let map = Call::Mmap {
        m: m1,
        t: CAP,
        i: 1,
        ro: false,
    };
    let mapped = Reply::Mapped {
        addr: 0,
        length: 3072,
    };
    let log = [
        called(1, Call::OpenHandle { nonblock: false }, Reply::Done),
        called(2, Call::Subscribe { e: 4 }, Reply::Done),
        called(3, request(CAP, 2), Reply::Count(2)),
        called(4, map, mapped),
        called(5, Call::Fill { m: m1, seed: 9 }, Reply::Done),
        called(6, queue(CAP, 0, 0, 0), Reply::Done),
        called(7, queue(CAP, 1, 0, 0), Reply::Done),
        called(8, Call::StreamOn { t: CAP }, Reply::Done),
        Entry::Finish,
        Entry::Give,
        Entry::Give,
        Entry::Bad,
        Entry::Give,
        called(9, query(CAP, 1), buffer(0x2045)),
        called(10, take(CAP), frame(0, 3072, 0, 0, 0x2000)),
        called(11, take(CAP), frame(1, 0, 1, 40_000, 0x2041)),
        called(12, read(&m1), Reply::Bytes(filled)),
        called(13, Call::DqEvent, event(0, 0)),
        called(14, Call::DqEvent, Reply::Refused(Errno::Enoent)),
        called(15, Call::StreamOff { t: CAP }, Reply::Done),
        called(16, query(CAP, 1), buffer(0x2041)),
        called(17, queue(CAP, 1, 0, 0), Reply::Done),
        called(18, query(CAP, 1), buffer(0x2003)),
    ];
    assert_eq!(rt; first_refused(rt.alloc(), Model::Capture, &log), None);
    for (place, wrong) in [
        (13, Entry::Give),
        (13, Entry::Bad),
        (13, called(9, query(CAP, 1), buffer(0x2005))),
        (15, called(11, take(CAP), frame(1, 3072, 1, 40_000, 0x2041))),
        (15, called(11, take(CAP), frame(1, 0, 1, 40_000, 0x2001))),
        (15, called(11, take(CAP), frame(1, 0, 1, 0, 0x2041))),
        (16, called(12, read(&m1), Reply::Bytes(pattern))),
        (18, called(14, Call::DqEvent, event(1, 1))),
        (20, called(16, query(CAP, 1), buffer(0x2001))),
        (22, called(18, query(CAP, 1), buffer(0x2043))),
    ] {
        assert_eq!(rt;
            first_refused_with(rt.alloc(), Model::Capture, &log, place, wrong),
            Some(place),
            "at {place}"
        );
    }
    Ok(())
}

/// A converter fails: both buffers have the mark and the timestamp of the source, which keeps its
/// bytes in use.
#[test]
fn failed_conversion(rt: HostRuntime) -> Result<(), Fail> {
    let log = [
        called(1, Call::OpenHandle { nonblock: false }, Reply::Done),
        called(2, request(OUT, 1), Reply::Count(1)),
        called(3, request(CAP, 1), Reply::Count(1)),
        called(4, queue(OUT, 0, 7, 5), Reply::Done),
        called(5, queue(CAP, 0, 0, 0), Reply::Done),
        called(6, Call::StreamOn { t: OUT }, Reply::Done),
        called(7, Call::StreamOn { t: CAP }, Reply::Done),
        Entry::Bad,
        Entry::Give,
        Entry::Give,
        called(8, query(OUT, 0), buffer(0x4044)),
        called(9, take(CAP), frame(0, 0, 0, 5, 0x4040)),
        called(10, take(OUT), frame(0, 7, 0, 5, 0x4040)),
        called(11, queue(OUT, 0, 0, 6), Reply::Done),
        called(12, queue(CAP, 0, 0, 0), Reply::Done),
        Entry::Finish,
        Entry::Give,
        Entry::Give,
        called(13, take(CAP), frame(0, 3072, 1, 6, 0x4000)),
        called(14, take(OUT), frame(0, 3072, 1, 6, 0x4000)),
    ];
    assert_eq!(rt; first_refused(rt.alloc(), Model::Convert, &log), None);
    for (place, wrong) in [
        (9, called(9, take(CAP), frame(0, 0, 0, 5, 0x4040))),
        (10, Entry::Give),
        (10, called(8, query(OUT, 0), buffer(0x4004))),
        (11, called(9, take(CAP), frame(0, 3072, 0, 5, 0x4040))),
        (11, called(9, take(CAP), frame(0, 0, 0, 5, 0x4000))),
        (12, called(10, take(OUT), frame(0, 0, 0, 5, 0x4040))),
        (12, called(10, take(OUT), frame(0, 7, 0, 5, 0x4000))),
        (12, called(10, take(OUT), frame(0, 7, 0, 0, 0x4040))),
        (18, called(13, take(CAP), frame(0, 3072, 0, 6, 0x4000))),
    ] {
        assert_eq!(rt;
            first_refused_with(rt.alloc(), Model::Convert, &log, place, wrong),
            Some(place),
            "at {place}"
        );
    }
    Ok(())
}
