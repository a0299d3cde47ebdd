use super::{CAP, first_refused, first_refused_with};
use crate::{Call, Entry, Reply};
use std::test::Fail;
use v4l_const::{Errno, MEMORY_MMAP, Model};

/// A queue gets 32 buffers at most.
#[test]
fn many_buffers(rt: HostRuntime) -> Result<(), Fail> {
    let log = [
        Entry::Called {
            line: 1,
            call: Call::OpenHandle { nonblock: false },
            reply: Reply::Done,
        },
        Entry::Called {
            line: 2,
            call: Call::ReqBufs {
                t: CAP,
                m: MEMORY_MMAP,
                n: 40,
            },
            reply: Reply::Count(32),
        },
        Entry::Called {
            line: 3,
            call: Call::QBuf {
                t: CAP,
                i: 0,
                user: None,
                used: 0,
                ts: 0,
            },
            reply: Reply::Done,
        },
        Entry::Called {
            line: 4,
            call: Call::StreamOn { t: CAP },
            reply: Reply::Done,
        },
        Entry::Called {
            line: 5,
            call: Call::ReqBufs {
                t: CAP,
                m: MEMORY_MMAP,
                n: 1,
            },
            reply: Reply::Refused(Errno::Ebusy),
        },
        Entry::Finish,
        Entry::Give,
        Entry::Give,
        Entry::Called {
            line: 6,
            call: Call::ReqBufs {
                t: CAP,
                m: MEMORY_MMAP,
                n: 0,
            },
            reply: Reply::Count(0),
        },
        Entry::Called {
            line: 7,
            call: Call::DqBuf { t: CAP },
            reply: Reply::Refused(Errno::Einval),
        },
    ];
    assert_eq!(rt; first_refused(rt.alloc(), Model::Capture, &log), None);
    for (place, wrong) in [
        (
            1,
            Entry::Called {
                line: 2,
                call: Call::ReqBufs {
                    t: CAP,
                    m: MEMORY_MMAP,
                    n: 40,
                },
                reply: Reply::Count(40),
            },
        ),
        (
            4,
            Entry::Called {
                line: 5,
                call: Call::ReqBufs {
                    t: CAP,
                    m: MEMORY_MMAP,
                    n: 1,
                },
                reply: Reply::Count(1),
            },
        ),
        (
            9,
            Entry::Called {
                line: 7,
                call: Call::DqBuf { t: CAP },
                reply: Reply::Refused(Errno::Eagain),
            },
        ),
    ] {
        assert_eq!(rt;
            first_refused_with(rt.alloc(), Model::Capture, &log, place, wrong),
            Some(place),
            "at {place}"
        );
    }
    Ok(())
}

/// A buffer is queued once, until it is dequeued.
#[test]
fn buffer_states(rt: HostRuntime) -> Result<(), Fail> {
    let log = [
        Entry::Called {
            line: 1,
            call: Call::OpenHandle { nonblock: false },
            reply: Reply::Done,
        },
        Entry::Called {
            line: 2,
            call: Call::ReqBufs {
                t: CAP,
                m: MEMORY_MMAP,
                n: 2,
            },
            reply: Reply::Count(2),
        },
        Entry::Called {
            line: 3,
            call: Call::QBuf {
                t: CAP,
                i: 0,
                user: None,
                used: 0,
                ts: 0,
            },
            reply: Reply::Done,
        },
        Entry::Called {
            line: 4,
            call: Call::QueryBuf { t: CAP, i: 0 },
            reply: Reply::Buf {
                length: 3072,
                flags: 0x2002,
            },
        },
        Entry::Called {
            line: 5,
            call: Call::QBuf {
                t: CAP,
                i: 0,
                user: None,
                used: 0,
                ts: 0,
            },
            reply: Reply::Refused(Errno::Einval),
        },
        Entry::Called {
            line: 6,
            call: Call::QBuf {
                t: CAP,
                i: 1,
                user: None,
                used: 0,
                ts: 0,
            },
            reply: Reply::Done,
        },
        Entry::Called {
            line: 7,
            call: Call::StreamOn { t: CAP },
            reply: Reply::Done,
        },
        Entry::Finish,
        Entry::Give,
        Entry::Give,
        Entry::Called {
            line: 8,
            call: Call::DqBuf { t: CAP },
            reply: Reply::Frame {
                index: 0,
                used: 3072,
                seq: 0,
                ts: 0,
                flags: 0x2000,
            },
        },
        Entry::Called {
            line: 9,
            call: Call::QBuf {
                t: CAP,
                i: 1,
                user: None,
                used: 0,
                ts: 0,
            },
            reply: Reply::Refused(Errno::Einval),
        },
    ];
    assert_eq!(rt; first_refused(rt.alloc(), Model::Capture, &log), None);
    for (place, wrong) in [
        (
            3,
            Entry::Called {
                line: 4,
                call: Call::QueryBuf { t: CAP, i: 0 },
                reply: Reply::Buf {
                    length: 3072,
                    flags: 0x2000,
                },
            },
        ),
        (
            4,
            Entry::Called {
                line: 5,
                call: Call::QBuf {
                    t: CAP,
                    i: 0,
                    user: None,
                    used: 0,
                    ts: 0,
                },
                reply: Reply::Done,
            },
        ),
        (
            10,
            Entry::Called {
                line: 8,
                call: Call::DqBuf { t: CAP },
                reply: Reply::Frame {
                    index: 1,
                    used: 3072,
                    seq: 0,
                    ts: 0,
                    flags: 0x2000,
                },
            },
        ),
        (
            11,
            Entry::Called {
                line: 9,
                call: Call::QBuf {
                    t: CAP,
                    i: 1,
                    user: None,
                    used: 0,
                    ts: 0,
                },
                reply: Reply::Done,
            },
        ),
    ] {
        assert_eq!(rt;
            first_refused_with(rt.alloc(), Model::Capture, &log, place, wrong),
            Some(place),
            "at {place}"
        );
    }
    Ok(())
}

/// A blocking handle would wait for ever.
#[test]
fn nothing_to_wait_for(rt: HostRuntime) -> Result<(), Fail> {
    let log = [
        Entry::Called {
            line: 1,
            call: Call::OpenHandle { nonblock: false },
            reply: Reply::Done,
        },
        Entry::Called {
            line: 2,
            call: Call::ReqBufs {
                t: CAP,
                m: MEMORY_MMAP,
                n: 1,
            },
            reply: Reply::Count(1),
        },
        Entry::Called {
            line: 3,
            call: Call::StreamOn { t: CAP },
            reply: Reply::Done,
        },
        Entry::Called {
            line: 4,
            call: Call::DqBuf { t: CAP },
            reply: Reply::Refused(Errno::Edeadlk),
        },
        Entry::Called {
            line: 5,
            call: Call::StreamOff { t: CAP },
            reply: Reply::Done,
        },
        Entry::Called {
            line: 6,
            call: Call::DqBuf { t: CAP },
            reply: Reply::Refused(Errno::Einval),
        },
    ];
    assert_eq!(rt; first_refused(rt.alloc(), Model::Capture, &log), None);
    for (place, wrong) in [
        (
            3,
            Entry::Called {
                line: 4,
                call: Call::DqBuf { t: CAP },
                reply: Reply::Refused(Errno::Eagain),
            },
        ),
        (
            5,
            Entry::Called {
                line: 6,
                call: Call::DqBuf { t: CAP },
                reply: Reply::Refused(Errno::Edeadlk),
            },
        ),
    ] {
        assert_eq!(rt;
            first_refused_with(rt.alloc(), Model::Capture, &log, place, wrong),
            Some(place),
            "at {place}"
        );
    }
    Ok(())
}

/// A handle that does not block.
#[test]
fn nothing_done(rt: HostRuntime) -> Result<(), Fail> {
    let log = [
        Entry::Called {
            line: 7,
            call: Call::OpenHandle { nonblock: true },
            reply: Reply::Done,
        },
        Entry::Called {
            line: 8,
            call: Call::ReqBufs {
                t: CAP,
                m: MEMORY_MMAP,
                n: 1,
            },
            reply: Reply::Count(1),
        },
        Entry::Called {
            line: 9,
            call: Call::StreamOn { t: CAP },
            reply: Reply::Done,
        },
        Entry::Called {
            line: 10,
            call: Call::DqBuf { t: CAP },
            reply: Reply::Refused(Errno::Eagain),
        },
    ];
    assert_eq!(rt; first_refused(rt.alloc(), Model::Capture, &log), None);
    for (place, wrong) in [(
        3,
        Entry::Called {
            line: 10,
            call: Call::DqBuf { t: CAP },
            reply: Reply::Refused(Errno::Edeadlk),
        },
    )] {
        assert_eq!(rt;
            first_refused_with(rt.alloc(), Model::Capture, &log, place, wrong),
            Some(place),
            "at {place}"
        );
    }
    Ok(())
}
