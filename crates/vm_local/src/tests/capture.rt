use super::{CAP, GREY, first_refused, first_refused_with, name, small};
use crate::{Call, Entry, Reply};
use std::test::Fail;
use v4l_const::{Errno, MEMORY_MMAP, Model};
use v4l_format::Fmt;

/// A camera fills four buffers in turn.
#[test]
fn four_buffers(rt: HostRuntime) -> Result<(), Fail> {
    let m0 = name(b"m0");
    let m1 = name(b"m1");
    let m2 = name(b"m2");
    let m3 = name(b"m3");
    let bytes_0 = small(&[0x00, 0x01, 0x02, 0x03, 0x04, 0x05, 0x06, 0x07]);
    let bytes_1 = small(&[0x01, 0x02, 0x03, 0x04, 0x05, 0x06, 0x07, 0x08]);
    let bytes_2 = small(&[0x02, 0x03, 0x04, 0x05, 0x06, 0x07, 0x08, 0x09]);
    let bytes_3 = small(&[0x03, 0x04, 0x05, 0x06, 0x07, 0x08, 0x09, 0x0a]);
    let bytes_4 = small(&[0x02, 0x02, 0x03, 0x04, 0x05, 0x06, 0x07, 0x08]);
    let log = [
        Entry::Called {
            line: 1,
            call: Call::OpenHandle { nonblock: false },
            reply: Reply::Done,
        },
        Entry::Called {
            line: 2,
            call: Call::SFmt {
                t: CAP,
                f: GREY,
                w: 16,
                h: 16,
            },
            reply: Reply::Format {
                f: Fmt {
                    code: GREY,
                    width: 16,
                    height: 16,
                },
                line: 16,
                size: 256,
            },
        },
        Entry::Called {
            line: 3,
            call: Call::SInput { i: 1 },
            reply: Reply::InputIs(1),
        },
        Entry::Called {
            line: 4,
            call: Call::ReqBufs {
                t: CAP,
                m: MEMORY_MMAP,
                n: 4,
            },
            reply: Reply::Count(4),
        },
        Entry::Called {
            line: 5,
            call: Call::Mmap {
                m: m0,
                t: CAP,
                i: 0,
                ro: false,
            },
            reply: Reply::Mapped {
                addr: 0x0,
                length: 256,
            },
        },
        Entry::Called {
            line: 6,
            call: Call::Mmap {
                m: m1,
                t: CAP,
                i: 1,
                ro: false,
            },
            reply: Reply::Mapped {
                addr: 0x1000,
                length: 256,
            },
        },
        Entry::Called {
            line: 7,
            call: Call::Mmap {
                m: m2,
                t: CAP,
                i: 2,
                ro: false,
            },
            reply: Reply::Mapped {
                addr: 0x2000,
                length: 256,
            },
        },
        Entry::Called {
            line: 8,
            call: Call::Mmap {
                m: m3,
                t: CAP,
                i: 3,
                ro: false,
            },
            reply: Reply::Mapped {
                addr: 0x3000,
                length: 256,
            },
        },
        Entry::Called {
            line: 9,
            call: Call::QBuf {
                t: CAP,
                i: 0,
                user: None,
                used: 0,
                ts: 0,
            },
            reply: Reply::Done,
        },
        Entry::Called {
            line: 10,
            call: Call::QBuf {
                t: CAP,
                i: 1,
                user: None,
                used: 0,
                ts: 0,
            },
            reply: Reply::Done,
        },
        Entry::Called {
            line: 11,
            call: Call::QBuf {
                t: CAP,
                i: 2,
                user: None,
                used: 0,
                ts: 0,
            },
            reply: Reply::Done,
        },
        Entry::Called {
            line: 12,
            call: Call::QBuf {
                t: CAP,
                i: 3,
                user: None,
                used: 0,
                ts: 0,
            },
            reply: Reply::Done,
        },
        Entry::Called {
            line: 13,
            call: Call::StreamOn { t: CAP },
            reply: Reply::Done,
        },
        Entry::Finish,
        Entry::Give,
        Entry::Give,
        Entry::Called {
            line: 14,
            call: Call::DqBuf { t: CAP },
            reply: Reply::Frame {
                index: 0,
                used: 256,
                seq: 0,
                ts: 0,
                flags: 0x2001,
            },
        },
        Entry::Called {
            line: 15,
            call: Call::Peek {
                m: m0,
                off: 0,
                len: 8,
            },
            reply: Reply::Bytes(bytes_0),
        },
        Entry::Finish,
        Entry::Give,
        Entry::Called {
            line: 16,
            call: Call::QBuf {
                t: CAP,
                i: 0,
                user: None,
                used: 0,
                ts: 0,
            },
            reply: Reply::Done,
        },
        Entry::Give,
        Entry::Finish,
        Entry::Give,
        Entry::Give,
        Entry::Finish,
        Entry::Give,
        Entry::Give,
        Entry::Called {
            line: 17,
            call: Call::DqBuf { t: CAP },
            reply: Reply::Frame {
                index: 1,
                used: 256,
                seq: 1,
                ts: 40000,
                flags: 0x2001,
            },
        },
        Entry::Called {
            line: 18,
            call: Call::Peek {
                m: m1,
                off: 0,
                len: 8,
            },
            reply: Reply::Bytes(bytes_1),
        },
        Entry::Called {
            line: 19,
            call: Call::QBuf {
                t: CAP,
                i: 1,
                user: None,
                used: 0,
                ts: 0,
            },
            reply: Reply::Done,
        },
        Entry::Finish,
        Entry::Give,
        Entry::Give,
        Entry::Called {
            line: 20,
            call: Call::DqBuf { t: CAP },
            reply: Reply::Frame {
                index: 2,
                used: 256,
                seq: 2,
                ts: 80000,
                flags: 0x2001,
            },
        },
        Entry::Called {
            line: 21,
            call: Call::Peek {
                m: m2,
                off: 0,
                len: 8,
            },
            reply: Reply::Bytes(bytes_2),
        },
        Entry::Called {
            line: 22,
            call: Call::QBuf {
                t: CAP,
                i: 2,
                user: None,
                used: 0,
                ts: 0,
            },
            reply: Reply::Done,
        },
        Entry::Finish,
        Entry::Give,
        Entry::Called {
            line: 23,
            call: Call::DqBuf { t: CAP },
            reply: Reply::Frame {
                index: 3,
                used: 256,
                seq: 3,
                ts: 120000,
                flags: 0x2001,
            },
        },
        Entry::Called {
            line: 24,
            call: Call::Peek {
                m: m3,
                off: 0,
                len: 8,
            },
            reply: Reply::Bytes(bytes_3),
        },
        Entry::Give,
        Entry::Called {
            line: 25,
            call: Call::QBuf {
                t: CAP,
                i: 3,
                user: None,
                used: 0,
                ts: 0,
            },
            reply: Reply::Done,
        },
        Entry::Finish,
        Entry::Give,
        Entry::Give,
        Entry::Called {
            line: 26,
            call: Call::StreamOff { t: CAP },
            reply: Reply::Done,
        },
        Entry::Called {
            line: 27,
            call: Call::Munmap { m: m0 },
            reply: Reply::Done,
        },
        Entry::Called {
            line: 28,
            call: Call::Munmap { m: m1 },
            reply: Reply::Done,
        },
        Entry::Called {
            line: 29,
            call: Call::Munmap { m: m2 },
            reply: Reply::Done,
        },
        Entry::Called {
            line: 30,
            call: Call::Munmap { m: m3 },
            reply: Reply::Done,
        },
        Entry::Called {
            line: 31,
            call: Call::CloseHandle,
            reply: Reply::Done,
        },
    ];
    assert_eq!(rt; first_refused(rt.alloc(), Model::Capture, &log), None);
    for (place, wrong) in [
        (13, Entry::Give),
        (
            16,
            Entry::Called {
                line: 14,
                call: Call::DqBuf { t: CAP },
                reply: Reply::Frame {
                    index: 1,
                    used: 256,
                    seq: 0,
                    ts: 0,
                    flags: 0x2001,
                },
            },
        ),
        (
            28,
            Entry::Called {
                line: 17,
                call: Call::DqBuf { t: CAP },
                reply: Reply::Frame {
                    index: 1,
                    used: 256,
                    seq: 1,
                    ts: 40000,
                    flags: 0x2000,
                },
            },
        ),
        (
            29,
            Entry::Called {
                line: 18,
                call: Call::Peek {
                    m: m1,
                    off: 0,
                    len: 8,
                },
                reply: Reply::Bytes(bytes_4),
            },
        ),
        (
            34,
            Entry::Called {
                line: 20,
                call: Call::DqBuf { t: CAP },
                reply: Reply::Frame {
                    index: 2,
                    used: 256,
                    seq: 3,
                    ts: 80000,
                    flags: 0x2001,
                },
            },
        ),
        (
            39,
            Entry::Called {
                line: 23,
                call: Call::DqBuf { t: CAP },
                reply: Reply::Frame {
                    index: 3,
                    used: 256,
                    seq: 3,
                    ts: 80000,
                    flags: 0x2001,
                },
            },
        ),
    ] {
        assert_eq!(rt;
            first_refused_with(rt.alloc(), Model::Capture, &log, place, wrong),
            Some(place),
            "at {place}"
        );
    }
    Ok(())
}

/// No frame of a stopped stream is seen, and frames count from 0 again.
#[test]
fn after_a_stop(rt: HostRuntime) -> Result<(), Fail> {
    let log = [
        Entry::Called {
            line: 1,
            call: Call::OpenHandle { nonblock: false },
            reply: Reply::Done,
        },
        Entry::Called {
            line: 2,
            call: Call::SFmt {
                t: CAP,
                f: GREY,
                w: 16,
                h: 16,
            },
            reply: Reply::Format {
                f: Fmt {
                    code: GREY,
                    width: 16,
                    height: 16,
                },
                line: 16,
                size: 256,
            },
        },
        Entry::Called {
            line: 3,
            call: Call::ReqBufs {
                t: CAP,
                m: MEMORY_MMAP,
                n: 1,
            },
            reply: Reply::Count(1),
        },
        Entry::Called {
            line: 4,
            call: Call::QBuf {
                t: CAP,
                i: 0,
                user: None,
                used: 0,
                ts: 0,
            },
            reply: Reply::Done,
        },
        Entry::Called {
            line: 5,
            call: Call::StreamOn { t: CAP },
            reply: Reply::Done,
        },
        Entry::Finish,
        Entry::Give,
        Entry::Give,
        Entry::Called {
            line: 6,
            call: Call::StreamOff { t: CAP },
            reply: Reply::Done,
        },
        Entry::Called {
            line: 7,
            call: Call::QBuf {
                t: CAP,
                i: 0,
                user: None,
                used: 0,
                ts: 0,
            },
            reply: Reply::Done,
        },
        Entry::Called {
            line: 8,
            call: Call::StreamOn { t: CAP },
            reply: Reply::Done,
        },
        Entry::Finish,
        Entry::Give,
        Entry::Give,
        Entry::Called {
            line: 9,
            call: Call::DqBuf { t: CAP },
            reply: Reply::Frame {
                index: 0,
                used: 256,
                seq: 0,
                ts: 0,
                flags: 0x2000,
            },
        },
    ];
    assert_eq!(rt; first_refused(rt.alloc(), Model::Capture, &log), None);
    for (place, wrong) in [
        (
            14,
            Entry::Called {
                line: 9,
                call: Call::DqBuf { t: CAP },
                reply: Reply::Frame {
                    index: 0,
                    used: 256,
                    seq: 1,
                    ts: 0,
                    flags: 0x2000,
                },
            },
        ),
        (8, Entry::Finish),
    ] {
        assert_eq!(rt;
            first_refused_with(rt.alloc(), Model::Capture, &log, place, wrong),
            Some(place),
            "at {place}"
        );
    }
    Ok(())
}

/// The same where the frame was given before the stop.
#[test]
fn after_a_stop_that_came_late(rt: HostRuntime) -> Result<(), Fail> {
    let log = [
        Entry::Called {
            line: 1,
            call: Call::OpenHandle { nonblock: false },
            reply: Reply::Done,
        },
        Entry::Called {
            line: 2,
            call: Call::SFmt {
                t: CAP,
                f: GREY,
                w: 16,
                h: 16,
            },
            reply: Reply::Format {
                f: Fmt {
                    code: GREY,
                    width: 16,
                    height: 16,
                },
                line: 16,
                size: 256,
            },
        },
        Entry::Called {
            line: 3,
            call: Call::ReqBufs {
                t: CAP,
                m: MEMORY_MMAP,
                n: 1,
            },
            reply: Reply::Count(1),
        },
        Entry::Called {
            line: 4,
            call: Call::QBuf {
                t: CAP,
                i: 0,
                user: None,
                used: 0,
                ts: 0,
            },
            reply: Reply::Done,
        },
        Entry::Called {
            line: 5,
            call: Call::StreamOn { t: CAP },
            reply: Reply::Done,
        },
        Entry::Finish,
        Entry::Give,
        Entry::Give,
        Entry::Called {
            line: 6,
            call: Call::StreamOff { t: CAP },
            reply: Reply::Done,
        },
        Entry::Called {
            line: 7,
            call: Call::QBuf {
                t: CAP,
                i: 0,
                user: None,
                used: 0,
                ts: 0,
            },
            reply: Reply::Done,
        },
        Entry::Called {
            line: 8,
            call: Call::StreamOn { t: CAP },
            reply: Reply::Done,
        },
        Entry::Finish,
        Entry::Give,
        Entry::Give,
        Entry::Called {
            line: 9,
            call: Call::DqBuf { t: CAP },
            reply: Reply::Frame {
                index: 0,
                used: 256,
                seq: 0,
                ts: 0,
                flags: 0x2000,
            },
        },
    ];
    assert_eq!(rt; first_refused(rt.alloc(), Model::Capture, &log), None);
    for (place, wrong) in [(
        14,
        Entry::Called {
            line: 9,
            call: Call::DqBuf { t: CAP },
            reply: Reply::Frame {
                index: 0,
                used: 256,
                seq: 1,
                ts: 0,
                flags: 0x2000,
            },
        },
    )] {
        assert_eq!(rt;
            first_refused_with(rt.alloc(), Model::Capture, &log, place, wrong),
            Some(place),
            "at {place}"
        );
    }
    Ok(())
}

/// An event tells of a frame.
#[test]
fn events(rt: HostRuntime) -> Result<(), Fail> {
    let log = [
        Entry::Called {
            line: 1,
            call: Call::OpenHandle { nonblock: false },
            reply: Reply::Done,
        },
        Entry::Called {
            line: 2,
            call: Call::Subscribe { e: 3 },
            reply: Reply::Refused(Errno::Einval),
        },
        Entry::Called {
            line: 3,
            call: Call::Subscribe { e: 4 },
            reply: Reply::Done,
        },
        Entry::Called {
            line: 4,
            call: Call::ReqBufs {
                t: CAP,
                m: MEMORY_MMAP,
                n: 1,
            },
            reply: Reply::Count(1),
        },
        Entry::Called {
            line: 5,
            call: Call::QBuf {
                t: CAP,
                i: 0,
                user: None,
                used: 0,
                ts: 0,
            },
            reply: Reply::Done,
        },
        Entry::Called {
            line: 6,
            call: Call::StreamOn { t: CAP },
            reply: Reply::Done,
        },
        Entry::Finish,
        Entry::Give,
        Entry::Give,
        Entry::Called {
            line: 7,
            call: Call::DqBuf { t: CAP },
            reply: Reply::Frame {
                index: 0,
                used: 3072,
                seq: 0,
                ts: 0,
                flags: 0x2000,
            },
        },
        Entry::Called {
            line: 8,
            call: Call::DqEvent,
            reply: Reply::Event {
                kind: 4,
                frame: 0,
                pending: 0,
                seq: 0,
            },
        },
        Entry::Called {
            line: 9,
            call: Call::DqEvent,
            reply: Reply::Refused(Errno::Enoent),
        },
        Entry::Called {
            line: 10,
            call: Call::Subscribe { e: 0 },
            reply: Reply::Refused(Errno::Einval),
        },
        Entry::Called {
            line: 11,
            call: Call::Unsubscribe { e: 3 },
            reply: Reply::Refused(Errno::Einval),
        },
        Entry::Called {
            line: 12,
            call: Call::Unsubscribe { e: 0 },
            reply: Reply::Done,
        },
    ];
    assert_eq!(rt; first_refused(rt.alloc(), Model::Capture, &log), None);
    for (place, wrong) in [
        (6, Entry::Give),
        (
            10,
            Entry::Called {
                line: 8,
                call: Call::DqEvent,
                reply: Reply::Event {
                    kind: 4,
                    frame: 0,
                    pending: 0,
                    seq: 1,
                },
            },
        ),
        (
            10,
            Entry::Called {
                line: 8,
                call: Call::DqEvent,
                reply: Reply::Event {
                    kind: 4,
                    frame: 0,
                    pending: 1,
                    seq: 0,
                },
            },
        ),
        (
            11,
            Entry::Called {
                line: 9,
                call: Call::DqEvent,
                reply: Reply::Refused(Errno::Eagain),
            },
        ),
        (
            1,
            Entry::Called {
                line: 2,
                call: Call::Subscribe { e: 3 },
                reply: Reply::Done,
            },
        ),
    ] {
        assert_eq!(rt;
            first_refused_with(rt.alloc(), Model::Capture, &log, place, wrong),
            Some(place),
            "at {place}"
        );
    }
    Ok(())
}
