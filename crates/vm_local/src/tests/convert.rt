use super::{CAP, GREY, OUT, RGB3, YUYV, first_refused, first_refused_with, name, small};
use crate::{Call, Entry, Reply};
use std::test::Fail;
use v4l_const::{MEMORY_MMAP, Model};
use v4l_format::Fmt;

/// A converter turns GREY into YUYV.
#[test]
fn grey_to_yuyv(rt: HostRuntime) -> Result<(), Fail> {
    let source = name(b"s");
    let target = name(b"d");
    let bytes_0 = small(&[0x00, 0x80, 0x07, 0x80, 0x0e, 0x80, 0x15, 0x80]);
    let bytes_1 = small(&[0x00, 0x80, 0x08, 0x80, 0x0e, 0x80, 0x15, 0x80]);
    let log = [
        Entry::Called {
            line: 2,
            call: Call::OpenHandle { nonblock: false },
            reply: Reply::Done,
        },
        Entry::Called {
            line: 3,
            call: Call::SFmt {
                t: OUT,
                f: GREY,
                w: 16,
                h: 16,
            },
            reply: Reply::Format {
                f: Fmt {
                    code: GREY,
                    width: 16,
                    height: 16,
                },
                line: 16,
                size: 256,
            },
        },
        Entry::Called {
            line: 4,
            call: Call::SFmt {
                t: CAP,
                f: YUYV,
                w: 99,
                h: 99,
            },
            reply: Reply::Format {
                f: Fmt {
                    code: YUYV,
                    width: 16,
                    height: 16,
                },
                line: 32,
                size: 512,
            },
        },
        Entry::Called {
            line: 5,
            call: Call::ReqBufs {
                t: OUT,
                m: MEMORY_MMAP,
                n: 1,
            },
            reply: Reply::Count(1),
        },
        Entry::Called {
            line: 6,
            call: Call::ReqBufs {
                t: CAP,
                m: MEMORY_MMAP,
                n: 1,
            },
            reply: Reply::Count(1),
        },
        Entry::Called {
            line: 7,
            call: Call::Mmap {
                m: source,
                t: OUT,
                i: 0,
                ro: false,
            },
            reply: Reply::Mapped {
                addr: 0x0,
                length: 256,
            },
        },
        Entry::Called {
            line: 8,
            call: Call::Mmap {
                m: target,
                t: CAP,
                i: 0,
                ro: false,
            },
            reply: Reply::Mapped {
                addr: 0x1000,
                length: 512,
            },
        },
        Entry::Called {
            line: 9,
            call: Call::Fill { m: source, seed: 0 },
            reply: Reply::Done,
        },
        Entry::Called {
            line: 10,
            call: Call::QBuf {
                t: OUT,
                i: 0,
                user: None,
                used: 0,
                ts: 5,
            },
            reply: Reply::Done,
        },
        Entry::Called {
            line: 11,
            call: Call::QBuf {
                t: CAP,
                i: 0,
                user: None,
                used: 0,
                ts: 0,
            },
            reply: Reply::Done,
        },
        Entry::Called {
            line: 12,
            call: Call::StreamOn { t: OUT },
            reply: Reply::Done,
        },
        Entry::Called {
            line: 13,
            call: Call::StreamOn { t: CAP },
            reply: Reply::Done,
        },
        Entry::Finish,
        Entry::Give,
        Entry::Give,
        Entry::Called {
            line: 14,
            call: Call::DqBuf { t: CAP },
            reply: Reply::Frame {
                index: 0,
                used: 512,
                seq: 0,
                ts: 5,
                flags: 0x4001,
            },
        },
        Entry::Called {
            line: 15,
            call: Call::Peek {
                m: target,
                off: 0,
                len: 8,
            },
            reply: Reply::Bytes(bytes_0),
        },
        Entry::Called {
            line: 16,
            call: Call::DqBuf { t: OUT },
            reply: Reply::Frame {
                index: 0,
                used: 256,
                seq: 0,
                ts: 5,
                flags: 0x4001,
            },
        },
    ];
    assert_eq!(rt; first_refused(rt.alloc(), Model::Convert, &log), None);
    for (place, wrong) in [
        (
            2,
            Entry::Called {
                line: 4,
                call: Call::SFmt {
                    t: CAP,
                    f: YUYV,
                    w: 99,
                    h: 99,
                },
                reply: Reply::Format {
                    f: Fmt {
                        code: YUYV,
                        width: 16,
                        height: 16,
                    },
                    line: 32,
                    size: 256,
                },
            },
        ),
        (13, Entry::Finish),
        (
            15,
            Entry::Called {
                line: 14,
                call: Call::DqBuf { t: CAP },
                reply: Reply::Frame {
                    index: 0,
                    used: 512,
                    seq: 0,
                    ts: 0,
                    flags: 0x4001,
                },
            },
        ),
        (
            16,
            Entry::Called {
                line: 15,
                call: Call::Peek {
                    m: target,
                    off: 0,
                    len: 8,
                },
                reply: Reply::Bytes(bytes_1),
            },
        ),
        (
            17,
            Entry::Called {
                line: 16,
                call: Call::DqBuf { t: OUT },
                reply: Reply::Frame {
                    index: 0,
                    used: 256,
                    seq: 0,
                    ts: 5,
                    flags: 0x2001,
                },
            },
        ),
    ] {
        assert_eq!(rt;
            first_refused_with(rt.alloc(), Model::Convert, &log, place, wrong),
            Some(place),
            "at {place}"
        );
    }
    Ok(())
}

/// A converter turns RGB3 into YUYV.
#[test]
fn rgb_to_yuyv(rt: HostRuntime) -> Result<(), Fail> {
    let source = name(b"s");
    let target = name(b"d");
    let bytes_0 = small(&[0xff, 0xff, 0xff, 0xff, 0xff, 0xff]);
    let bytes_1 = small(&[0xeb, 0x80, 0xeb, 0x80, 0x10, 0x80, 0x10, 0x80]);
    let bytes_2 = small(&[0xff, 0x80, 0xeb, 0x80, 0x10, 0x80, 0x10, 0x80]);
    let log = [
        Entry::Called {
            line: 2,
            call: Call::OpenHandle { nonblock: false },
            reply: Reply::Done,
        },
        Entry::Called {
            line: 3,
            call: Call::SFmt {
                t: OUT,
                f: RGB3,
                w: 16,
                h: 16,
            },
            reply: Reply::Format {
                f: Fmt {
                    code: RGB3,
                    width: 16,
                    height: 16,
                },
                line: 48,
                size: 768,
            },
        },
        Entry::Called {
            line: 4,
            call: Call::SFmt {
                t: CAP,
                f: YUYV,
                w: 99,
                h: 99,
            },
            reply: Reply::Format {
                f: Fmt {
                    code: YUYV,
                    width: 16,
                    height: 16,
                },
                line: 32,
                size: 512,
            },
        },
        Entry::Called {
            line: 5,
            call: Call::ReqBufs {
                t: OUT,
                m: MEMORY_MMAP,
                n: 1,
            },
            reply: Reply::Count(1),
        },
        Entry::Called {
            line: 6,
            call: Call::ReqBufs {
                t: CAP,
                m: MEMORY_MMAP,
                n: 1,
            },
            reply: Reply::Count(1),
        },
        Entry::Called {
            line: 7,
            call: Call::Mmap {
                m: source,
                t: OUT,
                i: 0,
                ro: false,
            },
            reply: Reply::Mapped {
                addr: 0x0,
                length: 768,
            },
        },
        Entry::Called {
            line: 8,
            call: Call::Mmap {
                m: target,
                t: CAP,
                i: 0,
                ro: false,
            },
            reply: Reply::Mapped {
                addr: 0x1000,
                length: 512,
            },
        },
        Entry::Called {
            line: 9,
            call: Call::Poke {
                m: source,
                off: 0,
                bytes: bytes_0,
            },
            reply: Reply::Done,
        },
        Entry::Called {
            line: 10,
            call: Call::QBuf {
                t: OUT,
                i: 0,
                user: None,
                used: 0,
                ts: 5,
            },
            reply: Reply::Done,
        },
        Entry::Called {
            line: 11,
            call: Call::QBuf {
                t: CAP,
                i: 0,
                user: None,
                used: 0,
                ts: 0,
            },
            reply: Reply::Done,
        },
        Entry::Called {
            line: 12,
            call: Call::StreamOn { t: OUT },
            reply: Reply::Done,
        },
        Entry::Called {
            line: 13,
            call: Call::StreamOn { t: CAP },
            reply: Reply::Done,
        },
        Entry::Finish,
        Entry::Give,
        Entry::Give,
        Entry::Called {
            line: 14,
            call: Call::DqBuf { t: CAP },
            reply: Reply::Frame {
                index: 0,
                used: 512,
                seq: 0,
                ts: 5,
                flags: 0x4001,
            },
        },
        Entry::Called {
            line: 15,
            call: Call::Peek {
                m: target,
                off: 0,
                len: 8,
            },
            reply: Reply::Bytes(bytes_1),
        },
        Entry::Called {
            line: 16,
            call: Call::DqBuf { t: OUT },
            reply: Reply::Frame {
                index: 0,
                used: 768,
                seq: 0,
                ts: 5,
                flags: 0x4001,
            },
        },
    ];
    assert_eq!(rt; first_refused(rt.alloc(), Model::Convert, &log), None);
    for (place, wrong) in [
        (
            16,
            Entry::Called {
                line: 15,
                call: Call::Peek {
                    m: target,
                    off: 0,
                    len: 8,
                },
                reply: Reply::Bytes(bytes_2),
            },
        ),
        (
            17,
            Entry::Called {
                line: 16,
                call: Call::DqBuf { t: OUT },
                reply: Reply::Frame {
                    index: 0,
                    used: 256,
                    seq: 0,
                    ts: 5,
                    flags: 0x4001,
                },
            },
        ),
    ] {
        assert_eq!(rt;
            first_refused_with(rt.alloc(), Model::Convert, &log, place, wrong),
            Some(place),
            "at {place}"
        );
    }
    Ok(())
}
