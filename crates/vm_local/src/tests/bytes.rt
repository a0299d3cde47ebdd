use super::{CAP, GREY, first_refused, first_refused_with, name, small};
use crate::{Call, Entry, Name, Reply, Small};
use std::test::Fail;
use v4l_const::{Errno, MEMORY_MMAP, MEMORY_USERPTR, Model};
use v4l_format::Fmt;

/// Mappings outlive the close.
#[test]
fn after_close(rt: HostRuntime) -> Result<(), Fail> {
    let mapping = name(b"m");
    let bytes_0 = small(&[0x00, 0x01, 0x02, 0x03]);
    let log = [
        Entry::Called {
            line: 1,
            call: Call::OpenHandle { nonblock: false },
            reply: Reply::Done,
        },
        Entry::Called {
            line: 2,
            call: Call::SFmt {
                t: CAP,
                f: GREY,
                w: 16,
                h: 16,
            },
            reply: Reply::Format {
                f: Fmt {
                    code: GREY,
                    width: 16,
                    height: 16,
                },
                line: 16,
                size: 256,
            },
        },
        Entry::Called {
            line: 3,
            call: Call::SInput { i: 1 },
            reply: Reply::InputIs(1),
        },
        Entry::Called {
            line: 4,
            call: Call::ReqBufs {
                t: CAP,
                m: MEMORY_MMAP,
                n: 1,
            },
            reply: Reply::Count(1),
        },
        Entry::Called {
            line: 5,
            call: Call::Mmap {
                m: mapping,
                t: CAP,
                i: 0,
                ro: false,
            },
            reply: Reply::Mapped {
                addr: 0x0,
                length: 256,
            },
        },
        Entry::Called {
            line: 6,
            call: Call::QBuf {
                t: CAP,
                i: 0,
                user: None,
                used: 0,
                ts: 0,
            },
            reply: Reply::Done,
        },
        Entry::Called {
            line: 7,
            call: Call::StreamOn { t: CAP },
            reply: Reply::Done,
        },
        Entry::Finish,
        Entry::Give,
        Entry::Give,
        Entry::Called {
            line: 8,
            call: Call::DqBuf { t: CAP },
            reply: Reply::Frame {
                index: 0,
                used: 256,
                seq: 0,
                ts: 0,
                flags: 0x2001,
            },
        },
        Entry::Called {
            line: 9,
            call: Call::CloseHandle,
            reply: Reply::Done,
        },
        Entry::Called {
            line: 10,
            call: Call::Peek {
                m: mapping,
                off: 0,
                len: 4,
            },
            reply: Reply::Bytes(bytes_0),
        },
        Entry::Called {
            line: 11,
            call: Call::Hash { m: mapping },
            reply: Reply::Digest([
                0xc8, 0x9e, 0xae, 0x33, 0xba, 0xf6, 0x9a, 0x06, 0x01, 0x68, 0xaa, 0x35, 0xdb, 0x7d,
                0x6c, 0x02, 0xf9, 0x6d, 0x36, 0xc6, 0x61, 0x62, 0x6b, 0xd6, 0x76, 0x4a, 0x56, 0x28,
                0x0d, 0x9e, 0xfa, 0xe4,
            ]),
        },
        Entry::Called {
            line: 12,
            call: Call::GFmt { t: CAP },
            reply: Reply::Refused(Errno::Ebadf),
        },
        Entry::Called {
            line: 13,
            call: Call::Munmap { m: mapping },
            reply: Reply::Done,
        },
        Entry::Called {
            line: 14,
            call: Call::Hash { m: mapping },
            reply: Reply::Refused(Errno::Efault),
        },
        Entry::Called {
            line: 15,
            call: Call::Munmap { m: mapping },
            reply: Reply::Refused(Errno::Einval),
        },
    ];
    assert_eq!(rt; first_refused(rt.alloc(), Model::Capture, &log), None);
    for (place, wrong) in [
        (
            13,
            Entry::Called {
                line: 11,
                call: Call::Hash { m: mapping },
                reply: Reply::Digest([
                    0xc9, 0x9e, 0xae, 0x33, 0xba, 0xf6, 0x9a, 0x06, 0x01, 0x68, 0xaa, 0x35, 0xdb,
                    0x7d, 0x6c, 0x02, 0xf9, 0x6d, 0x36, 0xc6, 0x61, 0x62, 0x6b, 0xd6, 0x76, 0x4a,
                    0x56, 0x28, 0x0d, 0x9e, 0xfa, 0xe4,
                ]),
            },
        ),
        (
            14,
            Entry::Called {
                line: 12,
                call: Call::GFmt { t: CAP },
                reply: Reply::Refused(Errno::Einval),
            },
        ),
        (
            17,
            Entry::Called {
                line: 15,
                call: Call::Munmap { m: mapping },
                reply: Reply::Done,
            },
        ),
    ] {
        assert_eq!(rt;
            first_refused_with(rt.alloc(), Model::Capture, &log, place, wrong),
            Some(place),
            "at {place}"
        );
    }
    Ok(())
}

/// Two mappings of one buffer.
#[test]
fn two_mappings(rt: HostRuntime) -> Result<(), Fail> {
    let mapping = name(b"m");
    let other = name(b"n");
    let log = [
        Entry::Called {
            line: 1,
            call: Call::OpenHandle { nonblock: false },
            reply: Reply::Done,
        },
        Entry::Called {
            line: 2,
            call: Call::ReqBufs {
                t: CAP,
                m: MEMORY_MMAP,
                n: 1,
            },
            reply: Reply::Count(1),
        },
        Entry::Called {
            line: 3,
            call: Call::Mmap {
                m: mapping,
                t: CAP,
                i: 0,
                ro: false,
            },
            reply: Reply::Mapped {
                addr: 0x0,
                length: 3072,
            },
        },
        Entry::Called {
            line: 4,
            call: Call::Mmap {
                m: other,
                t: CAP,
                i: 0,
                ro: false,
            },
            reply: Reply::Mapped {
                addr: 0x0,
                length: 3072,
            },
        },
        Entry::Called {
            line: 5,
            call: Call::Munmap { m: mapping },
            reply: Reply::Done,
        },
    ];
    assert_eq!(rt; first_refused(rt.alloc(), Model::Capture, &log), None);
    for (place, wrong) in [(
        2,
        Entry::Called {
            line: 3,
            call: Call::Mmap {
                m: mapping,
                t: CAP,
                i: 0,
                ro: false,
            },
            reply: Reply::Mapped {
                addr: 0x0,
                length: 3071,
            },
        },
    )] {
        assert_eq!(rt;
            first_refused_with(rt.alloc(), Model::Capture, &log, place, wrong),
            Some(place),
            "at {place}"
        );
    }
    Ok(())
}

/// The handle of another process.
#[test]
fn other_process(rt: HostRuntime) -> Result<(), Fail> {
    let kept = name(b"k");
    let log = [
        Entry::Called {
            line: 7,
            call: Call::OpenHandle { nonblock: false },
            reply: Reply::Done,
        },
        Entry::Called {
            line: 8,
            call: Call::ReqBufs {
                t: CAP,
                m: MEMORY_MMAP,
                n: 1,
            },
            reply: Reply::Count(1),
        },
        Entry::Called {
            line: 9,
            call: Call::Mmap {
                m: kept,
                t: CAP,
                i: 0,
                ro: false,
            },
            reply: Reply::Mapped {
                addr: 0x1000,
                length: 3072,
            },
        },
    ];
    assert_eq!(rt; first_refused(rt.alloc(), Model::Capture, &log), None);
    for (place, wrong) in [(
        1,
        Entry::Called {
            line: 8,
            call: Call::ReqBufs {
                t: CAP,
                m: MEMORY_MMAP,
                n: 1,
            },
            reply: Reply::Count(0),
        },
    )] {
        assert_eq!(rt;
            first_refused_with(rt.alloc(), Model::Capture, &log, place, wrong),
            Some(place),
            "at {place}"
        );
    }
    Ok(())
}

/// The mapping of a freed buffer keeps its bytes.
#[test]
fn freed_buffer(rt: HostRuntime) -> Result<(), Fail> {
    let mapping = name(b"m");
    let other = name(b"n");
    let bytes_0 = small(&[0xaa, 0x55]);
    let bytes_1 = small(&[0x00, 0x00]);
    let log = [
        Entry::Called {
            line: 1,
            call: Call::OpenHandle { nonblock: false },
            reply: Reply::Done,
        },
        Entry::Called {
            line: 2,
            call: Call::ReqBufs {
                t: CAP,
                m: MEMORY_MMAP,
                n: 1,
            },
            reply: Reply::Count(1),
        },
        Entry::Called {
            line: 3,
            call: Call::Mmap {
                m: mapping,
                t: CAP,
                i: 0,
                ro: false,
            },
            reply: Reply::Mapped {
                addr: 0x0,
                length: 3072,
            },
        },
        Entry::Called {
            line: 4,
            call: Call::Poke {
                m: mapping,
                off: 0,
                bytes: bytes_0,
            },
            reply: Reply::Done,
        },
        Entry::Called {
            line: 5,
            call: Call::ReqBufs {
                t: CAP,
                m: MEMORY_MMAP,
                n: 1,
            },
            reply: Reply::Count(1),
        },
        Entry::Called {
            line: 6,
            call: Call::Mmap {
                m: other,
                t: CAP,
                i: 0,
                ro: false,
            },
            reply: Reply::Mapped {
                addr: 0x1000,
                length: 3072,
            },
        },
        Entry::Called {
            line: 7,
            call: Call::Peek {
                m: mapping,
                off: 0,
                len: 2,
            },
            reply: Reply::Bytes(bytes_0),
        },
        Entry::Called {
            line: 8,
            call: Call::Peek {
                m: other,
                off: 0,
                len: 2,
            },
            reply: Reply::Bytes(bytes_1),
        },
        Entry::Called {
            line: 9,
            call: Call::Munmap { m: mapping },
            reply: Reply::Done,
        },
    ];
    assert_eq!(rt; first_refused(rt.alloc(), Model::Capture, &log), None);
    for (place, wrong) in [
        (
            6,
            Entry::Called {
                line: 7,
                call: Call::Peek {
                    m: mapping,
                    off: 0,
                    len: 2,
                },
                reply: Reply::Bytes(bytes_1),
            },
        ),
        (
            7,
            Entry::Called {
                line: 8,
                call: Call::Peek {
                    m: other,
                    off: 0,
                    len: 2,
                },
                reply: Reply::Bytes(bytes_0),
            },
        ),
    ] {
        assert_eq!(rt;
            first_refused_with(rt.alloc(), Model::Capture, &log, place, wrong),
            Some(place),
            "at {place}"
        );
    }
    Ok(())
}

/// A camera fills user memory.
#[test]
fn user_memory(rt: HostRuntime) -> Result<(), Fail> {
    let user = name(b"u");
    let short = name(b"v");
    let bytes_0 = small(&[0x00, 0x01, 0x02, 0x03, 0x04, 0x05, 0x06, 0x07]);
    let log = [
        Entry::Called {
            line: 1,
            call: Call::OpenHandle { nonblock: false },
            reply: Reply::Done,
        },
        Entry::Called {
            line: 2,
            call: Call::SFmt {
                t: CAP,
                f: GREY,
                w: 16,
                h: 16,
            },
            reply: Reply::Format {
                f: Fmt {
                    code: GREY,
                    width: 16,
                    height: 16,
                },
                line: 16,
                size: 256,
            },
        },
        Entry::Called {
            line: 3,
            call: Call::SInput { i: 1 },
            reply: Reply::InputIs(1),
        },
        Entry::Called {
            line: 4,
            call: Call::ReqBufs {
                t: CAP,
                m: MEMORY_USERPTR,
                n: 1,
            },
            reply: Reply::Count(1),
        },
        Entry::Called {
            line: 5,
            call: Call::UAlloc {
                u: user,
                len: 256,
                off: 4095,
            },
            reply: Reply::Pages(2),
        },
        Entry::Called {
            line: 6,
            call: Call::QBuf {
                t: CAP,
                i: 0,
                user: Some(user),
                used: 0,
                ts: 0,
            },
            reply: Reply::Done,
        },
        Entry::Called {
            line: 7,
            call: Call::StreamOn { t: CAP },
            reply: Reply::Done,
        },
        Entry::Finish,
        Entry::Give,
        Entry::Give,
        Entry::Called {
            line: 8,
            call: Call::DqBuf { t: CAP },
            reply: Reply::Frame {
                index: 0,
                used: 256,
                seq: 0,
                ts: 0,
                flags: 0x2000,
            },
        },
        Entry::Called {
            line: 9,
            call: Call::Peek {
                m: user,
                off: 0,
                len: 8,
            },
            reply: Reply::Bytes(bytes_0),
        },
        Entry::Called {
            line: 10,
            call: Call::UAlloc {
                u: short,
                len: 255,
                off: 0,
            },
            reply: Reply::Pages(1),
        },
        Entry::Called {
            line: 11,
            call: Call::QBuf {
                t: CAP,
                i: 0,
                user: Some(short),
                used: 0,
                ts: 0,
            },
            reply: Reply::Refused(Errno::Einval),
        },
    ];
    assert_eq!(rt; first_refused(rt.alloc(), Model::Capture, &log), None);
    for (place, wrong) in [
        (
            4,
            Entry::Called {
                line: 5,
                call: Call::UAlloc {
                    u: user,
                    len: 256,
                    off: 4095,
                },
                reply: Reply::Pages(1),
            },
        ),
        (
            10,
            Entry::Called {
                line: 8,
                call: Call::DqBuf { t: CAP },
                reply: Reply::Frame {
                    index: 0,
                    used: 256,
                    seq: 0,
                    ts: 0,
                    flags: 0x2001,
                },
            },
        ),
        (
            13,
            Entry::Called {
                line: 11,
                call: Call::QBuf {
                    t: CAP,
                    i: 0,
                    user: Some(short),
                    used: 0,
                    ts: 0,
                },
                reply: Reply::Done,
            },
        ),
    ] {
        assert_eq!(rt;
            first_refused_with(rt.alloc(), Model::Capture, &log, place, wrong),
            Some(place),
            "at {place}"
        );
    }
    Ok(())
}

/// Names and the bytes of a read are made, and taken apart, by their fields.
#[test]
fn names_and_bytes_by_field(rt: HostRuntime) -> Result<(), Fail> {
    let made = Name {
        len: 2,
        bytes: [b'm', b'1', 0, 0, 0, 0, 0, 0],
    };
    assert_eq!(rt; made, name(b"m1"));
    let Name { len, bytes } = name(b"d");
    assert_eq!(rt; len, 1);
    assert_eq!(rt; bytes, [b'd', 0, 0, 0, 0, 0, 0, 0]);
    let zeros = Small {
        len: 3,
        bytes: [0; 256],
    };
    assert_eq!(rt; zeros, small(&[0, 0, 0]));
    let Small { len, bytes } = small(&[0x09, 0x10]);
    assert_eq!(rt; len, 2);
    assert!(rt; bytes[..3] == [0x09, 0x10, 0]);
    Ok(())
}
