use super::{CAP, GREY, NV12, RGB3, first_refused, first_refused_with, name, small};
use crate::{Call, Entry, Reply};
use std::test::Fail;
use v4l_const::{Errno, FourCc, MEMORY_MMAP, Model};
use v4l_format::Fmt;

/// Formats are adjusted.
#[test]
fn formats(rt: HostRuntime) -> Result<(), Fail> {
    let log = [
        Entry::Called {
            line: 1,
            call: Call::OpenHandle { nonblock: false },
            reply: Reply::Done,
        },
        Entry::Called {
            line: 2,
            call: Call::SFmt {
                t: CAP,
                f: FourCc(0x44434241),
                w: 641,
                h: 1,
            },
            reply: Reply::Format {
                f: Fmt {
                    code: GREY,
                    width: 640,
                    height: 16,
                },
                line: 640,
                size: 10240,
            },
        },
        Entry::Called {
            line: 3,
            call: Call::TryFmt {
                t: CAP,
                f: NV12,
                w: 17,
                h: 481,
            },
            reply: Reply::Format {
                f: Fmt {
                    code: NV12,
                    width: 16,
                    height: 480,
                },
                line: 16,
                size: 11520,
            },
        },
        Entry::Called {
            line: 4,
            call: Call::TryFmt {
                t: CAP,
                f: RGB3,
                w: 0,
                h: 4294967295,
            },
            reply: Reply::Format {
                f: Fmt {
                    code: RGB3,
                    width: 16,
                    height: 480,
                },
                line: 48,
                size: 23040,
            },
        },
        Entry::Called {
            line: 5,
            call: Call::GFmt { t: CAP },
            reply: Reply::Format {
                f: Fmt {
                    code: GREY,
                    width: 640,
                    height: 16,
                },
                line: 640,
                size: 10240,
            },
        },
    ];
    assert_eq!(rt; first_refused(rt.alloc(), Model::Capture, &log), None);
    for (place, wrong) in [
        (
            1,
            Entry::Called {
                line: 2,
                call: Call::SFmt {
                    t: CAP,
                    f: FourCc(0x44434241),
                    w: 641,
                    h: 1,
                },
                reply: Reply::Format {
                    f: Fmt {
                        code: GREY,
                        width: 640,
                        height: 1,
                    },
                    line: 640,
                    size: 10240,
                },
            },
        ),
        (
            2,
            Entry::Called {
                line: 3,
                call: Call::TryFmt {
                    t: CAP,
                    f: NV12,
                    w: 17,
                    h: 481,
                },
                reply: Reply::Format {
                    f: Fmt {
                        code: NV12,
                        width: 17,
                        height: 480,
                    },
                    line: 16,
                    size: 11520,
                },
            },
        ),
        (
            4,
            Entry::Called {
                line: 5,
                call: Call::GFmt { t: CAP },
                reply: Reply::Format {
                    f: Fmt {
                        code: GREY,
                        width: 640,
                        height: 16,
                    },
                    line: 640,
                    size: 640,
                },
            },
        ),
    ] {
        assert_eq!(rt;
            first_refused_with(rt.alloc(), Model::Capture, &log, place, wrong),
            Some(place),
            "at {place}"
        );
    }
    Ok(())
}

/// A picture of the greatest size.
#[test]
fn large_picture(rt: HostRuntime) -> Result<(), Fail> {
    let mapping = name(b"m");
    let log = [
        Entry::Called {
            line: 1,
            call: Call::OpenHandle { nonblock: false },
            reply: Reply::Done,
        },
        Entry::Called {
            line: 2,
            call: Call::SFmt {
                t: CAP,
                f: RGB3,
                w: 640,
                h: 480,
            },
            reply: Reply::Format {
                f: Fmt {
                    code: RGB3,
                    width: 640,
                    height: 480,
                },
                line: 1920,
                size: 921600,
            },
        },
        Entry::Called {
            line: 3,
            call: Call::ReqBufs {
                t: CAP,
                m: MEMORY_MMAP,
                n: 1,
            },
            reply: Reply::Count(1),
        },
        Entry::Called {
            line: 4,
            call: Call::Mmap {
                m: mapping,
                t: CAP,
                i: 0,
                ro: false,
            },
            reply: Reply::Mapped {
                addr: 0x0,
                length: 921600,
            },
        },
    ];
    assert_eq!(rt; first_refused(rt.alloc(), Model::Capture, &log), None);
    for (place, wrong) in [(
        3,
        Entry::Called {
            line: 4,
            call: Call::Mmap {
                m: mapping,
                t: CAP,
                i: 0,
                ro: false,
            },
            reply: Reply::Mapped {
                addr: 0x0,
                length: 925696,
            },
        },
    )] {
        assert_eq!(rt;
            first_refused_with(rt.alloc(), Model::Capture, &log, place, wrong),
            Some(place),
            "at {place}"
        );
    }
    Ok(())
}

/// Refusals of a camera.
#[test]
fn refusals(rt: HostRuntime) -> Result<(), Fail> {
    let read_only = name(b"r");
    let bytes_0 = small(&[0x00]);
    let log = [
        Entry::Called {
            line: 1,
            call: Call::OpenHandle { nonblock: false },
            reply: Reply::Done,
        },
        Entry::Called {
            line: 2,
            call: Call::ReqBufs {
                t: CAP,
                m: MEMORY_MMAP,
                n: 1,
            },
            reply: Reply::Count(1),
        },
        Entry::Called {
            line: 3,
            call: Call::Mmap {
                m: read_only,
                t: CAP,
                i: 0,
                ro: true,
            },
            reply: Reply::Mapped {
                addr: 0x0,
                length: 3072,
            },
        },
        Entry::Called {
            line: 4,
            call: Call::Poke {
                m: read_only,
                off: 0,
                bytes: bytes_0,
            },
            reply: Reply::Refused(Errno::Eacces),
        },
        Entry::Called {
            line: 5,
            call: Call::Peek {
                m: read_only,
                off: 3071,
                len: 2,
            },
            reply: Reply::Refused(Errno::Efault),
        },
        Entry::Called {
            line: 6,
            call: Call::QBuf {
                t: CAP,
                i: 0,
                user: None,
                used: 0,
                ts: 0,
            },
            reply: Reply::Done,
        },
        Entry::Called {
            line: 7,
            call: Call::Hash { m: read_only },
            reply: Reply::Refused(Errno::Ebusy),
        },
        Entry::Called {
            line: 8,
            call: Call::SFmt {
                t: CAP,
                f: GREY,
                w: 16,
                h: 16,
            },
            reply: Reply::Refused(Errno::Ebusy),
        },
        Entry::Called {
            line: 9,
            call: Call::QueryCap,
            reply: Reply::Caps {
                all: 0x84000001,
                device: 0x04000001,
            },
        },
        Entry::Called {
            line: 10,
            call: Call::EnumFmt { t: CAP, i: 5 },
            reply: Reply::Code(RGB3),
        },
        Entry::Called {
            line: 11,
            call: Call::EnumFmt { t: CAP, i: 6 },
            reply: Reply::Refused(Errno::Einval),
        },
        Entry::Called {
            line: 12,
            call: Call::EnumInput { i: 3 },
            reply: Reply::InputName(3),
        },
    ];
    assert_eq!(rt; first_refused(rt.alloc(), Model::Capture, &log), None);
    for (place, wrong) in [
        (
            3,
            Entry::Called {
                line: 4,
                call: Call::Poke {
                    m: read_only,
                    off: 0,
                    bytes: bytes_0,
                },
                reply: Reply::Refused(Errno::Ebusy),
            },
        ),
        (
            6,
            Entry::Called {
                line: 7,
                call: Call::Hash { m: read_only },
                reply: Reply::Refused(Errno::Efault),
            },
        ),
        (
            7,
            Entry::Called {
                line: 8,
                call: Call::SFmt {
                    t: CAP,
                    f: GREY,
                    w: 16,
                    h: 16,
                },
                reply: Reply::Refused(Errno::Einval),
            },
        ),
        (
            8,
            Entry::Called {
                line: 9,
                call: Call::QueryCap,
                reply: Reply::Caps {
                    all: 0x04000001,
                    device: 0x04000001,
                },
            },
        ),
        (
            11,
            Entry::Called {
                line: 12,
                call: Call::EnumInput { i: 3 },
                reply: Reply::InputName(2),
            },
        ),
    ] {
        assert_eq!(rt;
            first_refused_with(rt.alloc(), Model::Capture, &log, place, wrong),
            Some(place),
            "at {place}"
        );
    }
    Ok(())
}

/// Refusals of a converter.
#[test]
fn converter_refusals(rt: HostRuntime) -> Result<(), Fail> {
    let log = [
        Entry::Called {
            line: 2,
            call: Call::OpenHandle { nonblock: false },
            reply: Reply::Done,
        },
        Entry::Called {
            line: 3,
            call: Call::GInput,
            reply: Reply::Refused(Errno::Enotty),
        },
        Entry::Called {
            line: 4,
            call: Call::SInput { i: 0 },
            reply: Reply::Refused(Errno::Enotty),
        },
        Entry::Called {
            line: 5,
            call: Call::EnumInput { i: 0 },
            reply: Reply::Refused(Errno::Enotty),
        },
        Entry::Called {
            line: 6,
            call: Call::Subscribe { e: 4 },
            reply: Reply::Refused(Errno::Einval),
        },
        Entry::Called {
            line: 7,
            call: Call::QueryCap,
            reply: Reply::Caps {
                all: 0x84008000,
                device: 0x04008000,
            },
        },
    ];
    assert_eq!(rt; first_refused(rt.alloc(), Model::Convert, &log), None);
    for (place, wrong) in [
        (
            1,
            Entry::Called {
                line: 3,
                call: Call::GInput,
                reply: Reply::InputIs(0),
            },
        ),
        (
            4,
            Entry::Called {
                line: 6,
                call: Call::Subscribe { e: 4 },
                reply: Reply::Refused(Errno::Enotty),
            },
        ),
    ] {
        assert_eq!(rt;
            first_refused_with(rt.alloc(), Model::Convert, &log, place, wrong),
            Some(place),
            "at {place}"
        );
    }
    Ok(())
}

/// A handle is opened and closed.
#[test]
fn open_and_close(rt: HostRuntime) -> Result<(), Fail> {
    let log = [
        Entry::Called {
            line: 1,
            call: Call::OpenHandle { nonblock: false },
            reply: Reply::Done,
        },
        Entry::Called {
            line: 2,
            call: Call::CloseHandle,
            reply: Reply::Done,
        },
    ];
    assert_eq!(rt; first_refused(rt.alloc(), Model::Capture, &log), None);
    for (place, wrong) in [(
        1,
        Entry::Called {
            line: 2,
            call: Call::CloseHandle,
            reply: Reply::Refused(Errno::Ebadf),
        },
    )] {
        assert_eq!(rt;
            first_refused_with(rt.alloc(), Model::Capture, &log, place, wrong),
            Some(place),
            "at {place}"
        );
    }
    Ok(())
}
