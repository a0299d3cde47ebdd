use crate::small::Small;
use v4l_const::{Errno, FourCc};
use v4l_format::Fmt;

/// What a call answers.
///
/// Source: own.
#[derive(Clone, Copy, Debug, PartialEq, Eq)]
pub enum Reply {
    /// The call is done, and there is no more to say.
    Done,
    /// The call is refused, and nothing is changed.
    Refused(Errno),
    /// What the device can do: `all` with DEVICE_CAPS, `device` without.
    Caps {
        all: u32,
        device: u32,
    },
    /// A format's code.
    Code(FourCc),
    /// A format, the bytes of its first line and of the whole picture.
    Format {
        f: Fmt,
        line: u32,
        size: u32,
    },
    /// The name of the input with this number.
    InputName(u32),
    /// The input with this number is set.
    InputIs(u32),
    /// How many buffers were made.
    Count(u32),
    /// A buffer's length in bytes and its flags.
    Buf {
        length: u32,
        flags: u32,
    },
    /// How many pages the user memory has.
    Pages(u32),
    /// A finished buffer: the bytes in use, its frame's number, a timestamp in microseconds, and
    /// flags.
    Frame {
        index: u32,
        used: u32,
        seq: u32,
        ts: u64,
        flags: u32,
    },
    /// Where the mapping stands, and its length in bytes.
    Mapped {
        addr: u64,
        length: u32,
    },
    /// The bytes that were read.
    Bytes(Small),
    /// The SHA-256 of the bytes.
    Digest([u8; 32]),
    /// An event: its type, the number of its frame, how many events are left after it, and its own
    /// number.
    Event {
        kind: u32,
        frame: u32,
        pending: u32,
        seq: u32,
    },
}
