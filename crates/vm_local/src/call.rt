use crate::name::Name;
use crate::small::Small;
use v4l_const::FourCc;

/// A call on a local handle, with its words.
///
/// `t` is a buffer type and `i` the index of a buffer, a format or an input.
///
/// Source: after the Linux V4L2 interface; what each call does is this project's own.
#[derive(Clone, Copy, Debug, PartialEq, Eq)]
pub enum Call {
    /// Opens the handle, blocking or not.
    OpenHandle {
        nonblock: bool,
    },
    /// Closes the handle.
    CloseHandle,
    /// Asks what the device can do.
    QueryCap,
    /// Asks for the `i`-th picture format.
    EnumFmt {
        t: u32,
        i: u32,
    },
    /// Asks for a queue's format.
    GFmt {
        t: u32,
    },
    /// Asks which format would be set: `f` its code, `w` and `h` the width and height in pixels.
    TryFmt {
        t: u32,
        f: FourCc,
        w: u32,
        h: u32,
    },
    /// Sets a queue's format.
    SFmt {
        t: u32,
        f: FourCc,
        w: u32,
        h: u32,
    },
    /// Asks for the name of the `i`-th input.
    EnumInput {
        i: u32,
    },
    /// Asks which input is set.
    GInput,
    /// Sets the input.
    SInput {
        i: u32,
    },
    /// Makes `n` buffers of the kind of memory `m` on a queue, or frees all where `n` is 0.
    ReqBufs {
        t: u32,
        m: u32,
        n: u32,
    },
    /// Asks for a buffer's length and flags.
    QueryBuf {
        t: u32,
        i: u32,
    },
    /// Makes user memory of `len` bytes that begins `off` bytes into its first page.
    UAlloc {
        u: Name,
        len: u32,
        off: u32,
    },
    /// Queues a buffer, with user memory, the bytes in use and a timestamp in microseconds.
    QBuf {
        t: u32,
        i: u32,
        user: Option<Name>,
        used: u32,
        ts: u32,
    },
    /// Starts a queue.
    StreamOn {
        t: u32,
    },
    /// Stops a queue.
    StreamOff {
        t: u32,
    },
    /// Takes the first finished buffer of a queue.
    DqBuf {
        t: u32,
    },
    /// Maps a buffer under the name `m`, for reading alone where `ro`.
    Mmap {
        m: Name,
        t: u32,
        i: u32,
        ro: bool,
    },
    /// Ends a mapping.
    Munmap {
        m: Name,
    },
    /// Reads `len` bytes from byte `off` on.
    Peek {
        m: Name,
        off: u32,
        len: u32,
    },
    /// Asks for the SHA-256 of all bytes.
    Hash {
        m: Name,
    },
    /// Writes bytes from byte `off` on.
    Poke {
        m: Name,
        off: u32,
        bytes: Small,
    },
    /// Writes all bytes: byte `i` is `7 * i + seed`.
    Fill {
        m: Name,
        seed: u8,
    },
    /// Asks for events of type `e`.
    Subscribe {
        e: u32,
    },
    /// Asks for no more events of type `e`.
    Unsubscribe {
        e: u32,
    },
    /// Takes the first event.
    DqEvent,
}
