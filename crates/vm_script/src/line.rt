use crate::Echo;
use vm_local::{Call, Small};

/// A chain that a raw line posts.
#[derive(Clone, Copy, Debug, PartialEq, Eq)]
pub enum RawChain {
    /// Two descriptors, each the other's next.
    Loop,
    /// A descriptor whose next is outside the table.
    Outside,
    /// A readable descriptor behind a writable one.
    Order,
    /// A descriptor of no bytes.
    Zero,
    /// A descriptor at an address where no page is.
    Addr,
    /// A descriptor with the indirect flag.
    Indirect,
    /// Readable bytes, and room for a reply.
    Bytes { bytes: Small, room: u32 },
}

/// What a line asks for.
#[derive(Clone, Copy, Debug, PartialEq, Eq)]
pub enum LineKind {
    /// A call on the process's handle `h`, counted from 0 in the order of their `open` lines.
    OnHandle { h: u32, call: Call },
    /// A chain that is posted as it is.
    Raw(RawChain),
}

/// A statement of a script.
#[derive(Debug, Drop)]
pub struct Line {
    /// The line's number in the script, from 1.
    pub number: u32,
    /// Its words, joined by one space.
    pub echo: Echo,
    pub what: LineKind,
}
