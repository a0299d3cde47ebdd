//! Logs that are lent to be printed, wherever they are kept.

use v4l_const::Errno;
use vm_local::{Entry, Name};
use vm_region::RegionEntry;
use vm_script::{Echo, RawChain};

/// The log of one handle, with the words of its calls.
#[derive(Clone, Copy)]
pub struct HandleText<'a> {
    /// The number of its process, from 0.
    pub process: u32,
    pub name: &'a Name,
    /// The id of its session, `None` where its `open` was refused.
    pub session: Option<u32>,
    pub entries: &'a [Entry],
    /// The words of its calls, in the order of the log.
    pub echoes: &'a [&'a Echo],
}

/// One raw line, with its words.
#[derive(Clone, Copy)]
pub struct RawText<'a> {
    /// The number of its process, from 0.
    pub process: u32,
    /// The number of its line in the script, from 1.
    pub line: u32,
    pub chain: &'a RawChain,
    pub errno: Errno,
    pub echo: &'a Echo,
}

/// What a run leaves, with the words of its lines.
#[derive(Clone, Copy)]
pub struct LogsText<'a> {
    /// Process by process, and in each in the order of their `open` lines.
    pub handles: &'a [HandleText<'a>],
    /// Process by process.
    pub raws: &'a [RawText<'a>],
    pub journal: &'a [RegionEntry],
    /// The SHA-256 of the bytes that crossed.
    pub wire: &'a [u8; 32],
}
