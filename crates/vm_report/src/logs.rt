use std::marker::Model;
use v4l_const::Errno;
use vm_local::{Entry, Name};
use vm_region::RegionEntry;
use vm_script::RawChain;

/// What is printed of one handle.
#[derive(Debug, Drop)]
pub struct HandleLog {
    /// The number of its process, from 0.
    pub process: u32,
    pub name: Name,
    /// The id of its session, `None` where its `open` was refused.
    pub session: Option<u32>,
    /// Its log: the calls with their replies, and the device's steps between them.
    pub entries: Vec<Entry>,
}

impl Model for HandleLog {
    ghost use Rattle.vm_report.specs.Logs.{HandleLog as Told};

    ghost Value = { Told };

    ghost view = { λ h. record {
      process = h.process;
      name = h.name;
      session = h.session;
      entries = h.entries.items;
    } };
}

/// What is printed of one raw line.
#[derive(Clone, Copy, Debug, PartialEq, Eq)]
pub struct RawLog {
    /// The number of its process, from 0.
    pub process: u32,
    /// The number of its line in the script, from 1.
    pub line: u32,
    /// The chain that it posts.
    pub chain: RawChain,
    /// The error with which it is refused.
    pub errno: Errno,
}

impl Model for RawLog {
    ghost use Rattle.vm_report.specs.Logs.{RawLog as Told};

    ghost Value = { Told };

    ghost view = { λ r. record {
      process = r.process;
      line = r.line;
      chain = r.chain;
      errno = r.errno;
    } };

    ghost inverse = { λ r. record {
      process = r.process;
      line = r.line;
      chain = r.chain;
      errno = r.errno;
    } };
}

/// What is printed of a run.
#[derive(Debug, Drop)]
pub struct Logs {
    /// Process by process, and in each in the order of their `open` lines.
    pub handles: Vec<HandleLog>,
    /// Process by process.
    pub raws: Vec<RawLog>,
    /// What was mapped in the shared region, and what was given back.
    pub journal: Vec<RegionEntry>,
    /// The SHA-256 of the bytes that crossed.
    pub wire: [u8; 32],
}

impl Model for Logs {
    ghost use Rattle.vm_report.specs.Logs.{Logs as Told};

    ghost Value = { Told };

    ghost view = { λ l. record {
      handles = l.handles.items;
      raws = l.raws.items;
      journal = l.journal.items;
      wire = l.wire;
    } };
}
