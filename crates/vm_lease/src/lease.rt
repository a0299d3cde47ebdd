ghost use Rattle.std.specs.Prelude.{◌≡◌};
ghost use Rattle.vm_lease.specs.Lease.{Touches, IsApplied, lent};
ghost use Rattle.vm_frame.specs.Mem.{mem_bytes};

use crate::parts::{digest, fill, read, write};
use std::marker::Model;
use vm_frame::Mem;
use vm_local::{Call, Reply};

/// The memory that a line touches, on its way out and back, with the line's number, its call and
/// its reply. The call stays within the memory.
///
/// Source: own.
#[derive(Drop)]
pub struct Lease {
    pub line: u32,
    pub call: Call,
    pub mem: Mem,
    /// What the line is answered. It means nothing before `apply`.
    pub reply: Reply,
}

impl Model for Lease {
    ghost use Rattle.std.specs.Prelude.{length};
    ghost use Rattle.vm_frame.specs.Mem.{mem_bytes};
    ghost use Rattle.vm_lease.specs.Lease.{LeaseParts, Touches};

    ghost Value = { LeaseParts };

    ghost view = { λ l. record { line = l.line; call = l.call; mem = l.mem; reply = l.reply } };

    ghost invariant = { λ l. Touches l.call (length (mem_bytes l.mem)) };
}

impl Lease {
    ghost use Rattle.std.specs.Prelude.{length};

    /// A lease of a memory for the call of a line, which stays within the memory.
    pub fn new(line: u32, call: Call, mem: Mem) -> Lease
        requires { Touches call (length (mem_bytes mem)) }
        ensures { result ≡ lent line call mem }
    {
        Lease {
            line,
            call,
            mem,
            reply: Reply::Done,
        }
    }

    /// Does the call on the memory: reads, hashes, writes or fills it. The reply is the call's from
    /// then on. Doing it again changes nothing more. It takes no memory.
    pub fn apply(&mut self)
        ensures { IsApplied self.old self.new }
    {
        self.reply = match &self.call {
            Call::Peek { off, len, .. } => read(&self.mem, *off, *len),
            Call::Hash { .. } => Reply::Digest(digest(&self.mem)),
            Call::Poke { off, bytes, .. } => {
                write(&mut self.mem, *off, bytes.as_bytes());
                Reply::Done
            }
            Call::Fill { seed, .. } => {
                fill(&mut self.mem, *seed);
                Reply::Done
            }
            _ => Reply::Done,
        };
    }
}
