//! What a qbuf tells of its buffer.

ghost use Rattle.std.specs.Prelude.{◌≡◌, ◌<◌, Some};
ghost use Rattle.vm_local.specs.Queue.{brought, length_from};
ghost use Rattle.vm_local.specs.State.{queue_of, buffer_of};
ghost use Rattle.vm_local.specs.Memory.{named, memory_of};
ghost use Rattle.vm_exchange.specs.Exchange.{user_bound, user_named, memory_number, memory_place, buffer_queued};

use crate::entries::start_of;
use crate::user_place::UserPlace;
use v4l_const::{MEMORY_MMAP, MEMORY_USERPTR};
use vm_local::{Bound, BoundKind, MemoryKind, Name, Record};
use vm_wire::{QueuedBuffer, buffer_offset};

/// The number of a kind of memory.
pub(crate) fn memory_number(kind: MemoryKind) -> u32
    ensures { result ≡ memory_number kind }
{
    match kind {
        MemoryKind::Mmap => MEMORY_MMAP,
        MemoryKind::UserPtr => MEMORY_USERPTR,
    }
}

// The user memory that a name stands for.
fn user_bound(kept: &Record, bound: &Bound) -> Option<UserPlace>
    ensures { result ≡ user_bound kept.now.local (Some bound.now) }
{
    match bound.kind {
        BoundKind::Mapping { .. } => None,
        BoundKind::User { line, off } => Some(UserPlace {
            line,
            length: kept.length_of(bound.memory),
            off,
        }),
    }
}

/// The user memory that a qbuf names.
pub(crate) fn user_named(kept: &Record, user: &Option<Name>) -> Option<UserPlace>
    ensures { result ≡ user_named kept.now.local user.now }
{
    let bound = kept.named(user.as_ref()?)?;
    user_bound(kept, &bound)
}

// Where a buffer's memory is.
fn memory_place(user: &Option<UserPlace>, t: u32, i: u32) -> u64
    requires { i < 32 }
    ensures { result ≡ memory_place user.now t i }
{
    match user {
        None => u64::from(buffer_offset(t, i)),
        Some(place) => start_of(place),
    }
}

// The length that a buffer has from its qbuf on.
fn length_from(kept: &Record, t: u32, i: u32, user: &Option<Name>) -> u32
    ensures { result ≡ length_from kept.now.local (brought kept.now.local user.now)
        (buffer_of (queue_of kept.now.local t) i) }
{
    match user {
        None => kept.buffer_of(t, i).length,
        Some(name) => kept.length_of(memory_named(kept, name)),
    }
}

// The number of the memory that a name is bound to, 0 where it isn't bound.
fn memory_named(kept: &Record, name: &Name) -> u64
    ensures { result ≡ memory_of (named kept.now.local name.now) }
{
    match kept.named(name) {
        None => 0,
        Some(bound) => bound.memory,
    }
}

/// What is told of the buffer that a qbuf queues.
#[tactic(auto, unfolding(crate::specs::Exchange::buffer_queued))]
pub(crate) fn buffer_queued(
    kept: &Record,
    t: u32,
    i: u32,
    user: &Option<Name>,
    used: u32,
    ts: u32,
) -> QueuedBuffer
    requires { i < 32 }
    ensures { result ≡ buffer_queued kept.now.local t i user.now used ts }
{
    QueuedBuffer {
        kind: t,
        index: i,
        bytesused: used,
        timestamp: u64::from(ts),
        memory: memory_number(kept.memory_kind_of(t)),
        m: memory_place(&user_named(kept, user), t, i),
        length: length_from(kept, t, i, user),
    }
}
