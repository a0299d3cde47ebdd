//! Buffers and memories as `reqbufs` makes them.
ghost use Rattle.std.specs.Prelude.{◌≡◌, ◌+◌, ◌≤◌, ◌<◌, ◌^◌, ◌++◌, IfOk, Some, None, map, replicate, vec_len, vec_capacity};
ghost use Rattle.std.specs.List.{range_with_len};
ghost use Rattle.vm_local.specs.declared.bound.MemoryKind.TheVariants.{Mmap, UserPtr};
ghost use Rattle.vm_local.specs.Queue.{fresh_buffers, fresh_memories};
ghost use Rattle.vm_local.specs.Record.{unwritten};

use crate::bound::MemoryKind;
use crate::buffer::Buffer;
use crate::buffers::{Buffers, NO_BUFFER};
use crate::bytes::Bytes;
use std::alloc::Global;
use vm_mem::Memory;

/// `count` fresh buffers of `size` bytes; those of the device have the memories with the numbers
/// from `first` on.
pub fn fresh_buffers(kind: MemoryKind, size: u32, first: u64, count: u32) -> Buffers
    requires first { first < 2 ^ 63 }
    requires count { count ≤ 32 }
    ensures { result.items ≡ fresh_buffers kind size first count }
{
    match kind {
        MemoryKind::Mmap => mapped_buffers(size, first, count),
        MemoryKind::UserPtr => user_buffers(size, count),
    }
}

fn mapped_buffers(size: u32, first: u64, count: u32) -> Buffers
    requires first { first < 2 ^ 63 }
    requires count { count ≤ 32 }
    ensures { result.items ≡ fresh_buffers Mmap size first count }
{
    let mut buffers = Buffers::new();
    for k in 0..count {
        buffers.push(Buffer {
            length: size,
            memory: Some(first + u64::from(k)),
            ..NO_BUFFER
        });
    }
    buffers
}

fn user_buffers(size: u32, count: u32) -> Buffers
    requires { count ≤ 32 }
    ensures { result.items ≡ fresh_buffers UserPtr size 0 count }
{
    let mut buffers = Buffers::new();
    for _k in 0..count {
        buffers.push(Buffer {
            length: size,
            ..NO_BUFFER
        });
    }
    buffers
}

/// The zeroed memories of `count` fresh buffers of `size` bytes.
pub fn fresh_memories(
    alloc: Global,
    kind: MemoryKind,
    size: u32,
    count: u32,
) -> Result<Vec<Bytes>, Memory>
    requires { size ≤ 925696 }
    ensures { IfOk result (λ v. v.items ≡ fresh_memories kind size count) }
{
    match kind {
        MemoryKind::Mmap => mapped_memories(alloc, size, count),
        MemoryKind::UserPtr => Ok(Vec::new(alloc)),
    }
}

fn mapped_memories(alloc: Global, size: u32, count: u32) -> Result<Vec<Bytes>, Memory>
    requires { size ≤ 925696 }
    ensures { IfOk result (λ v. v.items ≡ replicate count (replicate size 0)) }
{
    let mut memories = Vec::new(alloc);
    for _k in 0..count {
        memories.push(Bytes::zeroed(alloc, size)?)?;
    }
    Ok(memories)
}

/// Puts the lengths of the memories of `count` fresh buffers of `size` bytes behind those that
/// there are.
#[tactic(auto, using(crate::proofs::RecordLemmas::unwritten_more))]
pub fn push_fresh(lengths: &mut Vec<u32>, kind: MemoryKind, size: u32, count: u32)
    requires { vec_len lengths.old + count ≤ vec_capacity lengths.old }
    ensures items { map unwritten lengths.new.items ≡ map unwritten lengths.old.items ++
        fresh_memories kind size count }
    ensures len { vec_len lengths.new ≤ vec_len lengths.old + count }
    ensures capacity { vec_capacity lengths.new ≡ vec_capacity lengths.old }
{
    match kind {
        MemoryKind::Mmap => push_lengths(lengths, size, count),
        MemoryKind::UserPtr => {}
    }
}

fn push_lengths(lengths: &mut Vec<u32>, size: u32, count: u32)
    requires { vec_len lengths.old + count ≤ vec_capacity lengths.old }
    ensures items { lengths.new.items ≡ lengths.old.items ++ replicate count size }
    ensures len { vec_len lengths.new ≡ vec_len lengths.old + count }
    ensures capacity { vec_capacity lengths.new ≡ vec_capacity lengths.old }
{
    for _k in 0..count {
        lengths.push_reserved(size);
    }
}
