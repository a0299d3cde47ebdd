//! The bytes of a handle's memories: what is read of them, and what calls do to them.
ghost use Rattle.std.specs.Prelude.{◌≡◌, ◌≤◌, ◌+◌, ◌++◌, ℕ, [], ◌∷◌, None, length, replicate, take, drop, slice_index_or, slice_set, OnErr, OnOk};
ghost use Rattle.std.specs.Vec.{vec_len};
ghost use Rattle.sha2.specs.Sha256.{sha256};
ghost use Rattle.v4l_rules.specs.Refusals.{first_refusal};
ghost use Rattle.vm_mem.specs.Seeded.{seeded};
ghost use Rattle.vm_local.specs.Memory.{named, memory_of, bytes_of};
ghost use Rattle.vm_local.specs.Calls.{row_of, hash_row, reqbufs_row};
ghost use Rattle.vm_local.specs.Record.{without_bytes, with_memories};

use crate::buffer_effects::memory_kind;
use crate::buffers::BUFFER_LIMIT;
use crate::bytes::Bytes;
use crate::call::Call;
use crate::fresh::fresh_memories;
use crate::local::Local;
use crate::name::Name;
use crate::record::Record;
use crate::reply::Reply;
use sha2::{Digest, Sha256};
use std::alloc::Global;
use v4l_format::sizeimage;
use vm_mem::Memory;

impl Local {
    /// The bytes of a memory, none where there is none.
    pub(crate) fn bytes_of(&self, memory: u64) -> &[u8]
        ensures value { result.now ≡ bytes_of self.now memory }
        ensures most { length result.now ≤ 925696 }
    {
        match self.memories.get(memory as usize) {
            Some(bytes) => bytes.as_slice(),
            None => &[],
        }
    }

    /// The number of the memory that a name is bound to, 0 where it isn't.
    fn memory_named(&self, name: &Name) -> u64
        ensures { result ≡ memory_of (named self.now name.now) }
    {
        self.record.memory_named(name)
    }

    /// The bytes that a read gives, also where there are more than a reply can have.
    pub(crate) fn bytes_read(&self, m: &Name, off: u32, len: u32) -> &[u8]
        ensures { result.now ≡ take len (drop off
            (bytes_of self.now (memory_of (named self.now m.now)))) }
    {
        part(self.bytes_of(self.memory_named(m)), off, len)
    }

    /// The answer of `hash`.
    #[tactic(auto, unfolding(crate::specs::Calls::hash_row))]
    pub(crate) fn digest(&self, m: &Name) -> Reply
        ensures { result ≡ (hash_row self.now m.now).reply }
    {
        Reply::Digest(digest_of(self.bytes_of(self.memory_named(m))))
    }
}

/// Does to the memories what a call does that no refusal stops, on a handle of which this is the
/// record.
#[tactic(auto, unfolding(crate::specs::Calls::querycap_row, crate::specs::Calls::enumfmt_row, crate::specs::Calls::gfmt_row, crate::specs::Calls::tryfmt_row, crate::specs::Calls::sfmt_row, crate::specs::Calls::enuminput_row, crate::specs::Calls::ginput_row, crate::specs::Calls::sinput_row, crate::specs::Calls::querybuf_row, crate::specs::Calls::ualloc_row, crate::specs::Calls::qbuf_row, crate::specs::Calls::streamon_row, crate::specs::Calls::streamoff_row, crate::specs::Calls::dqbuf_row, crate::specs::Calls::mmap_row, crate::specs::Calls::munmap_row, crate::specs::Calls::read_row, crate::specs::Calls::hash_row, crate::specs::Calls::write_row, crate::specs::Calls::fill_row, crate::specs::Calls::subscribe_row, crate::specs::Calls::unsubscribe_row, crate::specs::Calls::dqevent_row))]
pub(crate) fn change(kept: &Record, memories: &mut Vec<Bytes>, call: &Call) -> Result<(), Memory>
    requires { (line : ℕ) × (addr : ℕ) × (first_refusal
        (row_of (with_memories kept.now.local memories.old.items) line addr call.now).refusals ≡
        None) }
    ensures ok { (line addr : ℕ) → OnOk result
        (memories.new.items ≡ (row_of
        (with_memories kept.now.local memories.old.items) line addr call.now).next.memories) }
    ensures err { OnErr result (memories.new.items ≡ memories.old.items) }
{
    match call {
        Call::OpenHandle { .. } => memories.clear(),
        Call::ReqBufs { t, m, n } => return add_fresh(kept, memories, *t, *m, *n),
        Call::UAlloc { u: _, len, off: _ } => return add_zeroed(kept.alloc, memories, *len),
        Call::Poke { m, off, bytes } => {
            write_at(
                memories,
                kept.memory_named(m) as usize,
                *off,
                bytes.as_bytes(),
            )
        }
        Call::Fill { m, seed } => fill_at(memories, kept.memory_named(m) as usize, *seed),
        Call::CloseHandle
        | Call::QueryCap
        | Call::EnumFmt { .. }
        | Call::GFmt { .. }
        | Call::TryFmt { .. }
        | Call::SFmt { .. }
        | Call::EnumInput { .. }
        | Call::GInput
        | Call::SInput { .. }
        | Call::QueryBuf { .. }
        | Call::QBuf { .. }
        | Call::StreamOn { .. }
        | Call::StreamOff { .. }
        | Call::DqBuf { .. }
        | Call::Mmap { .. }
        | Call::Munmap { .. }
        | Call::Peek { .. }
        | Call::Hash { .. }
        | Call::Subscribe { .. }
        | Call::Unsubscribe { .. }
        | Call::DqEvent => {}
    }
    Ok(())
}

/// Adds the zeroed memories of a queue's fresh buffers.
#[tactic(auto, unfolding(crate::specs::Calls::reqbufs_row, crate::specs::Queue::with_buffers))]
fn add_fresh(kept: &Record, memories: &mut Vec<Bytes>, t: u32, m: u32, n: u32) -> Result<(), Memory>
    ensures ok { OnOk result (memories.new.items ≡
        (reqbufs_row (with_memories kept.now.local memories.old.items) t m n).next.memories) }
    ensures err { OnErr result (memories.new.items ≡ memories.old.items) }
{
    let count = n.min(BUFFER_LIMIT as u32);
    let size = sizeimage(&kept.format_of(t));
    let mut fresh = fresh_memories(kept.alloc, memory_kind(m), size, count)?;
    memories.append(&mut fresh)?;
    Ok(())
}

/// Adds a memory of zeros.
fn add_zeroed(alloc: Global, memories: &mut Vec<Bytes>, len: u32) -> Result<(), Memory>
    requires { len ≤ 925696 }
    ensures ok { OnOk result (memories.new.items ≡ memories.old.items ++ replicate len 0 ∷ []) }
    ensures err { OnErr result (memories.new.items ≡ memories.old.items) }
{
    memories.reserve(1)?;
    memories.push_reserved(Bytes::zeroed(alloc, len)?);
    Ok(())
}

/// Writes bytes into a memory, where there is one with this number.
fn write_at(memories: &mut [Bytes], memory: usize, at: u32, bytes: &[u8])
    requires { at + length bytes.now ≤ length (slice_index_or memories.old memory []) }
    ensures { memories.new ≡ slice_set memories.old memory
        (take at (slice_index_or memories.old memory []) ++
        (bytes.now ++ drop (at + length bytes.now) (slice_index_or memories.old memory []))) }
{
    if memory < memories.len() {
        let kept = &mut memories[memory];
        kept.write(at, bytes);
    }
}

/// Fills a memory, where there is one with this number.
fn fill_at(memories: &mut [Bytes], memory: usize, seed: u8)
    ensures { memories.new ≡ slice_set memories.old memory
        (seeded seed (length (slice_index_or memories.old memory []))) }
{
    if memory < memories.len() {
        let kept = &mut memories[memory];
        kept.fill(seed);
    }
}

/// Puts bytes at the front of a memory, where there is one with this number.
pub(crate) fn set_front_at(memories: &mut Vec<Bytes>, memory: usize, front: Vec<u8>)
    requires { vec_len front ≤ 925696 }
    ensures { memories.new.items ≡ slice_set memories.old.items memory
        (front.items ++ drop (length front.items) (slice_index_or memories.old.items memory [])) }
{
    if memory < memories.len() {
        let kept = &mut memories[memory];
        kept.set_front(front);
    }
}

/// `len` bytes from `off` on, as far as there are.
fn part(bytes: &[u8], off: u32, len: u32) -> &[u8]
    ensures { result.now ≡ take len (drop off bytes.now) }
{
    let rest = if (off as usize) < bytes.len() {
        &bytes[off as usize..]
    } else {
        &[]
    };
    if (len as usize) < rest.len() {
        &rest[..len as usize]
    } else {
        rest
    }
}

/// The SHA-256 of these bytes.
fn digest_of(bytes: &[u8]) -> [u8; 32]
    ensures { result ≡ sha256 bytes.now }
{
    let mut hasher = Sha256::new();
    hasher.update(bytes);
    hasher.finalize()
}
