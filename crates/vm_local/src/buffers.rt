ghost use Rattle.std.specs.Prelude.{◌≡◌, ℕ, List, map, drop, slice_index, slice_index_or, slice_set, ◌&&◌, not};
ghost use Rattle.std.specs.List.{list_any};
ghost use Rattle.vm_local.specs.Memory.{is_just};
ghost use Rattle.vm_local.specs.Kinds.{is_away, is_idle};
ghost use Rattle.vm_local.specs.State.{no_buffer};
ghost use Rattle.vm_local.specs.Queue.{made_idle};

use crate::buffer::{Buffer, BufferState};
use arrayvec::ArrayVec;

/// How many buffers a queue has at most.
///
/// Source: Linux V4L2, `VIDEO_MAX_FRAME`.
pub const BUFFER_LIMIT: usize = 32;

/// The buffers of a queue, by their indices.
pub type Buffers = ArrayVec<Buffer, BUFFER_LIMIT>;

/// Indices of buffers, each of which stands there once at most.
pub type Indices = ArrayVec<u32, BUFFER_LIMIT>;

/// What stands for a buffer that isn't there.
pub const NO_BUFFER: Buffer = Buffer {
    state: BufferState::Idle,
    length: 0,
    used: 0,
    sequence: 0,
    timestamp: 0,
    is_bad: false,
    memory: None,
};

/// The `i`-th buffer.
pub fn buffer_at(buffers: &[Buffer], i: u32) -> Buffer
    ensures { result ≡ slice_index_or buffers.now i no_buffer }
{
    buffers.get(i as usize).copied().unwrap_or(NO_BUFFER)
}

/// Sets the `i`-th buffer, where there is one.
pub fn set_buffer(buffers: &mut [Buffer], i: u32, buffer: Buffer)
    ensures { buffers.new ≡ slice_set buffers.old i buffer }
{
    if (i as usize) < buffers.len() {
        buffers[i as usize] = buffer;
    }
}

/// Makes all buffers Idle.
pub fn make_idle(buffers: &mut [Buffer])
    ensures { buffers.new ≡ map made_idle buffers.old }
{
    for buffer in buffers.iter_mut() {
        buffer.state = BufferState::Idle;
    }
}

/// The first of a list of indices, 0 where there is none.
pub fn first_of(indices: &[u32]) -> u32
    ensures { result ≡ slice_index indices.now 0 }
{
    indices.first().copied().unwrap_or(0)
}

/// Removes the first of a list of indices, where there is one.
pub fn remove_first(indices: &mut Indices)
    ensures { indices.new.items ≡ drop 1 indices.old.items }
{
    if !indices.is_empty() {
        indices.remove(0);
    }
}

/// Whether one of the buffers has this memory and is Queued or Owed.
pub fn lends(buffers: &[Buffer], memory: u64) -> bool
    ensures { result ≡ list_any (λ b. is_just b.memory memory && is_away b.state) buffers.now }
{
    buffers.iter().any(|buffer| is_just(buffer.memory, memory) && buffer.state.is_away())
}

/// Whether one of the buffers has this memory and isn't Idle.
pub fn uses(buffers: &[Buffer], memory: u64) -> bool
    ensures { result ≡ list_any (λ b. is_just b.memory memory && not
        (is_idle b.state)) buffers.now }
{
    buffers.iter().any(|buffer| is_just(buffer.memory, memory) && !buffer.state.is_idle())
}

/// Whether there is a number, and it is this one.
pub fn is_just(number: Option<u64>, wanted: u64) -> bool
    ensures { result ≡ is_just number wanted }
{
    match number {
        Some(number) => number == wanted,
        None => false,
    }
}

/// Whether one of the buffers has this memory.
pub fn have(buffers: &[Buffer], memory: u64) -> bool
    ensures { result ≡ list_any (λ b. is_just b.memory memory) buffers.now }
{
    buffers.iter().any(|buffer| is_just(buffer.memory, memory))
}
