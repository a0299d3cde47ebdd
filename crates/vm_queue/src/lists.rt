//! What is asked of the lists of a queue.
ghost use Rattle.std.specs.Prelude.{◌≡◌, ◌+◌, ◌≤◌, ◌==◌, ◌++◌, [], not, filter, length, vec_len, vec_capacity};
ghost use Rattle.std.specs.List.{list_any};
ghost use Rattle.std.specs.VecDeque.{deque_capacity};
ghost use Rattle.vm_queue.specs.Buffers.{memories};

use crate::Queued;
use std::collections::VecDeque;
use vm_frame::Held;

/// Whether the buffer with this index is among those that are queued.
pub fn has_queued(queued: &VecDeque<Queued>, index: u32) -> bool
    ensures { result ≡ list_any (λ b. b.buffer.index == index) queued.now.items }
{
    queued.iter().any(|b| b.buffer.index == index)
}

/// Whether an index is among these.
pub fn has_index(indices: &[u32], index: u32) -> bool
    ensures { result ≡ list_any (λ i. i == index) indices.now }
{
    indices.iter().any(|i| *i == index)
}

/// Takes an index out of the list.
pub fn remove(indices: &mut Vec<u32>, index: u32)
    ensures list { indices.new.items ≡ filter (λ i. not (i == index)) indices.old.items }
    ensures capacity { vec_capacity indices.new ≡ vec_capacity indices.old }
{
    indices.retain(|i| *i != index);
}

/// Puts the memories of the buffers that are queued behind what `back` has, the first one first.
pub fn give_back(queued: &mut VecDeque<Queued>, back: &mut Vec<Held>)
    requires room { vec_len back.old + length queued.old.items ≤ vec_capacity back.old }
    ensures none { queued.new.items ≡ [] }
    ensures capacity { deque_capacity queued.new ≡ deque_capacity queued.old }
    ensures memories { back.new.items ≡ back.old.items ++ memories queued.old.items }
    ensures room { vec_capacity back.new ≡ vec_capacity back.old }
{
    'buffers: while let Some(b) = queued.pop_front() {
        back.push_reserved(b.held);
    }
}
