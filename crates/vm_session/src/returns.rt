//! The queues of a session as frames are done and their buffers return.
ghost use Rattle.std.specs.Prelude.{◌≡◌, ◌≤◌, ◌==◌, true, All, length, map, slice_index_or, slice_set};
ghost use Rattle.std.specs.List.{list_any};
ghost use Rattle.vm_mem.specs.Lists.{occurrences};
ghost use Rattle.vm_session.specs.State.{opening_queue};
ghost use Rattle.vm_session.specs.Streaming.{counted, settled};

use crate::queue::Queue;

/// The number of the next frame of the queue at a place, 0 where there is none.
pub fn sequence_at(queues: &[Queue], place: usize) -> u32
    ensures { result ≡ (slice_index_or queues.now place opening_queue).sequence }
{
    match queues.get(place) {
        Some(queue) => queue.sequence(),
        None => 0,
    }
}

/// Counts a frame that is done on every queue. Few buffers of each are out.
pub fn count_frame(queues: &mut [Queue])
    ensures queues { queues.new ≡ map counted queues.old }
    ensures few { All (λ q. length q.out ≤ 32) queues.new }
{
    for queue in queues.iter_mut() {
        queue.count_frame();
    }
}

/// Brings a buffer home that is out, in the queue at a place. It is out there once.
#[tactic(auto, using(std::proofs::lemmas::List::set_past))]
pub fn settle_at(queues: &mut [Queue], place: usize, index: u32)
    requires { list_any (λ i. i == index) (slice_index_or queues.old place opening_queue).out ≡
        true }
    ensures queues { queues.new ≡ slice_set queues.old place
        (settled (slice_index_or queues.old place opening_queue) index) }
    ensures once { occurrences index (slice_index_or queues.old place opening_queue).out ≤ 1 }
{
    if place < queues.len() {
        let queue = &mut queues[place];
        queue.settle(index);
    }
}
