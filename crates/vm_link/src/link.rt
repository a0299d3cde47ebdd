ghost use Rattle.std.specs.Prelude.{◌≡◌, ◌≤◌, Contains, length};
ghost use Rattle.vm_link.specs.Parcel.{IsPostable};
ghost use Rattle.vm_link.specs.Queue.{Queues, queue_at, with_queue, used_count, free_count, out_heads, posted, Takes, finished, first_finished, collected};

use crate::{Finished, Parcel, Taken};
use vm_chain::Chain;

/// What a step answers that may find nothing to do.
///
/// Source: own.
#[derive(Clone, Copy, Debug, PartialEq, Eq)]
pub enum Turn {
    /// The step was done.
    Did,
    /// There was nothing to do, and nothing changed.
    Idle,
}

/// A queue of the link.
///
/// Source: own, after the VIRTIO 1.4 draft, "Media Device".
#[derive(Clone, Copy, Debug, PartialEq, Eq)]
pub enum QueueId {
    /// For commands and their replies.
    Command,
    /// For events.
    Event,
}

/// The two queues between the driver and the device: in each, what waits, what the device has
/// taken, and what it has finished. A call changes no other queue than the one that it names, and
/// no queue's size. None takes memory.
///
/// Source: VIRTIO 1.3, 2.7 "Split Virtqueues", seen as whole lists.
pub trait Link {
    /// The sizes and the lists of the queues.
    ghost queues: { Self → Queues };

    /// How many descriptors are free.
    fn free(&self, q: QueueId) -> u16
        ensures { result ≡ free_count (queue_at q (queues self.now)) };

    /// How many parcels are posted and not taken.
    fn untaken(&self, q: QueueId) -> u16
        ensures { result ≡ length (queue_at q (queues self.now)).waiting };

    /// How many parcels are finished and not collected.
    fn uncollected(&self, q: QueueId) -> u16
        ensures { result ≡ length (queue_at q (queues self.now)).done };

    /// The driver posts a parcel behind those that wait. It has one to four descriptors and at most
    /// four pages, and as many descriptors are free.
    fn post(&mut self, q: QueueId, parcel: Parcel)
        requires postable { IsPostable parcel }
        requires room { length parcel.table ≤ free_count (queue_at q (queues self.old)) }
        ensures { queues self.new ≡ with_queue q (posted (queue_at q (queues self.old)) parcel)
            (queues self.old) };

    /// The device takes the first parcel that waits, and walks its table from 0 on, over as many
    /// descriptors as `chain` was made for and in the parcel's pages. `None` exactly where none
    /// waits.
    fn take(&mut self, q: QueueId, chain: &mut Chain) -> Option<Taken>
        ensures taken { Takes (queue_at q (queues self.old)) chain.old result
            (queue_at q (queues self.new)) chain.new }
        ensures others { queues self.new ≡ with_queue q (queue_at q (queues self.new))
            (queues self.old) };

    /// The device gives back a chain that it took, behind those that are finished.
    fn finish(&mut self, q: QueueId, done: Finished)
        requires { Contains (out_heads (queue_at q (queues self.old))) done.head }
        ensures { queues self.new ≡ with_queue q (finished (queue_at q (queues self.old)) done)
            (queues self.old) };

    /// The driver collects the first chain that is finished, and so frees its descriptors. `None`
    /// exactly where none is. No more descriptors were in use than the queue has.
    fn collect(&mut self, q: QueueId) -> Option<Finished>
        ensures done { result ≡ first_finished (queue_at q (queues self.old)).done }
        ensures queues { queues self.new ≡ with_queue q (collected (queue_at q (queues self.old)))
            (queues self.old) }
        ensures fits { used_count (queue_at q (queues self.old)) ≤
            (queue_at q (queues self.old)).size };
}
