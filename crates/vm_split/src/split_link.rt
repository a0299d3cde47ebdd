ghost use Rattle.std.specs.Prelude.{◌≡◌, ◌≤◌, Contains, IfOk, length};
ghost use Rattle.vm_link.specs.Parcel.{IsPostable};
ghost use Rattle.vm_link.specs.Queue.{queue_at, with_queue, used_count, free_count, out_heads, posted, Takes, finished, first_finished, collected};
ghost use Rattle.vm_split.specs.Link.{state_at, with_state, queues_of};
ghost use Rattle.vm_split.specs.Owners.{freed, lowest_handed_out};
ghost use Rattle.vm_split.specs.Ring.{IsRingSize};
ghost use Rattle.vm_split.specs.Stands.{StandsFor, CountsStay, raised, new_state};

use crate::split_queue::SplitQueue;
use std::alloc::Global;
use std::marker::Model;
use vm_chain::Chain;
use vm_link::{Finished, Link, Parcel, QueueId, Taken};
use vm_mem::Memory;

/// The pages of the two queues.
const COMMAND_PAGE: u64 = 0;

const EVENT_PAGE: u64 = 1;

/// A link that keeps each queue as the bytes of its rings, in a page of the guest.
///
/// Source: VIRTIO 1.3, 2.7 "Split Virtqueues"; the pages and their layout are own.
#[derive(Drop)]
pub struct SplitLink {
    command: SplitQueue,
    event: SplitQueue,
}

impl Model for SplitLink {
    ghost use Rattle.vm_split.specs.Link.{SplitStates};

    ghost Value = { SplitStates };

    ghost view = { λ l. record { command = l.command; event = l.event } };
}

impl SplitLink {
    /// A link of two empty queues, of `command` and `event` descriptors: powers of two up to 64.
    ///
    /// # Errors
    /// `Memory` where the memory of pages and lists can't be had.
    pub fn new(alloc: Global, command: u16, event: u16) -> Result<SplitLink, Memory>
        requires command_size { IsRingSize command }
        requires event_size { IsRingSize event }
        ensures value { IfOk result (λ l. l
            ≡ record { command = new_state command; event = new_state event }) }
        ensures stands { IfOk result (λ l. StandsFor l.command × StandsFor l.event) }
    {
        let command = SplitQueue::new(alloc, command, COMMAND_PAGE)?;
        let event = SplitQueue::new(alloc, event, EVENT_PAGE)?;
        let link = SplitLink { command, event };
        // By the clause of `ring` the bytes stand for the lists.
        let _command = link.ring(QueueId::Command);
        let _event = link.ring(QueueId::Event);
        Ok(link)
    }

    /// The 4096 bytes of the queue's page: its descriptors, its available ring and its used ring.
    /// They stand for the queue's lists, whichever calls came before.
    pub fn ring(&self, q: QueueId) -> &[u8]
        ensures value { result.now ≡ (state_at q self.now).bytes }
        ensures stands { StandsFor (state_at q self.now) }
    {
        match q {
            QueueId::Command => self.command.bytes(),
            QueueId::Event => self.event.bytes(),
        }
    }
}

impl Link for SplitLink {
    ghost queues = { λ l. queues_of l };

    fn free(&self, q: QueueId) -> u16 {
        match q {
            QueueId::Command => self.command.free(),
            QueueId::Event => self.event.free(),
        }
    }

    fn untaken(&self, q: QueueId) -> u16 {
        match q {
            QueueId::Command => self.command.untaken(),
            QueueId::Event => self.event.untaken(),
        }
    }

    fn uncollected(&self, q: QueueId) -> u16 {
        match q {
            QueueId::Command => self.command.uncollected(),
            QueueId::Event => self.event.uncollected(),
        }
    }

    fn post(&mut self, q: QueueId, parcel: Parcel)
        requires postable { IsPostable parcel }
        requires room { length parcel.table ≤ free_count (queue_at q (queues_of self.old)) }
        ensures queues { queues_of self.new
            ≡ with_queue q (posted (queue_at q (queues_of self.old)) parcel) (queues_of self.old) }
        ensures lowest { (state_at q self.new).owners
            ≡ lowest_handed_out (length parcel.table) (state_at q self.old).owners }
        ensures counts { CountsStay (state_at q self.old) (state_at q self.new) }
        ensures stands { StandsFor (state_at q self.new) }
        ensures others { self.new ≡ with_state q (state_at q self.new) self.old }
    {
        match q {
            QueueId::Command => self.command.post(parcel),
            QueueId::Event => self.event.post(parcel),
        }
        // By the clause of `ring` its bytes stand for the lists.
        let _bytes = self.ring(q);
    }

    fn take(&mut self, q: QueueId, chain: &mut Chain) -> Option<Taken>
        ensures taken { Takes (queue_at q (queues_of self.old)) chain.old
            result (queue_at q (queues_of self.new)) chain.new }
        ensures queues { queues_of self.new
            ≡ with_queue q (queue_at q (queues_of self.new)) (queues_of self.old) }
        ensures owners { (state_at q self.new).owners ≡ (state_at q self.old).owners }
        ensures count { (state_at q self.new).taken ≡ raised result (state_at q self.old).taken }
        ensures bytes { (state_at q self.new).bytes ≡ (state_at q self.old).bytes }
        ensures stands { StandsFor (state_at q self.new) }
        ensures others { self.new ≡ with_state q (state_at q self.new) self.old }
    {
        let taken = match q {
            QueueId::Command => self.command.take(chain),
            QueueId::Event => self.event.take(chain),
        };
        // By the clause of `ring` its bytes stand for the lists.
        let _bytes = self.ring(q);
        taken
    }

    fn finish(&mut self, q: QueueId, done: Finished)
        requires { Contains (out_heads (queue_at q (queues_of self.old))) done.head }
        ensures queues { queues_of self.new
            ≡ with_queue q (finished (queue_at q (queues_of self.old)) done) (queues_of self.old) }
        ensures owners { (state_at q self.new).owners ≡ (state_at q self.old).owners }
        ensures counts { CountsStay (state_at q self.old) (state_at q self.new) }
        ensures stands { StandsFor (state_at q self.new) }
        ensures others { self.new ≡ with_state q (state_at q self.new) self.old }
    {
        match q {
            QueueId::Command => self.command.finish(done),
            QueueId::Event => self.event.finish(done),
        }
        // By the clause of `ring` its bytes stand for the lists.
        let _bytes = self.ring(q);
    }

    fn collect(&mut self, q: QueueId) -> Option<Finished>
        ensures done { result ≡ first_finished (queue_at q (queues_of self.old)).done }
        ensures queues { queues_of self.new
            ≡ with_queue q (collected (queue_at q (queues_of self.old))) (queues_of self.old) }
        ensures fits { used_count (queue_at q (queues_of self.old)) ≤
            (queue_at q (queues_of self.old)).size }
        ensures owners { (state_at q self.new).owners
            ≡ freed result (state_at q self.old).owners }
        ensures count { (state_at q self.new).collected
            ≡ raised result (state_at q self.old).collected }
        ensures bytes { (state_at q self.new).bytes ≡ (state_at q self.old).bytes }
        ensures stands { StandsFor (state_at q self.new) }
        ensures others { self.new ≡ with_state q (state_at q self.new) self.old }
    {
        let done = match q {
            QueueId::Command => self.command.collect(),
            QueueId::Event => self.event.collect(),
        };
        // By the clause of `ring` its bytes stand for the lists.
        let _bytes = self.ring(q);
        done
    }
}
