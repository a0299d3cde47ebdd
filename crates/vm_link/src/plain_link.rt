ghost use Rattle.std.specs.Prelude.{◌≡◌, IfOk};
ghost use Rattle.vm_link.specs.Queue.{empty_queue};

use crate::plain_queue::PlainQueue;
use crate::{Finished, Link, Parcel, QueueId, Taken};
use std::alloc::Global;
use std::marker::Model;
use vm_chain::Chain;
use vm_mem::Memory;

/// A link that keeps its lists as lists.
///
/// Source: own.
#[derive(Drop)]
pub struct PlainLink {
    command: PlainQueue,
    event: PlainQueue,
}

impl Model for PlainLink {
    ghost use Rattle.vm_link.specs.Queue.{Queues};

    ghost Value = { Queues };

    ghost view = { λ l. record { command = l.command; event = l.event } };
}

impl PlainLink {
    /// A link of two empty queues, of `command` and `event` descriptors.
    ///
    /// # Errors
    /// `Memory` where the lists' memory can't be had.
    pub fn new(alloc: Global, command: u16, event: u16) -> Result<PlainLink, Memory>
        ensures { IfOk result (λ l. l ≡
            record { command = empty_queue command; event = empty_queue event }) }
    {
        let command = PlainQueue::new(alloc, command)?;
        let event = PlainQueue::new(alloc, event)?;
        Ok(PlainLink { command, event })
    }
}

impl Link for PlainLink {
    ghost queues = { λ l. l };

    fn free(&self, q: QueueId) -> u16 {
        match q {
            QueueId::Command => self.command.free(),
            QueueId::Event => self.event.free(),
        }
    }

    fn untaken(&self, q: QueueId) -> u16 {
        match q {
            QueueId::Command => self.command.untaken(),
            QueueId::Event => self.event.untaken(),
        }
    }

    fn uncollected(&self, q: QueueId) -> u16 {
        match q {
            QueueId::Command => self.command.uncollected(),
            QueueId::Event => self.event.uncollected(),
        }
    }

    fn post(&mut self, q: QueueId, parcel: Parcel) {
        match q {
            QueueId::Command => self.command.post(parcel),
            QueueId::Event => self.event.post(parcel),
        }
    }

    fn take(&mut self, q: QueueId, chain: &mut Chain) -> Option<Taken> {
        match q {
            QueueId::Command => self.command.take(chain),
            QueueId::Event => self.event.take(chain),
        }
    }

    fn finish(&mut self, q: QueueId, done: Finished) {
        match q {
            QueueId::Command => self.command.finish(done),
            QueueId::Event => self.event.finish(done),
        }
    }

    fn collect(&mut self, q: QueueId) -> Option<Finished> {
        match q {
            QueueId::Command => self.command.collect(),
            QueueId::Event => self.event.collect(),
        }
    }
}
