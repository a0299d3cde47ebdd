ghost use Rattle.std.specs.Prelude.{◌≡◌, ◌≤◌, ◌<◌, ◌^◌, Contains, IfOk, length, sum_by};
ghost use Rattle.vm_link.specs.Parcel.{IsPostable};
ghost use Rattle.vm_link.specs.Queue.{empty_queue, used_count, free_count, out_heads, posted, Takes, finished, first_finished, collected};

use crate::chain_lists::{count_at, counts_of_done, counts_of_out, counts_of_waiting, remove};
use crate::heads::all_heads;
use crate::parcel_walk::walk_parcel;
use crate::{DoneChain, Finished, OutChain, Parcel, Taken};
use std::alloc::Global;
use std::collections::VecDeque;
use std::marker::Model;
use vm_chain::Chain;
use vm_mem::Memory;

/// A queue that keeps its three lists as lists, and a stack of the heads that no chain has.
#[derive(Drop)]
pub struct PlainQueue {
    size: u16,
    free_heads: Vec<u16>,
    waiting: VecDeque<Parcel>,
    out: Vec<OutChain>,
    done: VecDeque<DoneChain>,
}

impl Model for PlainQueue {
    ghost use Rattle.std.specs.Prelude.{vec_capacity};
    ghost use Rattle.std.specs.VecDeque.{deque_capacity};
    ghost use Rattle.vm_link.specs.PlainQueue.{IsSound, IsRoomy};
    ghost use Rattle.vm_link.specs.Queue.{Queue};

    ghost Value = { Queue };

    ghost view = { λ q. record {
      size = q.size;
      waiting = q.waiting.items;
      out = q.out.items;
      done = q.done.items;
    } };

    // No call takes memory, since each list has room.
    ghost invariant = { λ q. IsSound q.free_heads.items
        (record {
          size = q.size;
          waiting = q.waiting.items;
          out = q.out.items;
          done = q.done.items;
        })
        × IsRoomy q.size (vec_capacity q.free_heads) (deque_capacity q.waiting) (vec_capacity q.out)
        (deque_capacity q.done) };
}

impl PlainQueue {
    /// An empty queue of `size` descriptors, or want of memory.
    pub fn new(alloc: Global, size: u16) -> Result<PlainQueue, Memory>
        ensures { IfOk result (λ q. q ≡ empty_queue size) }
    {
        let free_heads = all_heads(alloc, size)?;
        let room = usize::from(size);
        Ok(PlainQueue {
            size,
            free_heads,
            waiting: VecDeque::with_capacity(alloc, room)?,
            out: Vec::with_capacity(alloc, room)?,
            done: VecDeque::with_capacity(alloc, room)?,
        })
    }

    /// How many descriptors no chain has.
    pub fn free(&self) -> u16
        ensures { result ≡ free_count self.now }
    {
        let waiting = counts_of_waiting(&self.waiting);
        let out = counts_of_out(self.out.as_slice());
        let done = counts_of_done(&self.done);
        self.size - (waiting + out + done)
    }

    /// How many parcels wait.
    pub fn untaken(&self) -> u16
        ensures { result ≡ length self.now.waiting }
    {
        self.waiting.len() as u16
    }

    /// How many chains are finished and not collected.
    pub fn uncollected(&self) -> u16
        ensures { result ≡ length self.now.done }
    {
        self.done.len() as u16
    }

    /// Puts a parcel behind those that wait.
    pub fn post(&mut self, parcel: Parcel)
        requires postable { IsPostable parcel }
        requires room { length parcel.table ≤ free_count self.old }
        ensures { self.new ≡ posted self.old parcel }
    {
        self.waiting.push_back(parcel).unwrap();
    }

    /// Takes the first parcel that waits, and walks its table.
    pub fn take(&mut self, chain: &mut Chain) -> Option<Taken>
        ensures { Takes self.old chain.old result self.new chain.new }
    {
        let parcel = self.waiting.pop_front()?;
        let head = self.free_heads.pop().unwrap();
        let count = parcel.table.len() as u16;
        self.out.push_reserved(OutChain { head, count });
        let fault = walk_parcel(&parcel, chain);
        Some(Taken {
            head,
            fault,
            parcel,
        })
    }

    /// Puts a chain that is out behind those that are finished.
    pub fn finish(&mut self, done: Finished)
        requires { Contains (out_heads self.old) done.head }
        ensures { self.new ≡ finished self.old done }
    {
        let count = count_at(self.out.as_slice(), done.head);
        remove(&mut self.out, done.head);
        let finished = DoneChain {
            finished: done,
            count,
        };
        self.done.push_back(finished).unwrap();
    }

    /// Gives the first chain that is finished. Its head is free again.
    pub fn collect(&mut self) -> Option<Finished>
        ensures done { result ≡ first_finished self.old.done }
        ensures queue { self.new ≡ collected self.old }
        ensures fits { used_count self.old ≤ self.old.size }
    {
        let chain = self.done.pop_front()?;
        self.free_heads.push_reserved(chain.finished.head);
        Some(chain.finished)
    }
}
