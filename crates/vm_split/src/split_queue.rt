ghost use Rattle.std.specs.Prelude.{◌≡◌, ◌≤◌, Contains, IfOk, length};
ghost use Rattle.vm_link.specs.Parcel.{IsPostable};
ghost use Rattle.vm_link.specs.Queue.{used_count, free_count, out_heads, posted, Takes, finished, first_finished, collected};
ghost use Rattle.vm_split.specs.Owners.{freed, lowest_handed_out};
ghost use Rattle.vm_split.specs.Ring.{IsRingSize};
ghost use Rattle.vm_split.specs.Stands.{StandsFor, CountsStay, raised, new_state};

use crate::entry::UsedEntry;
use crate::laying::lay_chain;
use crate::owners::{count_free, find_free, hand_out, take_back};
use crate::parcel_walk::walk_parcel;
use crate::parcels::{no_owners, no_parcels, put_parcel, remove, take_parcel};
use crate::ring::Ring;
use std::alloc::Global;
use std::marker::Model;
use vm_chain::Chain;
use vm_link::{Finished, Parcel, Taken};
use vm_mem::Memory;

/// As many descriptors as a parcel may have.
const MAX_DESCS: usize = 4;

/// A queue over its rings. The parcels lie beside the rings, each at its chain's head.
#[derive(Drop)]
pub struct SplitQueue {
    ring: Ring,
    // How many chains the device took, and how many the driver collected, modulo 65,536.
    taken: u16,
    collected: u16,
    // For each descriptor the head of its chain.
    owners: Vec<Option<u16>>,
    parcels: Vec<Option<Parcel>>,
    // The heads of the chains that the device took and didn't finish.
    out: Vec<u16>,
}

impl Model for SplitQueue {
    ghost use Rattle.std.specs.Prelude.{◌≤◌, vec_capacity};
    ghost use Rattle.vm_split.specs.Kept.{Kept, queue_of, IsSound};
    ghost use Rattle.vm_split.specs.Stands.{SplitState};

    ghost Value = { SplitState };

    ghost view = { λ q. record {
      bytes = q.ring.bytes;
      taken = q.taken;
      collected = q.collected;
      owners = q.owners.items;
      queue = queue_of (record {
        size = q.ring.size;
        contents = q.ring.contents;
        taken = q.taken;
        collected = q.collected;
        owners = q.owners.items;
        parcels = q.parcels.items;
        out = q.out.items;
      });
    } };

    // No call takes memory, since the list of what is out has room.
    ghost invariant = { λ q. IsSound (record {
      size = q.ring.size;
      contents = q.ring.contents;
      taken = q.taken;
      collected = q.collected;
      owners = q.owners.items;
      parcels = q.parcels.items;
      out = q.out.items;
    }) × (q.ring.size ≤ vec_capacity q.out) };
}

impl SplitQueue {
    /// An empty queue of `size` descriptors over the page with this number, or want of memory.
    pub fn new(alloc: Global, size: u16, number: u64) -> Result<SplitQueue, Memory>
        requires { IsRingSize size }
        ensures { IfOk result (λ q. q ≡ new_state size) }
    {
        let ring = Ring::new(alloc, size, number)?;
        let owners = no_owners(alloc, size)?;
        let parcels = no_parcels(alloc, size)?;
        let out = Vec::with_capacity(alloc, usize::from(size))?;
        Ok(SplitQueue {
            ring,
            taken: 0,
            collected: 0,
            owners,
            parcels,
            out,
        })
    }

    /// The page's bytes, which stand for the lists.
    pub fn bytes(&self) -> &[u8]
        ensures value { result.now ≡ self.now.bytes }
        ensures stands { StandsFor self.now }
    {
        self.ring.bytes()
    }

    /// How many descriptors no chain has.
    pub fn free(&self) -> u16
        ensures { result ≡ free_count self.now.queue }
    {
        count_free(self.owners.as_slice())
    }

    /// How many parcels wait: as many as the available index is ahead of what was taken.
    pub fn untaken(&self) -> u16
        ensures { result ≡ length self.now.queue.waiting }
    {
        self.ring.available_index().wrapping_sub(self.taken)
    }

    /// How many chains are finished and not collected: as many as the used index is ahead of what
    /// was collected.
    pub fn uncollected(&self) -> u16
        ensures { result ≡ length self.now.queue.done }
    {
        self.ring.used_index().wrapping_sub(self.collected)
    }

    /// Lays a parcel's chain into the lowest free descriptors, and makes it available behind those
    /// that wait.
    pub fn post(&mut self, parcel: Parcel)
        requires postable { IsPostable parcel }
        requires room { length parcel.table ≤ free_count self.old.queue }
        ensures queue { self.new.queue ≡ posted self.old.queue parcel }
        ensures lowest { self.new.owners ≡ lowest_handed_out (length parcel.table) self.old.owners }
        ensures counts { CountsStay self.old self.new }
    {
        let mut room = [0; MAX_DESCS];
        let places = &mut room[..parcel.table.len()];
        find_free(self.owners.as_slice(), places);
        let head = places[0];
        hand_out(self.owners.as_mut_slice(), head, places.len());
        lay_chain(&mut self.ring, parcel.table.as_slice(), places);
        put_parcel(self.parcels.as_mut_slice(), head, parcel);
        self.ring.offer(head);
    }

    /// Takes the parcel whose chain the first available entry names, and walks its table.
    pub fn take(&mut self, chain: &mut Chain) -> Option<Taken>
        ensures taken { Takes self.old.queue chain.old result self.new.queue chain.new }
        ensures bytes { self.new.bytes ≡ self.old.bytes }
        ensures owners { self.new.owners ≡ self.old.owners }
        ensures count { self.new.taken ≡ raised result self.old.taken }
        ensures collected { self.new.collected ≡ self.old.collected }
    {
        if self.untaken() == 0 {
            return None;
        }
        let head = self.ring.available_head(self.taken);
        let parcel = take_parcel(self.parcels.as_mut_slice(), head).unwrap();
        self.taken = self.taken.wrapping_add(1);
        self.out.push_reserved(head);
        let fault = walk_parcel(&parcel, chain);
        Some(Taken {
            head,
            fault,
            parcel,
        })
    }

    /// Gives a chain back that is out, by the next used entry.
    pub fn finish(&mut self, done: Finished)
        requires { Contains (out_heads self.old.queue) done.head }
        ensures queue { self.new.queue ≡ finished self.old.queue done }
        ensures owners { self.new.owners ≡ self.old.owners }
        ensures counts { CountsStay self.old self.new }
    {
        let Finished { head, used, parcel } = done;
        remove(&mut self.out, head);
        put_parcel(self.parcels.as_mut_slice(), head, parcel);
        self.ring.give_back(UsedEntry {
            id: u32::from(head),
            len: used,
        });
    }

    /// Collects the chain that the first used entry names. Its descriptors are free again.
    pub fn collect(&mut self) -> Option<Finished>
        ensures done { result ≡ first_finished self.old.queue.done }
        ensures queue { self.new.queue ≡ collected self.old.queue }
        ensures fits { used_count self.old.queue ≤ self.old.queue.size }
        ensures bytes { self.new.bytes ≡ self.old.bytes }
        ensures owners { self.new.owners ≡ freed result self.old.owners }
        ensures count { self.new.collected ≡ raised result self.old.collected }
        ensures taken { self.new.taken ≡ self.old.taken }
    {
        if self.uncollected() == 0 {
            return None;
        }
        let entry = self.ring.used_entry(self.collected);
        let head = entry.id as u16;
        let parcel = take_parcel(self.parcels.as_mut_slice(), head).unwrap();
        take_back(self.owners.as_mut_slice(), head);
        self.collected = self.collected.wrapping_add(1);
        Some(Finished {
            head,
            used: entry.len,
            parcel,
        })
    }
}
