ghost use Rattle.std.specs.Prelude.{◌≡◌, ◌<◌, ◌≤◌, length, max, slice_get, slice_index, IfSome, IfNone, OnErr, OnOk, is_some};
ghost use Rattle.v4l_const.specs.Model.{queues as types_of};
ghost use Rattle.v4l_rules.specs.Queues.{place_in, has_type};
ghost use Rattle.vm_local.specs.State.{opening, opening_queue, queue_of};
ghost use Rattle.vm_local.specs.Memory.{named, bytes_of};

use crate::bound::Bound;
use crate::buffers::BUFFER_LIMIT;
use crate::name::Name;
use crate::names::named_in;
use crate::owed::{Owed, SyncEvent};
use crate::queue::Queue;
use crate::queues::Queues;
use std::alloc::Global;
use std::marker::Model;
use v4l_rules::place_in;
use vm_mem::Memory;

/// How many events a record has at most, so that their count fits into a reply.
const EVENT_LIMIT: usize = 4_294_967_294;

/// How many entries of what is owed one entry of a log leaves at most: an event, and a buffer of
/// each queue.
const OWED_LIMIT: usize = 3;

/// What a handle is but for the bytes of its memories, of which a record keeps how many they are.
///
/// It moves by the entries of a log as the handle's state does, and takes no memory for those that
/// it has room for.
///
/// Source: own.
#[derive(Drop)]
pub struct Record {
    pub(crate) alloc: Global,
    pub(crate) model: v4l_const::Model,
    pub(crate) opened: bool,
    pub(crate) blocking: bool,
    pub(crate) input: u32,
    pub(crate) subscribed: bool,
    pub(crate) events: Vec<SyncEvent>,
    pub(crate) next_event: u32,
    pub(crate) owed: Vec<Owed>,
    pub(crate) queues: Queues,
    /// How many bytes each memory has.
    pub(crate) lengths: Vec<u32>,
    pub(crate) bound: Vec<Bound>,
    /// For how many further entries the lists have room.
    pub(crate) room: usize,
}

impl Model for Record {
    ghost use Rattle.std.specs.Prelude.{◌+◌, ◌-◌, ◌*◌, ◌≤◌, ◌<◌, ◌^◌, length, map, vec_len, vec_capacity};
    ghost use Rattle.v4l_format.specs.Pattern.{patterns};
    ghost use Rattle.vm_local.specs.Record.{RecordState, unwritten, IsOrderly};

    ghost Value = { RecordState };

    ghost view = { λ r. record {
      local = record {
        model = r.model;
        opened = r.opened;
        blocking = r.blocking;
        input = r.input;
        subscribed = r.subscribed;
        events = r.events.items;
        next_event = r.next_event;
        owed = r.owed.items;
        queues = r.queues;
        memories = map unwritten r.lengths.items;
        bound = r.bound.items;
      };
      room = r.room;
    } };

    ghost invariant = { λ r. (r.input < length patterns)
        × IsOrderly r.model r.queues r.owed.items
        × (vec_len r.events + r.room < 2 ^ 32 - 1)
        × (vec_len r.events + r.room ≤ vec_capacity r.events)
        × (vec_len r.owed + 3 * r.room ≤ vec_capacity r.owed)
        × (vec_len r.lengths + 32 * r.room ≤ vec_capacity r.lengths)
        × (vec_len r.bound + r.room ≤ vec_capacity r.bound) };
}

impl Record {
    /// The record of a handle of this model before its first entry. It has no room yet.
    pub fn new(alloc: Global, model: v4l_const::Model) -> Record
        ensures { result ≡ record { local = opening model; room = 0 } }
    {
        Record {
            alloc,
            model,
            opened: false,
            blocking: true,
            input: 0,
            subscribed: false,
            events: Vec::new(alloc),
            next_event: 0,
            owed: Vec::new(alloc),
            queues: Queues::new(alloc, model),
            lengths: Vec::new(alloc),
            bound: Vec::new(alloc),
            room: 0,
        }
    }

    /// Makes room for so many further entries, where there is less.
    ///
    /// # Errors
    /// `Memory` where the room can't be had, or where more than 4,294,967,294 events could be
    /// listed.
    pub fn reserve(&mut self, entries: usize) -> Result<(), Memory>
        ensures ok { OnOk result (self.new ≡ record self.old { room = max self.old.room entries }) }
        ensures err { OnErr result (self.new ≡ self.old) }
    {
        if entries <= self.room {
            return Ok(());
        }
        if entries > EVENT_LIMIT - self.events.len() {
            return Err(Memory);
        }
        self.events.reserve(entries)?;
        self.owed.reserve(entries * OWED_LIMIT)?;
        self.lengths.reserve(entries * BUFFER_LIMIT)?;
        self.bound.reserve(entries)?;
        self.room = entries;
        Ok(())
    }

    /// For how many further entries there is room.
    pub fn room(&self) -> usize
        ensures { result ≡ self.now.room }
    {
        self.room
    }

    /// The device's model.
    pub fn model(&self) -> v4l_const::Model
        ensures { result ≡ self.now.local.model }
    {
        self.model
    }

    /// Whether the handle is open.
    pub fn is_open(&self) -> bool
        ensures { result ≡ self.now.local.opened }
    {
        self.opened
    }

    /// The number of the input that is set.
    pub fn input(&self) -> u32
        ensures { result ≡ self.now.local.input }
    {
        self.input
    }

    /// How many events are listed: those that the guest has yet to take.
    pub fn events_listed(&self) -> usize
        ensures { result ≡ length self.now.local.events }
    {
        self.events.len()
    }

    /// What the device owes first.
    pub fn first_owed(&self) -> Option<Owed>
        ensures { result ≡ slice_get self.now.local.owed 0 }
    {
        first_of(&self.owed)
    }

    /// What a name is bound to.
    pub fn named(&self, name: &Name) -> Option<Bound>
        ensures { result ≡ named self.now.local name.now }
    {
        named_in(&self.bound, name)
    }

    /// How many memories were made. They have the numbers below this one.
    #[tactic(auto, using(crate::proofs::RecordLemmas::made))]
    pub fn memories_made(&self) -> u64
        ensures { result ≡ length self.now.local.memories }
    {
        self.lengths.len() as u64
    }

    /// How many bytes a memory has, 0 where there is none.
    #[tactic(auto, using(crate::proofs::RecordLemmas::unwritten_long))]
    pub fn length_of(&self, memory: u64) -> u32
        ensures { result ≡ length (bytes_of self.now.local memory) }
    {
        length_at(&self.lengths, memory)
    }

    /// The place of the queue with this buffer type, where the model has it.
    pub(crate) fn place_of(&self, t: u32) -> Option<usize>
        ensures has { is_some result ≡ has_type self.now.local.model t }
        ensures place { IfSome result (λ p. p ≡ place_in (types_of self.now.local.model) t) }
        ensures within { IfSome result (λ p. p < length self.now.local.queues) }
        ensures absent { IfNone result (length self.now.local.queues ≤
            place_in (types_of self.now.local.model) t) }
    {
        let types = self.model.queues();
        let place = place_in(types, t);
        if place < types.len() {
            Some(place)
        } else {
            None
        }
    }

    /// The queue with this buffer type.
    #[tactic(auto, using(std::proofs::lemmas::List::get_or_past))]
    pub(crate) fn queue(&self, t: u32) -> Option<&Queue>
        ensures has { is_some result ≡ has_type self.now.local.model t }
        ensures value { IfSome result (λ q. q.now ≡ queue_of self.now.local t) }
        ensures absent { IfNone result (queue_of self.now.local t ≡ opening_queue) }
    {
        let place = self.place_of(t)?;
        Some(self.queues.at(place))
    }
}

/// The first entry of what is owed.
pub(crate) fn first_of(owed: &[Owed]) -> Option<Owed>
    ensures { result ≡ slice_get owed.now 0 }
{
    owed.first().copied()
}

/// The length with this number, 0 where there is none.
fn length_at(lengths: &[u32], memory: u64) -> u32
    ensures { result ≡ slice_index lengths.now memory }
{
    lengths.get(memory as usize).copied().unwrap_or(0)
}
