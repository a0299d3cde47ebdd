//! The entries of a log, as a record moves by them.
ghost use Rattle.std.specs.Prelude.{◌≡◌, ◌+◌, ◌<◌, ◌≤◌, ℕ, Some, None, true, ◌++◌, drop, max, slice_get, slice_index, slice_set, vec_len, vec_capacity};
ghost use Rattle.v4l_format.specs.Fmt.{picture_size};
ghost use Rattle.vm_local.specs.declared.owed.OwedItem.TheVariants.{Buffer as OwedBuffer, Sync};
ghost use Rattle.vm_local.specs.State.{LocalState};
ghost use Rattle.vm_local.specs.Queue.{can_finish};
ghost use Rattle.vm_local.specs.Steps.{finished, marked_bad, given, target, head_buffer, number_of, item_given, buffer_given, event_given, with_picture, with_target_used, heads_taken, sync_of, buffers_taken};
ghost use Rattle.vm_local.specs.Log.{after, called};
ghost use Rattle.vm_local.specs.Record.{without_bytes};

use crate::call::Call;
use crate::entry::Entry;
use crate::frames::number_of;
use crate::owed::{Owed, OwedItem, SyncEvent};
use crate::record::{Record, first_of};
use crate::reply::Reply;
use v4l_format::sizeimage;
use v4l_rules::place_in;

impl Record {
    /// Moves by an entry: where it leads from a state that this is the record of to another, this
    /// is the record of that one then. At an entry that isn't legal it is some record.
    pub fn after(&mut self, entry: &Entry)
        requires room { 0 < self.old.room }
        ensures moves { (s t : LocalState) → self.old.local ≡ without_bytes s →
            after s entry.now ≡ Some t → self.new.local ≡ without_bytes t }
        ensures room { self.new.room + 1 ≡ self.old.room }
    {
        let left = self.room - 1;
        self.step(entry);
        self.room = left;
    }

    /// The same, where as much room is left as there is.
    fn step(&mut self, entry: &Entry)
        requires room { 0 < self.old.room }
        ensures moves { (s t : LocalState) → self.old.local ≡ without_bytes s →
            after s entry.now ≡ Some t → self.new.local ≡ without_bytes t }
        ensures room { self.old.room ≤ self.new.room + 1 }
    {
        match entry {
            Entry::Called { line, call, reply } => self.call(*line, call, reply),
            Entry::Finish => self.finish(),
            Entry::Bad => self.fail(),
            Entry::Give => self.give(),
        }
    }

    /// Does a call that is answered so.
    fn call(&mut self, line: u32, call: &Call, reply: &Reply)
        requires room { 0 < self.old.room }
        ensures moves { (s t : LocalState) → self.old.local ≡ without_bytes s →
            called s line call.now reply.now ≡ Some t → self.new.local ≡ without_bytes t }
        ensures room { self.old.room ≤ self.new.room + 1 }
    {
        if reply.is_refusal() || self.row_refusal(call).is_some() || self.row_waits(call) {
            return;
        }
        self.perform(line, call, reply.address());
    }

    /// Finishes a frame, where one can be finished.
    fn finish(&mut self)
        requires room { 0 < self.old.room }
        ensures moves { (s t : LocalState) → self.old.local ≡ without_bytes s →
            finished s ≡ Some t → self.new.local ≡ without_bytes t }
        ensures room { self.old.room ≤ self.new.room + 1 }
    {
        if self.can_finish() {
            self.make_frame();
        }
    }

    /// Takes the buffers of a frame that is finished. Its picture is at the front of a memory,
    /// which is as long then at least.
    fn make_frame(&mut self)
        requires room { 0 < self.old.room }
        requires ready { can_finish self.old.local ≡ true }
        ensures frame { self.new.local ≡ without_bytes
            (with_picture self.old.local (with_target_used self.old.local
            (picture_size (target self.old.local).format)
            (heads_taken self.old.local true (sync_of self.old.local ++
            buffers_taken self.old.local)))) }
        ensures room { self.old.room ≤ self.new.room + 1 }
    {
        let size = self.target_size();
        let memory = self.target_memory();
        self.take_frame(true, size);
        lengthen(&mut self.lengths, memory, size);
    }

    /// Fails a frame, where one could be finished.
    fn fail(&mut self)
        requires room { 0 < self.old.room }
        ensures moves { (s t : LocalState) → self.old.local ≡ without_bytes s →
            marked_bad s ≡ Some t → self.new.local ≡ without_bytes t }
        ensures room { self.old.room ≤ self.new.room + 1 }
    {
        if self.can_finish() {
            self.take_frame(false, 0);
        }
    }

    /// How many bytes a picture has.
    pub(crate) fn target_size(&self) -> u32
        ensures value { result ≡ picture_size (target self.now.local).format }
        ensures most { result ≤ 925696 }
    {
        sizeimage(&self.format_of(self.model.picture_queue()))
    }

    /// The memory of the buffer that the next frame takes for its picture.
    pub(crate) fn target_memory(&self) -> u64
        ensures { result ≡ number_of (head_buffer (target self.now.local)) }
    {
        number_of(&self.head_buffer(self.model.picture_queue()))
    }

    /// Hands over what is owed first, where something is.
    fn give(&mut self)
        requires room { 0 < self.old.room }
        ensures moves { (s t : LocalState) → self.old.local ≡ without_bytes s → given s ≡ Some t →
            self.new.local ≡ without_bytes t }
        ensures room { self.old.room ≤ self.new.room + 1 }
    {
        if let Some(first) = self.first_owed() {
            self.give_item(first);
        }
    }

    /// Hands over the first entry of what is owed.
    fn give_item(&mut self, first: Owed)
        requires room { 0 < self.old.room }
        requires first { slice_get self.old.local.owed 0 ≡ Some first }
        ensures item { self.new.local ≡ item_given
            (record self.old.local { owed = drop 1 self.old.local.owed }) first.queue first.item }
        ensures room { self.old.room ≤ self.new.room + 1 }
    {
        match first.item {
            OwedItem::Buffer(i) => self.give_buffer(first.queue, i),
            OwedItem::Sync(frame) => self.give_event(first.queue, frame),
        }
    }

    fn give_buffer(&mut self, t: u32, i: u32)
        requires { slice_get self.old.local.owed 0 ≡
            Some (record { queue = t; item = OwedBuffer i }) }
        ensures { self.new ≡ record self.old {
          local = buffer_given
              (record self.old.local { owed = drop 1 self.old.local.owed }) t i;
        } }
    {
        let place = place_in(self.model.queues(), t);
        self.queues.give(place, i);
        remove_first(&mut self.owed);
    }

    fn give_event(&mut self, t: u32, frame: u32)
        requires room { 0 < self.old.room }
        requires first { slice_get self.old.local.owed 0 ≡
            Some (record { queue = t; item = Sync frame }) }
        ensures event { self.new.local ≡ event_given
            (record self.old.local { owed = drop 1 self.old.local.owed }) frame }
        ensures room { self.old.room ≤ self.new.room + 1 }
    {
        if self.subscribed {
            self.events.push_reserved(SyncEvent {
                frame,
                number: self.next_event,
            });
            self.next_event = self.next_event.wrapping_add(1);
        }
        remove_first(&mut self.owed);
        self.room -= 1;
    }
}

/// Removes the first entry of what is owed, where there is one.
fn remove_first(owed: &mut Vec<Owed>)
    ensures items { owed.new.items ≡ drop 1 owed.old.items }
    ensures len { vec_len owed.new ≤ vec_len owed.old }
    ensures capacity { vec_capacity owed.new ≡ vec_capacity owed.old }
{
    if !owed.is_empty() {
        owed.remove(0);
    }
}

/// A memory has at least so many bytes, where there is one with this number.
fn lengthen(lengths: &mut Vec<u32>, memory: u64, size: u32)
    ensures items { lengths.new.items ≡ slice_set lengths.old.items memory
        (max (slice_index lengths.old.items memory) size) }
    ensures len { vec_len lengths.new ≡ vec_len lengths.old }
    ensures capacity { vec_capacity lengths.new ≡ vec_capacity lengths.old }
{
    let place = memory as usize;
    if place < lengths.len() {
        lengths[place] = lengths[place].max(size);
    }
}
