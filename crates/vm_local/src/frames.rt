//! What the next frame takes and leaves.
ghost use Rattle.std.specs.Prelude.{◌≡◌, ◌≤◌, ◌<◌, ◌+◌, ◌++◌, [], ◌∷◌, length, map, Some, true, if◌then◌else◌, slice_index_or, vec_len, vec_capacity};
ghost use Rattle.std.specs.Option.{option_to_list};
ghost use Rattle.v4l_const.specs.Model.{source_queue};
ghost use Rattle.v4l_format.specs.Fmt.{IsAdjusted};
ghost use Rattle.v4l_rules.specs.Queues.{place_in};
ghost use Rattle.vm_local.specs.State.{queue_of, opening_queue};
ghost use Rattle.vm_local.specs.declared.owed.OwedItem.TheVariants.{Buffer as OwedBuffer};
ghost use Rattle.vm_local.specs.Queue.{can_finish};
ghost use Rattle.vm_local.specs.Steps.{head, number_of, target, next_timestamp, sync_of, buffers_taken, with_target_used, heads_taken};

use crate::buffer::Buffer;
use crate::owed::{Owed, OwedItem};
use crate::queues::Queues;
use crate::record::Record;
use v4l_format::Fmt;
use v4l_rules::place_in;

/// The microseconds from one frame to the next.
const FRAME_TIME: u64 = 40_000;

impl Record {
    /// Takes the buffers of a frame, with this many bytes in use in that of its picture. What it
    /// leaves is owed: the event that tells of it, where it is a good one, and a buffer of each
    /// queue.
    pub(crate) fn take_frame(&mut self, good: bool, used: u32)
        requires room { 0 < self.old.room }
        requires ready { can_finish self.old.local ≡ true }
        ensures frame { self.new.local ≡ with_target_used self.old.local used
            (heads_taken self.old.local good ((if good then sync_of self.old.local else []) ++
            buffers_taken self.old.local)) }
        ensures room { self.old.room ≤ self.new.room + 1 }
    {
        let timestamp = self.next_timestamp();
        let target = self.model.picture_queue();
        let index = self.head(target);
        let sync = self.sync_entry(good);
        let types = self.model.queues();
        push_some(&mut self.owed, sync);
        push_heads(&mut self.owed, types, &self.queues);
        self.queues.take_heads(good, timestamp);
        self.queues.set_used(place_in(types, target), index, used);
        self.room -= 1;
    }

    /// The event that tells of a frame, where it is a good one and the model has events.
    fn sync_entry(&self, good: bool) -> Option<Owed>
        ensures { option_to_list result ≡ (if good then sync_of self.now.local else []) }
    {
        let queue = self.model.picture_queue();
        if good && self.model.has_events() {
            Some(Owed {
                queue,
                item: OwedItem::Sync(self.next_sequence(queue)),
            })
        } else {
            None
        }
    }

    /// The formats of a source and of the pictures that are made from it.
    pub(crate) fn formats_from(&self, source: u32) -> (Fmt, Fmt)
        requires { source_queue self.now.local.model ≡ Some source }
        ensures from { result.0 ≡ (queue_of self.now.local source).format }
        ensures to { result.1 ≡ (target self.now.local).format }
        ensures from_adjusted { IsAdjusted result.0 }
        ensures to_adjusted { IsAdjusted result.1 }
        ensures width { result.0.width ≡ result.1.width }
        ensures height { result.0.height ≡ result.1.height }
    {
        let types = self.model.queues();
        let first = place_in(types, source);
        let second = place_in(types, self.model.picture_queue());
        self.queues.formats(first, second)
    }

    /// The timestamp of the next frame, in microseconds.
    pub(crate) fn next_timestamp(&self) -> u64
        ensures { result ≡ next_timestamp self.now.local }
    {
        match self.model.source_queue() {
            Some(source) => self.head_buffer(source).timestamp,
            None => u64::from(self.next_sequence(self.model.picture_queue())) * FRAME_TIME,
        }
    }
}

/// The number of a buffer's memory, 0 where it has none.
pub(crate) fn number_of(buffer: &Buffer) -> u64
    ensures { result ≡ number_of buffer.now }
{
    buffer.memory.unwrap_or(0)
}

/// Puts an entry behind what is owed, where there is one.
fn push_some(owed: &mut Vec<Owed>, entry: Option<Owed>)
    requires { vec_len owed.old < vec_capacity owed.old }
    ensures items { owed.new.items ≡ owed.old.items ++ option_to_list entry }
    ensures len { vec_len owed.new ≤ vec_len owed.old + 1 }
    ensures capacity { vec_capacity owed.new ≡ vec_capacity owed.old }
{
    if let Some(entry) = entry {
        owed.push_reserved(entry);
    }
}

/// Puts the buffers that a frame takes behind what is owed, one of each queue.
fn push_heads(owed: &mut Vec<Owed>, types: &[u32], queues: &Queues)
    requires { vec_len owed.old + length types.now ≤ vec_capacity owed.old }
    ensures items { owed.new.items ≡ owed.old.items ++
        map (λ t. record {
          queue = t;
          item = OwedBuffer
              (head (slice_index_or queues.now (place_in types.now t) opening_queue));
        }) types.now }
    ensures len { vec_len owed.new ≡ vec_len owed.old + length types.now }
    ensures capacity { vec_capacity owed.new ≡ vec_capacity owed.old }
{
    for t in types {
        owed.push_reserved(Owed {
            queue: *t,
            item: OwedItem::Buffer(queues.head_at(place_in(types, *t))),
        });
    }
}
