ghost use Rattle.std.specs.Prelude.{◌≡◌, ◌+◌, ◌==◌, ◌&&◌, ◌⊎◌, ◌^◌, ◌<◌, ◌≤◌, ◌++◌, [], ◌∷◌, true, false, not, nat_lt, length, IfOk, IfSome, slice_get, vec_len, vec_capacity};
ghost use Rattle.std.specs.List.{list_any};
ghost use Rattle.std.specs.Option.{option_map};
ghost use Rattle.v4l_format.specs.Fmt.{IsAdjusted, picture_size};
ghost use Rattle.vm_frame.specs.Mem.{mem_bytes};
ghost use Rattle.vm_mem.specs.Lists.{first_of, occurrences};
ghost use Rattle.vm_queue.specs.Buffers.{memories};
ghost use Rattle.vm_session.specs.State.{opening_queue, queue_has_buffers};
ghost use Rattle.vm_session.specs.Buffers.{stopped_queue, renewed_queue, is_at_home, queue_with, started};
ghost use Rattle.vm_session.specs.Mapped.{frames_of, frame_at};
ghost use Rattle.vm_session.specs.Streaming.{is_ready, headless, settled, counted};

use crate::frames::{find_frame, frame_tag};
use crate::lists::{set_all, set_at};
use crate::requests::kept_record;
use std::alloc::Global;
use std::marker::Model;
use v4l_const::{MEMORY_MMAP, MEMORY_USERPTR};
use v4l_format::{Fmt, sizeimage};
use v4l_layout::BufferRec;
use v4l_rules::first_format;
use vm_frame::Held;
use vm_mem::Memory;
use vm_queue::{BufQueue, MAX_BUFFERS};

/// One queue of a session.
#[derive(Drop)]
pub struct Queue {
    format: Fmt,
    buffers: BufQueue,
    // By the buffers' indices.
    lengths: Vec<u32>,
    first_frame: u32,
    streaming: bool,
    sequence: u32,
}

impl Model for Queue {
    ghost use Rattle.std.specs.Prelude.{◌≡◌, ◌≤◌, length, vec_capacity};
    ghost use Rattle.vm_session.specs.Sound.{IsSoundQueue};
    ghost use Rattle.vm_session.specs.State.{SessionQueue};

    ghost Value = { SessionQueue };

    ghost view = { λ q. record {
      format = q.format;
      kind = q.buffers.kind;
      lengths = q.lengths.items;
      first_frame = q.first_frame;
      streaming = q.streaming;
      sequence = q.sequence;
      queued = q.buffers.queued;
      out = q.buffers.out;
    } };

    // Each buffer has a length, and no call takes memory, since there is room for the most.
    ghost invariant = { λ q. IsSoundQueue (record {
      format = q.format;
      kind = q.buffers.kind;
      lengths = q.lengths.items;
      first_frame = q.first_frame;
      streaming = q.streaming;
      sequence = q.sequence;
      queued = q.buffers.queued;
      out = q.buffers.out;
    }) × (length q.lengths.items ≡ q.buffers.count) × (32 ≤ vec_capacity q.lengths) };
}

impl Queue {
    /// A queue as it begins, with room for as many buffers as it may have, or want of memory.
    pub fn new(alloc: Global) -> Result<Queue, Memory>
        ensures { IfOk result (λ q. q ≡ opening_queue) }
    {
        Ok(Queue {
            format: first_format(),
            buffers: BufQueue::new(alloc)?,
            lengths: Vec::with_capacity(alloc, MAX_BUFFERS)?,
            first_frame: 0,
            streaming: false,
            sequence: 0,
        })
    }

    /// Its format, which is an adjusted one.
    pub fn format(&self) -> Fmt
        ensures value { result ≡ self.now.format }
        ensures adjusted { IsAdjusted result }
    {
        self.format
    }

    /// Sets the format, where there are no buffers.
    pub fn set_format(&mut self, format: Fmt)
        requires adjusted { IsAdjusted format }
        requires no_buffers { self.old.lengths ≡ [] }
        ensures { self.new ≡ record self.old { format = format } }
    {
        self.format = format;
    }

    /// The memory kind of its buffers by its number, as it was asked for last, and 0 before.
    pub fn kind(&self) -> u32
        ensures { result ≡ self.now.kind }
    {
        self.buffers.kind()
    }

    /// Whether it has buffers.
    pub fn has_buffers(&self) -> bool
        ensures { result ≡ queue_has_buffers self.now }
    {
        !self.lengths.is_empty()
    }

    /// Whether it streams.
    pub fn is_streaming(&self) -> bool
        ensures { result ≡ self.now.streaming }
    {
        self.streaming
    }

    /// Whether it streams and has a buffer queued.
    pub fn is_ready(&self) -> bool
        ensures { result ≡ is_ready self.now }
    {
        self.streaming && self.buffers.queued() > 0
    }

    /// The number of its next frame.
    pub fn sequence(&self) -> u32
        ensures { result ≡ self.now.sequence }
    {
        self.sequence
    }

    /// The length of the buffer with this index, in bytes. Only indices below 32 have one.
    pub fn length(&self, index: u32) -> Option<u32>
        ensures value { result ≡ slice_get self.now.lengths index }
        ensures few { IfSome result (λ _. index < 32) }
    {
        self.lengths.as_slice().get(index as usize).copied()
    }

    /// Whether it takes a buffer with this record: it has the buffer, which is neither queued nor
    /// out, the memory is of its kind, and a user's memory isn't shorter than a picture.
    pub fn takes(&self, asked: &BufferRec) -> bool
        ensures { result ≡ (nat_lt asked.now.index (length self.now.lengths) &&
            (is_at_home self.now asked.now.index &&
            (asked.now.memory == self.now.kind && not
            (asked.now.memory == MEMORY_USERPTR && nat_lt asked.now.length
            (picture_size self.now.format))))) }
    {
        asked.index < self.buffers.count()
            && self.buffers.is_home(asked.index)
            && asked.memory == self.buffers.kind()
            && !is_short(asked, sizeimage(&self.format))
    }

    /// The tag and the length of the frame that is mapped from an offset, if the queue, which is
    /// of type `t` and belongs to the session of this id, has one.
    pub fn frame_at(&self, id: u32, t: u32, offset: u32) -> Option<(u64, u32)>
        ensures { result ≡ frame_at offset (frames_of id t self.now) }
    {
        if self.buffers.kind() == MEMORY_MMAP {
            let first = frame_tag(id, self.first_frame);
            find_frame(self.lengths.as_slice(), t, first, offset)
        } else {
            None
        }
    }

    /// Starts it: where it doesn't stream yet, its frames are counted from 0.
    pub fn start(&mut self)
        ensures { self.new ≡ started self.old }
    {
        if !self.streaming {
            self.streaming = true;
            self.sequence = 0;
        }
    }

    /// Stops it: it streams no more, and the memories that are queued go behind what `back` has,
    /// the first one first. The buffers stay, at home.
    pub fn stop(&mut self, back: &mut Vec<Held>)
        requires { vec_len back.old + 32 ≤ vec_capacity back.old }
        ensures queue { self.new ≡ stopped_queue self.old }
        ensures memories { back.new.items ≡ back.old.items ++ memories self.old.queued }
        ensures few { vec_len back.new ≤ vec_len back.old + 32 }
        ensures room { vec_capacity back.new ≡ vec_capacity back.old }
    {
        self.buffers.drain(back);
        self.streaming = false;
    }

    /// Stops it and gives it `count` buffers of this memory kind and the picture's size in place of
    /// the earlier ones, of which none is out. The session had made so many frames before theirs.
    pub fn renew(&mut self, kind: u32, count: u32, made: u32, back: &mut Vec<Held>)
        requires none_out { self.old.out ≡ [] }
        requires count { count ≤ 32 }
        requires made { made + 32 ≤ 2 ^ 32 }
        requires room { vec_len back.old + 32 ≤ vec_capacity back.old }
        ensures queue { self.new ≡ renewed_queue self.old kind count made }
        ensures memories { back.new.items ≡ back.old.items ++ memories self.old.queued }
        ensures few { vec_len back.new ≤ vec_len back.old + 32 }
        ensures room { vec_capacity back.new ≡ vec_capacity back.old }
    {
        self.buffers.drain(back);
        self.streaming = false;
        let size = sizeimage(&self.format);
        self.buffers.reset(kind, count, size);
        set_all(&mut self.lengths, count, size);
        self.first_frame = made;
    }

    /// Queues a buffer behind the others, whose record tells of its memory. The buffer is at home,
    /// and has the length of its memory from then on: a frame's is the one that it has, and into a
    /// user's memory a picture goes.
    pub fn push(&mut self, buffer: BufferRec, held: Held)
        requires index { buffer.index < length self.old.lengths }
        requires home { is_at_home self.old buffer.index ≡ true }
        requires told { length (mem_bytes held.mem) ≡ buffer.length }
        requires frame { self.old.kind ≡ MEMORY_MMAP →
            IfSome (slice_get self.old.lengths buffer.index) (λ n. n ≡ buffer.length) }
        requires room { (self.old.kind ≡ MEMORY_MMAP) ⊎
            (picture_size self.old.format ≤ buffer.length) }
        ensures { self.new ≡ queue_with self.old buffer (held ∷ []) }
    {
        set_at(&mut self.lengths, buffer.index, buffer.length);
        self.buffers.push(kept_record(buffer), held).unwrap();
        // No more buffers are away than there are.
        let count = self.buffers.count() as usize;
        prove!(count <= MAX_BUFFERS);
    }

    /// Takes the buffer that is queued first, with its memory, into which a picture goes. It is out
    /// from then on.
    pub fn pop(&mut self) -> Option<(BufferRec, Held)>
        ensures first { result ≡ option_map (λ b. (b.buffer, b.held)) (first_of self.old.queued) }
        ensures queue { self.new ≡ headless self.old }
        ensures room { IfSome result (λ b. picture_size self.old.format ≤
            length (mem_bytes b.1.mem)) }
    {
        self.buffers.pop()
    }

    /// Counts a frame that is done. Few buffers are out.
    pub fn count_frame(&mut self)
        ensures queue { self.new ≡ counted self.old }
        ensures few { length self.new.out ≤ 32 }
    {
        self.sequence = self.sequence.wrapping_add(1);
    }

    /// Brings a buffer home that is out. It is out once.
    pub fn settle(&mut self, index: u32)
        requires { list_any (λ i. i == index) self.old.out ≡ true }
        ensures queue { self.new ≡ settled self.old index }
        ensures once { occurrences index self.old.out ≤ 1 }
    {
        // The count is asked for what comes with it: no buffer is away twice.
        let _count = self.buffers.count();
        self.buffers.settle(index);
    }
}

// Whether the memory is a user's and shorter than a picture of so many bytes.
fn is_short(asked: &BufferRec, picture: u32) -> bool
    ensures { result ≡ (asked.now.memory == MEMORY_USERPTR && nat_lt asked.now.length picture) }
{
    asked.memory == MEMORY_USERPTR && asked.length < picture
}
