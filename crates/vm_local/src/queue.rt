ghost use Rattle.std.specs.Prelude.{◌≡◌, ◌<◌, ℕ, List, ◌∷◌, [], ◌++◌, map, ◌&&◌, not, nat_lt, length};
ghost use Rattle.v4l_format.specs.Fmt.{IsAdjusted};
ghost use Rattle.vm_local.specs.Sizes.{resized};
ghost use Rattle.vm_local.specs.State.{opening_queue, buffer_of, with_buffer};
ghost use Rattle.vm_local.specs.Queue.{stopped_queue, made_idle, started, taken_back, first_done, is_empty, is_user_ptr};
ghost use Rattle.std.specs.List.{list_any};
ghost use Rattle.vm_local.specs.Memory.{is_just};
ghost use Rattle.vm_local.specs.Kinds.{is_away, is_idle};
ghost use Rattle.vm_local.specs.Calls.{given_back};
ghost use Rattle.vm_local.specs.Steps.{taken, head, head_buffer, with_used, with_done};

use crate::bound::MemoryKind;
use crate::buffer::{Buffer, BufferState};
use crate::buffers::{
    Buffers, Indices, buffer_at, first_of, have, lends, make_idle, remove_first, set_buffer, uses,
};
use std::alloc::Global;
use std::default::MadeWith;
use std::marker::Model;
use v4l_format::Fmt;
use v4l_rules::{first_format, sized_as};

/// One queue of a handle. It takes no memory: its lists have room for all buffers.
#[derive(Drop)]
pub struct Queue {
    pub format: Fmt,
    pub memory: MemoryKind,
    pub buffers: Buffers,
    pub streaming: bool,
    /// The indices of the queued buffers, first in, first out.
    pub queued: Indices,
    /// The indices of the done buffers, first in, first out.
    pub done: Indices,
    pub next_sequence: u32,
}

impl Model for Queue {
    ghost use Rattle.v4l_format.specs.Fmt.{IsAdjusted};
    ghost use Rattle.vm_local.specs.State.{QueueState};

    ghost Value = { QueueState };

    ghost view = { λ q. record {
      format = q.format;
      memory = q.memory;
      buffers = q.buffers.items;
      streaming = q.streaming;
      queued = q.queued.items;
      done = q.done.items;
      next_sequence = q.next_sequence;
    } };

    ghost invariant = { λ q. IsAdjusted q.format };
}

impl MadeWith<Global> for Queue {
    fn made_with(_alloc: Global) -> Queue {
        Queue::new()
    }
}

impl Queue {
    /// A queue as it begins.
    pub fn new() -> Queue
        ensures { result ≡ opening_queue }
    {
        Queue {
            format: first_format(),
            memory: MemoryKind::Mmap,
            buffers: Buffers::new(),
            streaming: false,
            queued: Indices::new(),
            done: Indices::new(),
            next_sequence: 0,
        }
    }

    /// Its format, which is an adjusted one.
    pub fn format(&self) -> Fmt
        ensures value { result ≡ self.now.format }
        ensures adjusted { IsAdjusted result }
    {
        self.format
    }

    /// Its `i`-th buffer.
    pub fn buffer(&self, i: u32) -> Buffer
        ensures { result ≡ buffer_of self.now i }
    {
        buffer_at(&self.buffers, i)
    }

    /// The index of the first done buffer.
    pub fn first_done(&self) -> u32
        ensures { result ≡ first_done self.now }
    {
        first_of(&self.done)
    }

    /// The buffer that is given back next, Idle.
    pub fn given_back(&self) -> Buffer
        ensures { result ≡ given_back self.now }
    {
        Buffer {
            state: BufferState::Idle,
            ..self.buffer(self.first_done())
        }
    }

    /// The index of the buffer that the next frame takes.
    pub fn head(&self) -> u32
        ensures { result ≡ head self.now }
    {
        first_of(&self.queued)
    }

    /// The number of its next frame.
    pub fn next_sequence(&self) -> u32
        ensures { result ≡ self.now.next_sequence }
    {
        self.next_sequence
    }

    /// The buffer that the next frame takes.
    pub fn head_buffer(&self) -> Buffer
        ensures { result ≡ head_buffer self.now }
    {
        self.buffer(self.head())
    }

    /// Whether it streams and has a queued buffer.
    pub fn is_ready(&self) -> bool
        ensures { result ≡ (self.now.streaming && not (is_empty self.now.queued)) }
    {
        self.streaming && !self.queued.is_empty()
    }

    /// Whether it has buffers.
    pub fn has_buffers(&self) -> bool
        ensures { result ≡ not (is_empty self.now.buffers) }
    {
        !self.buffers.is_empty()
    }

    /// Whether it has a buffer with this index.
    pub fn has_index(&self, i: u32) -> bool
        ensures { result ≡ nat_lt i (length self.now.buffers) }
    {
        (i as usize) < self.buffers.len()
    }

    /// Whether it has done buffers.
    pub fn has_done(&self) -> bool
        ensures { result ≡ not (is_empty self.now.done) }
    {
        !self.done.is_empty()
    }

    /// Whether its buffers' memory is the guest's own.
    pub fn is_user_ptr(&self) -> bool
        ensures { result ≡ is_user_ptr self.now.memory }
    {
        match self.memory {
            MemoryKind::UserPtr => true,
            MemoryKind::Mmap => false,
        }
    }

    /// Whether it streams.
    pub fn is_streaming(&self) -> bool
        ensures { result ≡ self.now.streaming }
    {
        self.streaming
    }

    /// Whether one of its buffers has this memory and is Queued or Owed.
    pub fn lends(&self, memory: u64) -> bool
        ensures { result ≡ list_any
            (λ b. is_just b.memory memory && is_away b.state) self.now.buffers }
    {
        lends(&self.buffers, memory)
    }

    /// Whether one of its buffers has this memory and isn't Idle.
    pub fn uses(&self, memory: u64) -> bool
        ensures { result ≡ list_any (λ b. is_just b.memory memory && not
            (is_idle b.state)) self.now.buffers }
    {
        uses(&self.buffers, memory)
    }

    /// Sets the format.
    pub fn set_format(&mut self, format: Fmt)
        requires { IsAdjusted format }
        ensures { self.new ≡ record self.old { format = format } }
    {
        self.format = format;
    }

    /// Gives its pictures the size of a format.
    pub fn resize(&mut self, format: Fmt)
        requires { IsAdjusted format }
        ensures { self.new ≡ resized format self.old }
    {
        self.format = sized_as(&format, &self.format);
    }

    /// Stops the queue: its buffers are Idle, and it has no queued and no done ones.
    pub fn stop(&mut self)
        ensures { self.new ≡ stopped_queue self.old }
    {
        self.streaming = false;
        make_idle(&mut self.buffers);
        self.queued.clear();
        self.done.clear();
    }

    /// Stops the queue and gives it other buffers in the place of those that it has.
    pub fn renew(&mut self, memory: MemoryKind, buffers: Buffers)
        ensures { self.new ≡ record
            (stopped_queue self.old) { memory = memory; buffers = buffers.items } }
    {
        self.stop();
        self.memory = memory;
        self.buffers = buffers;
    }

    /// Queues the `i`-th buffer, which becomes this one.
    pub fn queue_buffer(&mut self, i: u32, buffer: Buffer)
        requires { length self.old.queued < length self.old.buffers }
        ensures { self.new ≡ record (with_buffer self.old i buffer) {
          queued = self.old.queued ++
              i ∷ [];
        } }
    {
        set_buffer(&mut self.buffers, i, buffer);
        self.queued.push(i);
    }

    /// Starts the queue, whose frames count from 0 where it did not stream.
    pub fn start(&mut self)
        ensures { self.new ≡ started self.old }
    {
        if !self.streaming {
            self.next_sequence = 0;
        }
        self.streaming = true;
    }

    /// Gives the first done buffer back, which is Idle.
    pub fn take_back(&mut self)
        ensures { self.new ≡ taken_back self.old }
    {
        let i = self.first_done();
        let buffer = self.given_back();
        set_buffer(&mut self.buffers, i, buffer);
        remove_first(&mut self.done);
    }

    /// Takes the first queued buffer for a frame, which is finished or failed.
    pub fn take_head(&mut self, good: bool, timestamp: u64)
        ensures { self.new ≡ taken good timestamp self.old }
    {
        let i = self.head();
        let buffer = self.buffer(i);
        let taken = Buffer {
            state: BufferState::Owed,
            sequence: self.next_sequence,
            timestamp,
            is_bad: buffer.is_bad || !good,
            ..buffer
        };
        set_buffer(&mut self.buffers, i, taken);
        remove_first(&mut self.queued);
        self.next_sequence = self.next_sequence.wrapping_add(1);
    }

    /// Sets how many bytes of the `i`-th buffer are in use.
    pub fn set_used(&mut self, i: u32, used: u32)
        ensures { self.new ≡ with_used self.old i used }
    {
        let buffer = Buffer {
            used,
            ..self.buffer(i)
        };
        set_buffer(&mut self.buffers, i, buffer);
    }

    /// Puts the `i`-th buffer behind the done ones.
    pub fn give(&mut self, i: u32)
        requires { length self.old.done < length self.old.buffers }
        ensures { self.new ≡ with_done self.old i }
    {
        let buffer = Buffer {
            state: BufferState::Done,
            ..buffer_at(&self.buffers, i)
        };
        set_buffer(&mut self.buffers, i, buffer);
        self.done.push(i);
    }

    /// How many buffers it has.
    pub fn buffer_count(&self) -> u32
        ensures { result ≡ length self.now.buffers }
    {
        self.buffers.len() as u32
    }

    /// The kind of its buffers' memory.
    pub fn memory_kind(&self) -> MemoryKind
        ensures { result ≡ self.now.memory }
    {
        self.memory
    }

    /// Whether one of its buffers has this memory, which the device made.
    pub fn owns(&self, memory: u64) -> bool
        ensures { result ≡ (not (is_user_ptr self.now.memory) && list_any
            (λ b. is_just b.memory memory) self.now.buffers) }
    {
        !self.is_user_ptr() && have(&self.buffers, memory)
    }
}
