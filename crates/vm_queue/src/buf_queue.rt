ghost use Rattle.std.specs.Prelude.{◌≡◌, ◌+◌, ◌≤◌, ◌↔◌, ◌++◌, [], true, false, length, vec_len, vec_capacity, All, IfOk, IfErr, IfSome, IsErr, OnOk, OnErr};
ghost use Rattle.vm_queue.specs.Buffers.{all_home, is_home, is_out, pushed, first_queued, popped, settled, memories, drained, IsSound};

use crate::Queued;
use crate::lists::{give_back, has_index, has_queued, remove};
use std::alloc::Global;
use std::collections::VecDeque;
use std::marker::Model;
use v4l_layout::BufferRec;
use vm_frame::Held;
use vm_mem::Memory;

/// As many buffers as a queue may have.
///
/// Source: Linux V4L2, `VIDEO_MAX_FRAME`.
pub const MAX_BUFFERS: usize = 32;

/// The device's side of one queue. Each of its buffers is at home, queued with its memory, or out:
/// taken from the queue and not settled.
///
/// Source: own, after the Linux V4L2 interface, "Streaming I/O".
#[derive(Drop)]
pub struct BufQueue {
    kind: u32,
    count: u32,
    length: u32,
    queued: VecDeque<Queued>,
    out: Vec<u32>,
}

impl Model for BufQueue {
    ghost use Rattle.std.specs.Prelude.{◌≤◌, vec_capacity};
    ghost use Rattle.std.specs.VecDeque.{deque_capacity};
    ghost use Rattle.vm_queue.specs.Buffers.{Buffers, IsSound};

    ghost Value = { Buffers };

    ghost view = { λ q. record {
      kind = q.kind;
      count = q.count;
      length = q.length;
      queued = q.queued.items;
      out = q.out.items;
    } };

    // No call takes memory, since both lists have room for all buffers.
    ghost invariant = { λ q. IsSound
        (record {
          kind = q.kind;
          count = q.count;
          length = q.length;
          queued = q.queued.items;
          out = q.out.items;
        })
        × (32 ≤ deque_capacity q.queued) × (32 ≤ vec_capacity q.out) };
}

impl BufQueue {
    /// A queue of no buffers, with room for `MAX_BUFFERS`, or want of memory.
    pub fn new(alloc: Global) -> Result<BufQueue, Memory>
        ensures { IfOk result (λ q. q ≡ all_home 0 0 0) }
    {
        Ok(BufQueue {
            kind: 0,
            count: 0,
            length: 0,
            queued: VecDeque::with_capacity(alloc, MAX_BUFFERS)?,
            out: Vec::with_capacity(alloc, MAX_BUFFERS)?,
        })
    }

    /// The memory kind of the buffers, by its number. Whoever queues a buffer compares its record's
    /// with it.
    pub fn kind(&self) -> u32
        ensures { result ≡ self.now.kind }
    {
        self.kind
    }

    /// How many buffers there are, at most `MAX_BUFFERS`. Their indices are the numbers below it.
    /// Each buffer is at home, queued or out, so no more are queued and out.
    pub fn count(&self) -> u32
        ensures count { result ≡ self.now.count }
        ensures few { self.now.count ≤ 32 }
        ensures away { length self.now.queued + length self.now.out ≤ self.now.count }
        ensures sound { IsSound self.now }
    {
        self.count
    }

    /// The length of each buffer, in bytes. Whoever queues a buffer with memory of the device's
    /// own, MMAP, compares the memory's length with it. The memory of a user buffer may have any
    /// length.
    pub fn length(&self) -> u32
        ensures { result ≡ self.now.length }
    {
        self.length
    }

    /// How many buffers are queued.
    pub fn queued(&self) -> u32
        ensures { result ≡ length self.now.queued }
    {
        self.queued.len() as u32
    }

    /// Whether there is a buffer with this index, and it is neither queued nor out, so that `push`
    /// takes it.
    pub fn is_home(&self, index: u32) -> bool
        ensures { result ≡ is_home self.now index }
    {
        index < self.count
            && !has_queued(&self.queued, index)
            && !has_index(self.out.as_slice(), index)
    }

    /// Makes `count` buffers of `length` bytes with this memory kind, all at home, in place of the
    /// earlier ones.
    pub fn reset(&mut self, kind: u32, count: u32, length: u32)
        requires none_queued { self.old.queued ≡ [] }
        requires none_out { self.old.out ≡ [] }
        requires few { count ≤ 32 }
        ensures { self.new ≡ all_home kind count length }
    {
        self.kind = kind;
        self.count = count;
        self.length = length;
    }

    /// Queues a buffer behind the others, with its memory. The memory is handed back exactly where
    /// the record's index isn't below the count, or the buffer isn't at home.
    pub fn push(&mut self, b: BufferRec, h: Held) -> Result<(), Held>
        ensures refused { IsErr result ↔ (is_home self.old b.index ≡ false) }
        ensures back { IfErr result (λ back. back ≡ h) }
        ensures ok { OnOk result (self.new ≡ pushed self.old b h) }
        ensures err { OnErr result (self.new ≡ self.old) }
    {
        if !self.is_home(b.index) {
            return Err(h);
        }
        self.queued
            .push_back(Queued { buffer: b, held: h })
            .unwrap();
        Ok(())
    }

    /// Takes the buffer that is queued first. It is out from then on. None is answered exactly
    /// where none is queued.
    pub fn pop(&mut self) -> Option<(BufferRec, Held)>
        ensures first { result ≡ first_queued self.old }
        ensures queue { self.new ≡ popped self.old }
        ensures out { IfSome result (λ first. is_out self.new first.0.index ≡ true) }
    {
        let Queued { buffer, held } = self.queued.pop_front()?;
        self.out.push_reserved(buffer.index);
        Some((buffer, held))
    }

    /// Takes all buffers out of the queue, and puts their memories behind what `back` has, the
    /// first one first. The buffers are at home from then on.
    pub fn drain(&mut self, back: &mut Vec<Held>)
        requires room { vec_len back.old + length self.old.queued ≤ vec_capacity back.old }
        ensures queue { self.new ≡ drained self.old }
        ensures home { All (λ b. is_home self.new b.buffer.index ≡ true) self.old.queued }
        ensures memories { back.new.items ≡ back.old.items ++ memories self.old.queued }
        ensures room { vec_capacity back.new ≡ vec_capacity back.old }
    {
        give_back(&mut self.queued, back);
    }

    /// Brings a buffer home that is out.
    pub fn settle(&mut self, index: u32)
        requires { is_out self.old index ≡ true }
        ensures queue { self.new ≡ settled self.old index }
        ensures home { is_home self.new index ≡ true }
    {
        remove(&mut self.out, index);
    }
}
