ghost use Rattle.std.specs.Prelude.{◌≡◌, ◌≤◌, ◌<◌, ◌-◌, ◌↔◌, [], Some, IsErr, IfOk, OnErr, length, take, min, vec_len};
ghost use Rattle.vm_io.specs.MemSink.{Refuses, after_write, after_write_fault};
ghost use Rattle.vm_io.specs.Plan.{fresh_plan};

use crate::fault_plan::FaultPlan;
use crate::{Failed, Sink};
use std::marker::Model;

/// A sink over room in memory, which takes a piece at a time, and fails at the calls that it is
/// told to, and where its room is used up.
#[derive(Drop)]
pub struct MemSink {
    room: Vec<u8>,
    /// How many bytes it took.
    at: usize,
    piece: usize,
    plan: FaultPlan,
}

impl Model for MemSink {
    ghost use Rattle.std.specs.Prelude.{◌≤◌, take, vec_len};
    ghost use Rattle.vm_io.specs.MemSink.{SinkState};

    ghost Value = { SinkState };

    ghost view = { λ s. record {
      held = take s.at s.room.items;
      size = vec_len s.room;
      piece = s.piece;
      plan = s.plan;
    } };

    ghost invariant = { λ s. (s.at ≤ vec_len s.room) × (1 ≤ s.piece) };
}

impl MemSink {
    /// A sink that holds nothing yet, writes over `room` from its front, takes at most `piece`
    /// bytes at a call, and fails at the calls with these numbers, counted from 1.
    pub fn new(room: Vec<u8>, piece: usize, fails: Vec<u64>) -> MemSink
        requires { 1 ≤ piece }
        ensures { result ≡ record {
          held = [];
          size = vec_len room;
          piece = piece;
          plan = fresh_plan fails.items;
        } }
    {
        MemSink {
            room,
            at: 0,
            piece,
            plan: FaultPlan::new(fails),
        }
    }

    /// The bytes that it took, in order.
    pub fn held(&self) -> &[u8]
        ensures { result.now ≡ self.now.held }
    {
        &self.room[..self.at]
    }
}

impl Sink for MemSink {
    ghost held = { λ sink. Some sink.held };

    ghost faults = { λ sink. sink.plan.faults };

    fn write(&mut self, piece: &[u8]) -> Result<usize, Failed>
        ensures refused { IsErr result ↔ Refuses self.old piece.now }
        ensures amount { IfOk result (λ n. n ≡
            min self.old.piece (min (length piece.now) (self.old.size - length self.old.held))) }
        ensures ok { IfOk result (λ n. self.new ≡ after_write self.old (take n piece.now)) }
        ensures err { OnErr result (self.new ≡ after_write_fault self.old) }

        // What a sink promises besides, as its piece is at least 1 and its count fits 64 bits.
        ensures some { IfOk result (λ n. 0 < length piece.now → 0 < n) }
        ensures count { self.old.plan.faults ≤ self.new.plan.faults }
    {
        self.plan.call()?;
        let free = self.room.len() - self.at;
        if free == 0 && !piece.is_empty() {
            return Err(self.plan.fail());
        }
        let count = self.piece.min(piece.len()).min(free);
        let end = self.at + count;
        self.room[self.at..end].copy_from_slice(&piece[..count]);
        self.at = end;
        Ok(count)
    }
}
