ghost use Rattle.std.specs.Prelude.{◌≡◌, ◌≤◌, ◌<◌, ◌↔◌, ◌++◌, Some, IsErr, IfOk, OnErr, length, take, drop, min};
ghost use Rattle.vm_io.specs.Bytes.{WasRead, NothingLeft};
ghost use Rattle.vm_io.specs.Faults.{Rose};
ghost use Rattle.vm_io.specs.MemSource.{after_read, after_read_fault};
ghost use Rattle.vm_io.specs.Plan.{fresh_plan, IsDue};

use crate::fault_plan::FaultPlan;
use crate::{Failed, Source};
use std::marker::Model;

/// A source over bytes in memory, which gives a piece at a time, and fails at the calls that it is
/// told to.
#[derive(Drop)]
pub struct MemSource {
    bytes: Vec<u8>,
    /// How many bytes it gave.
    at: usize,
    piece: usize,
    plan: FaultPlan,
}

impl Model for MemSource {
    ghost use Rattle.std.specs.Prelude.{◌≤◌, drop, vec_len};
    ghost use Rattle.vm_io.specs.MemSource.{SourceState};

    ghost Value = { SourceState };

    ghost view = { λ s. record { left = drop s.at s.bytes.items; piece = s.piece; plan = s.plan } };

    ghost invariant = { λ s. (s.at ≤ vec_len s.bytes) × (1 ≤ s.piece) };
}

impl MemSource {
    /// A source that has these bytes left, gives at most `piece` of them at a call, and fails at
    /// the calls with these numbers, counted from 1.
    pub fn new(bytes: Vec<u8>, piece: usize, fails: Vec<u64>) -> MemSource
        requires { 1 ≤ piece }
        ensures { result ≡ record {
          left = bytes.items;
          piece = piece;
          plan = fresh_plan fails.items;
        } }
    {
        MemSource {
            bytes,
            at: 0,
            piece,
            plan: FaultPlan::new(fails),
        }
    }
}

impl Source for MemSource {
    ghost left = { λ source. Some source.left };

    ghost faults = { λ source. source.plan.faults };

    fn read(&mut self, buf: &mut [u8]) -> Result<usize, Failed>
        ensures due { IsErr result ↔ IsDue self.old.plan }
        ensures amount { IfOk result (λ n. n ≡
            min self.old.piece (min (length buf.old) (length self.old.left))) }
        ensures bytes { IfOk result (λ n. buf.new ≡ take n self.old.left ++ drop n buf.old) }
        ensures ok { IfOk result (λ n. self.new ≡ after_read self.old n) }
        ensures err { OnErr result ((self.new ≡ after_read_fault self.old) × (buf.new ≡ buf.old)) }

        // What a source promises besides, as its piece is at least 1 and its count fits 64 bits.
        ensures end { IfOk result (λ n. n ≡ 0 → 0 < length buf.new →
            NothingLeft (Some self.new.left)) }
        ensures count { self.old.plan.faults ≤ self.new.plan.faults }
    {
        self.plan.call()?;
        let left = &self.bytes[self.at..];
        let count = self.piece.min(buf.len()).min(left.len());
        buf[..count].copy_from_slice(&left[..count]);
        self.at += count;
        Ok(count)
    }
}
