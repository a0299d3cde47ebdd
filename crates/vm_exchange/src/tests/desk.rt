ghost use Rattle.std.specs.Prelude.{◌≡◌, ◌<◌, ◌-◌, ◌^◌, true, Some, IfOk, OnErr, length};
ghost use Rattle.vm_local.specs.Log.{after};
ghost use Rattle.vm_local.specs.State.{opening};
ghost use Rattle.vm_exchange.specs.Range.{IsRecord, HasWords};

use super::{Row, joined};
use crate::{Crossing, Way, crossing_of, encode_crossing, reply_in, response_to, way_of};
use std::alloc::Global;
use std::marker::Model;
use std::process::Abort;
use std::test::Fail;
use v4l_const::Model as DeviceModel;
use vm_local::{Call, Entry, Local, Record, Reply, local_step};
use vm_mem::Memory;
use vm_wire::{Response, decode_response};

/// The session that the device opens for the handle.
const SESSION: u32 = 7;

/// For how many entries there is room.
const ENTRIES: usize = 32;

/// What stands behind what crosses.
const BEHIND: u8 = 0xee;

/// A handle's state on the plain machine, and its record.
#[derive(Drop)]
pub struct Desk {
    local: Local,
    kept: Record,
    alloc: Global,
}

impl Model for Desk {
    ghost use Rattle.std.specs.Prelude.{◌≡◌};
    ghost use Rattle.vm_local.specs.State.{LocalState};
    ghost use Rattle.vm_local.specs.Record.{without_bytes};
    ghost use Rattle.vm_exchange.specs.Range.{IsInRange};

    ghost Value = { LocalState };

    ghost view = { λ d. d.local };

    ghost invariant = { λ d. (d.kept.local ≡ without_bytes d.local) × IsInRange d.local };
}

// An entry's numbers are ones of their types.
fn fits(entry: Entry)
    ensures { HasWords entry }
{}

// Makes an entry on the plain machine. True says that it is legal there.
fn advance(local: &mut Local, entry: &Entry) -> Result<bool, Memory>
    requires { length local.old.events < 2 ^ 32 - 1 }
    ensures goes { IfOk result (λ legal. legal ≡ true →
        after local.old entry.now ≡ Some local.new) }
    ensures err { OnErr result (local.new ≡ local.old) }
{
    local_step(local, entry)
}

// The record of a handle before its first entry, with room.
fn recorded(alloc: Global, model: DeviceModel) -> Result<Record, Memory>
    ensures { IfOk result (λ kept. kept.local ≡ opening model) }
{
    let mut kept = Record::new(alloc, model);
    kept.reserve(ENTRIES)?;
    Ok(kept)
}

// Whether two answers are the same.
fn is_same(a: &Response, b: &Response) -> bool {
    match (a, b) {
        (Response::Refused(one), Response::Refused(other)) => one == other,
        (Response::Opened { session: one }, Response::Opened { session: other }) => one == other,
        (Response::Closed, Response::Closed) | (Response::Unmapped, Response::Unmapped) => true,
        (Response::Answered(one), Response::Answered(other)) => one.as_bytes() == other.as_bytes(),
        (
            Response::Mapped {
                addr: one,
                length: size,
            },
            Response::Mapped { addr, length },
        ) => one == addr && size == length,
        _ => false,
    }
}

impl Desk {
    /// A handle of a device of this model, closed.
    pub fn make(alloc: Global, model: DeviceModel) -> Result<Desk, Fail> {
        let kept = recorded(alloc, model)?;
        Ok(Desk {
            local: Local::new(alloc, model),
            kept,
            alloc,
        })
    }

    // The record.
    fn record(&self) -> &Record
        ensures { IsRecord result.now.local }
    {
        &self.kept
    }

    /// How a call is begun.
    pub fn way_of(&self, call: &Call) -> Way {
        way_of(SESSION, self.record(), call)
    }

    /// The next entry, which is legal.
    pub fn step(&mut self, rt: &impl Abort, entry: &Entry) -> Result<(), Fail> {
        assert!(rt; self.local.events_listed() < ENTRIES && self.kept.room() > 0);
        fits(*entry);
        let legal = advance(&mut self.local, entry)?;
        assert!(rt; legal);
        self.kept.after(entry);
        Ok(())
    }

    // The next call, which is legal, and the device's answer.
    fn called(
        &mut self,
        rt: &impl Abort,
        line: u32,
        call: &Call,
        reply: &Reply,
    ) -> Result<Response, Fail> {
        assert!(rt; self.local.events_listed() < ENTRIES && self.kept.room() > 0);
        let entry = Entry::Called {
            line,
            call: *call,
            reply: *reply,
        };
        fits(entry);
        let legal = advance(&mut self.local, &entry)?;
        assert!(rt; legal);
        let answer = response_to(SESSION, &self.kept, call, reply);
        self.kept.after(&entry);
        Ok(answer)
    }

    // Writes what crosses for a call, which is just this.
    fn sent(&self, rt: &impl Abort, call: &Call, want: &[u8]) -> Crossing {
        let Some(crossing) = crossing_of(SESSION, self.record(), call) else {
            panic!(rt; "the call crosses");
        };
        let mut out = [BEHIND; 4096];
        let len = encode_crossing(&crossing, &mut out);
        assert_eq!(rt; out.get(..len), Some(want));
        assert_eq!(rt; out.get(want.len()), Some(&BEHIND));
        crossing
    }

    /// A call on a line of a script that crosses by just the row's bytes. The device answers with
    /// the row's bytes where the call has the row's reply, and this is the reply that they tell.
    pub fn cross(&mut self, rt: &impl Abort, line: u32, row: &Row) -> Result<(), Fail> {
        let want = joined(self.alloc, row.crosses)?;
        let crossing = self.sent(rt, &row.call, &want);
        let answer = joined(self.alloc, row.answer)?;
        let response = decode_response(&crossing.command, &answer)?;
        assert_eq!(rt; reply_in(self.record(), &row.call, &response), row.reply);
        let told = self.called(rt, line, &row.call, &row.reply)?;
        assert!(rt; is_same(&told, &response));
        Ok(())
    }

    /// Calls from a line on.
    pub fn cross_all(&mut self, rt: &impl Abort, from: u32, rows: &[Row]) -> Result<(), Fail> {
        let mut line = from;
        for row in rows {
            self.cross(rt, line, row)?;
            line = line.wrapping_add(1);
        }
        Ok(())
    }
}
