// The driver at its end of a plain link, which is driven by hand.

ghost use Rattle.std.specs.Prelude.{◌≡◌, ◌≢◌, ◌≤◌, ℕ, false, true, length, IfSome, OnOk};
ghost use Rattle.vm_local.specs.declared.call.Call.TheVariants.{OpenHandle, StreamOff};
ghost use Rattle.vm_log.specs.LegalLog.{state_of};
ghost use Rattle.vm_script.specs.declared.line.LineKind.TheVariants.{OnHandle};
ghost use Rattle.vm_guest.specs.Orderly.{IsFitScript};

use super::device::{announce, answer};
use crate::Guest;
use crate::chain::{EVENT_CHAINS, event_chain};
use std::alloc::Global;
use std::marker::Model;
use std::test::Fail;
use vm_handle::Handle;
use vm_link::{Link, PlainLink, QueueId, Turn};
use vm_local::{Call, Entry};
use vm_script::{LineKind, Script};
use vm_wire::Response;

// How many events are held back at most.
const HELD: u32 = 96;

// The session whose events are held back.
pub(super) const FIRST: u32 = 1;

// A streamoff of a queue that isn't there.
pub(super) const STOP: Call = Call::StreamOff { t: 99 };

// Fails the test where something doesn't hold.
pub(super) fn check(holds: bool, what: &'static str) -> Result<(), &'static str>
    ensures { OnOk result (holds ≡ true) }
{
    if holds { Ok(()) } else { Err(what) }
}

// Whether a line opens its handle.
fn is_open(what: &LineKind) -> bool
    ensures { result ≡ true → (h : ℕ) × (what.now ≡ OnHandle h (OpenHandle false)) }
{
    match what {
        LineKind::OnHandle {
            call: Call::OpenHandle { nonblock },
            ..
        } => !*nonblock,
        _ => false,
    }
}

// Whether a line is the streamoff of a queue that isn't there, on its process's only handle.
fn is_stop(what: &LineKind) -> bool
    ensures { result ≡ true → what.now ≡ OnHandle 0 (StreamOff 99) }
{
    match what {
        LineKind::OnHandle {
            h,
            call: Call::StreamOff { t },
        } => *h == 0 && *t == 99,
        _ => false,
    }
}

// Whether that call crosses from a handle.
fn crosses(handle: &Handle) -> bool
    ensures { result ≡ true → (state_of handle.now.log).opened ≡ true }
{
    handle.command(&STOP).is_some()
}

// Whether a session isn't the first.
fn is_others(session: Option<u32>) -> bool
    ensures { result ≡ true → IfSome session (λ s. s ≢ 1) }
{
    match session {
        Some(session) => session != FIRST,
        None => true,
    }
}

// The driver and its link, and how many events may be held back.
#[derive(Drop)]
pub(super) struct Rig {
    alloc: Global,
    guest: Guest,
    link: PlainLink,
    held: u32,
}

impl Model for Rig {
    ghost use Rattle.std.specs.Prelude.{ℕ};
    ghost use Rattle.vm_guest.specs.ByHand.{HoldsFew};

    ghost Value = { ℕ };

    ghost view = { λ r. r.held };

    ghost invariant = { λ r. HoldsFew r.held r.guest };
}

impl Rig {
    // The driver of a script before its first line, with its event chains on the link.
    pub(super) fn new(alloc: Global, script: &Script) -> Result<Rig, Fail>
        requires fit { IsFitScript script.now }
        requires some { 1 ≤ length script.now.processes }
    {
        let mut link = PlainLink::new(alloc, 64, 16)?;
        for k in 0..EVENT_CHAINS {
            let chain = event_chain(alloc, k)?;
            check(link.free(QueueId::Event) > 0, "no descriptor is free")?;
            link.post(QueueId::Event, chain);
        }
        Ok(Rig {
            alloc,
            guest: Guest::new(alloc, script)?,
            link,
            held: 0,
        })
    }

    pub(super) fn guest(&self) -> &Guest {
        &self.guest
    }

    // How many event chains wait for the device.
    pub(super) fn chains(&self) -> u16 {
        self.link.untaken(QueueId::Event)
    }

    // What the handle of a process has logged in this place.
    pub(super) fn logged(&self, p: u32, place: usize) -> Option<Entry> {
        self.guest.handle(p, 0)?.log().get(place).copied()
    }

    // A process begins its next line, where no event is there.
    pub(super) fn issue(&mut self, p: u32) -> Result<Turn, Fail> {
        check(
            self.link.uncollected(QueueId::Event) == 0,
            "an event is there",
        )?;
        check(self.link.free(QueueId::Command) >= 4, "no chain is free")?;
        Ok(self.guest.issue(&mut self.link, p))
    }

    // A process's open is answered so that it brings this session. No event is there or held back.
    pub(super) fn open(&mut self, p: u16, session: u32) -> Result<Turn, Fail> {
        check(self.held == 0, "an event is held back")?;
        check(
            self.link.uncollected(QueueId::Event) == 0,
            "an event is there",
        )?;
        let statement = self.guest.crossing(u32::from(p)).ok_or("no call is out")?;
        check(is_open(&statement.what), "another call")?;
        answer(
            self.alloc,
            &mut self.link,
            p,
            &Response::Opened { session },
            16,
        )?;
        Ok(self.guest.collect(&mut self.link))
    }

    // The driver takes an event of the first session. It is held back.
    pub(super) fn hold(&mut self) -> Result<Turn, Fail> {
        check(self.held < HELD, "too many events")?;
        check(self.guest.holds_back(FIRST), "it isn't held back")?;
        announce(self.alloc, &mut self.link, FIRST)?;
        self.held += 1;
        Ok(self.guest.pump(&mut self.link))
    }

    // A process begins its next line, where an event of the first session is there, which would be
    // held back.
    pub(super) fn issue_behind(&mut self, p: u32) -> Result<Turn, Fail> {
        check(self.held < HELD, "too many events")?;
        check(self.guest.holds_back(FIRST), "it isn't held back")?;
        check(self.link.free(QueueId::Command) >= 4, "no chain is free")?;
        announce(self.alloc, &mut self.link, FIRST)?;
        self.held += 1;
        Ok(self.guest.issue(&mut self.link, p))
    }

    // A process's streamoff of a queue that isn't there is refused, where an event of the first
    // session is there, which would be held back.
    pub(super) fn stop_behind(&mut self, p: u16) -> Result<Turn, Fail> {
        check(self.held < HELD, "too many events")?;
        check(self.guest.holds_back(FIRST), "it isn't held back")?;
        let statement = self.guest.crossing(u32::from(p)).ok_or("no call is out")?;
        check(is_stop(&statement.what), "another call")?;
        let handle = self.guest.handle(u32::from(p), 0).ok_or("no handle")?;
        check(crosses(handle), "no call crosses")?;
        check(is_others(handle.session()), "the first session")?;
        announce(self.alloc, &mut self.link, FIRST)?;
        answer(self.alloc, &mut self.link, p, &Response::Refused(22), 8)?;
        self.held += 1;
        Ok(self.guest.collect(&mut self.link))
    }

    // Whether an event is there that isn't taken.
    pub(super) fn has_event(&self) -> bool {
        self.link.uncollected(QueueId::Event) > 0
    }
}
