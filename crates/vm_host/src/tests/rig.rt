// A device at its end of a plain link, which is driven by hand.

ghost use Rattle.std.specs.Prelude.{◌≡◌, ◌≤◌, ◌+◌, true, length, IfOk, OnOk};
ghost use Rattle.vm_host.specs.Steps.{TakesEvent};

use super::{COMMAND, REPLY, chain};
use crate::Host;
use std::alloc::Global;
use std::marker::Model;
use std::test::Fail;
use v4l_const::Model as DeviceModel;
use vm_chain::{Desc, WRITE};
use vm_frame::Held;
use vm_job::{DoneJob, Job, Stranger};
use vm_link::{Finished, Link, Parcel, PlainLink, QueueId, Turn};
use vm_mem::{Page, Store};

// The address of the page that an event is written to.
const EVENT: u64 = 0x12000;

// A byte that nobody writes.
const FILLER: u8 = 0xee;

// How many bytes of a page are looked at: more than any message has.
pub(super) const FRONT: usize = 640;

// The first numbers of a message, of four bytes each; the others are 0.
pub(super) type Words = [u32; 32];

// Fails the test where something doesn't hold.
pub(super) fn check(holds: bool, what: &'static str) -> Result<(), &'static str>
    ensures { OnOk result (holds ≡ true) }
{
    if holds { Ok(()) } else { Err(what) }
}

// The first bytes of a page that a message of so many bytes is written to.
pub(super) fn front_of(words: &Words, len: usize) -> [u8; 640] {
    let mut bytes = [0; FRONT];
    for (place, word) in words.iter().enumerate() {
        bytes[4 * place..4 * place + 4].copy_from_slice(&word.to_le_bytes());
    }
    if len < FRONT {
        bytes[len..].fill(FILLER);
    }
    bytes
}

// The first bytes of a page, where it has so many.
fn first_bytes(page: &Page) -> [u8; 640] {
    let mut bytes = [0; FRONT];
    if page.size() >= 640 {
        page.copy_out(0, &mut bytes);
    }
    bytes
}

// Whether just this message of so many bytes was written to a page of a chain.
pub(super) fn is_written(done: &Finished, page: usize, words: &Words, len: u32) -> bool {
    match done.parcel.pages.get(page) {
        Some(page) => done.used == len && first_bytes(page) == front_of(words, len as usize),
        None => false,
    }
}

// A chain for a command of so many bytes, with so much room for its reply.
pub(super) fn command(
    alloc: Global,
    words: &Words,
    len: u32,
    room: u32,
    held: Vec<Held>,
) -> Result<Parcel, Fail> {
    let mut asked = Page::make_zero(alloc, COMMAND / 4096)?;
    asked.copy_in(0, &front_of(words, len as usize));
    let mut reply = Page::make_zero(alloc, REPLY / 4096)?;
    reply.copy_in(0, &[FILLER; FRONT]);
    let mut table = Vec::new(alloc);
    table.extend_from_slice(&chain(len, room))?;
    let mut pages = Vec::new(alloc);
    pages.push(asked)?;
    pages.push(reply)?;
    Ok(Parcel {
        who: 0,
        table,
        pages,
        held,
    })
}

// A chain for an event.
fn event_chain(alloc: Global) -> Result<Parcel, Fail>
    ensures takes { IfOk result TakesEvent }
    ensures small { IfOk result (λ p. (length p.table ≡ 1) × (length p.pages ≡ 1) ×
        (length p.held + 1 ≤ p.room)) }
{
    let mut page = Page::make_zero(alloc, EVENT / 4096)?;
    page.copy_in(0, &[FILLER; FRONT]);
    let mut table = Vec::with_capacity(alloc, 1)?;
    table.push_reserved(Desc {
        addr: EVENT,
        len: 608,
        flags: WRITE,
        next: 0,
    });
    let mut pages = Vec::with_capacity(alloc, 1)?;
    pages.push_reserved(page);
    Ok(Parcel {
        who: 0,
        table,
        pages,
        held: Vec::with_capacity(alloc, 1)?,
    })
}

// Whether a chain can be posted, and has room for the memories that a command may give back.
fn is_fit(parcel: &Parcel) -> bool
    ensures some { result ≡ true → 1 ≤ length parcel.now.table }
    ensures few { result ≡ true → length parcel.now.table ≤ 4 }
    ensures pages { result ≡ true → length parcel.now.pages ≤ 4 }
    ensures room { result ≡ true → length parcel.now.held + 64 ≤ parcel.now.room }
{
    let held = &parcel.held;
    let count = parcel.table.len();
    1 <= count && count <= 4 && parcel.pages.len() <= 4 && held.capacity() - held.len() >= 64
}

// The device and its link, and how many steps were done that may add something to the device.
#[derive(Drop)]
pub(super) struct Rig {
    alloc: Global,
    host: Host,
    link: PlainLink,
    steps: u64,
}

impl Model for Rig {
    ghost use Rattle.std.specs.Prelude.{ℕ, ◌≤◌};
    ghost use Rattle.vm_host.specs.Growth.{HasDone, IsOneOut};

    ghost Value = { ℕ };

    ghost view = { λ r. r.steps };

    ghost invariant = { λ r. HasDone r.steps 64 r.host.device
        × IsOneOut r.host.waiting r.link.command };
}

impl Rig {
    // A camera that did nothing yet.
    pub(super) fn new(alloc: Global) -> Result<Rig, Fail> {
        Ok(Rig {
            alloc,
            host: Host::new(alloc, DeviceModel::Capture, 64)?,
            link: PlainLink::new(alloc, 64, 16)?,
            steps: 0,
        })
    }

    pub(super) fn alloc(&self) -> Global {
        self.alloc
    }

    pub(super) fn host(&self) -> &Host {
        &self.host
    }

    // Lets the device serve a chain, which comes back unless its call waits. No other call waits.
    pub(super) fn execute(&mut self, parcel: Parcel) -> Result<Option<Finished>, Fail> {
        check(is_fit(&parcel), "the chain isn't fit")?;
        check(self.steps < 64, "too many steps")?;
        check(self.host.waiting().is_empty(), "a call waits")?;
        check(self.link.untaken(QueueId::Command) == 0, "a chain waits")?;
        check(self.link.free(QueueId::Command) >= 4, "no chain is free")?;
        self.link.post(QueueId::Command, parcel);
        let turn = self.host.execute(&mut self.link);
        self.steps += 1;
        check(turn == Turn::Did, "no chain is taken")?;
        Ok(self.link.collect(QueueId::Command))
    }

    // Lets the device go on with a waiting call of a session. Its chain comes back if there is one.
    pub(super) fn resume(&mut self, session: u32) -> Result<Option<Finished>, Fail> {
        check(self.steps < 64, "too many steps")?;
        let turn = self.host.resume(&mut self.link, session);
        self.steps += 1;
        match turn {
            Turn::Did => Ok(self.link.collect(QueueId::Command)),
            Turn::Idle => Ok(None),
        }
    }

    pub(super) fn begin(&mut self, session: u32) -> Result<Option<Job>, Fail> {
        check(self.steps < 64, "too many steps")?;
        let job = self.host.begin(session);
        self.steps += 1;
        Ok(job)
    }

    pub(super) fn finish(&mut self, done: DoneJob) -> Result<(), Stranger> {
        self.host.finish(done)
    }

    // Lets the device send its oldest event with a new chain, which comes back if there is one.
    pub(super) fn announce(&mut self) -> Result<Option<Finished>, Fail> {
        let parcel = event_chain(self.alloc)?;
        check(self.link.untaken(QueueId::Event) == 0, "a chain waits")?;
        check(self.link.free(QueueId::Event) >= 1, "no chain is free")?;
        self.link.post(QueueId::Event, parcel);
        match self.host.announce(&mut self.link) {
            Turn::Did => Ok(self.link.collect(QueueId::Event)),
            Turn::Idle => Ok(None),
        }
    }
}
