//! The world: the two ends of a machine and the link between them.

ghost use Rattle.std.specs.Prelude.{◌≡◌, ◌≤◌, ◌<◌, ◌^◌, ◌↔◌, ℕ, true, false, not, IfOk, IfErr, IfSome, IsErr, IsTrue, OnOk, OnErr, length, slice_get};
ghost use Rattle.std.specs.List.{list_any};
ghost use Rattle.vm_link.specs.declared.link.Turn.TheVariants.{Did};
ghost use Rattle.vm_device.specs.Stream.{IsStranger};
ghost use Rattle.vm_log.specs.Answers.{IsDone as IsLeaseDone};
ghost use Rattle.vm_host.specs.Part.{part_of};
ghost use Rattle.vm_guest.specs.Guest.{process_at};
ghost use Rattle.vm_guest.specs.Process.{lease_out, is_lent_for};
ghost use Rattle.vm_guest.specs.Steps.{given_back};
ghost use Rattle.vm_realm.specs.Enabled.{enabled, is_enabled, begins_line, can_announce};
ghost use Rattle.vm_realm.specs.Laws.{IsBusy};
ghost use Rattle.vm_realm.specs.Left.{left_of};
ghost use Rattle.vm_realm.specs.Sound.{IsRunnable, IsSound};
ghost use Rattle.vm_realm.specs.Steps.{Turns, DoesFinishWith};
ghost use Rattle.vm_realm.specs.World.{IsOpening, IsDone, handle_count};
ghost use Rattle.vm_world.specs.Calls.{BeginsJob, IsBackAsItWent, LeasesLine};
ghost use Rattle.vm_world.specs.Carried.{IsEmpty, HasPosted, command_room, event_room, over};
ghost use Rattle.vm_world.specs.Kinds.{steps_of};

use crate::kind::{KINDS, Kind};
use crate::offers::{Offer, begin_in_place, count_processes, job_in_place, process_in_place};
use std::alloc::Global;
use std::marker::Model;
use vm_guest::{EVENT_CHAINS, Guest, event_chain};
use vm_handle::Leased;
use vm_host::Host;
use vm_job::{DoneJob, Job, Stranger};
use vm_lease::Lease;
use vm_link::{Link, QueueId, Turn};
use vm_mem::Memory;
use vm_realm::Step;
use vm_script::Script;

/// The driver of a script, the device, and the link between them.
#[derive(Drop)]
pub struct World<L: Link> {
    script: Script,
    guest: Guest,
    host: Host,
    link: L,
}

impl<L: Link> Model for World<L> {
    ghost use Rattle.vm_realm.specs.World.{WorldState};
    ghost use Rattle.vm_realm.specs.Sound.{IsSound};
    ghost use Rattle.vm_world.specs.Carried.{world_of, IsCarried};

    ghost Value = { WorldState };

    ghost view = { λ w. world_of w.script w.guest w.host (L.queues w.link) };

    ghost invariant = { λ w. IsSound (world_of w.script w.guest w.host (L.queues w.link))
        × IsCarried w.guest w.host (L.queues w.link) };
}

// How many handles a script has.
fn count_handles(script: &Script) -> u32
    requires { IsRunnable script.now }
    ensures { result ≡ handle_count script.now }
{
    let mut count = 0;
    for process in &script.processes {
        count += process.handles.len() as u32;
    }
    count
}

// Posts the event chains.
fn post_event_chains<L: Link>(alloc: Global, link: &mut L) -> Result<(), Memory>
    requires room { event_room ≤ (L.queues link.old).event.size }
    requires empty { IsEmpty (L.queues link.old).event }
    ensures posted { OnOk result (HasPosted 16 (L.queues link.old).event.size
        (L.queues link.new).event) }
    ensures commands { OnOk result ((L.queues link.new).command ≡ (L.queues link.old).command) }
{
    for k in 0..EVENT_CHAINS {
        link.post(QueueId::Event, event_chain(alloc, k)?);
    }
    Ok(())
}

impl<L: Link + Drop> World<L> {
    /// The world of a script before its first line, over a link that nothing is on.
    ///
    /// # Errors
    /// `Memory` where there is none for the driver's or the device's part of the run.
    pub fn new(alloc: Global, script: Script, mut link: L) -> Result<World<L>, Memory>
        requires read { IsRunnable script }
        requires room { command_room ≤ (L.queues link).command.size }
        requires event_room { event_room ≤ (L.queues link).event.size }
        requires empty { IsEmpty (L.queues link).command }
        requires no_events { IsEmpty (L.queues link).event }
        ensures { IfOk result (λ w. IsOpening script w) }
    {
        let guest = Guest::new(alloc, &script)?;
        let host = Host::new(alloc, script.model, count_handles(&script))?;
        post_event_chains(alloc, &mut link)?;
        Ok(World {
            script,
            guest,
            host,
            link,
        })
    }
}

impl<L: Link> World<L> {
    /// Whether every line is answered.
    pub fn is_done(&self) -> bool
        ensures done { IsTrue result ↔ IsDone self.now }
        // Where one isn't, some step may come next.
        ensures more { result ≡ false → 0 < length (enabled self.now) }
        // Where a process began a line that isn't answered, one that begins no other line may.
        ensures once_begun { (n : ℕ) → IsBusy (process_at self.now.guest n) →
            list_any (λ s. not (begins_line s)) (enabled self.now) ≡ true }
        ensures sound { IsSound self.now }
    {
        self.guest.is_done()
    }

    /// How many steps may come next.
    pub fn enabled_len(&self) -> usize
        ensures { result ≡ length (enabled self.now) }
    {
        let mut count = 0;
        for kind in &KINDS {
            count += self.count(*kind);
        }
        count
    }

    /// The step at a place among those that may come next: kind by kind, and within a kind by
    /// rising number. `None` exactly from their number on. It looks at no process twice, and at no
    /// session that can't go on.
    pub fn enabled_at(&self, k: usize) -> Option<Step>
        ensures step { result ≡ slice_get (enabled self.now) k }
        ensures may { IfSome result (λ s. is_enabled self.now s ≡ true) }
    {
        let mut place = k;
        for kind in &KINDS {
            let count = self.count(*kind);
            if place < count {
                return self.at(*kind, place);
            }
            place -= count;
        }
        None
    }

    // How many steps of a kind may come next.
    fn count(&self, kind: Kind) -> usize
        ensures count { result ≡ length (steps_of kind self.now) }
        ensures few { result < 2 ^ 32 }
    {
        match kind {
            Kind::Issue => count_processes(&self.guest, Offer::Issue),
            Kind::Execute => usize::from(self.link.untaken(QueueId::Command) > 0),
            Kind::Resume => self.host.resumable_len(),
            Kind::Begin => self.host.ready_len(),
            Kind::Finish => self.host.jobs_out().len(),
            Kind::Announce => usize::from(self.can_announce()),
            Kind::Collect => usize::from(self.link.uncollected(QueueId::Command) > 0),
            Kind::Pump => usize::from(self.link.uncollected(QueueId::Event) > 0),
            Kind::Lease => count_processes(&self.guest, Offer::Lease),
            Kind::GiveBack => count_processes(&self.guest, Offer::GiveBack),
        }
    }

    // The step in a place among those of a kind.
    fn at(&self, kind: Kind, place: usize) -> Option<Step>
        requires { place < length (steps_of kind self.now) }
        ensures { result ≡ slice_get (steps_of kind self.now) place }
    {
        Some(match kind {
            Kind::Issue => Step::Issue(process_in_place(&self.guest, Offer::Issue, place)?),
            Kind::Execute => Step::Execute,
            Kind::Resume => Step::Resume(self.host.resumable_at(place)?),
            Kind::Begin => Step::Begin(begin_in_place(&self.host, place)?),
            Kind::Finish => Step::Finish(job_in_place(self.host.jobs_out(), place)?),
            Kind::Announce => Step::Announce,
            Kind::Collect => Step::Collect,
            Kind::Pump => Step::Pump,
            Kind::Lease => Step::Lease(process_in_place(&self.guest, Offer::Lease, place)?),
            Kind::GiveBack => {
                Step::GiveBack(process_in_place(&self.guest, Offer::GiveBack, place)?)
            }
        })
    }

    // Whether an event is unsent, and a chain waits for it.
    fn can_announce(&self) -> bool
        ensures { result ≡ can_announce self.now }
    {
        self.host.has_unsent() && self.link.untaken(QueueId::Event) > 0
    }

    /// Does a step that hands nothing out. `Idle` exactly where it may not come next, or is one of
    /// the four that have a call of their own; nothing changes then.
    pub fn step(&mut self, step: Step) -> Turn
        ensures steps { Turns result self.old step self.new }
        ensures falls { result ≡ Did → left_of self.new < left_of self.old }
        ensures script { self.new.script ≡ self.old.script }
    {
        match step {
            Step::Issue(p) => self.guest.issue(&mut self.link, p),
            Step::Execute => self.host.execute(&mut self.link),
            Step::Resume(session) => self.host.resume(&mut self.link, session),
            Step::Announce => self.host.announce(&mut self.link),
            Step::Collect => self.guest.collect(&mut self.link),
            Step::Pump => self.guest.pump(&mut self.link),
            Step::Begin(_) | Step::Finish(_) | Step::Lease(_) | Step::GiveBack(_) => Turn::Idle,
        }
    }

    /// Begins a job for a session. `None` exactly where that may not come next; nothing changes
    /// then.
    pub fn begin_job(&mut self, session: u32) -> Option<Job>
        ensures begins { BeginsJob session self.old result self.new }
    {
        self.host.begin(session)
    }

    /// Takes a job that came back. Where its number and spec are those of one that is out, it has
    /// that one's memories, with their bytes; those of the picture alone may differ, in a good job.
    ///
    /// # Errors
    /// The job is handed back exactly where none of its number is out, or one with another spec,
    /// which is told. Nothing changes then.
    pub fn finish_job(&mut self, done: DoneJob) -> Result<(), Stranger>
        requires { IsBackAsItWent done self.old }
        ensures finished { OnOk result
            (DoesFinishWith done done.job.spec.number self.old self.new) }
        ensures stranger { IfErr result (λ s. IsStranger self.old.host.device done s) }
        ensures kept { OnErr result (self.new ≡ self.old) }
    {
        self.host.finish(done)
    }

    /// A process begins its next line, which touches a memory's bytes. `Idle` exactly where that
    /// may not come next; nothing changes then.
    pub fn lease(&mut self, p: u32) -> Leased
        ensures { LeasesLine p self.old result self.new }
    {
        self.guest.lease(p)
    }

    /// Takes a process's lease back, with its work done.
    ///
    /// # Errors
    /// The lease, exactly where it isn't the one that is out. Nothing changes then.
    pub fn give_back(&mut self, p: u32, lease: Lease) -> Result<(), Lease>
        requires { is_lent_for (process_at self.old.guest p) lease.line ≡ true →
            IsLeaseDone (lease_out (process_at self.old.guest p)) lease }
        ensures other { IsErr result ↔
            (is_lent_for (process_at self.old.guest p) lease.line ≡ false) }
        ensures back { IfErr result (λ l. l ≡ lease) }
        ensures ok { OnOk result
            (self.new ≡ record self.old { guest = given_back p self.old.guest lease }) }
        ensures err { OnErr result (self.new ≡ self.old) }
    {
        self.guest.give_back(p, lease)
    }

    /// The script that is run.
    pub fn script(&self) -> &Script
        ensures { result.now ≡ self.now.script }
    {
        &self.script
    }

    /// The driver.
    pub fn guest(&self) -> &Guest
        ensures guest { result.now ≡ self.now.guest }
        ensures sound { IsSound self.now }
    {
        &self.guest
    }

    /// The device.
    pub fn host(&self) -> &Host
        ensures { part_of result.now ≡ self.now.host }
    {
        &self.host
    }

    /// The link.
    pub fn link(&self) -> &L
        ensures { self.now ≡ over (L.queues result.now) self.now }
    {
        &self.link
    }
}
