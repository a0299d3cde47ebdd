ghost use Rattle.std.specs.Prelude.{ℕ, ◌≡◌, ◌≤◌, ◌<◌, ◌-◌, ◌^◌, filter, map, not, IfOk, IfErr, OnOk, OnErr, length, nat_lt, slice_get};
ghost use Rattle.vm_link.specs.Queue.{queue_at};
ghost use Rattle.vm_link.specs.declared.link.QueueId.TheVariants.{Command as Commands, Event as Events};
ghost use Rattle.vm_device.specs.Keeps.{RiseBelow};
ghost use Rattle.vm_device.specs.Perform.{EachMadeFew};
ghost use Rattle.vm_device.specs.Stream.{IsStranger};
ghost use Rattle.vm_device.specs.Device.{session_of, is_at_rest, ready_ids as ready_in};
ghost use Rattle.vm_host.specs.Host.{fresh_host, is_waited_in, can_begin, can_resume, ready_ids, resumable_ids};
ghost use Rattle.vm_host.specs.Steps.{Executes, Resumes, Begins, Finishes, Announces, HasPlace, IsAlone, HasRoom, HasRoomForOne, IsOut, IsReadyForEvent};

use crate::Waiting;
use crate::chains::{CHAIN_LIMIT, Fate, go_on, serve, tell};
use crate::waiting::{put_call, take_call, waits_in};
use std::alloc::Global;
use std::marker::Model;
use v4l_const::Model as DeviceModel;
use vm_chain::{Chain, Desc};
use vm_device::Device;
use vm_job::{DoneJob, Job, JobOut, Stranger};
use vm_link::{Finished, Link, QueueId, Taken, Turn};
use vm_mem::{Memory, PAGE_SIZE};
use vm_region::Region;

/// The device at its end of the link, with the calls that wait until their sessions are quiet.
///
/// A stopping call (a close, a STREAMOFF, a request for buffers) that isn't refused at once waits
/// while a job of its session runs or an event of it is unsent: its chain is taken and not
/// finished. No job of a session begins while a call of it waits.
///
/// Source: own, after the sessions of the VIRTIO 1.4 draft's media device.
#[derive(Drop)]
pub struct Host {
    device: Device,
    // By rising session. There is room for a call of each session that may be opened.
    waiting: Vec<Waiting>,
    // The chain that is served, its descriptors where it waited, and the bytes that it asks with;
    // between calls they mean nothing.
    chain: Chain,
    descs: Vec<Desc>,
    bytes: Vec<u8>,
}

impl Model for Host {
    ghost use Rattle.std.specs.Prelude.{◌≡◌, ◌≤◌, vec_capacity};
    ghost use Rattle.vm_host.specs.Host.{HostState};
    ghost use Rattle.vm_host.specs.Keeps.{IsSound};

    ghost Value = { HostState };

    ghost view = { λ h. record { device = h.device; waiting = h.waiting.items } };

    // There is room for the bytes of as many pages as a chain has descriptors.
    ghost invariant = { λ h. IsSound (record { device = h.device; waiting = h.waiting.items })
        × (h.device.opens ≤ vec_capacity h.waiting) × (h.chain.limit ≡ 64) ×
        (65 ≤ vec_capacity h.descs) × (262144 ≤ vec_capacity h.bytes) };
}

/// How many of these sessions have no call that waits.
fn count_free(sessions: &[u32], waiting: &[Waiting]) -> usize
    ensures { result ≡ length (filter (λ session. not
        (is_waited_in waiting.now session)) sessions.now) }
{
    sessions
        .iter()
        .filter(|session| !waits_in(waiting, **session))
        .count()
}

/// How many of these calls are of sessions that are quiet.
fn count_quiet(waiting: &[Waiting], device: &Device) -> usize
    ensures { result ≡ length (filter (λ session. is_at_rest (session_of device.now session))
        (map (λ w. w.session) waiting.now)) }
{
    waiting
        .iter()
        .map(|call| call.session)
        .filter(|session| device.is_quiet(*session))
        .count()
}

/// The session at this place among those of these calls that are quiet.
fn quiet_at(waiting: &[Waiting], device: &Device, place: usize) -> Option<u32>
    ensures { result ≡ slice_get (filter (λ session. is_at_rest (session_of device.now session))
        (map (λ w. w.session) waiting.now)) place }
{
    let mut left = place;
    for call in waiting {
        if device.is_quiet(call.session) {
            if left == 0 {
                return Some(call.session);
            }
            left -= 1;
        }
    }
    None
}

impl Host {
    /// A device of this model that may open `opens` sessions in its life.
    ///
    /// # Errors
    /// `Memory` where there is no room for the jobs that may be out, the calls that may wait, or a
    /// chain.
    pub fn new(alloc: Global, model: DeviceModel, opens: u32) -> Result<Host, Memory>
        ensures { IfOk result (λ h. h ≡ fresh_host model opens) }
    {
        Ok(Host {
            device: Device::new(alloc, model, opens)?,
            waiting: Vec::with_capacity(alloc, opens as usize)?,
            chain: Chain::room(alloc, CHAIN_LIMIT)?,
            descs: Vec::with_capacity(alloc, usize::from(CHAIN_LIMIT) + 1)?,
            bytes: Vec::with_capacity(alloc, usize::from(CHAIN_LIMIT) * PAGE_SIZE as usize)?,
        })
    }

    /// Takes the chain that waits first, does the command that it brings, and sends the reply back;
    /// or the command's call waits. `Idle` exactly where no chain waits. The queue of events stays
    /// as it was.
    ///
    /// A chain with a fault, or with fewer than 8 bytes to write, goes back with nothing written. A
    /// malformed command is refused by its fault: EINVAL where it is short, EOPNOTSUPP where its
    /// number is unknown, ENOTTY where its code is, EMSGSIZE where its reply has too little room.
    /// Both change nothing. A close, a STREAMOFF or a request for buffers that its session doesn't
    /// refuse at once waits where a job of that session runs or an event of it is unsent. Any other
    /// command is done, with the bytes behind it and the chain's memories, as `Device::perform`
    /// says; the memories that a command takes out of a session's hands go along with its reply.
    ///
    /// Where the command opens a session, fewer than `opens` sessions were opened before, and where
    /// it maps a buffer, fewer than 16,384 mappings were made. No call waits of the session that
    /// the command names. Each session made fewer than 2^32 - 32 frames. Where the command is one
    /// that may give memories back (a close, a STREAMOFF, a request for buffers), the chain has
    /// room for 64 behind those that it holds. Only an open, a request for buffers and a mapping
    /// take memory.
    ///
    /// Source: own, after the sessions of the VIRTIO 1.4 draft's media device.
    pub fn execute<L: Link>(&mut self, link: &mut L) -> Turn
        requires place { HasPlace self.old.device (queue_at Commands (L.queues link.old)).waiting }
        requires alone { IsAlone self.old (queue_at Commands (L.queues link.old)).waiting }
        requires room { HasRoom (queue_at Commands (L.queues link.old)).waiting }
        requires frames { EachMadeFew self.old.device }
        ensures executes { Executes (queue_at Commands (L.queues link.old)).waiting self.old
            (queue_at Commands (L.queues link.old)) result self.new
            (queue_at Commands (L.queues link.new)) }
        ensures events { queue_at Events (L.queues link.new) ≡ queue_at Events (L.queues link.old) }
    {
        let Some(taken) = link.take(QueueId::Command, &mut self.chain) else {
            return Turn::Idle;
        };
        let Taken {
            head,
            fault,
            mut parcel,
        } = taken;
        match serve(
            &mut self.device,
            &self.chain,
            fault,
            &mut self.bytes,
            &mut parcel,
        ) {
            Fate::Returns { used } => link.finish(
                QueueId::Command,
                Finished { head, used, parcel },
            ),
            Fate::Waits { session } => put_call(
                &mut self.waiting,
                Waiting {
                    session,
                    head,
                    parcel,
                },
            ),
        }
        Turn::Did
    }

    /// Does the waiting call of a session, and sends its reply back. `Idle` exactly where no call
    /// of the session waits or the session isn't quiet: a job of it runs, or an event of it is
    /// unsent. The queue of events stays as it was. The head of the call's chain is out, and each
    /// session made fewer than 2^32 - 32 frames. Only a request for buffers takes memory.
    ///
    /// Source: own, after the sessions of the VIRTIO 1.4 draft's media device.
    pub fn resume<L: Link>(&mut self, link: &mut L, session: u32) -> Turn
        requires out { IsOut session self.old (queue_at Commands (L.queues link.old)) }
        requires frames { EachMadeFew self.old.device }
        ensures resumes { Resumes session self.old
            (queue_at Commands (L.queues link.old)) result self.new
            (queue_at Commands (L.queues link.new)) }
        ensures events { queue_at Events (L.queues link.new) ≡ queue_at Events (L.queues link.old) }
    {
        if !self.device.is_quiet(session) {
            return Turn::Idle;
        }
        let Some(call) = take_call(&mut self.waiting, session) else {
            return Turn::Idle;
        };
        let Waiting {
            session: _,
            head,
            mut parcel,
        } = call;
        let used = go_on(
            &mut self.device,
            &mut self.descs,
            &mut self.bytes,
            &mut parcel,
        );
        link.finish(QueueId::Command, Finished { head, used, parcel });
        Turn::Did
    }

    /// Begins a job for a session, under the next number. `None` exactly where a call of the
    /// session waits, the session isn't live, a job of it runs, a queue of it doesn't stream, or
    /// one has no buffer queued. Fewer than 2^64 - 1 jobs were begun before. No memory is taken.
    ///
    /// Source: own, after the Linux V4L2 interface.
    pub fn begin(&mut self, session: u32) -> Option<Job>
        requires { self.old.device.begun < 2 ^ 64 - 1 }
        ensures { Begins session self.old result self.new }
    {
        if waits_in(&self.waiting, session) {
            return None;
        }
        self.device.begin(session)
    }

    /// Takes a job that came back: it is out no more, and its events are unsent, behind those of
    /// other jobs. No memory is taken.
    ///
    /// # Errors
    /// The job is handed back exactly where none of its number is out, or one with another spec,
    /// which is told. Nothing changes then.
    ///
    /// Source: own, after the Linux V4L2 interface.
    pub fn finish(&mut self, done: DoneJob) -> Result<(), Stranger>
        ensures finished { OnOk result (Finishes self.old done self.new) }
        ensures stranger { IfErr result (λ stranger. IsStranger self.old.device done stranger) }
        ensures kept { OnErr result (self.new ≡ self.old) }
    {
        self.device.finish(done)
    }

    /// Takes the event chain that waits first, and sends it back with the oldest event that is
    /// unsent, and with the event's memory behind those that the chain holds. `Idle` exactly where
    /// no event is unsent or no event chain waits. The queue of commands stays as it was. Where
    /// both are there, the chain has no fault, nothing to read and at least 608 bytes to write, and
    /// there is room for one memory more. No memory is taken.
    ///
    /// Source: own, after the events of the VIRTIO 1.4 draft's media device.
    pub fn announce<L: Link>(&mut self, link: &mut L) -> Turn
        requires chain { IsReadyForEvent self.old (queue_at Events (L.queues link.old)).waiting }
        requires room { HasRoomForOne (queue_at Events (L.queues link.old)).waiting }
        ensures announces { Announces self.old (queue_at Events (L.queues link.old)) result self.new
            (queue_at Events (L.queues link.new)) }
        ensures commands { queue_at Commands (L.queues link.new) ≡
            queue_at Commands (L.queues link.old) }
    {
        if !self.device.has_unsent() {
            return Turn::Idle;
        }
        let Some(taken) = link.take(QueueId::Event, &mut self.chain) else {
            return Turn::Idle;
        };
        let Taken {
            head,
            fault: _,
            mut parcel,
        } = taken;
        let used = tell(&mut self.device, self.chain.descs(), &mut parcel);
        link.finish(QueueId::Event, Finished { head, used, parcel });
        Turn::Did
    }

    // ---- what can be done, and what is out

    /// How many sessions were opened: their ids are the numbers below it.
    pub fn opened(&self) -> u32
        ensures { result ≡ length self.now.device.sessions }
    {
        self.device.opened()
    }

    /// Whether `resume` does the waiting call of a session: one waits, and the session is quiet.
    pub fn can_resume(&self, session: u32) -> bool
        ensures { result ≡ can_resume self.now session }
    {
        waits_in(&self.waiting, session) && self.device.is_quiet(session)
    }

    /// Whether `begin` gives a job of a session.
    pub fn can_begin(&self, session: u32) -> bool
        ensures { result ≡ can_begin self.now session }
    {
        !waits_in(&self.waiting, session) && self.device.can_begin(session)
    }

    /// Whether an event is unsent.
    pub fn has_unsent(&self) -> bool
        ensures { result ≡ nat_lt 0 (length self.now.device.unsent) }
    {
        self.device.has_unsent()
    }

    /// The jobs that are out, as they went out, by rising number.
    pub fn jobs_out(&self) -> &[JobOut]
        ensures jobs { result.now ≡ self.now.device.jobs }
        ensures rising { RiseBelow self.now.device.begun self.now.device.jobs }
    {
        self.device.jobs_out()
    }

    /// The region that the device shares with the driver, with its journal.
    pub fn region(&self) -> &Region
        ensures { result.now ≡ self.now.device.region }
    {
        self.device.region()
    }

    /// The calls that wait, by rising session.
    pub fn waiting(&self) -> &[Waiting]
        ensures { result.now ≡ self.now.waiting }
    {
        self.waiting.as_slice()
    }

    /// The sessions of which the device could begin a job, by rising id; `can_begin` leaves out
    /// those of which a call waits.
    pub fn ready(&self) -> &[u32]
        ensures { result.now ≡ ready_in self.now.device }
    {
        self.device.ready()
    }

    /// For how many sessions a job can begin. No session that can't begin one is looked at, but
    /// those whose call waits.
    pub fn ready_len(&self) -> usize
        ensures { result ≡ length (ready_ids self.now) }
    {
        count_free(self.device.ready(), &self.waiting)
    }

    /// For how many sessions a waiting call can go on. No session without one is looked at.
    pub fn resumable_len(&self) -> usize
        ensures { result ≡ length (resumable_ids self.now) }
    {
        count_quiet(&self.waiting, &self.device)
    }
    /// The session at this place among those whose waiting call can go on, by rising id. No session
    /// without one is looked at.
    pub fn resumable_at(&self, place: usize) -> Option<u32>
        ensures { result ≡ slice_get (resumable_ids self.now) place }
    {
        quiet_at(&self.waiting, &self.device, place)
    }
}
