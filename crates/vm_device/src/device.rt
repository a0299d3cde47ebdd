ghost use Rattle.std.specs.Prelude.{◌≡◌, ◌≤◌, nat_lt, length, map, IfOk};
ghost use Rattle.vm_device.specs.Device.{fresh_device, session_of, is_ready, is_at_rest, ready_ids};
ghost use Rattle.vm_device.specs.Keeps.{RiseBelow};

use crate::sessions::{Sessions, can_begin_in, is_quiet_in};
use std::alloc::Global;
use std::collections::VecDeque;
use std::marker::Model;
use v4l_const::Model as DeviceModel;
use vm_job::JobOut;
use vm_marks::Marks;
use vm_mem::Memory;
use vm_region::Region;

/// As many events as a session may have to send: two for each buffer of a camera, and one for each
/// buffer of a converter's two queues.
pub(crate) const MAX_UNSENT: usize = 64;

/// The device, with the sessions that guests opened, the jobs that are out for them, the events
/// that it has to send and the region in which their frames are mapped.
///
/// A session's id is the number of its open among those that succeeded, and is never used again. No
/// call but one that opens a session, asks for buffers or maps one takes memory.
///
/// Source: own, after the sessions of the VIRTIO 1.4 draft's media device.
#[derive(Drop)]
pub struct Device {
    pub(crate) alloc: Global,
    pub(crate) model: DeviceModel,
    // How many sessions may ever be opened: `jobs` has room for a job of each.
    pub(crate) opens: u32,
    pub(crate) sessions: Sessions,
    // By rising number.
    pub(crate) jobs: Vec<JobOut>,
    pub(crate) begun: u64,
    // The session of each event that is to be sent, the oldest first. There is room for all that
    // the live sessions may have to send.
    pub(crate) unsent: VecDeque<u32>,
    // By id, whether a job can begin.
    pub(crate) ready: Marks,
    pub(crate) region: Region,
}

impl Model for Device {
    ghost use Rattle.std.specs.Prelude.{◌≡◌, ◌≤◌, ◌*◌, map, vec_capacity};
    ghost use Rattle.std.specs.VecDeque.{deque_capacity};
    ghost use Rattle.vm_device.specs.Device.{DeviceState, is_ready};
    ghost use Rattle.vm_device.specs.Keeps.{IsSound};
    ghost use Rattle.vm_device.specs.Sessions.{count_there};

    ghost Value = { DeviceState };

    ghost view = { λ d. record {
      model = d.model;
      opens = d.opens;
      sessions = d.sessions;
      jobs = d.jobs.items;
      begun = d.begun;
      unsent = d.unsent.items;
      region = d.region;
    } };

    ghost invariant = { λ d. IsSound (record {
      model = d.model;
      opens = d.opens;
      sessions = d.sessions;
      jobs = d.jobs.items;
      begun = d.begun;
      unsent = d.unsent.items;
      region = d.region;
    })
        × (d.opens ≤ vec_capacity d.jobs)
        × (64 * count_there d.sessions ≤ deque_capacity d.unsent)
        × (d.ready.flags ≡ map is_ready d.sessions) };
}

impl Device {
    /// A device of this model that may open `opens` sessions in its life. Nothing is open, out,
    /// unsent or mapped.
    ///
    /// # Errors
    /// `Memory` where there is no room for the list of jobs that may be out.
    pub fn new(alloc: Global, model: DeviceModel, opens: u32) -> Result<Device, Memory>
        ensures { IfOk result (λ d. d ≡ fresh_device model opens) }
    {
        Ok(Device {
            alloc,
            model,
            opens,
            sessions: Sessions::new(alloc),
            jobs: Vec::with_capacity(alloc, opens as usize)?,
            begun: 0,
            unsent: VecDeque::new(alloc),
            ready: Marks::new(alloc),
            region: Region::new(alloc),
        })
    }

    /// The device's model.
    pub fn model(&self) -> DeviceModel
        ensures { result ≡ self.now.model }
    {
        self.model
    }

    /// How many sessions were opened: their ids are the numbers below it.
    pub fn opened(&self) -> u32
        ensures { result ≡ length self.now.sessions }
    {
        self.sessions.opened()
    }

    /// The region that the device shares with the driver, with its journal.
    pub fn region(&self) -> &Region
        ensures { result.now ≡ self.now.region }
    {
        &self.region
    }

    /// The jobs that are out, as they went out, by rising number.
    pub fn jobs_out(&self) -> &[JobOut]
        ensures jobs { result.now ≡ self.now.jobs }
        ensures rising { RiseBelow self.now.begun self.now.jobs }
    {
        self.jobs.as_slice()
    }

    /// Whether an event is to be sent.
    pub fn has_unsent(&self) -> bool
        ensures { result ≡ nat_lt 0 (length self.now.unsent) }
    {
        !self.unsent.is_empty()
    }

    /// Whether a job of this session can begin: it is live, no job of it runs, all its queues
    /// stream, and each has a buffer queued.
    pub fn can_begin(&self, session: u32) -> bool
        ensures { result ≡ is_ready (session_of self.now session) }
    {
        can_begin_in(&self.sessions, session)
    }

    /// Whether no job of this session runs, and none of its events is to be sent. Of a session that
    /// isn't live there is none.
    pub fn is_quiet(&self, session: u32) -> bool
        ensures { result ≡ is_at_rest (session_of self.now session) }
    {
        is_quiet_in(&self.sessions, session)
    }

    /// The sessions for which a job can begin, by rising id. No session that can't is looked at.
    pub fn ready(&self) -> &[u32]
        ensures { result.now ≡ ready_ids self.now }
    {
        self.ready.marked()
    }
}
