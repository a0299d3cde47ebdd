//! How commands are done.
ghost use Rattle.std.specs.Prelude.{Bool, ◌≡◌, ◌<◌, ◌≤◌, ◌+◌, ◌*◌, ◌%◌, ◌++◌, ◌&&◌, [], ◌∷◌, true, false, Some, None, Ok, Err, length, slice_index_or, slice_set, vec_len, vec_capacity, OnOk, OnErr, IfOk, IsSome};
ghost use Rattle.std.specs.VecDeque.{deque_capacity};
ghost use Rattle.vm_wire.specs.Payload.{HasItsLength};
ghost use Rattle.vm_wire.specs.Wire.{MayFollow, brings_entries};
ghost use Rattle.vm_session.specs.State.{opening_session};
ghost use Rattle.vm_device.specs.Device.{DeviceState, session_of};
ghost use Rattle.vm_session.specs.Rows.{puts_back};
ghost use Rattle.vm_device.specs.Perform.{Performs, gives_back, HasPlaceFor, FitsCall, MadeFew, EachMadeFew, must_wait, is_busy, stops_in, opened, closed, in_session, reply_to};

use crate::Device;
use crate::brought::come;
use crate::device::MAX_UNSENT;
use crate::sessions::{Sessions, is_quiet_in, mark, stops_in};
use std::collections::VecDeque;
use v4l_const::{Errno, IoctlCode};
use vm_frame::Held;
use vm_mem::Memory;
use vm_session::Session;
use vm_wire::{Command, Payload, Response};

/// Takes room for the events of one session more than so many, or nothing changes.
fn reserve_events(unsent: &mut VecDeque<u32>, live: usize) -> Result<(), Memory>
    requires few { live < 4294967296 }
    ensures room { OnOk result (64 * (live + 1) ≤ deque_capacity unsent.new) }
    ensures more { deque_capacity unsent.old ≤ deque_capacity unsent.new }
    ensures events { unsent.new.items ≡ unsent.old.items }
{
    let all = MAX_UNSENT * (live + 1);
    unsent
        .reserve(all.saturating_sub(unsent.len()))
        .map_err(|_| Memory)
}

/// Does a call in a session, if it is live, with what stands behind its payload and with the
/// memories that came along.
fn call(
    sessions: &mut Sessions,
    session: u32,
    code: IoctlCode,
    payload: &mut Payload,
    behind: &[u8],
    held: &mut Vec<Held>,
) -> Result<(), Errno>
    requires payload { HasItsLength code payload.old }
    requires entries { brings_entries code payload.old ≡ true → length behind.now % 16 ≡ 0 }
    requires frames { MadeFew (slice_index_or sessions.old session None) }
    requires waits { (stops_in (slice_index_or sessions.old session None) code payload.old &&
        is_busy (slice_index_or sessions.old session None)) ≡ false }
    requires room { puts_back code ≡ true → vec_len held.old + 64 ≤ vec_capacity held.old }
    ensures called { (d : DeviceState) → d.sessions ≡ sessions.old →
        (memory : Bool) × (record {
          response = reply_to result payload.new;
          held = held.new.items;
          device = record d { sessions = sessions.new };
        }
        ≡ in_session memory d session
        (session_of d session) code payload.old behind.now held.old.items) }
    ensures one { OnOk result (IsSome (slice_index_or sessions.old session None) ×
        (sessions.new ≡ slice_set sessions.old session
        (slice_index_or sessions.new session None))) }
    ensures kept { OnErr result (sessions.new ≡ sessions.old) }
    ensures capacity { vec_capacity held.new ≡ vec_capacity held.old }
{
    let session = sessions.get_mut(session).ok_or(Errno::Ebadf)?;
    come(session, code, payload, behind, held)?;
    session.ioctl(code, payload, held)
}

impl Device {
    /// Whether a command has to wait before it is done: it is a close, a STREAMOFF or a request for
    /// buffers that its session doesn't refuse at once, and a job of that session runs, or an event
    /// of it is to be sent.
    ///
    /// Source: own.
    pub fn must_wait(&self, command: &Command) -> bool
        requires payload { FitsCall command.now }
        ensures { result ≡ must_wait self.now command.now }
    {
        match *command {
            Command::CloseSession { session } => !self.is_quiet(session),
            Command::Ioctl {
                session,
                code,
                payload,
            } => stops_in(&self.sessions, session, code, &payload) && !self.is_quiet(session),
            Command::OpenSession | Command::Map { .. } | Command::Unmap { .. } => false,
        }
    }

    /// Does a command that needn't wait. What stands behind it are whole scatter entries where it
    /// brings a user's memory. `held` has the memories that came with it, and room for 64 more
    /// where the command is one that gives some back (a close, a request for buffers, a STREAMOFF):
    /// a QBUF takes the one that it brings, and the memories that a command takes out of the
    /// sessions' hands go behind those that are there. Where the command opens a session, fewer
    /// than `opens` sessions were opened before, and where it maps a buffer, fewer than 16,384
    /// mappings were made; each session made fewer than 2^32 - 32 frames. Only an open, a request
    /// for buffers and a mapping take memory.
    ///
    /// A command for a session that isn't live is refused with EBADF. A QBUF is refused with EFAULT
    /// where it doesn't bring just the memory that its record tells: one memory, of the record's
    /// type, index and kind; at most 249 entries for a user's memory, without a fault on its pages;
    /// of the record's length; and of that of the buffer where it has a frame. Then its session
    /// refuses it by its own rules, and a user's memory goes back with the entries that came on the
    /// wire; after each other refusal the memories are as they were. A mapping is refused with
    /// EINVAL where no frame of the session is mapped from its offset, and the giving back of one
    /// where no live range starts at its address. What finds no memory is refused with ENOMEM. A
    /// refusal leaves the device as it was. No command but these two changes the region: what is
    /// mapped stays so when its session is closed.
    ///
    /// Source: own, after the sessions of the VIRTIO 1.4 draft's media device.
    pub fn perform(&mut self, command: Command, behind: &[u8], held: &mut Vec<Held>) -> Response
        requires place { HasPlaceFor self.old command }
        requires payload { FitsCall command }
        requires entries { MayFollow command behind.now }
        requires waits { must_wait self.old command ≡ false }
        requires frames { EachMadeFew self.old }
        requires room { gives_back command ≡ true → vec_len held.old + 64 ≤ vec_capacity held.old }
        ensures performs { Performs self.old command behind.now held.old.items
            (record { response = result; held = held.new.items; device = self.new }) }
        ensures capacity { vec_capacity held.new ≡ vec_capacity held.old }
    {
        match command {
            Command::OpenSession => self.open(),
            Command::CloseSession { session } => self.close(session, held),
            Command::Ioctl {
                session,
                code,
                payload,
            } => self.ioctl(session, code, payload, behind, held),
            Command::Map {
                session,
                offset,
                ..
            } => self.map(session, offset),
            Command::Unmap { addr } => self.unmap(addr),
        }
    }

    /// Opens the next session, unless there is no memory for it.
    fn open(&mut self) -> Response
        requires { length self.old.sessions < self.old.opens }
        ensures { (memory : Bool) × (record { response = result; held = []; device = self.new } ≡
            opened memory [] self.old) }
    {
        match self.add_session() {
            Ok(session) => Response::Opened { session },
            Err(Memory) => Response::Refused(Errno::Enomem.number()),
        }
    }

    /// Closes a session, if it is live. The memories that are queued in it go behind what is held.
    fn close(&mut self, session: u32, held: &mut Vec<Held>) -> Response
        requires waits { is_busy (session_of self.old session) ≡ false }
        requires room { vec_len held.old + 64 ≤ vec_capacity held.old }
        ensures closed { record { response = result; held = held.new.items; device = self.new } ≡
            closed self.old session held.old.items (session_of self.old session) }
        ensures capacity { vec_capacity held.new ≡ vec_capacity held.old }
    {
        match self.sessions.remove(session) {
            Some(mut live) => {
                live.stop(held);
                self.ready.set(session, false);
                Response::Closed
            }
            None => Response::Refused(Errno::Ebadf.number()),
        }
    }

    /// Does a call in a session, if it is live.
    fn ioctl(
        &mut self,
        session: u32,
        code: IoctlCode,
        mut payload: Payload,
        behind: &[u8],
        held: &mut Vec<Held>,
    ) -> Response
        requires payload { HasItsLength code payload }
        requires entries { brings_entries code payload ≡ true → length behind.now % 16 ≡ 0 }
        requires frames { MadeFew (session_of self.old session) }
        requires waits { (stops_in (session_of self.old session) code payload && is_busy
            (session_of self.old session)) ≡ false }
        requires room { puts_back code ≡ true → vec_len held.old + 64 ≤ vec_capacity held.old }
        ensures called { (memory : Bool) ×
            (record { response = result; held = held.new.items; device = self.new } ≡
            in_session memory self.old session
            (session_of self.old session) code payload behind.now held.old.items) }
        ensures capacity { vec_capacity held.new ≡ vec_capacity held.old }
    {
        match call(
            &mut self.sessions,
            session,
            code,
            &mut payload,
            behind,
            held,
        ) {
            Ok(()) => {
                mark(&mut self.ready, &self.sessions, session);
                Response::Answered(payload)
            }
            Err(errno) => Response::Refused(errno.number()),
        }
    }

    /// Adds the next session, and gives its id. Where memory is wanting, nothing changes.
    fn add_session(&mut self) -> Result<u32, Memory>
        requires { length self.old.sessions < self.old.opens }
        ensures id { IfOk result (λ id. id ≡ length self.old.sessions) }
        ensures ok { OnOk result (self.new ≡ record self.old {
          sessions = self.old.sessions ++
              Some (opening_session self.old.model (length self.old.sessions)) ∷ [];
        }) }
        ensures err { OnErr result (self.new ≡ self.old) }
    {
        let id = self.sessions.opened();
        let session = Session::new(self.alloc, self.model, id)?;
        self.ready.reserve(1)?;
        reserve_events(&mut self.unsent, self.sessions.live())?;
        self.sessions.push(session)?;
        self.ready.push();
        Ok(id)
    }
}
