//! The sessions by their ids.
ghost use Rattle.std.specs.Prelude.{◌≡◌, ◌+◌, ◌<◌, ◌≤◌, ◌^◌, ◌++◌, [], ◌∷◌, Some, None, length, slice_index_or, slice_set, OnOk, OnErr};
ghost use Rattle.std.specs.Option.{option_copied, option_copied_mut};
ghost use Rattle.std.specs.Borrow.{sem};
ghost use Rattle.vm_wire.specs.Payload.{HasItsLength};
ghost use Rattle.vm_device.specs.Device.{is_ready, is_at_rest};
ghost use Rattle.vm_device.specs.Perform.{stops_in};
ghost use Rattle.vm_device.specs.Sessions.{count_there};

use slab::Slab;
use std::alloc::Global;
use std::marker::Model;
use v4l_const::IoctlCode;
use vm_marks::Marks;
use vm_mem::Memory;
use vm_session::Session;
use vm_wire::Payload;

/// The sessions that were opened, by their ids, each until it is closed. Ids are given in rising
/// order, each once.
///
/// Source: own.
#[derive(Drop)]
pub(crate) struct Sessions {
    slab: Slab<Session>,
    // By id, where the session stands in the slab, until it is closed.
    keys: Vec<Option<usize>>,
}

impl Model for Sessions {
    ghost use Rattle.std.specs.Prelude.{List, Option};
    ghost use Rattle.vm_session.specs.State.{SessionState};
    ghost use Rattle.vm_device.specs.Sessions.{sessions_at, AreKept};

    ghost Value = { List (Option SessionState) };

    ghost view = { λ s. sessions_at s.slab s.keys.items };

    ghost invariant = { λ s. AreKept s.slab s.keys.items };
}

/// The key that stands at an id's place.
fn key_at(keys: &[Option<usize>], id: u32) -> Option<usize>
    ensures { result ≡ slice_index_or keys.now id None }
{
    keys.get(id as usize).copied().flatten()
}

impl Sessions {
    ghost use Rattle.vm_device.specs.Lends.{LendsSession};

    /// No sessions.
    pub(crate) fn new(alloc: Global) -> Sessions
        ensures { result ≡ [] }
    {
        Sessions {
            slab: Slab::new(alloc),
            keys: Vec::new(alloc),
        }
    }

    /// The session of an id, while it is live.
    pub(crate) fn get(&self, id: u32) -> Option<&Session>
        ensures { option_copied result ≡ slice_index_or self.now id None }
    {
        self.slab.get(key_at(&self.keys, id)?)
    }

    /// The same, for a call that changes it.
    pub(crate) fn get_mut(&mut self, id: u32) -> Option<&mut Session>
        ensures* writes_back { sem 𝓛 (LendsSession self.entry id result) }
        ensures value { option_copied_mut result ≡ slice_index_or self.old id None }
    {
        let key = key_at(&self.keys, id)?;
        self.slab.get_mut(key)
    }

    /// How many sessions were opened.
    pub(crate) fn opened(&self) -> u32
        requires { length self.now < 2 ^ 32 }
        ensures { result ≡ length self.now }
    {
        self.keys.len() as u32
    }

    /// How many sessions are live.
    pub(crate) fn live(&self) -> usize
        ensures live { result ≡ count_there self.now }
        ensures opened { result ≤ length self.now }
    {
        self.slab.len()
    }

    /// Closes a session, and gives it if it is live.
    pub(crate) fn remove(&mut self, id: u32) -> Option<Session>
        ensures value { result ≡ slice_index_or self.old id None }
        ensures sessions { self.new ≡ slice_set self.old id None }
    {
        let key = key_at(&self.keys, id)?;
        self.keys[id as usize] = None;
        self.slab.try_remove(key)
    }

    /// Keeps the next session, under the next id. Where memory is wanting, nothing changes.
    pub(crate) fn push(&mut self, session: Session) -> Result<(), Memory>
        ensures ok { OnOk result (self.new ≡ self.old ++ Some session ∷ []) }
        ensures err { OnErr result (self.new ≡ self.old) }
    {
        self.keys.reserve(1).map_err(|_| Memory)?;
        let key = self.slab.insert(session)?;
        self.keys.push_reserved(Some(key));
        Ok(())
    }
}

/// Whether a job of a session can begin.
pub(crate) fn can_begin_in(sessions: &Sessions, id: u32) -> bool
    ensures { result ≡ is_ready (slice_index_or sessions.now id None) }
{
    match sessions.get(id) {
        Some(session) => session.can_begin(),
        None => false,
    }
}

/// Whether no job of a session runs, and none of its events is to be sent.
pub(crate) fn is_quiet_in(sessions: &Sessions, id: u32) -> bool
    ensures { result ≡ is_at_rest (slice_index_or sessions.now id None) }
{
    match sessions.get(id) {
        Some(session) => session.is_quiet(),
        None => true,
    }
}

/// Whether a call is a stopping one that its session, if it is live, doesn't refuse at once.
pub(crate) fn stops_in(sessions: &Sessions, id: u32, code: IoctlCode, payload: &Payload) -> bool
    requires { HasItsLength code payload.now }
    ensures { result ≡ stops_in (slice_index_or sessions.now id None) code payload.now }
{
    match sessions.get(id) {
        Some(session) => session.stops(code, payload),
        None => false,
    }
}

/// Marks a session where a job of it can begin now, and takes its mark away where none can.
pub(crate) fn mark(ready: &mut Marks, sessions: &Sessions, id: u32)
    requires { id < length ready.old.flags }
    ensures { ready.new ≡ record ready.old {
      flags = slice_set ready.old.flags id
          (is_ready (slice_index_or sessions.now id None));
    } }
{
    ready.set(id, can_begin_in(sessions, id));
}
