ghost use Rattle.std.specs.Prelude.{◌≡◌, true, false, IfOk, IfErr, OnOk};
ghost use Rattle.v4l_const.specs.declared.errno.Errno.{Errno};
ghost use Rattle.v4l_format.specs.Fmt.{IsAdjusted};
ghost use Rattle.v4l_rules.specs.Queues.{has_type};
ghost use Rattle.vm_session.specs.State.{opening_session, queue_of};

use crate::events::MAX_UNSENT;
use crate::queue::Queue;
use crate::queues::{format_at, opening_queues};
use crate::{Running, Unsent};
use std::alloc::Global;
use std::collections::VecDeque;
use std::marker::Model;
use v4l_const::Errno;
use v4l_format::Fmt;
use v4l_rules::place_in;
use vm_mem::Memory;

/// What the device keeps for one open handle of a guest.
#[derive(Drop)]
pub struct Session {
    pub(crate) alloc: Global,
    pub(crate) model: v4l_const::Model,
    pub(crate) id: u32,
    pub(crate) input: u32,
    // In the order of the model's buffer types.
    pub(crate) queues: Vec<Queue>,
    // How many frames were made, which have the tags from the id times 2^32 on.
    pub(crate) made: u32,
    pub(crate) running: Option<Running>,
    // The oldest first. There is room for the most that there may be.
    pub(crate) unsent: VecDeque<Unsent>,
}

impl Model for Session {
    ghost use Rattle.std.specs.Prelude.{◌≤◌};
    ghost use Rattle.std.specs.VecDeque.{deque_capacity};
    ghost use Rattle.vm_session.specs.Sound.{IsSound};
    ghost use Rattle.vm_session.specs.State.{SessionState};

    ghost Value = { SessionState };

    ghost view = { λ s. record {
      model = s.model;
      id = s.id;
      input = s.input;
      queues = s.queues.items;
      made = s.made;
      running = s.running;
      unsent = s.unsent.items;
    } };

    ghost invariant = { λ s. IsSound (record {
      model = s.model;
      id = s.id;
      input = s.input;
      queues = s.queues.items;
      made = s.made;
      running = s.running;
      unsent = s.unsent.items;
    }) × (64 ≤ deque_capacity s.unsent) };
}

impl Session {
    /// A session of a device of this model as it is opened: input 0, and GREY 64 by 48 on every
    /// queue. The wire names it by `id`.
    ///
    /// # Errors
    /// `Memory` where the memory for the queues and the events can't be had.
    pub fn new(alloc: Global, model: v4l_const::Model, id: u32) -> Result<Session, Memory>
        ensures { IfOk result (λ session. session ≡ opening_session model id) }
    {
        Ok(Session {
            alloc,
            model,
            id,
            input: 0,
            queues: opening_queues(alloc, model.queues().len())?,
            made: 0,
            running: None,
            unsent: VecDeque::with_capacity(alloc, MAX_UNSENT)?,
        })
    }

    /// Refuses a buffer type that the model doesn't have.
    pub(crate) fn check_type(&self, t: u32) -> Result<(), Errno>
        ensures ok { OnOk result (has_type self.now.model t ≡ true) }
        ensures err { IfErr result (λ e. (e ≡ Errno.Einval) × (has_type self.now.model t ≡ false)) }
    {
        let types = self.model.queues();
        if place_in(types, t) < types.len() {
            Ok(())
        } else {
            Err(Errno::Einval)
        }
    }

    /// The format of the queue with this buffer type.
    pub(crate) fn format_of(&self, t: u32) -> Fmt
        ensures value { result ≡ (queue_of self.now t).format }
        ensures adjusted { IsAdjusted result }
    {
        format_at(&self.queues, place_in(self.model.queues(), t))
    }
}
