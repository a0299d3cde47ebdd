// What a session answers to the calls that start and stop a queue.

ghost use Rattle.std.specs.Prelude.{◌≡◌, ◌+◌, ◌≤◌, ◌++◌, true, IfOk, IfErr, OnOk, OnErr, length, vec_len, vec_capacity};
ghost use Rattle.v4l_rules.specs.Queues.{has_type};
ghost use Rattle.vm_queue.specs.Buffers.{memories};
ghost use Rattle.vm_session.specs.State.{is_quiet, queue_of, with_queue};
ghost use Rattle.vm_session.specs.Buffers.{started, stopped_queue};
ghost use Rattle.vm_session.specs.Rows.{streamon_row, streamoff_row, Answers, Refuses, MayRefuse};

use crate::Session;
use crate::queues::{has_buffers_at, start_at, stop_at};
use v4l_const::Errno;
use v4l_rules::place_in;
use vm_frame::Held;
use vm_wire::{Payload, number_payload};

impl Session {
    /// Starts the queue of type `t`, which has buffers.
    #[tactic(auto, unfolding(crate::specs::Rows::streamon_row))]
    pub(crate) fn streamon(&mut self, t: u32) -> Result<Payload, Errno>
        ensures ok { IfOk result (λ payload. Answers (streamon_row self.old t) payload self.new) }
        ensures err { IfErr result (λ e. Refuses (streamon_row self.old t) e) }
        ensures kept { OnErr result (self.new ≡ self.old) }
        ensures size { IfOk result (λ payload. length payload ≡ 4) }
    {
        self.check_type(t)?;
        let place = place_in(self.model.queues(), t);
        if !has_buffers_at(&self.queues, place) {
            return Err(Errno::Einval);
        }
        self.start(t);
        Ok(number_payload(t))
    }

    /// Stops the queue of type `t`. The memories that were queued go behind what `back` has. The
    /// session is quiet where the model has the type.
    #[tactic(auto, unfolding(crate::specs::Rows::streamoff_row))]
    pub(crate) fn streamoff(&mut self, t: u32, back: &mut Vec<Held>) -> Result<Payload, Errno>
        requires room { vec_len back.old + 64 ≤ vec_capacity back.old }
        requires quiet { has_type self.old.model t ≡ true → is_quiet self.old ≡ true }
        ensures ok { IfOk result (λ payload. Answers (streamoff_row self.old t) payload self.new) }
        ensures err { IfErr result (λ e. MayRefuse (streamoff_row self.old t) e) }
        ensures kept { OnErr result (self.new ≡ self.old) }
        ensures back { OnOk result (back.new.items ≡ back.old.items ++
            (streamoff_row self.old t).back) }
        ensures back_kept { OnErr result (back.new.items ≡ back.old.items) }
        ensures room { vec_capacity back.new ≡ vec_capacity back.old }
        ensures size { IfOk result (λ payload. length payload ≡ 4) }
    {
        self.check_type(t)?;
        self.stop_queue(t, back);
        Ok(number_payload(t))
    }

    /// Starts the queue of type `t`: where it doesn't stream yet, its frames are counted from 0.
    fn start(&mut self, t: u32)
        ensures { self.new ≡ with_queue self.old t (started (queue_of self.old t)) }
    {
        start_at(&mut self.queues, place_in(self.model.queues(), t));
    }

    /// Stops the queue of type `t`. The memories that were queued go behind what `back` has.
    fn stop_queue(&mut self, t: u32, back: &mut Vec<Held>)
        requires { vec_len back.old + 64 ≤ vec_capacity back.old }
        ensures session { self.new ≡ with_queue self.old t (stopped_queue (queue_of self.old t)) }
        ensures memories { back.new.items ≡ back.old.items ++
            memories (queue_of self.old t).queued }
        ensures room { vec_capacity back.new ≡ vec_capacity back.old }
    {
        stop_at(&mut self.queues, place_in(self.model.queues(), t), back);
    }
}
