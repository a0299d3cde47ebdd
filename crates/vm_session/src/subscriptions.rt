// What a session answers to the calls that subscribe to events. Whether a handle wants events is
// the guest's own to keep: the device sends them all.

ghost use Rattle.std.specs.Prelude.{◌≡◌, IfOk, IfErr, length};
ghost use Rattle.v4l_layout.specs.Records.{subscription_size};
ghost use Rattle.vm_session.specs.Rows.{subscribe_row, unsubscribe_row, Answers, Refuses};

use crate::Session;
use v4l_const::{EVENT_ALL, EVENT_FRAME_SYNC, Errno};
use vm_wire::{Payload, subscription_payload, subscription_request};

impl Session {
    /// Subscribes to the event of this number: the model has it, and that is the one that tells of
    /// a frame's beginning.
    ///
    /// Source: Linux V4L2, `VIDIOC_SUBSCRIBE_EVENT`.
    #[tactic(auto, unfolding(crate::specs::Rows::subscribe_row))]
    pub(crate) fn subscribe(&self, e: u32) -> Result<Payload, Errno>
        ensures ok { IfOk result (λ payload. Answers (subscribe_row self.now e) payload self.now) }
        ensures err { IfErr result (λ d. Refuses (subscribe_row self.now e) d) }
        ensures size { IfOk result (λ payload. length payload ≡ subscription_size) }
    {
        if !self.model.has_events() || e != EVENT_FRAME_SYNC {
            return Err(Errno::Einval);
        }
        Ok(subscription_payload(&subscription_request(e)))
    }

    /// Subscribes to the event of this number no more, or to no event where it stands for all.
    ///
    /// Source: Linux V4L2, `VIDIOC_UNSUBSCRIBE_EVENT`.
    #[tactic(auto, unfolding(crate::specs::Rows::unsubscribe_row))]
    pub(crate) fn unsubscribe(&self, e: u32) -> Result<Payload, Errno>
        ensures ok { IfOk result (λ payload. Answers (unsubscribe_row self.now e) payload
            self.now) }
        ensures err { IfErr result (λ d. Refuses (unsubscribe_row self.now e) d) }
        ensures size { IfOk result (λ payload. length payload ≡ subscription_size) }
    {
        if !self.model.has_events() || (e != EVENT_ALL && e != EVENT_FRAME_SYNC) {
            return Err(Errno::Einval);
        }
        Ok(subscription_payload(&subscription_request(e)))
    }
}
