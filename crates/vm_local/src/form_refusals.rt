//! The refusals of the calls on what a device is, on formats, inputs and events.
ghost use Rattle.std.specs.Prelude.{◌≡◌, ℕ};
ghost use Rattle.v4l_const.specs.declared.four_cc.FourCc.{FourCc};
ghost use Rattle.vm_local.specs.Calls.{close_row, querycap_row, enumfmt_row, gfmt_row, tryfmt_row, sfmt_row, enuminput_row, ginput_row, sinput_row, streamoff_row, subscribe_row, unsubscribe_row, dqevent_row};
ghost use Rattle.v4l_rules.specs.Refusals.{first_refusal};

use crate::record::Record;
use v4l_const::{EVENT_ALL, EVENT_FRAME_SYNC, Errno, INPUT_COUNT};
use v4l_format::nth_format;

impl Record {
    /// The refusals of `close` and `querycap`.
    #[tactic(auto, unfolding(crate::specs::Calls::querycap_row))]
    pub(crate) fn closed_refusal(&self) -> Option<Errno>
        ensures close { result ≡ first_refusal (close_row self.now.local).refusals }
        ensures querycap { result ≡ first_refusal (querycap_row self.now.local).refusals }
    {
        if self.opened {
            None
        } else {
            Some(Errno::Ebadf)
        }
    }

    /// The refusals of `gfmt`, `tryfmt` and `streamoff`.
    #[tactic(auto, unfolding(crate::specs::Calls::gfmt_row, crate::specs::Calls::tryfmt_row, crate::specs::Calls::streamoff_row))]
    pub(crate) fn type_refusal(&self, t: u32) -> Option<Errno>
        ensures gfmt { result ≡ first_refusal (gfmt_row self.now.local t).refusals }
        ensures tryfmt { (f : FourCc) (w h : ℕ) →
            result ≡ first_refusal (tryfmt_row self.now.local t f w h).refusals }
        ensures streamoff { result ≡ first_refusal (streamoff_row self.now.local t).refusals }
    {
        if !self.opened {
            return Some(Errno::Ebadf);
        }
        if self.place_of(t).is_none() {
            return Some(Errno::Einval);
        }
        None
    }

    /// The refusals of `enumfmt`.
    #[tactic(auto, unfolding(crate::specs::Calls::enumfmt_row))]
    pub(crate) fn enumfmt_refusal(&self, t: u32, i: u32) -> Option<Errno>
        ensures { result ≡ first_refusal (enumfmt_row self.now.local t i).refusals }
    {
        if !self.opened {
            return Some(Errno::Ebadf);
        }
        if self.place_of(t).is_none() || nth_format(i).is_none() {
            return Some(Errno::Einval);
        }
        None
    }

    /// The refusals of `sfmt`.
    #[tactic(auto, unfolding(crate::specs::Calls::sfmt_row))]
    pub(crate) fn sfmt_refusal(&self, t: u32) -> Option<Errno>
        ensures { (f : FourCc) (w h : ℕ) → result ≡
            first_refusal (sfmt_row self.now.local t f w h).refusals }
    {
        if !self.opened {
            return Some(Errno::Ebadf);
        }
        if self.place_of(t).is_none() {
            return Some(Errno::Einval);
        }
        if self.queues.has_buffers() {
            return Some(Errno::Ebusy);
        }
        None
    }

    /// The refusals of `enuminput`.
    #[tactic(auto, unfolding(crate::specs::Calls::enuminput_row))]
    pub(crate) fn enuminput_refusal(&self, i: u32) -> Option<Errno>
        ensures { result ≡ first_refusal (enuminput_row self.now.local i).refusals }
    {
        if !self.opened {
            return Some(Errno::Ebadf);
        }
        if !self.model.has_inputs() {
            return Some(Errno::Enotty);
        }
        if i >= INPUT_COUNT {
            return Some(Errno::Einval);
        }
        None
    }

    /// The refusals of `ginput`.
    #[tactic(auto, unfolding(crate::specs::Calls::ginput_row))]
    pub(crate) fn ginput_refusal(&self) -> Option<Errno>
        ensures { result ≡ first_refusal (ginput_row self.now.local).refusals }
    {
        if !self.opened {
            return Some(Errno::Ebadf);
        }
        if !self.model.has_inputs() {
            return Some(Errno::Enotty);
        }
        None
    }

    /// The refusals of `sinput`.
    #[tactic(auto, unfolding(crate::specs::Calls::sinput_row))]
    pub(crate) fn sinput_refusal(&self, i: u32) -> Option<Errno>
        ensures { result ≡ first_refusal (sinput_row self.now.local i).refusals }
    {
        if !self.opened {
            return Some(Errno::Ebadf);
        }
        if !self.model.has_inputs() {
            return Some(Errno::Enotty);
        }
        if i >= INPUT_COUNT {
            return Some(Errno::Einval);
        }
        if self.queues.is_streaming() {
            return Some(Errno::Ebusy);
        }
        None
    }

    /// The refusals of `subscribe`.
    #[tactic(auto, unfolding(crate::specs::Calls::subscribe_row))]
    pub(crate) fn subscribe_refusal(&self, e: u32) -> Option<Errno>
        ensures { result ≡ first_refusal (subscribe_row self.now.local e).refusals }
    {
        if !self.opened {
            return Some(Errno::Ebadf);
        }
        if !self.model.has_events() || e != EVENT_FRAME_SYNC {
            return Some(Errno::Einval);
        }
        None
    }

    /// The refusals of `unsubscribe`.
    #[tactic(auto, unfolding(crate::specs::Calls::unsubscribe_row))]
    pub(crate) fn unsubscribe_refusal(&self, e: u32) -> Option<Errno>
        ensures { result ≡ first_refusal (unsubscribe_row self.now.local e).refusals }
    {
        if !self.opened {
            return Some(Errno::Ebadf);
        }
        if !self.model.has_events() || (e != EVENT_ALL && e != EVENT_FRAME_SYNC) {
            return Some(Errno::Einval);
        }
        None
    }

    /// The refusals of `dqevent`.
    #[tactic(auto, unfolding(crate::specs::Calls::dqevent_row))]
    pub(crate) fn dqevent_refusal(&self) -> Option<Errno>
        ensures { result ≡ first_refusal (dqevent_row self.now.local).refusals }
    {
        if !self.opened {
            return Some(Errno::Ebadf);
        }
        if self.events.is_empty() {
            return Some(Errno::Enoent);
        }
        None
    }
}
