//! What the calls on handles, formats, inputs and events do.
ghost use Rattle.std.specs.Prelude.{◌≡◌, ◌≤◌, ℕ, None, drop, vec_len, vec_capacity};
ghost use Rattle.vm_local.specs.Calls.{opened_anew, closed, sfmt_row, sinput_row, subscribe_row, unsubscribe_row, dqevent_row};
ghost use Rattle.v4l_rules.specs.Refusals.{first_refusal};

use crate::owed::SyncEvent;
use crate::queues::Queues;
use crate::record::Record;
use v4l_const::FourCc;

impl Record {
    /// Leads to the opening state, opened.
    pub(crate) fn open_anew(&mut self, nonblock: bool)
        ensures { self.new ≡ record self.old { local = opened_anew self.old.local nonblock } }
    {
        self.opened = true;
        self.blocking = !nonblock;
        self.input = 0;
        self.subscribed = false;
        self.events.clear();
        self.next_event = 0;
        self.owed.clear();
        self.queues = Queues::new(self.alloc, self.model);
        self.lengths.clear();
        self.bound.clear();
    }

    /// Stops all queues and closes the handle.
    pub(crate) fn close(&mut self)
        ensures { self.new ≡ record self.old { local = closed self.old.local } }
    {
        self.opened = false;
        self.queues.stop_all();
        self.owed.clear();
    }

    /// Sets the format of a queue.
    #[tactic(auto, unfolding(crate::specs::Calls::sfmt_row))]
    pub(crate) fn set_format(&mut self, t: u32, f: FourCc, w: u32, h: u32)
        requires { first_refusal (sfmt_row self.old.local t f w h).refusals ≡ None }
        ensures { self.new ≡ record self.old { local = (sfmt_row self.old.local t f w h).next } }
    {
        let format = self.adjusted_for(t, f, w, h);
        if let Some(place) = self.place_of(t) {
            self.queues.set_format(place, format);
        }
    }

    /// Sets the input.
    #[tactic(auto, unfolding(crate::specs::Calls::sinput_row))]
    pub(crate) fn set_input(&mut self, i: u32)
        requires { first_refusal (sinput_row self.old.local i).refusals ≡ None }
        ensures { self.new ≡ record self.old { local = (sinput_row self.old.local i).next } }
    {
        self.input = i;
    }

    /// Wants events.
    #[tactic(auto, unfolding(crate::specs::Calls::subscribe_row))]
    pub(crate) fn subscribe(&mut self)
        ensures { (e : ℕ) → self.new ≡ record self.old {
          local =
              (subscribe_row self.old.local e).next;
        } }
    {
        self.subscribed = true;
    }

    /// Wants no events.
    #[tactic(auto, unfolding(crate::specs::Calls::unsubscribe_row))]
    pub(crate) fn unsubscribe(&mut self)
        ensures { (e : ℕ) → self.new ≡ record self.old {
          local =
              (unsubscribe_row self.old.local e).next;
        } }
    {
        self.subscribed = false;
    }

    /// Takes the first event.
    #[tactic(auto, unfolding(crate::specs::Calls::dqevent_row))]
    pub(crate) fn take_event(&mut self)
        ensures { self.new ≡ record self.old { local = (dqevent_row self.old.local).next } }
    {
        remove_first(&mut self.events);
    }
}

/// Removes the first event, where there is one.
fn remove_first(events: &mut Vec<SyncEvent>)
    ensures items { events.new.items ≡ drop 1 events.old.items }
    ensures len { vec_len events.new ≤ vec_len events.old }
    ensures capacity { vec_capacity events.new ≡ vec_capacity events.old }
{
    if !events.is_empty() {
        events.remove(0);
    }
}
