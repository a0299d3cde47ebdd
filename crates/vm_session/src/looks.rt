// What the device asks of a session.

ghost use Rattle.std.specs.Prelude.{◌≡◌, ◌≤◌, length};
ghost use Rattle.vm_session.specs.Mapped.{given_length};
ghost use Rattle.vm_session.specs.State.{queue_of};

use crate::Session;
use crate::queues::{kind_at, length_at};
use v4l_const::MEMORY_MMAP;
use v4l_rules::place_in;

impl Session {
    /// How many events are unsent, at most 64.
    pub fn unsent(&self) -> u32
        ensures count { result ≡ length self.now.unsent }
        ensures few { length self.now.unsent ≤ 64 }
    {
        self.unsent.len() as u32
    }

    /// The length, in bytes, of the buffer of type `t` with this index, where the device gave its
    /// memory. `None` is answered exactly where there is no such buffer, or its memory is a user's.
    pub fn frame_length(&self, t: u32, index: u32) -> Option<u32>
        ensures { result ≡ given_length (queue_of self.now t) index }
    {
        let place = place_in(self.model.queues(), t);
        if kind_at(&self.queues, place) == MEMORY_MMAP {
            length_at(&self.queues, place, index)
        } else {
            None
        }
    }
}
