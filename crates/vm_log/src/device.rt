//! Memories that go to the device, and steps of the device.
ghost use Rattle.std.specs.Prelude.{◌≡◌, true, false};
ghost use Rattle.vm_home.specs.Home.{IsMemory};
ghost use Rattle.vm_home.specs.Laws.{IsUnrefused};
ghost use Rattle.vm_home.specs.Moves.{moves_at, goes_along, owes_buffer};
ghost use Rattle.vm_home.specs.ToCome.{IsStep};
ghost use Rattle.vm_log.specs.LegalLog.{state_of, with_entry, MayFollow};
ghost use Rattle.vm_log.specs.Answers.{Sends, first_number, given_with};
ghost use Rattle.vm_log.specs.declared.away.Away.TheVariants.{Nothing};

use crate::away::Away;
use crate::legal_log::LegalLog;
use crate::note::note;
use crate::places::{memory_along, number_owed, put_at};
use vm_frame::{Held, Mem};
use vm_local::{Call, Entry};

impl LegalLog {
    /// The memory that goes to the device along with a call, if one does: that of the buffer which
    /// it queues. It is out until the call is answered.
    pub fn send(&mut self, call: &Call) -> Option<Held>
        requires begun { self.old.unanswered ≡ true }
        requires none_out { self.old.away ≡ Nothing }
        requires unrefused { IsUnrefused (state_of self.old) call.now }
        ensures { Sends (goes_along
            (state_of self.old) call.now) self.old call.now result self.new }
    {
        let Call::QBuf { t, i, user, .. } = call else {
            return None;
        };
        let number = memory_along(&self.kept, *t, *i, user);
        let mem = self.home.take(number).unwrap();
        self.away = Away::Sent(number);
        Some(Held {
            queue: *t,
            index: *i,
            mem,
        })
    }

    /// A step of the device that brings no memory.
    pub fn step(&mut self, entry: &Entry)
        requires step { IsStep entry.now }
        requires legal { MayFollow self.old entry.now }
        requires stays { moves_at (state_of self.old) entry.now ≡ false }
        ensures { self.new ≡ with_entry self.old entry.now self.old.home }
    {
        note(&mut self.entries, &mut self.kept, *entry);
    }

    /// The device gives the first buffer that it owes, with its memory.
    pub fn give(&mut self, mem: Mem)
        requires owed { owes_buffer (state_of self.old).owed ≡ true }
        requires memory { IsMemory (state_of self.old) (first_number (state_of self.old)) mem }
        ensures { self.new ≡ given_with self.old mem }
    {
        let number = number_owed(&self.kept);
        put_at(&mut self.home, number, mem);
        note(&mut self.entries, &mut self.kept, Entry::Give);
    }
}
