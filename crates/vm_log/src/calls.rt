//! Lines that are answered.
ghost use Rattle.std.specs.Prelude.{◌≡◌, ◌++◌, ◌∷◌, [], true, false, Some, vec_capacity};
ghost use Rattle.vm_frame.specs.Mem.{mem_bytes};
ghost use Rattle.vm_home.specs.Moves.{moves_at, goes_along, ComeWith};
ghost use Rattle.vm_commute.specs.Commute.{may_cross};
ghost use Rattle.vm_local.specs.declared.entry.Entry.TheVariants.{Called};
ghost use Rattle.vm_local.specs.Log.{IsCall};
ghost use Rattle.vm_local.specs.State.{LocalState};
ghost use Rattle.vm_log.specs.LegalLog.{state_of, MayFollow};
ghost use Rattle.vm_log.specs.Answers.{answered_with, replied, AlongWith, IsMadeBy};
ghost use Rattle.vm_log.specs.declared.away.Away.TheVariants.{Nothing};

use crate::away::Away;
use crate::legal_log::LegalLog;
use crate::note::note;
use crate::places::{going, let_go, settle};
use vm_frame::{Held, Mem};
use vm_local::{Call, Entry, Reply};

impl LegalLog {
    /// Answers a line whose call moves no memory, or that is refused.
    pub fn call(&mut self, line: u32, call: &Call, reply: &Reply)
        requires begun { self.old.unanswered ≡ true }
        requires none_out { self.old.away ≡ Nothing }
        requires legal { MayFollow self.old (Called line call.now reply.now) }
        requires stays { moves_at (state_of self.old) (Called line call.now reply.now) ≡ false }
        ensures { self.new ≡ answered_with self.old line call.now reply.now self.old.home }
    {
        let entry = Entry::Called {
            line,
            call: *call,
            reply: *reply,
        };
        note(&mut self.entries, &mut self.kept, entry);
        self.unanswered = false;
    }

    /// Answers a line whose call crossed to the device, and brings home the memories that came with
    /// its reply: those that were queued on the queues that it stops, and those that were made. A
    /// memory that went along with it is the device's from then on. Frames are dropped that no
    /// buffer and no mapping has any more.
    pub fn reply(&mut self, line: u32, call: &Call, reply: &Reply, held: &mut Vec<Held>)
        requires begun { self.old.unanswered ≡ true }
        requires crosses { may_cross call.now ≡ true }
        requires along { AlongWith (goes_along
            (state_of self.old) call.now) self.old.away reply.now }
        requires answer { (next : LocalState) ×
            IsCall (state_of self.old) line call.now reply.now next ×
            ComeWith (state_of self.old) next call.now reply.now held.old.items }
        ensures log { self.new ≡ replied self.old line call.now reply.now held.old.items }
        ensures held { held.new.items ≡ [] }
        ensures capacity { vec_capacity held.new ≡ vec_capacity held.old }
    {
        let entry = Entry::Called {
            line,
            call: *call,
            reply: *reply,
        };
        let (first, count) = going(&self.kept, call);
        settle(&self.kept, &mut self.home, call, reply, held);
        note(&mut self.entries, &mut self.kept, entry);
        let_go(&self.kept, &mut self.home, first, count);
        self.away = Away::Nothing;
        self.unanswered = false;
    }

    /// Answers a line that made user memory, which is at home from then on.
    pub fn allocate(&mut self, line: u32, call: &Call, reply: &Reply, mem: Mem)
        requires begun { self.old.unanswered ≡ true }
        requires none_out { self.old.away ≡ Nothing }
        requires legal { MayFollow self.old (Called line call.now reply.now) }
        requires made { IsMadeBy call.now reply.now (mem_bytes mem) }
        ensures { self.new ≡ answered_with self.old line call.now reply.now
            (self.old.home ++ Some mem ∷ []) }
    {
        let entry = Entry::Called {
            line,
            call: *call,
            reply: *reply,
        };
        note(&mut self.entries, &mut self.kept, entry);
        self.home.add(mem);
        self.unanswered = false;
    }
}
