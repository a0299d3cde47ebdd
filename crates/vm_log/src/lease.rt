//! Lines that touch a memory's bytes.
ghost use Rattle.std.specs.Prelude.{◌≡◌, ◌↔◌, true, false, IsErr, IfErr, OnOk, OnErr};
ghost use Rattle.v4l_rules.specs.Refusals.{first_refusal};
ghost use Rattle.vm_home.specs.Moves.{touches_bytes};
ghost use Rattle.vm_local.specs.Calls.{row_of};
ghost use Rattle.vm_local.specs.declared.entry.Entry.TheVariants.{Called};
ghost use Rattle.vm_log.specs.LegalLog.{state_of, lease_in, is_lent_to, MayFollow};
ghost use Rattle.vm_log.specs.Answers.{AsksFew, Leases, IsDone, given_back};
ghost use Rattle.vm_log.specs.declared.away.Away.TheVariants.{Nothing};

use crate::away::{Away, is_lent_to};
use crate::leased::Leased;
use crate::legal_log::LegalLog;
use crate::note::note;
use crate::places::{put_at, touched};
use vm_lease::{Lease, entry_of};
use vm_local::{Call, Entry, Reply};

impl LegalLog {
    /// Judges a line that touches a memory's bytes. Where it is refused it is logged so; else its
    /// memory goes out, so that its work can be done. `Idle` is never answered.
    pub fn lease(&mut self, line: u32, call: &Call) -> Leased
        requires begun { self.old.unanswered ≡ true }
        requires none_out { self.old.away ≡ Nothing }
        requires payload { touches_bytes call.now ≡ true }
        requires few { AsksFew call.now }
        ensures { Leases (first_refusal (row_of
            (state_of self.old) line 0 call.now).refusals) self.old line call.now result self.new }
    {
        if let Some(errno) = self.kept.refusal(call) {
            let entry = Entry::Called {
                line,
                call: *call,
                reply: Reply::Refused(errno),
            };
            note(&mut self.entries, &mut self.kept, entry);
            self.unanswered = false;
            return Leased::Answered;
        }
        let number = touched(&self.kept, call);
        let mem = self.home.take(number).unwrap();
        let lease = Lease::new(line, *call, mem);
        self.away = Away::Lent(entry_of(&lease));
        Leased::Out(lease)
    }

    /// Takes a lease back whose work was done: its memory is at home, and its line is answered.
    ///
    /// # Errors
    /// The lease, exactly where it isn't that of the line whose lease is out.
    pub fn give_back(&mut self, lease: Lease) -> Result<(), Lease>
        requires { is_lent_to self.old.away lease.line ≡ true →
            IsDone (lease_in self.old.away) lease }
        ensures other { IsErr result ↔ (is_lent_to self.old.away lease.line ≡ false) }
        ensures back { IfErr result (λ l. l ≡ lease) }
        ensures ok { OnOk result (self.new ≡ given_back self.old lease) }
        ensures legal { OnOk result (MayFollow self.old
            (Called lease.line lease.call lease.reply)) }
        ensures err { OnErr result (self.new ≡ self.old) }
    {
        if !is_lent_to(&self.away, lease.line) {
            return Err(lease);
        }
        let Lease {
            line,
            call,
            mem,
            reply,
        } = lease;
        let number = touched(&self.kept, &call);
        put_at(&mut self.home, number, mem);
        note(
            &mut self.entries,
            &mut self.kept,
            Entry::Called { line, call, reply },
        );
        self.away = Away::Nothing;
        self.unanswered = false;
        Ok(())
    }
}
