//! The steps of a handle, the bytes of its memories among them.
ghost use Rattle.std.specs.Prelude.{◌≡◌, ◌<◌, ◌-◌, ◌^◌, ℕ, None, false, length, IfOk, OnErr, OnOk};
ghost use Rattle.v4l_rules.specs.Refusals.{first_refusal};
ghost use Rattle.vm_local.specs.Same.{same_reply, address_in};
ghost use Rattle.vm_local.specs.Calls.{row_of};
ghost use Rattle.vm_local.specs.Steps.{finished, marked_bad, given};
ghost use Rattle.vm_local.specs.Log.{after, called, Stepped};

use crate::call::Call;
use crate::entry::Entry;
use crate::local::Local;
use crate::memories::{change, set_front_at};
use crate::refusals::may_lack_memory;
use crate::reply::Reply;
use v4l_const::Errno;
use vm_mem::Memory;

/// Makes the next step of a handle, where the entry is legal from its state; else the state stays.
///
/// True says that the entry is legal. Where memory is wanting the state stays as well.
pub fn local_step(s: &mut Local, e: &Entry) -> Result<bool, Memory>
    requires { length s.old.events < 2 ^ 32 - 1 }
    ensures ok { IfOk result (λ legal. Stepped (after s.old e.now) s.old s.new legal) }
    ensures err { OnErr result (s.new ≡ s.old) }
{
    match e {
        Entry::Called { line, call, reply } => s.call(*line, call, reply),
        Entry::Finish => s.finish(),
        Entry::Bad => s.fail(),
        Entry::Give => s.give(),
    }
}

impl Local {
    /// Makes a call, where it can have this reply.
    #[tactic(auto, unfolding(crate::specs::Log::called))]
    fn call(&mut self, line: u32, call: &Call, reply: &Reply) -> Result<bool, Memory>
        ensures ok { IfOk result (λ legal. Stepped
            (called self.old line call.now reply.now) self.old self.new legal) }
        ensures err { OnErr result (self.new ≡ self.old) }
    {
        if let Some(errno) = self.refusal(call) {
            return Ok(Reply::Refused(errno).is(reply));
        }
        if may_lack_memory(call) && Reply::Refused(Errno::Enomem).is(reply) {
            return Ok(true);
        }
        if self.waits(call) || !self.answers(call, reply) {
            return Ok(false);
        }
        self.perform(line, call, reply.address())?;
        Ok(true)
    }

    /// The first refusal that applies to a call.
    fn refusal(&self, call: &Call) -> Option<Errno>
        ensures { (line addr : ℕ) → result ≡ first_refusal
            (row_of self.now line addr call.now).refusals }
    {
        self.record.refusal(call)
    }

    /// Whether a call that no refusal stops has no reply yet.
    fn waits(&self, call: &Call) -> bool
        ensures { (line addr : ℕ) → result ≡ (row_of self.now line addr call.now).waits }
    {
        self.record.waits(call)
    }

    /// Whether this is the reply of a call that no refusal stops.
    #[tactic(auto, unfolding(crate::specs::Calls::read_row))]
    fn answers(&self, call: &Call, reply: &Reply) -> bool
        ensures { (line : ℕ) → result ≡ same_reply
            (row_of self.now line (address_in reply.now) call.now).reply reply.now }
    {
        match call {
            Call::Peek { m, off, len } => reply.is_bytes(self.bytes_read(m, *off, *len)),
            Call::Hash { m } => self.digest(m).is(reply),
            _ => self.record.reply(call, reply.address()).is(reply),
        }
    }

    /// Does a call that no refusal stops and that doesn't wait.
    fn perform(&mut self, line: u32, call: &Call, addr: u64) -> Result<(), Memory>
        requires passes { first_refusal (row_of self.old line addr call.now).refusals ≡ None }
        requires goes { (row_of self.old line addr call.now).waits ≡ false }
        ensures ok { OnOk result (self.new ≡ (row_of self.old line addr call.now).next) }
        ensures err { OnErr result (self.new ≡ self.old) }
    {
        self.record.reserve(1)?;
        change(&self.record, &mut self.memories, call)?;
        self.record.perform(line, call, addr);
        Ok(())
    }

    /// Finishes a frame, where one can be finished.
    fn finish(&mut self) -> Result<bool, Memory>
        ensures ok { IfOk result (λ done. Stepped (finished self.old) self.old self.new done) }
        ensures err { OnErr result (self.new ≡ self.old) }
    {
        if !self.record.can_finish() {
            return Ok(false);
        }
        let picture = self.next_picture()?;
        let memory = self.record.target_memory();
        self.record.reserve(1)?;
        self.record.after(&Entry::Finish);
        set_front_at(&mut self.memories, memory as usize, picture);
        Ok(true)
    }

    /// Fails a frame, where one could be finished.
    fn fail(&mut self) -> Result<bool, Memory>
        ensures ok { IfOk result (λ done. Stepped (marked_bad self.old) self.old self.new done) }
        ensures err { OnErr result (self.new ≡ self.old) }
    {
        if !self.record.can_finish() {
            return Ok(false);
        }
        self.record.reserve(1)?;
        self.record.after(&Entry::Bad);
        Ok(true)
    }

    /// Hands over what is owed first, where something is.
    fn give(&mut self) -> Result<bool, Memory>
        ensures ok { IfOk result (λ done. Stepped (given self.old) self.old self.new done) }
        ensures err { OnErr result (self.new ≡ self.old) }
    {
        if self.record.first_owed().is_none() {
            return Ok(false);
        }
        self.record.reserve(1)?;
        self.record.after(&Entry::Give);
        Ok(true)
    }
}
