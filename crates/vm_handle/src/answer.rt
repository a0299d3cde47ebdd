//! Calls that are answered without the device.
ghost use Rattle.std.specs.Prelude.{◌≡◌, ℕ, true, false, Some, None};
ghost use Rattle.v4l_rules.specs.Refusals.{first_refusal};
ghost use Rattle.vm_home.specs.Moves.{moves_memory};
ghost use Rattle.vm_local.specs.declared.call.Call.TheVariants.{UAlloc};
ghost use Rattle.vm_local.specs.Record.{tells_bytes};
ghost use Rattle.vm_local.specs.declared.reply.Reply.TheVariants.{Refused};
ghost use Rattle.vm_exchange.specs.declared.way.Way.TheVariants.{AnsweredHere};
ghost use Rattle.vm_exchange.specs.Exchange.{way_of};
ghost use Rattle.vm_local.specs.declared.entry.Entry.TheVariants.{Called};
ghost use Rattle.vm_log.specs.LegalLog.{state_of, MayFollow};
ghost use Rattle.vm_log.specs.Answers.{answered_with};
ghost use Rattle.vm_log.specs.declared.away.Away.TheVariants.{Nothing};
ghost use Rattle.vm_handle.specs.Answers.{row_from, answered_by, AnswersHere};

use std::alloc::Global;
use v4l_const::Errno;
use vm_frame::Mem;
use vm_local::{Call, Name, Reply};
use vm_log::LegalLog;
use vm_mem::Memory;
use vm_sg::of_user;

// The first refusal of a call that applies.
fn refusal_of(log: &LegalLog, call: &Call) -> Option<Errno>
    ensures { (line : ℕ) → result ≡ first_refusal (row_from log.now line call.now).refusals }
{
    log.record().refusal(call)
}

// Answers a line's call by a refusal that applies to it.
fn refuse(log: &mut LegalLog, line: u32, call: &Call, errno: Errno)
    requires begun { log.old.unanswered ≡ true }
    requires none_out { log.old.away ≡ Nothing }
    requires refused { first_refusal (row_from log.old line call.now).refusals ≡ Some errno }
    ensures { log.new ≡ answered_by (Some errno) log.old line call.now }
{
    log.call(line, call, &Reply::Refused(errno));
}

// Answers a line's call that nothing refuses by its row's reply.
fn reply_by_row(log: &mut LegalLog, line: u32, call: &Call)
    requires begun { log.old.unanswered ≡ true }
    requires none_out { log.old.away ≡ Nothing }
    requires legal { MayFollow log.old (Called line call.now
        (row_from log.old line call.now).reply) }
    requires stays { moves_memory call.now ≡ false }
    requires silent { tells_bytes call.now ≡ false }
    ensures { log.new ≡ answered_with log.old line call.now
        (row_from log.old line call.now).reply log.old.home }
{
    let reply = log.record().reply(call, 0);
    log.call(line, call, &reply);
}

/// Answers a line's call without the device: by the first refusal of its row that applies, or else
/// by the row's reply. A `ualloc` makes its memory, and is refused with ENOMEM where it can't be
/// had.
pub fn answer_here(alloc: Global, log: &mut LegalLog, line: u32, call: &Call)
    requires begun { log.old.unanswered ≡ true }
    requires none_out { log.old.away ≡ Nothing }
    requires here { (session : ℕ) × (way_of session (state_of log.old) call.now ≡ AnsweredHere) }
    ensures { AnswersHere log.old line call.now log.new }
{
    if let Some(errno) = refusal_of(log, call) {
        refuse(log, line, call, errno);
        return;
    }
    match *call {
        Call::UAlloc { u, len, off } => allocate(alloc, log, line, u, len, off),
        _ => reply_by_row(log, line, call),
    }
}

// Makes the memory of a `ualloc`.
fn allocate(alloc: Global, log: &mut LegalLog, line: u32, u: Name, len: u32, off: u32)
    requires begun { log.old.unanswered ≡ true }
    requires none_out { log.old.away ≡ Nothing }
    requires unrefused { first_refusal (row_from log.old line (UAlloc u len off)).refusals ≡ None }
    ensures { AnswersHere log.old line (UAlloc u len off) log.new }
{
    let call = Call::UAlloc { u, len, off };
    match of_user(alloc, line, len, off) {
        Ok(user) => {
            let reply = log.record().reply(&call, 0);
            log.allocate(line, &call, &reply, Mem::OfUser(user));
        }
        Err(Memory) => log.call(line, &call, &Reply::Refused(Errno::Enomem)),
    }
}
