//! How calls are begun.
ghost use Rattle.std.specs.Prelude.{◌≡◌, ◌<◌, ◌^◌, ℕ, true, List, Option, vec_len, vec_capacity};
ghost use Rattle.vm_frame.specs.declared.mem.Held.{Held};
ghost use Rattle.vm_home.specs.Laws.{IsUnrefused};
ghost use Rattle.vm_home.specs.Moves.{goes_along};
ghost use Rattle.vm_exchange.specs.Exchange.{way_of};
ghost use Rattle.vm_local.specs.declared.call.Call.TheVariants.{QBuf};
ghost use Rattle.vm_exchange.specs.Range.{IsInRange};
ghost use Rattle.vm_log.specs.LegalLog.{state_of};
ghost use Rattle.vm_log.specs.Answers.{Sends};
ghost use Rattle.vm_log.specs.declared.away.Away.TheVariants.{Nothing};
ghost use Rattle.vm_handle.specs.Handle.{id_of};
ghost use Rattle.vm_handle.specs.Answers.{with_sent};

use vm_exchange::{Way, way_of};
use vm_frame::Held;
use vm_local::Call;
use vm_log::LegalLog;

/// How a call of a handle with this session and log is begun.
pub fn way_from(session: Option<u32>, log: &LegalLog, call: &Call) -> Way
    requires { IsInRange (state_of log.now) }
    ensures way { result ≡ way_of (id_of session) (state_of log.now) call.now }
    ensures short { id_of session < 2 ^ 32 }
{
    way_of(session.unwrap_or(0), log.record(), call)
}

/// Puts the memory that goes along with a call behind those that are there, if one does.
pub fn send_along(log: &mut LegalLog, call: &Call, held: &mut Vec<Held>)
    requires begun { log.old.unanswered ≡ true }
    requires none_out { log.old.away ≡ Nothing }
    requires unrefused { (t i used ts : ℕ) (user : Option (List ℕ)) →
        call.now ≡ QBuf t i user used ts → IsUnrefused (state_of log.old) call.now }
    requires room { vec_len held.old < vec_capacity held.old }
    ensures sends { (along : Option Held) × Sends
        (goes_along (state_of log.old) call.now) log.old call.now along log.new ×
        (held.new.items ≡ with_sent held.old.items along) }
    ensures room { vec_capacity held.new ≡ vec_capacity held.old }
{
    let Call::QBuf { .. } = call else {
        return;
    };
    if let Some(along) = log.send(call) {
        held.push_reserved(along);
    }
}
