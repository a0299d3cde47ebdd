//! Messages of the device that are delivered.
ghost use Rattle.std.specs.Prelude.{◌≡◌, IsSome};
ghost use Rattle.vm_local.specs.Log.{replay_from, IsLegal};
ghost use Rattle.vm_wire.specs.declared.event.EventMsg.{EventMsg};
ghost use Rattle.vm_log.specs.LegalLog.{state_of};
ghost use Rattle.vm_handle.specs.declared.stage.Stage.TheVariants.{Waiting};
ghost use Rattle.vm_handle.specs.Handle.{Keeps, KeepsUnwoken};
ghost use Rattle.vm_exchange.specs.Messages.{made_by, steps_of};
ghost use Rattle.vm_handle.specs.Messages.{GivesFirst, Delivers};
ghost use Rattle.vm_handle.specs.Answers.{with_steps, with_given, awoken};

use crate::answer::answer_here;
use crate::message::made_by;
use crate::stage::Stage;
use crate::start::way_from;
use std::alloc::Global;
use vm_exchange::Way;
use vm_frame::Held;
use vm_local::{Call, Entry};
use vm_log::LegalLog;
use vm_wire::EventMsg;

// Gives what is owed first: a buffer with its memory, or an event.
fn give(log: &mut LegalLog, held: Option<Held>)
    requires { (msg : EventMsg) × GivesFirst (state_of log.old) (state_of log.old).owed msg held }
    ensures { log.new ≡ with_given log.old held }
{
    match held {
        Some(
            Held {
                queue: _,
                index: _,
                mem,
            },
        ) => log.give(mem),
        None => log.step(&Entry::Give),
    }
}

// Logs the step that made the frame of a message, where the message is the first of its frame.
fn log_made(log: &mut LegalLog, msg: &EventMsg)
    requires { IsSome (replay_from (state_of log.old) (steps_of (state_of log.old).model msg.now)) }
    ensures { log.new ≡ with_steps log.old (made_by (state_of log.old).model msg.now) }
{
    let model = log.record().model();
    if let Some(step) = made_by(model, msg) {
        log.step(&step);
    }
}

/// Logs the steps of a message: the one that made its frame, where it is the first of its frame,
/// and the one that gives what it tells of, with its memory.
pub fn log_message(log: &mut LegalLog, msg: &EventMsg, held: Option<Held>)
    requires log { IsLegal log.old.model log.old.entries }
    requires message { Delivers (state_of log.old) msg.now held }
    ensures { log.new ≡ with_given (with_steps log.old
        (made_by (state_of log.old).model msg.now)) held }
{
    log_made(log, msg);
    give(log, held);
}

// Answers the line whose `dqbuf` waits, where it has an answer by now. What the line is then.
fn awake_line(
    alloc: Global,
    session: Option<u32>,
    log: &mut LegalLog,
    line: u32,
    call: &Call,
) -> Stage
    requires { KeepsUnwoken log.old session (Waiting line call.now) }
    ensures awoken { record { log = log.new; session = session; stage = result } ≡
        awoken (Waiting line call.now)
        (record { log = log.old; session = session; stage = Waiting line call.now }) }
    ensures keeps { Keeps log.new session result }
{
    match way_from(session, log, call) {
        Way::AnsweredHere => {
            answer_here(alloc, log, line, call);
            Stage::AtRest
        }
        _ => Stage::Waiting { line, call: *call },
    }
}

/// Answers a `dqbuf` that waits, where it has an answer by now.
pub fn awake(alloc: Global, session: Option<u32>, log: &mut LegalLog, stage: Stage) -> Stage
    requires { KeepsUnwoken log.old session stage }
    ensures awoken { record { log = log.new; session = session; stage = result } ≡
        awoken stage (record { log = log.old; session = session; stage = stage }) }
    ensures keeps { Keeps log.new session result }
{
    match stage {
        Stage::Waiting { line, call } => awake_line(alloc, session, log, line, &call),
        Stage::AtRest | Stage::Underway { .. } => stage,
    }
}
