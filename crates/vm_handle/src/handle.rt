ghost use Rattle.std.specs.Prelude.{◌≡◌, ◌<◌, ◌≤◌, ◌^◌, ◌↔◌, [], not, true, false, IsErr, IfErr, IfOk, IfSome, OnErr, OnOk, is_some, length, vec_len, vec_capacity};
ghost use Rattle.std.specs.Option.{option_map};
ghost use Rattle.v4l_rules.specs.Refusals.{first_refusal};
ghost use Rattle.vm_exchange.specs.Exchange.{IsAnswer, command_in};
ghost use Rattle.vm_home.specs.Moves.{touches_bytes};
ghost use Rattle.vm_local.specs.declared.reply.Reply.{Reply};
ghost use Rattle.vm_local.specs.Log.{IsLegal};
ghost use Rattle.vm_local.specs.Same.{address_in};
ghost use Rattle.vm_log.specs.Answers.{with_line, AsksFew, Leases, IsDone, given_back};
ghost use Rattle.vm_log.specs.LegalLog.{state_of, lease_in, is_lent_to};
ghost use Rattle.vm_wire.specs.Wire.{IsCommand};
ghost use Rattle.vm_handle.specs.declared.stage.Stage.TheVariants.{Underway};
ghost use Rattle.vm_handle.specs.Messages.{Delivers};
ghost use Rattle.vm_handle.specs.Handle.{fresh_handle, way_from, crossing_from, has_opened, Keeps};
ghost use Rattle.vm_handle.specs.Answers.{IsCrossing, Starts, AnswersWith, row_from, session_from, with_reply, delivered};

use crate::answer::answer_here;
use crate::deliver::{awake, log_message};
use crate::stage::Stage;
use crate::start::{send_along, way_from};
use crate::started::Started;
use std::alloc::Global;
use std::marker::Model;
use v4l_const::Model as DeviceModel;
use vm_exchange::{Way, encode_crossing, reply_in};
use vm_frame::Held;
use vm_lease::{Lease, LeaseOut};
use vm_local::{Call, Entry, Reply};
use vm_log::{Leased, LegalLog};
use vm_mem::Memory;
use vm_wire::{Command, Delivery, Response};

/// The driver's side of one handle. Its log is legal.
///
/// A line is begun by `start`, or by `lease` where it touches a memory's bytes. Before the next one
/// it is answered: at once, by `reply` where its call crosses, by `deliver` where its `dqbuf`
/// waits, or by `give_back`.
///
/// Source: own, after the sessions of the VIRTIO 1.4 draft's media device.
#[derive(Drop)]
pub struct Handle {
    alloc: Global,
    log: LegalLog,
    session: Option<u32>,
    stage: Stage,
}

impl Model for Handle {
    ghost use Rattle.vm_handle.specs.Handle.{HandleState, Keeps};

    ghost Value = { HandleState };

    ghost view = { λ h. record { log = h.log; session = h.session; stage = h.stage } };

    ghost invariant = { λ h. Keeps h.log h.session h.stage };
}

// A reply as it is: its numbers are ones of their types.
fn words(reply: Reply) -> Reply
    ensures same { result ≡ reply }
    ensures fit { address_in result < 2 ^ 64 }
{
    reply
}

// The session's id once a call is answered: an open that is answered ok brings one.
fn session_from(
    session: Option<u32>,
    call: &Call,
    reply: &Reply,
    response: &Response,
) -> Option<u32>
    ensures { result ≡ session_from session call.now reply.now response.now }
{
    match (call, reply, response) {
        (Call::OpenHandle { .. }, Reply::Done, Response::Opened { session: opened }) => Some(
            *opened,
        ),
        _ => session,
    }
}

impl Handle {
    /// A handle of a device of this model, closed, with room for `lines` lines.
    ///
    /// # Errors
    /// `Memory` where the room can't be had.
    pub fn make(alloc: Global, model: DeviceModel, lines: u32) -> Result<Handle, Memory>
        ensures { IfOk result (λ h. h ≡ fresh_handle model lines) }
    {
        Ok(Handle {
            alloc,
            log: LegalLog::make(alloc, model, lines)?,
            session: None,
            stage: Stage::AtRest,
        })
    }

    /// Begins a line's call. Where it crosses, its bytes stand at the front of `out`, with the
    /// entries of user memory that goes along; a buffer's memory that goes along stands behind what
    /// `held` has. A call that is refused here, or that needs no device, is answered and logged:
    /// only a `ualloc` takes memory, and is refused with ENOMEM where it can't be had. A `dqbuf`
    /// waits exactly where nothing refuses it and no buffer is done, and isn't logged then.
    pub fn start(&mut self, line: u32, call: &Call, out: &mut [u8], held: &mut Vec<Held>) -> Started
        // No call and no lease is out, and no dqbuf waits.
        requires answered { self.old.log.unanswered ≡ false }
        requires lines { self.old.log.begun < self.old.log.lines }
        requires payload { touches_bytes call.now ≡ false }
        requires out { 4096 ≤ length out.old }
        requires held { vec_len held.old < vec_capacity held.old }
        ensures starts { Starts
            (way_from self.old call.now) self.old line call.now out.old held.old.items result
            self.new out.new held.new.items }
        ensures fits { IfSome (crossing_from self.old call.now) (λ c. IsCrossing c) }
        ensures room { vec_capacity held.new ≡ vec_capacity held.old }
    {
        let way = way_from(self.session, &self.log, call);
        self.log.begin_line();
        match way {
            Way::Crosses(crossing) => {
                let len = encode_crossing(&crossing, out) as u32;
                send_along(&mut self.log, call, held);
                self.stage = Stage::Underway { line, call: *call };
                Started::Send { len }
            }
            Way::AnsweredHere => {
                answer_here(self.alloc, &mut self.log, line, call);
                Started::Answered
            }
            Way::Waits => {
                self.stage = Stage::Waiting { line, call: *call };
                Started::Wait
            }
            Way::TouchesMemory => unreachable!(),
        }
    }

    /// Logs the call that is underway, with the reply that the device's answer tells, and takes the
    /// memories that come with it. The answer and its memories are ones that the call may have from
    /// the state of the log. An open that is answered ok brings the session's id.
    pub fn reply(&mut self, line: u32, call: &Call, response: &Response, held: &mut Vec<Held>)
        requires underway { self.old.stage ≡ Underway line call.now }
        requires answer { AnswersWith
            (state_of self.old.log) line call.now response.now held.old.items }
        ensures replied { (reply : Reply) → IsAnswer
            (state_of self.old.log) line call.now response.now reply →
            self.new ≡ with_reply self.old line call.now reply response.now held.old.items }
        ensures held { held.new.items ≡ [] }
        ensures room { vec_capacity held.new ≡ vec_capacity held.old }
        ensures keeps { Keeps self.new.log self.new.session self.new.stage }
    {
        let reply = words(reply_in(self.log.record(), call, response));
        self.log.reply(line, call, &reply, held);
        self.session = session_from(self.session, call, &reply, response);
        self.stage = Stage::AtRest;
    }

    /// Logs what a message of the device stands for: that its frame was made or failed, where it is
    /// the first of its frame, and that its buffer or event is given. The buffer's memory comes
    /// home. A `dqbuf` that waits for the buffer is answered, and logged right behind it. The steps
    /// are legal from the state of the log, and the buffer and its memory are those of the state
    /// then.
    pub fn deliver(&mut self, d: Delivery)
        requires { Delivers (state_of self.old.log) d.msg d.held }
        ensures { self.new ≡ delivered self.old d.msg d.held }
    {
        let Delivery {
            session: _,
            msg,
            held,
        } = d;
        log_message(&mut self.log, &msg, held);
        self.stage = awake(self.alloc, self.session, &mut self.log, self.stage);
    }

    /// Begins a line that touches a memory's bytes. Where a refusal applies it is answered and
    /// logged so; else its memory goes out, so that the line's work can be done on it. It is never
    /// `Idle`.
    pub fn lease(&mut self, line: u32, call: &Call) -> Leased
        // No call and no lease is out, and no dqbuf waits.
        requires answered { self.old.log.unanswered ≡ false }
        requires lines { self.old.log.begun < self.old.log.lines }
        requires payload { touches_bytes call.now ≡ true }
        requires few { AsksFew call.now }
        ensures leases { Leases (first_refusal (row_from self.old.log line call.now).refusals)
            (with_line self.old.log) line call.now result self.new.log }
        ensures rest { self.new ≡ record self.old { log = self.new.log } }
    {
        self.log.begin_line();
        self.log.lease(line, call)
    }

    /// Takes the lease back that is out, with its work done: its memory is at home, and its line is
    /// answered and logged.
    ///
    /// # Errors
    /// The lease, exactly where it isn't that of the line whose lease is out.
    pub fn give_back(&mut self, lease: Lease) -> Result<(), Lease>
        requires { is_lent_to self.old.log.away lease.line ≡ true →
            IsDone (lease_in self.old.log.away) lease }
        ensures other { IsErr result ↔ (is_lent_to self.old.log.away lease.line ≡ false) }
        ensures back { IfErr result (λ l. l ≡ lease) }
        ensures ok { OnOk result
            (self.new ≡ record self.old { log = given_back self.old.log lease }) }
        ensures err { OnErr result (self.new ≡ self.old) }
    {
        self.log.give_back(lease)
    }

    /// The log: the answered calls in order, each with its line and reply, and between them the
    /// steps of the device. It is legal.
    pub fn log(&self) -> &[Entry]
        ensures entries { result.now ≡ self.now.log.entries }
        ensures legal { IsLegal self.now.log.model self.now.log.entries }
    {
        self.log.log()
    }

    /// The session's id. `None` exactly where no open was answered ok; a close leaves it.
    pub fn session(&self) -> Option<u32>
        ensures session { result ≡ self.now.session }
        ensures there { is_some self.now.session ≡ has_opened self.now.log.entries }
    {
        self.session
    }

    /// Whether each line that was begun is answered: no call and no lease is out, and no `dqbuf`
    /// waits.
    pub fn is_answered(&self) -> bool
        ensures { result ≡ not self.now.log.unanswered }
    {
        matches!(self.stage, Stage::AtRest) && self.log.lease_out().is_none()
    }

    /// The lease that is out.
    pub fn lease_out(&self) -> Option<&LeaseOut>
        ensures { option_map (λ entry. entry.now) result ≡ lease_in self.now.log.away }
    {
        self.log.lease_out()
    }

    /// The command by which a call crosses to the device, if it does.
    pub fn command(&self, call: &Call) -> Option<Command>
        ensures asks { result ≡ command_in (crossing_from self.now call.now) }
        ensures fits { IfSome result (λ c. IsCommand c) }
    {
        match way_from(self.session, &self.log, call) {
            Way::Crosses(crossing) => Some(crossing.command),
            Way::AnsweredHere | Way::Waits | Way::TouchesMemory => None,
        }
    }
}
