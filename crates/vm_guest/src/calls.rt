//! Calls on the handles of one process.

ghost use Rattle.std.specs.Prelude.{◌≡◌, ◌<◌, ◌≤◌, ◌↔◌, ℕ, [], Some, false, true, IsErr, IfErr, IfSome, OnOk, OnErr, length, slice_set};
ghost use Rattle.vm_home.specs.Moves.{touches_bytes};
ghost use Rattle.vm_local.specs.declared.reply.Reply.{Reply};
ghost use Rattle.vm_log.specs.Answers.{IsDone};
ghost use Rattle.vm_log.specs.LegalLog.{state_of, lease_in, is_lent_to};
ghost use Rattle.vm_exchange.specs.Exchange.{IsAnswer};
ghost use Rattle.vm_handle.specs.Answers.{Starts as StartsCall, IsCrossing, AnswersWith, with_reply, delivered};
ghost use Rattle.vm_handle.specs.Handle.{Keeps, way_from, crossing_from};
ghost use Rattle.vm_handle.specs.Messages.{Delivers};
ghost use Rattle.vm_handle.specs.declared.stage.Stage.TheVariants.{Underway};
ghost use Rattle.vm_guest.specs.Chain.{IsHome};
ghost use Rattle.vm_guest.specs.Caller.{CanBegin, Starts, CanLog, Logs, LeasesIn, away_in, with_returned};
ghost use Rattle.vm_guest.specs.Process.{handle_in, is_answered_in};

use crate::asked::Asked;
use crate::chain::{put_bytes, put_len, reply_in};
use vm_handle::{Handle, Leased, Started};
use vm_lease::Lease;
use vm_link::{Finished, Parcel};
use vm_wire::{Delivery, Response, decode_response};

/// How many bytes a command has room for, with the entries behind it: one page.
const COMMAND_ROOM: usize = 4096;

// Begins a call on this handle. The memory that goes along with what crosses is in the chain then.
fn start_on(handle: &mut Handle, asked: &Asked, out: &mut [u8], chain: &mut Parcel) -> Started
    requires rests { handle.old.log.unanswered ≡ false }
    requires more { handle.old.log.begun < handle.old.log.lines }
    requires usual { touches_bytes asked.now.call ≡ false }
    requires out { 4096 ≤ length out.old }
    requires room { length chain.old.held < chain.old.room }
    ensures starts { StartsCall (way_from handle.old asked.now.call) handle.old asked.now.line
        asked.now.call out.old chain.old.held result handle.new out.new chain.new.held }
    ensures fits { IfSome (crossing_from handle.old asked.now.call) (λ c. IsCrossing c) }
    ensures chain { chain.new ≡ record chain.old { held = chain.new.held } }
{
    handle.start(asked.line, &asked.call, out, &mut chain.held)
}

/// Begins a call on its handle. What crosses stands in the chain then, with the memory that goes
/// along.
pub fn start_call(handles: &mut Vec<Handle>, asked: &Asked, chain: &mut Parcel) -> Started
    requires can { CanBegin handles.old.items asked.now }
    requires usual { touches_bytes asked.now.call ≡ false }
    requires chain { (p : ℕ) × IsHome p chain.old }
    ensures { Starts asked.now handles.old.items chain.old result handles.new.items chain.new }
{
    let mut bytes = [0; COMMAND_ROOM];
    let handle = &mut handles[asked.handle as usize];
    match start_on(handle, asked, &mut bytes, chain) {
        Started::Send { len } => {
            put_len(chain, len);
            put_bytes(chain, &bytes[..len as usize]);
            Started::Send { len }
        }
        Started::Answered => Started::Answered,
        Started::Wait => Started::Wait,
    }
}

// Logs a call that is out on this handle, and takes the memories that came back.
fn reply_on(handle: &mut Handle, asked: &Asked, response: &Response, done: &mut Finished)
    requires out { handle.old.stage ≡ Underway asked.now.line asked.now.call }
    requires may { AnswersWith (state_of handle.old.log) asked.now.line asked.now.call response.now
        done.old.parcel.held }
    ensures replied { (reply : Reply) → IsAnswer (state_of handle.old.log) asked.now.line
        asked.now.call response.now reply → handle.new ≡ with_reply handle.old asked.now.line
        asked.now.call reply response.now done.old.parcel.held }
    ensures done { done.new ≡ record done.old { parcel = record done.old.parcel { held = [] } } }
    ensures keeps { Keeps handle.new.log handle.new.session handle.new.stage }
{
    handle.reply(asked.line, &asked.call, response, &mut done.parcel.held);
}

/// Logs a call with the reply that came back. Its memories are at home then.
pub fn log_reply(handles: &mut Vec<Handle>, asked: &Asked, done: &mut Finished)
    requires can { CanLog handles.old.items asked.now done.old }
    ensures handles { Logs handles.old.items asked.now done.old handles.new.items }
    ensures keeps { Keeps (handle_in handles.new.items asked.now.handle).log
        (handle_in handles.new.items asked.now.handle).session
        (handle_in handles.new.items asked.now.handle).stage }
    ensures done { done.new ≡ record done.old { parcel = record done.old.parcel { held = [] } } }
{
    let handle = &mut handles[asked.handle as usize];
    let command = handle.command(&asked.call).unwrap();
    let response = decode_response(&command, reply_in(done)).unwrap();
    reply_on(handle, asked, &response, done);
}

/// Begins a call that touches a memory's bytes: it is refused, or its memory goes out.
pub fn lease_call(handles: &mut Vec<Handle>, asked: &Asked) -> Leased
    requires can { CanBegin handles.old.items asked.now }
    requires payload { touches_bytes asked.now.call ≡ true }
    ensures { LeasesIn asked.now handles.old.items result handles.new.items }
{
    let handle = &mut handles[asked.handle as usize];
    handle.lease(asked.line, &asked.call)
}

/// Gives a lease back to the handle in a place.
///
/// # Errors
/// The lease, exactly where it isn't that of the line whose lease is out.
pub fn return_lease(handles: &mut Vec<Handle>, at: usize, lease: Lease) -> Result<(), Lease>
    requires within { at < length handles.old.items }
    requires done { is_lent_to (away_in handles.old.items at) lease.line ≡ true →
        IsDone (lease_in (away_in handles.old.items at)) lease }
    ensures other { IsErr result ↔ (is_lent_to (away_in handles.old.items at) lease.line ≡ false) }
    ensures back { IfErr result (λ l. l ≡ lease) }
    ensures ok { OnOk result (handles.new.items ≡ with_returned handles.old.items at lease) }
    ensures err { OnErr result (handles.new.items ≡ handles.old.items) }
{
    let handle = &mut handles[at];
    handle.give_back(lease)
}

/// Delivers an event to the handle in a place.
pub fn deliver_to(handles: &mut Vec<Handle>, at: usize, event: Delivery)
    requires within { at < length handles.old.items }
    requires delivers { Delivers
        (state_of (handle_in handles.old.items at).log) event.msg event.held }
    ensures { handles.new.items ≡ slice_set handles.old.items at
        (delivered (handle_in handles.old.items at) event.msg event.held) }
{
    let handle = &mut handles[at];
    handle.deliver(event);
}

/// Whether a call is answered on its handle.
pub fn is_answered_in(handles: &[Handle], asked: &Asked) -> bool
    requires { asked.now.handle < length handles.now }
    ensures { result ≡ is_answered_in handles.now (Some asked.now) }
{
    handles[asked.handle as usize].is_answered()
}
