//! How calls are begun.

ghost use Rattle.std.specs.Prelude.{◌≡◌, ◌<◌, ℕ, true, false};
ghost use Rattle.v4l_rules.specs.Refusals.{first_refusal};
ghost use Rattle.vm_home.specs.Moves.{touches_bytes};
ghost use Rattle.vm_local.specs.Memory.{named};
ghost use Rattle.vm_local.specs.Calls.{row_of};
ghost use Rattle.vm_local.specs.declared.call.Call.TheVariants.{QBuf, DqBuf, Mmap, Munmap};
ghost use Rattle.vm_wire.specs.declared.command.Command.TheVariants.{Unmap};
ghost use Rattle.vm_exchange.specs.Exchange.{sends, unless_refused, once_answered, address_of_kind, address_of, qbuf_crossing, way_of, crossing_of, command_of};
ghost use Rattle.vm_exchange.specs.Range.{IsRecord};

use crate::crossing::Crossing;
use crate::qbuf::{buffer_queued, user_named};
use crate::way::Way;
use v4l_const::{Errno, IoctlCode};
use v4l_layout::CAPABILITY_SIZE;
use vm_local::{BoundKind, Call, Name, Record};
use vm_wire::{
    Command, Payload, buffer_offset, buffer_payload, fmt_desc_request, fmtdesc_payload,
    format_payload, format_request, format_type_request, input_payload, input_request,
    number_payload, qbuf_request, querybuf_request, reqbufs_payload, reqbufs_request,
    subscription_payload, subscription_request,
};

/// How a call is begun on a handle of which this is the record, with its session.
///
/// Source: own.
pub fn way_of(session: u32, kept: &Record, call: &Call) -> Way
    requires { IsRecord kept.now.local }
    ensures { result ≡ way_of session kept.now.local call.now }
{
    if kept.is_open() {
        way_on(session, kept, call)
    } else {
        way_on_closed(kept, call)
    }
}

// How a call is begun on an open handle.
fn way_on(session: u32, kept: &Record, call: &Call) -> Way
    requires record { IsRecord kept.now.local }
    requires opened { kept.now.local.opened ≡ true }
    ensures { result ≡ way_of session kept.now.local call.now }
{
    let (code, payload) = match *call {
        Call::OpenHandle { .. } => return sends(Command::OpenSession),
        Call::CloseHandle => return sends(Command::CloseSession { session }),
        Call::QueryCap => (IoctlCode::QueryCap, Payload::zeros(CAPABILITY_SIZE)),
        Call::EnumFmt { t, i } => (IoctlCode::EnumFmt, fmtdesc_payload(&fmt_desc_request(t, i))),
        Call::GFmt { t } => (IoctlCode::GFmt, format_payload(&format_type_request(t))),
        Call::TryFmt { t, f, w, h } => (
            IoctlCode::TryFmt,
            format_payload(&format_request(t, f, w, h)),
        ),
        Call::SFmt { t, f, w, h } => (IoctlCode::SFmt, format_payload(&format_request(t, f, w, h))),
        Call::EnumInput { i } => (IoctlCode::EnumInput, input_payload(&input_request(i))),
        Call::GInput => (IoctlCode::GInput, number_payload(0)),
        Call::SInput { i } => (IoctlCode::SInput, number_payload(i)),
        Call::ReqBufs { t, m, n } => (
            IoctlCode::ReqBufs,
            reqbufs_payload(&reqbufs_request(t, m, n)),
        ),
        Call::QueryBuf { t, i } => (IoctlCode::QueryBuf, buffer_payload(&querybuf_request(t, i))),
        Call::StreamOn { t } => (IoctlCode::StreamOn, number_payload(t)),
        Call::StreamOff { t } => (IoctlCode::StreamOff, number_payload(t)),
        Call::Subscribe { e } => (
            IoctlCode::SubscribeEvent,
            subscription_payload(&subscription_request(e)),
        ),
        Call::Unsubscribe { e } => (
            IoctlCode::UnsubscribeEvent,
            subscription_payload(&subscription_request(e)),
        ),
        Call::QBuf {
            t,
            i,
            user,
            used,
            ts,
        } => return qbuf_way(session, kept, t, i, user, used, ts),
        Call::DqBuf { t } => return dqbuf_way(kept, t),
        Call::Mmap { m, t, i, ro } => return mmap_way(session, kept, m, t, i, ro),
        Call::Munmap { m } => return munmap_way(kept, m),
        Call::UAlloc { .. } | Call::DqEvent => return Way::AnsweredHere,
        Call::Peek { .. } | Call::Hash { .. } | Call::Poke { .. } | Call::Fill { .. } => {
            return Way::TouchesMemory;
        }
    };
    sends(Command::Ioctl {
        session,
        code,
        payload,
    })
}

// How a call is begun on a handle that isn't open.
#[tactic(auto, unfolding(vm_local::specs::Calls::qbuf_row, vm_local::specs::Calls::dqbuf_row, vm_local::specs::Calls::mmap_row))]
fn way_on_closed(kept: &Record, call: &Call) -> Way
    requires record { IsRecord kept.now.local }
    requires closed { kept.now.local.opened ≡ false }
    ensures { (session : ℕ) → result ≡ way_of session kept.now.local call.now }
{
    match *call {
        Call::OpenHandle { .. } => sends(Command::OpenSession),
        Call::Munmap { m } => munmap_way(kept, m),
        Call::Peek { .. } | Call::Hash { .. } | Call::Poke { .. } | Call::Fill { .. } => {
            Way::TouchesMemory
        }
        Call::CloseHandle
        | Call::QueryCap
        | Call::EnumFmt { .. }
        | Call::GFmt { .. }
        | Call::TryFmt { .. }
        | Call::SFmt { .. }
        | Call::EnumInput { .. }
        | Call::GInput
        | Call::SInput { .. }
        | Call::ReqBufs { .. }
        | Call::QueryBuf { .. }
        | Call::UAlloc { .. }
        | Call::QBuf { .. }
        | Call::StreamOn { .. }
        | Call::StreamOff { .. }
        | Call::DqBuf { .. }
        | Call::Mmap { .. }
        | Call::Subscribe { .. }
        | Call::Unsubscribe { .. }
        | Call::DqEvent => Way::AnsweredHere,
    }
}

// It crosses by this command alone.
fn sends(command: Command) -> Way
    ensures { result ≡ sends command }
{
    Way::Crosses(Crossing {
        command,
        user: None,
    })
}

// The first refusal that applies to a call.
fn refusal_of(kept: &Record, call: &Call) -> Option<Errno>
    requires { IsRecord kept.now.local }
    ensures { result ≡ first_refusal (row_of kept.now.local 0 0 call.now).refusals }
{
    kept.refusal(call)
}

// Whether a call that no refusal stops has no reply yet.
fn waits(kept: &Record, call: &Call) -> bool
    requires { IsRecord kept.now.local }
    ensures { result ≡ (row_of kept.now.local 0 0 call.now).waits }
{
    kept.waits(call)
}

// How a qbuf is begun.
fn qbuf_way(
    session: u32,
    kept: &Record,
    t: u32,
    i: u32,
    user: Option<Name>,
    used: u32,
    ts: u32,
) -> Way
    requires { IsRecord kept.now.local }
    ensures { result ≡ way_of session kept.now.local (QBuf t i user used ts) }
{
    let call = Call::QBuf {
        t,
        i,
        user,
        used,
        ts,
    };
    match refusal_of(kept, &call) {
        Some(_) => Way::AnsweredHere,
        None => Way::Crosses(qbuf_crossing(session, kept, t, i, &user, used, ts)),
    }
}

// What crosses for a qbuf: the command that queues the buffer, and the user memory that goes along.
#[tactic(auto, unfolding(crate::specs::Exchange::qbuf_crossing))]
fn qbuf_crossing(
    session: u32,
    kept: &Record,
    t: u32,
    i: u32,
    user: &Option<Name>,
    used: u32,
    ts: u32,
) -> Crossing
    requires { i < 32 }
    ensures { result ≡ qbuf_crossing session kept.now.local t i user.now used ts }
{
    let buffer = buffer_queued(kept, t, i, user, used, ts);
    Crossing {
        command: Command::Ioctl {
            session,
            code: IoctlCode::QBuf,
            payload: buffer_payload(&qbuf_request(kept.model(), &buffer)),
        },
        user: user_named(kept, user),
    }
}

// How a dqbuf is begun.
fn dqbuf_way(kept: &Record, t: u32) -> Way
    requires { IsRecord kept.now.local }
    ensures { result ≡ unless_refused kept.now.local (DqBuf t)
        (once_answered kept.now.local (DqBuf t)) }
{
    let call = Call::DqBuf { t };
    match refusal_of(kept, &call) {
        Some(_) => Way::AnsweredHere,
        None if waits(kept, &call) => Way::Waits,
        None => Way::AnsweredHere,
    }
}

// How an mmap is begun.
fn mmap_way(session: u32, kept: &Record, m: Name, t: u32, i: u32, ro: bool) -> Way
    requires { IsRecord kept.now.local }
    ensures { result ≡ way_of session kept.now.local (Mmap m t i ro) }
{
    match refusal_of(kept, &Call::Mmap { m, t, i, ro }) {
        Some(_) => Way::AnsweredHere,
        None => sends(Command::Map {
            session,
            writable: !ro,
            offset: buffer_offset(t, i),
        }),
    }
}

// How a munmap is begun, also on a handle that isn't open.
fn munmap_way(kept: &Record, m: Name) -> Way
    requires { IsRecord kept.now.local }
    ensures { result ≡ unless_refused kept.now.local (Munmap m)
        (sends (Unmap (address_of (named kept.now.local m)))) }
{
    match refusal_of(kept, &Call::Munmap { m }) {
        Some(_) => Way::AnsweredHere,
        None => sends(Command::Unmap {
            addr: address_of(kept, &m),
        }),
    }
}

// The address of the mapping that a name stands for, 0 where it stands for none.
fn address_of(kept: &Record, name: &Name) -> u64
    ensures { result ≡ address_of (named kept.now.local name.now) }
{
    match kept.named(name) {
        None => 0,
        Some(bound) => address_of_kind(bound.kind),
    }
}

fn address_of_kind(kind: BoundKind) -> u64
    ensures { result ≡ address_of_kind kind }
{
    match kind {
        BoundKind::Mapping { addr, .. } => addr,
        BoundKind::User { .. } => 0,
    }
}

/// What crosses to the device for a call on a handle of which this is the record, with its session;
/// None where it doesn't cross.
///
/// Source: own.
pub fn crossing_of(session: u32, kept: &Record, call: &Call) -> Option<Crossing>
    requires { IsRecord kept.now.local }
    ensures { result ≡ crossing_of session kept.now.local call.now }
{
    match way_of(session, kept, call) {
        Way::Crosses(crossing) => Some(crossing),
        Way::AnsweredHere | Way::Waits | Way::TouchesMemory => None,
    }
}

/// The command by which it crosses.
///
/// Source: own.
pub fn command_of(session: u32, kept: &Record, call: &Call) -> Option<Command>
    requires { IsRecord kept.now.local }
    ensures { result ≡ command_of session kept.now.local call.now }
{
    match crossing_of(session, kept, call) {
        Some(crossing) => Some(crossing.command),
        None => None,
    }
}

/// Whether a call touches a memory's bytes: it takes a lease, and is not begun as the others are.
///
/// Source: own.
pub fn touches_memory(call: &Call) -> bool
    ensures { result ≡ touches_bytes call.now }
{
    matches!(
        call,
        Call::Peek { .. } | Call::Hash { .. } | Call::Poke { .. } | Call::Fill { .. }
    )
}
