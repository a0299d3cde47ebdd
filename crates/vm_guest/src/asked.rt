//! What a line asks.

ghost use Rattle.std.specs.Prelude.{◌≡◌, slice_get};
ghost use Rattle.vm_home.specs.Moves.{is_stopping};
ghost use Rattle.vm_guest.specs.Asking.{asked_by, is_leased, asks_events, begins_with_events, ends_with_events};

use vm_exchange::touches_memory;
use vm_local::Call;
use vm_script::LineKind;

/// A script's line as the driver keeps it: without its words.
///
/// Source: own.
#[derive(Clone, Copy, Debug, PartialEq, Eq)]
pub struct Statement {
    /// The line's number in the script, from 1.
    pub line: u32,
    pub what: LineKind,
}

/// A call that a line of the script asks of a handle.
///
/// Source: own.
#[derive(Clone, Copy, Debug, PartialEq, Eq)]
pub struct Asked {
    /// The line's number in the script, from 1.
    pub line: u32,
    /// The handle's place among those of its process.
    pub handle: u32,
    pub call: Call,
}

/// The statement at a place.
pub fn statement_at(statements: &[Statement], at: usize) -> Option<Statement>
    ensures { result ≡ slice_get statements.now at }
{
    statements.get(at).copied()
}

/// The call on a handle that a statement asks. A raw line asks none.
pub fn asked_by(statement: &Statement) -> Option<Asked>
    ensures { result ≡ asked_by statement.now }
{
    match statement.what {
        LineKind::OnHandle { h, call } => Some(Asked {
            line: statement.line,
            handle: h,
            call,
        }),
        LineKind::Raw(_) => None,
    }
}

/// Whether a line touches a memory's bytes, so that it is begun by a lease.
pub fn is_leased(what: &LineKind) -> bool
    ensures { result ≡ is_leased what.now }
{
    match what {
        LineKind::OnHandle { call, .. } => touches_memory(call),
        LineKind::Raw(_) => false,
    }
}

// Whether a call tells what is done or has happened.
fn asks_events(call: &Call) -> bool
    ensures { result ≡ asks_events call.now }
{
    matches!(call, Call::DqBuf { .. } | Call::DqEvent)
}

/// Whether a call stops queues.
pub fn is_stopping(call: &Call) -> bool
    ensures { result ≡ is_stopping call.now }
{
    matches!(
        call,
        Call::CloseHandle | Call::ReqBufs { .. } | Call::StreamOff { .. }
    )
}

/// Whether every finished event is taken before a line is begun.
pub fn begins_with_events(what: &LineKind) -> bool
    ensures { result ≡ begins_with_events what.now }
{
    match what {
        LineKind::OnHandle { call, .. } => asks_events(call),
        LineKind::Raw(_) => false,
    }
}

/// Whether every finished event is taken before a line's reply is logged.
pub fn ends_with_events(what: &LineKind) -> bool
    ensures { result ≡ ends_with_events what.now }
{
    match what {
        LineKind::OnHandle { call, .. } => is_stopping(call),
        LineKind::Raw(_) => false,
    }
}
