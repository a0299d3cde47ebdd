//! The calls that wait until their sessions are quiet.
ghost use Rattle.std.specs.Prelude.{◌≡◌, ◌≤◌, ◌<◌, ◌==◌, not, nat_lt, length, take_while, vec_len, vec_capacity};
ghost use Rattle.std.specs.List.{insert};
ghost use Rattle.vm_host.specs.Host.{is_waited_in, waiting_for, with_call, without_call};

use vm_link::Parcel;

/// A call that stops queues of its session, and waits until the session is quiet.
///
/// Source: own.
#[derive(Drop)]
pub struct Waiting {
    /// The session that it is made in.
    pub session: u32,
    /// The number that names its chain in the queue of commands.
    pub head: u16,
    /// Its chain.
    pub parcel: Parcel,
}

/// Whether a call of a session waits.
pub(crate) fn waits_in(calls: &[Waiting], session: u32) -> bool
    ensures { result ≡ is_waited_in calls.now session }
{
    calls.iter().any(|call| call.session == session)
}

/// The place of the call of a session, or how many there are where none of it waits.
fn place_for(calls: &[Waiting], session: u32) -> usize
    ensures { result ≡ length (take_while (λ w. not (w.session == session)) calls.now) }
{
    calls
        .iter()
        .take_while(|call| call.session != session)
        .count()
}

/// The place behind the calls of sessions with lower ids.
fn place_behind(calls: &[Waiting], session: u32) -> usize
    ensures { result ≡ length (take_while (λ w. nat_lt w.session session) calls.now) }
{
    calls
        .iter()
        .take_while(|call| call.session < session)
        .count()
}

/// Puts a call to its place, for which there is room.
pub(crate) fn put_call(calls: &mut Vec<Waiting>, call: Waiting)
    requires { length calls.old.items < vec_capacity calls.old }
    ensures calls { calls.new.items ≡ with_call call calls.old.items }
    ensures capacity { vec_capacity calls.new ≡ vec_capacity calls.old }
{
    let place = place_behind(calls.as_slice(), call.session);
    insert_reserved(calls, place, call);
}

/// Inserts a call at a place, for which there is room.
fn insert_reserved(calls: &mut Vec<Waiting>, place: usize, call: Waiting)
    requires place { place ≤ vec_len calls.old }
    requires room { vec_len calls.old < vec_capacity calls.old }
    ensures items { calls.new.items ≡ insert calls.old.items place call }
    ensures capacity { vec_capacity calls.new ≡ vec_capacity calls.old }
{
    calls.insert(place, call).unwrap();
}

/// Takes the call of a session out, if one waits.
pub(crate) fn take_call(calls: &mut Vec<Waiting>, session: u32) -> Option<Waiting>
    ensures call { result ≡ waiting_for session calls.old.items }
    ensures rest { calls.new.items ≡ without_call session calls.old.items }
    ensures capacity { vec_capacity calls.new ≡ vec_capacity calls.old }
{
    let place = place_for(calls.as_slice(), session);
    if place >= calls.len() {
        return None;
    }
    Some(calls.remove(place))
}
