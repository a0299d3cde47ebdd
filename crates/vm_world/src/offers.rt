//! Which steps may come next: how many there are of a kind, and the one in a place.

ghost use Rattle.std.specs.Prelude.{◌≡◌, ◌≤◌, length, map, slice_get};
ghost use Rattle.vm_guest.specs.Guest.{process_at};
ghost use Rattle.vm_host.specs.Part.{part_of};
ghost use Rattle.vm_marks.specs.Marks.{places_of};
ghost use Rattle.vm_realm.specs.Enabled.{beginning_ids};
ghost use Rattle.vm_world.specs.Kinds.{may};

use vm_guest::Guest;
use vm_host::Host;
use vm_job::JobOut;

/// What a process may do next.
#[derive(Clone, Copy, Debug, PartialEq, Eq)]
pub enum Offer {
    /// It begins a line.
    Issue,
    /// It begins a line that touches a memory's bytes.
    Lease,
    /// Its lease comes back.
    GiveBack,
}

// Whether a process may do so.
fn may(guest: &Guest, offer: Offer, p: u32) -> bool
    ensures { result ≡ may offer (process_at guest.now p) }
{
    match offer {
        Offer::Issue => guest.can_issue(p),
        Offer::Lease => guest.can_lease(p),
        Offer::GiveBack => guest.lease_out(p).is_some(),
    }
}

/// How many processes may do so.
pub fn count_processes(guest: &Guest, offer: Offer) -> usize
    ensures count { result ≡ length (places_of (map (may offer) guest.now.processes)) }
    ensures few { result ≤ length guest.now.processes }
{
    let mut count = 0;
    for p in 0..guest.process_count() {
        if may(guest, offer, p) {
            count += 1;
        }
    }
    count
}

/// The process in a place among those that may.
pub fn process_in_place(guest: &Guest, offer: Offer, place: usize) -> Option<u32>
    ensures { result ≡ slice_get (places_of (map (may offer) guest.now.processes)) place }
{
    let mut left = place;
    for p in 0..guest.process_count() {
        if may(guest, offer, p) {
            if left == 0 {
                return Some(p);
            }
            left -= 1;
        }
    }
    None
}

/// The session in a place among those for which a job can begin, by rising id.
pub fn begin_in_place(host: &Host, place: usize) -> Option<u32>
    ensures { result ≡ slice_get (beginning_ids (part_of host.now)) place }
{
    let mut left = place;
    for session in host.ready() {
        if host.can_begin(*session) {
            if left == 0 {
                return Some(*session);
            }
            left -= 1;
        }
    }
    None
}

/// The number of the job in a place among those that are out.
pub fn job_in_place(jobs: &[JobOut], place: usize) -> Option<u64>
    ensures { result ≡ slice_get (map (λ e. e.spec.number) jobs.now) place }
{
    Some(jobs.get(place)?.spec.number)
}
