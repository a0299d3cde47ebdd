//! The bytes of what crosses.

ghost use Rattle.std.specs.Prelude.{◌≡◌, ◌≤◌, ◌++◌, Some, length, drop};
ghost use Rattle.vm_sg.specs.UserMemory.{page_count, number_of, entry_of};
ghost use Rattle.vm_exchange.specs.Entries.{entry_wire, start_of, bytes_behind, crossing_bytes};

use crate::crossing::Crossing;
use crate::user_place::UserPlace;
use vm_frame::SgEntry;
use vm_mem::PAGE_SIZE;
use vm_wire::encode_command;

/// The number of the first page that a script's user memory may have.
const FIRST_PAGE: u64 = 0x10_0000;

/// How many page numbers each line of a script has.
const PAGES_OF_A_LINE: u64 = 227;

/// How many bytes an entry takes on the wire.
const ENTRY_SIZE: usize = 16;

/// Writes what crosses at the front of `out`, which has room for it, and answers how many bytes it
/// took. What stands behind stays.
///
/// Source: own.
pub fn encode_crossing(c: &Crossing, out: &mut [u8]) -> usize
    requires { length (crossing_bytes c.now) ≤ length out.old }
    ensures bytes { out.new ≡ crossing_bytes c.now ++ drop (length (crossing_bytes c.now)) out.old }
    ensures count { result ≡ length (crossing_bytes c.now) }
{
    let at = encode_command(&c.command, out);
    at + put_behind(&c.user, &mut out[at..])
}

// Writes the entries of the user memory that goes along, and answers how many bytes they took.
fn put_behind(user: &Option<UserPlace>, out: &mut [u8]) -> usize
    requires { length (bytes_behind user.now) ≤ length out.old }
    ensures bytes { out.new ≡ bytes_behind user.now ++
        drop (length (bytes_behind user.now)) out.old }
    ensures count { result ≡ length (bytes_behind user.now) }
{
    match user {
        None => 0,
        Some(place) => put_entries(place, out),
    }
}

// Writes the entries of user memory.
fn put_entries(place: &UserPlace, out: &mut [u8]) -> usize
    requires { length (bytes_behind (Some place.now)) ≤ length out.old }
    ensures bytes { out.new ≡ bytes_behind (Some place.now) ++
        drop (length (bytes_behind (Some place.now))) out.old }
    ensures count { result ≡ length (bytes_behind (Some place.now)) }
{
    let count = page_count(place);
    for i in 0..count {
        let at = ENTRY_SIZE * i as usize;
        out[at..at + ENTRY_SIZE].copy_from_slice(&entry_bytes(&entry_of(place, i)));
    }
    ENTRY_SIZE * count as usize
}

// An entry as it goes over the wire: its start, its length and a pad.
fn entry_bytes(entry: &SgEntry) -> [u8; ENTRY_SIZE]
    ensures { result ≡ entry_wire entry.now }
{
    let mut bytes = [0; ENTRY_SIZE];
    bytes[..8].copy_from_slice(&entry.start.to_le_bytes());
    bytes[8..12].copy_from_slice(&entry.len.to_le_bytes());
    bytes
}

/// Where the first entry of user memory starts.
pub(crate) fn start_of(place: &UserPlace) -> u64
    ensures { result ≡ start_of place.now }
{
    entry_of(place, 0).start
}

// How many pages hold the memory.
fn page_count(place: &UserPlace) -> u32
    ensures { result ≡ page_count place.now.length place.now.off }
{
    let end = u64::from(place.length) + u64::from(place.off);
    end.div_ceil(u64::from(PAGE_SIZE)) as u32
}

// The number of its `i`-th page.
fn number_of(place: &UserPlace, i: u32) -> u64
    ensures { result ≡ number_of place.now.line (page_count place.now.length place.now.off) i }
{
    let behind = page_count(place).saturating_sub(1).saturating_sub(i);
    FIRST_PAGE + PAGES_OF_A_LINE * u64::from(place.line) + u64::from(behind)
}

// The entry of its `i`-th page.
fn entry_of(place: &UserPlace, i: u32) -> SgEntry
    ensures { result ≡ entry_of place.now.line place.now.length place.now.off i }
{
    let page_size = u64::from(PAGE_SIZE);
    let first = if i == 0 { u64::from(place.off) } else { 0 };
    let end = u64::from(place.length) + u64::from(place.off);
    let rest = end.saturating_sub(page_size * u64::from(i) + first);
    SgEntry {
        start: page_size * number_of(place, i) + first,
        len: rest.min(page_size.saturating_sub(first)) as u32,
    }
}
