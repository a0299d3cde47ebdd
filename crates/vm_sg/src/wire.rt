ghost use Rattle.std.specs.Prelude.{◌≡◌, ◌+◌, ◌*◌, ◌/◌, ◌%◌, ◌^◌, ◌<◌, ◌≤◌, Some, None, length, take, sum_by, vec_capacity, OnOk, OnErr, IfErr};
ghost use Rattle.vm_frame.specs.Scatter.{scatter_fault};
ghost use Rattle.vm_sg.specs.Copies.{named_bytes};
ghost use Rattle.vm_sg.specs.Wire.{entry_at, entries_in};

use crate::check;
use vm_frame::{MAX_ENTRIES, SgEntry, SgFault, User};
use vm_num::{le32, le64};

/// How many bytes an entry takes on the wire.
///
/// Source: own.
const ENTRY_SIZE: usize = 16;

/// An entry that stands where none was read.
const NO_ENTRY: SgEntry = SgEntry { start: 0, len: 0 };

/// How many bytes the entries that the wire brings name, each counted as often as it is named.
/// Takes no memory, so that it can be judged before any entry is taken over. Bytes behind the last
/// whole entry count for nothing.
///
/// Source: own.
pub fn total_in(wire: &[u8]) -> u64
    requires { length wire.now < 16 * 2 ^ 32 }
    ensures { result ≡ sum_by (λ e. e.len) (entries_in wire.now) }
{
    let mut bytes = 0;
    for i in 0..wire.len() / ENTRY_SIZE {
        bytes += u64::from(entry_at(wire, i).len);
    }
    bytes
}

/// Replaces the entries of a user's memory by those that the wire brings, which name as many bytes
/// as `total_in` tells. Takes no memory.
///
/// # Errors
/// What `check` answers for the entries on the user's pages. The user's memory is then as it was.
///
/// Source: own.
pub fn load(user: &mut User, wire: &[u8]) -> Result<(), SgFault>
    requires whole { length wire.now % 16 ≡ 0 }
    requires few { length wire.now ≤ 16 * 249 }
    ensures ok { OnOk result (scatter_fault (entries_in wire.now) user.old.pages ≡ None) }
    ensures entries { OnOk result (user.new ≡ record user.old { entries = entries_in wire.now }) }
    ensures size { OnOk result (length (named_bytes user.new) ≡
        sum_by (λ e. e.len) (entries_in wire.now)) }
    ensures err { IfErr result (λ fault. scatter_fault (entries_in wire.now) user.old.pages ≡
        Some fault) }
    ensures kept { OnErr result (user.new ≡ user.old) }
{
    let mut room = [NO_ENTRY; MAX_ENTRIES];
    let count = read_entries(wire, &mut room);
    let entries = &room[..count];
    check(entries, user.pages.as_slice())?;
    replace(&mut user.entries, entries);
    Ok(())
}

/// Reads the entries of the wire into the front of `into`. Answers how many.
fn read_entries(wire: &[u8], into: &mut [SgEntry]) -> usize
    requires { length wire.now ≤ 16 * length into.old }
    ensures count { result ≡ length wire.now / 16 }
    ensures entries { take result into.new ≡ entries_in wire.now }
    ensures room { length into.new ≡ length into.old }
{
    let count = wire.len() / ENTRY_SIZE;
    for i in 0..count {
        into[i] = entry_at(wire, i);
    }
    count
}

/// The `i`-th entry of the wire.
fn entry_at(wire: &[u8], i: usize) -> SgEntry
    requires { 16 * i + 16 ≤ length wire.now }
    ensures { result ≡ entry_at wire.now i }
{
    let at = ENTRY_SIZE * i;
    SgEntry {
        start: le64(wire, at),
        len: le32(wire, at + 8),
    }
}

/// Puts these entries in the place of those that are there.
fn replace(entries: &mut Vec<SgEntry>, by: &[SgEntry])
    requires { length by.now ≤ vec_capacity entries.old }
    ensures items { entries.new.items ≡ by.now }
    ensures room { vec_capacity entries.new ≡ vec_capacity entries.old }
{
    entries.clear();
    for entry in by {
        entries.push_reserved(*entry);
    }
}
