//! The digest of what crossed for handles.

ghost use Rattle.std.specs.Prelude.{◌≡◌, ℕ, ◌++◌, List, OnOk, IfOk, Some, flat_map, map};
ghost use Rattle.std.specs.List.{AllByRecursion};
ghost use Rattle.sha2.specs.Hashers.{Holds256};
ghost use Rattle.vm_local.specs.Log.{IsLegal, after};
ghost use Rattle.vm_local.specs.Record.{without_bytes};
ghost use Rattle.vm_local.specs.State.{LocalState, opening};
ghost use Rattle.vm_wire.specs.Wire.{response_bytes};
ghost use Rattle.vm_exchange.specs.Entries.{crossing_bytes};
ghost use Rattle.vm_exchange.specs.Exchange.{crossing_of};
ghost use Rattle.vm_exchange.specs.Laws.{Fits};
ghost use Rattle.vm_exchange.specs.Range.{HasWords, IsInRange, IsOffered};
ghost use Rattle.vm_report.specs.Digest.{digest_of, wire_of, wire_of_call, wires_from, wires_of};
ghost use Rattle.vm_report.specs.Lent.{log_in};

use crate::lent::HandleText;
use sha2::{Digest, Sha256};
use std::alloc::Global;
use v4l_const::Model;
use vm_exchange::{Crossing, crossing_of, encode_crossing, response_to};
use vm_local::{Call, Entry, Record, Reply};
use vm_mem::{Memory, PAGE_SIZE};
use vm_wire::{Response, WIRE_ROOM, encode_response};

/// How many bytes a command and the entries behind it have at most.
const CROSSING_ROOM: usize = PAGE_SIZE as usize;

/// Adds a command's bytes to the message, with the entries behind it.
fn hash_crossing(hasher: &mut Sha256, crossing: &Crossing)
    requires { Fits crossing.now }
    ensures { (m : List ℕ) → Holds256 hasher.old m →
        Holds256 hasher.new (m ++ crossing_bytes crossing.now) }
{
    let mut bytes = [0; CROSSING_ROOM];
    let len = encode_crossing(crossing, &mut bytes);
    hasher.update(&bytes[..len]);
}

/// Adds a reply's bytes to the message.
fn hash_response(hasher: &mut Sha256, response: Response)
    ensures { (m : List ℕ) → Holds256 hasher.old m →
        Holds256 hasher.new (m ++ response_bytes response) }
{
    let mut bytes = [0; WIRE_ROOM];
    let len = encode_response(&response, &mut bytes);
    hasher.update(&bytes[..len]);
}

/// The numbers of an entry are ones of their types.
fn fits(entry: Entry)
    ensures { HasWords entry }
{}

/// Adds what crossed for a call, from a handle of which this is the record, and for its reply.
fn hash_call(hasher: &mut Sha256, session: u32, kept: &Record, call: &Call, reply: &Reply)
    requires record { (s : LocalState) × (kept.now.local ≡ without_bytes s) × IsInRange s }
    requires offered { IsOffered call.now reply.now }
    ensures { (m : List ℕ) (s : LocalState) → kept.now.local ≡ without_bytes s →
        Holds256 hasher.old m → Holds256 hasher.new
        (m ++ wire_of_call session s (crossing_of session s call.now) call.now reply.now) }
{
    let Some(crossing) = crossing_of(session, kept, call) else {
        return;
    };
    hash_crossing(hasher, &crossing);
    hash_response(hasher, response_to(session, kept, call, reply));
}

/// Adds what crossed for an entry of the log of a handle of which this is the record before it.
fn hash_entry(hasher: &mut Sha256, session: u32, kept: &Record, entry: &Entry)
    requires { (s : LocalState) × (t : LocalState) × (kept.now.local ≡ without_bytes s) ×
        IsInRange s × (after s entry.now ≡ Some t) }
    ensures holds { (m : List ℕ) (s : LocalState) → kept.now.local ≡ without_bytes s →
        Holds256 hasher.old m → Holds256 hasher.new (m ++ wire_of session s entry.now) }
    ensures words { HasWords entry.now }
{
    fits(*entry);
    match entry {
        Entry::Called { call, reply, .. } => hash_call(hasher, session, kept, call, reply),
        Entry::Finish | Entry::Bad | Entry::Give => {}
    }
}

/// Adds what crossed for the log of a handle of this model, from its first entry on.
fn hash_log(
    alloc: Global,
    hasher: &mut Sha256,
    model: Model,
    session: u32,
    log: &[Entry],
) -> Result<(), Memory>
    requires { IsLegal model log.now }
    ensures holds { OnOk result ((m : List ℕ) → Holds256 hasher.old m →
        Holds256 hasher.new (m ++ wires_from session (opening model) log.now)) }
    ensures words { OnOk result (AllByRecursion HasWords log.now) }
{
    let mut kept = Record::new(alloc, model);
    kept.reserve(log.len())?;
    for entry in log {
        hash_entry(hasher, session, &kept, entry);
        kept.after(entry);
    }
    Ok(())
}

/// The SHA-256 of what crossed for handles of a device of this model: for each handle in turn and
/// each of its calls that crossed, in the order of the log, the command's bytes with the entries of
/// the user memory that went along, and then the reply's bytes. Which calls crossed each log tells
/// by itself.
///
/// Source: own.
///
/// # Errors
/// `Memory` where there is none to follow a log.
pub fn wire_digest(alloc: Global, model: Model, handles: &[HandleText]) -> Result<[u8; 32], Memory>
    requires legal { AllByRecursion (λ h. IsLegal model h.entries.now) handles.now }
    ensures digest { IfOk result (λ wire. wire ≡ digest_of model (map log_in handles.now)) }
    ensures words { OnOk result
        (AllByRecursion (λ h. AllByRecursion HasWords h.entries.now) handles.now) }
{
    let mut hasher = Sha256::new();
    for handle in handles {
        let session = handle.session.unwrap_or(0);
        hash_log(alloc, &mut hasher, model, session, handle.entries)?;
    }
    Ok(hasher.finalize())
}
