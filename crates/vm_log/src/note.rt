//! One more entry.
ghost use Rattle.std.specs.Prelude.{◌≡◌, ◌+◌, ◌<◌, ◌∷◌, [], ◌++◌, Some, vec_len, vec_capacity};
ghost use Rattle.vm_local.specs.State.{LocalState};
ghost use Rattle.vm_local.specs.Log.{after};
ghost use Rattle.vm_local.specs.Record.{without_bytes};

use vm_local::{Entry, Record};

/// Adds an entry to a log, and moves the record by it.
pub fn note(entries: &mut Vec<Entry>, kept: &mut Record, entry: Entry)
    requires log { vec_len entries.old < vec_capacity entries.old }
    requires record { 0 < kept.old.room }
    ensures items { entries.new.items ≡ entries.old.items ++ entry ∷ [] }
    ensures len { vec_len entries.new ≡ vec_len entries.old + 1 }
    ensures capacity { vec_capacity entries.new ≡ vec_capacity entries.old }
    ensures moves { (s t : LocalState) → kept.old.local ≡ without_bytes s → after s entry ≡ Some t →
        kept.new.local ≡ without_bytes t }
    ensures room { kept.new.room + 1 ≡ kept.old.room }
{
    kept.after(&entry);
    let next = Some(entry);
    if let Some(entry) = next {
        entries.push_reserved(entry);
    }
}
