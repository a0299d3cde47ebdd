ghost use Rattle.std.specs.Prelude.{◌≡◌, ◌≤◌, ◌<◌, ◌+◌, [], ◌∷◌, ◌++◌, ◌&&◌, ◌==◌};
ghost use Rattle.std.specs.Vec.{vec_len, vec_capacity};
ghost use Rattle.std.specs.List.{list_any};
ghost use Rattle.vm_local.specs.Memory.{named_in, without_name, is_just};
ghost use Rattle.vm_local.specs.Kinds.{is_mapping_kind};

use crate::bound::Bound;
use crate::buffers::is_just;
use crate::name::Name;

/// What a name is bound to.
pub fn named_in(bound: &[Bound], name: &Name) -> Option<Bound>
    ensures { result ≡ named_in bound.now name.now }
{
    for entry in bound {
        if entry.name.is(name) {
            return Some(*entry);
        }
    }
    None
}

/// Removes a name, where it is bound.
pub fn remove_name(bound: &mut Vec<Bound>, name: &Name)
    ensures items { bound.new.items ≡ without_name bound.old.items name.now }
    ensures len { vec_len bound.new ≤ vec_len bound.old }
    ensures capacity { vec_capacity bound.new ≡ vec_capacity bound.old }
{
    bound.retain(|entry| !entry.name.is(name));
}

/// Binds a name, which then stands for this alone.
pub fn bind(bound: &mut Vec<Bound>, entry: Bound)
    requires { vec_len bound.old < vec_capacity bound.old }
    ensures items { bound.new.items ≡ without_name bound.old.items entry.name ++ entry ∷ [] }
    ensures len { vec_len bound.new ≤ vec_len bound.old + 1 }
    ensures capacity { vec_capacity bound.new ≡ vec_capacity bound.old }
{
    remove_name(bound, &entry.name);
    bound.push_reserved(entry);
}

/// Whether a mapping of a memory is bound.
pub fn is_mapped(bound: &[Bound], memory: Option<u64>) -> bool
    ensures { result ≡ list_any (λ b. is_mapping_kind b.kind && is_just memory b.memory) bound.now }
{
    bound.iter().any(|entry| entry.kind.is_mapping() && is_just(memory, entry.memory))
}

/// Whether a name is bound to a memory.
pub fn is_named(bound: &[Bound], memory: u64) -> bool
    ensures { result ≡ list_any (λ b. b.memory == memory) bound.now }
{
    bound.iter().any(|entry| entry.memory == memory)
}
