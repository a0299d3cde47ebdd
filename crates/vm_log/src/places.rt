//! The places of a handle's memories, as its record has them.
ghost use Rattle.std.specs.Prelude.{◌≡◌, ◌+◌, ◌-◌, ◌≤◌, [], ◌++◌, ℕ, unwrap_or, map, length, take, drop, Some, slice_set, vec_capacity};
ghost use Rattle.vm_home.specs.Moves.{touched, put_back, ComeWith};
ghost use Rattle.vm_log.specs.Places.{fresh_from, is_opening, settled, LetsGo};
ghost use Rattle.vm_local.specs.State.{LocalState, queue_of, buffer_of};
ghost use Rattle.vm_local.specs.Queue.{brought, memory_from};
ghost use Rattle.vm_log.specs.Answers.{first_number};
ghost use Rattle.vm_local.specs.Steps.{number_of};
ghost use Rattle.vm_local.specs.Log.{called};
ghost use Rattle.vm_local.specs.Memory.{named, memory_of};
ghost use Rattle.vm_local.specs.Record.{without_bytes};
ghost use Rattle.vm_home.specs.Reached.{IsReached};

use vm_frame::{Held, Mem};
use vm_home::Home;
use vm_local::{Buffer, Call, Name, Owed, OwedItem, Record, Reply};

/// The number of a buffer's memory.
pub fn number_of(buffer: &Buffer) -> u64
    ensures { result ≡ number_of buffer.now }
{
    buffer.memory.unwrap_or(0)
}

/// The number of the memory that a name is bound to, 0 where it isn't.
pub fn memory_named(kept: &Record, name: &Name) -> u64
    ensures { result ≡ memory_of (named kept.now.local name.now) }
{
    match kept.named(name) {
        Some(bound) => bound.memory,
        None => 0,
    }
}

/// The number of the memory that a call touches.
pub fn touched(kept: &Record, call: &Call) -> u64
    ensures { result ≡ touched kept.now.local call.now }
{
    match call {
        Call::Peek { m, .. } | Call::Hash { m } | Call::Poke { m, .. } | Call::Fill { m, .. } => {
            memory_named(kept, m)
        }
        _ => 0,
    }
}

/// Puts a memory in the place of its number, where there is such a place.
#[tactic(auto, using(std::proofs::lemmas::List::set_past))]
pub fn put_at(home: &mut Home, number: u64, mem: Mem)
    ensures { home.new ≡ record home.old { places = slice_set home.old.places number (Some mem) } }
{
    if number < home.size() {
        home.put(number, mem);
    }
}

/// Puts all memories but the last `fresh` in the places of their buffers' memories.
pub fn put_back(kept: &Record, home: &mut Home, held: &mut Vec<Held>, fresh: usize)
    ensures home { home.new ≡ record home.old {
      places = put_back kept.now.local
          (take (length held.old.items - fresh) held.old.items) home.old.places;
    } }
    ensures held { held.new.items ≡ drop (length held.old.items - fresh) held.old.items }
    ensures capacity { vec_capacity held.new ≡ vec_capacity held.old }
{
    while held.len() > fresh {
        let first = held.remove(0);
        let number = number_of(&kept.buffer_of(first.queue, first.index));
        put_at(home, number, first.mem);
    }
}

/// Adds memories that were made, whose numbers are the next ones.
pub fn add_all(home: &mut Home, held: &mut Vec<Held>)
    requires { length home.old.places + length held.old.items ≤ home.old.room }
    ensures home { home.new ≡ record home.old {
      places = home.old.places ++
          map (λ h. Some h.mem) held.old.items;
    } }
    ensures held { held.new.items ≡ [] }
    ensures capacity { vec_capacity held.new ≡ vec_capacity held.old }
{
    while !held.is_empty() {
        let next = held.remove(0);
        home.add(next.mem);
    }
}

/// How many memories were made that come with a reply.
pub fn fresh_from(call: &Call, reply: &Reply) -> u32
    ensures value { result ≡ fresh_from call.now reply.now }
    ensures few { result ≤ 32 }
{
    match (call, reply) {
        (Call::ReqBufs { m: 1, .. }, Reply::Count(n)) => (*n).min(32),
        _ => 0,
    }
}

/// Whether a call is answered so that it opens its handle.
fn is_opening(call: &Call, reply: &Reply) -> bool
    ensures { result ≡ is_opening call.now reply.now }
{
    match (call, reply) {
        (Call::OpenHandle { .. }, Reply::Done) => true,
        _ => false,
    }
}

/// Brings home the memories that come with a reply: first those that were queued, and then those
/// that were made. A handle that is opened begins with none.
pub fn settle(kept: &Record, home: &mut Home, call: &Call, reply: &Reply, held: &mut Vec<Held>)
    requires { length home.old.places + 32 ≤ home.old.room }
    ensures home { (s t : LocalState) (line : ℕ) → IsReached s → kept.now.local ≡ without_bytes s →
        called s line call.now reply.now ≡ Some t → ComeWith s t call.now reply.now held.old.items →
        home.new.places ≡ settled s call.now reply.now held.old.items home.old.places }
    ensures room { home.new.room ≡ home.old.room }
    ensures held { held.new.items ≡ [] }
    ensures capacity { vec_capacity held.new ≡ vec_capacity held.old }
{
    put_back(kept, home, held, fresh_from(call, reply) as usize);
    add_all(home, held);
    if is_opening(call, reply) {
        home.clear();
    }
}

/// Drops what is at home of these memories: of `count` from the number `first` on those that the
/// handle has no more.
pub fn let_go(kept: &Record, home: &mut Home, first: u64, count: u32)
    ensures home { LetsGo kept.now.local home.old.places home.new.places }
    ensures room { home.new.room ≡ home.old.room }
{
    for number in first..first.saturating_add(u64::from(count)) {
        if !kept.is_live(number) {
            home.forget(number);
        }
    }
}

/// The memories that the handle may have no more after a call: so many from this number on. The
/// frames of one queue have numbers that follow each other.
pub fn going(kept: &Record, call: &Call) -> (u64, u32) {
    match call {
        Call::ReqBufs { t, .. } => (number_of(&kept.buffer_of(*t, 0)), kept.buffer_count(*t)),
        Call::Munmap { m } => (memory_named(kept, m), 1),
        _ => (0, 0),
    }
}

/// The number of the memory that goes to the device with a buffer: that of the user memory which
/// its call brings, or else its own.
pub fn memory_along(kept: &Record, t: u32, i: u32, user: &Option<Name>) -> u64
    ensures { result ≡ unwrap_or (memory_from (brought kept.now.local user.now)
        (buffer_of (queue_of kept.now.local t) i)) 0 }
{
    match user {
        Some(name) => memory_named(kept, name),
        None => number_of(&kept.buffer_of(t, i)),
    }
}

/// The number of the memory of the buffer that is owed first.
pub fn number_owed(kept: &Record) -> u64
    ensures { result ≡ first_number kept.now.local }
{
    match kept.first_owed() {
        Some(
            Owed {
                queue,
                item: OwedItem::Buffer(i),
            },
        ) => number_of(&kept.buffer_of(queue, i)),
        _ => 0,
    }
}
