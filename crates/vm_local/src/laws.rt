ghost use Rattle.std.specs.Prelude.{◌≡◌, ℕ, ◌+◌, ◌≤◌, List, [], ◌∷◌, ◌++◌, length, Bool, true, false, if◌then◌else◌, Some, None};
ghost use Rattle.std.specs.Option.{option_and_then};
ghost use Rattle.v4l_const.specs.declared.errno.Errno.TheVariants.{Enomem, Ebadf};
ghost use Rattle.v4l_const.specs.declared.errno.Errno.{Errno};
ghost use Rattle.vm_local.specs.declared.call.Call.{Call};
ghost use Rattle.vm_local.specs.Owner.{owner_of, moves};
ghost use Rattle.vm_local.specs.declared.call.Call.TheVariants.{OpenHandle, CloseHandle};
ghost use Rattle.vm_local.specs.declared.entry.Entry.{Entry};
ghost use Rattle.std.specs.Bool.{Decides};
ghost use Rattle.vm_local.specs.Same.{same_reply};
ghost use Rattle.vm_local.specs.declared.reply.Reply.{Reply};
ghost use Rattle.vm_local.specs.declared.reply.Reply.TheVariants.{Done, Refused};
ghost use Rattle.vm_local.specs.State.{LocalState, queue_of};
ghost use Rattle.vm_local.specs.Memory.{bytes_of};
ghost use Rattle.vm_local.specs.Calls.{opened_anew, closed};
ghost use Rattle.v4l_rules.specs.Refusals.{first_refusal};
ghost use Rattle.vm_local.specs.Calls.{row_of};
ghost use Rattle.vm_local.specs.Log.{called, after, replay_from};
ghost use Rattle.vm_local.specs.Record.{without_bytes, tells_bytes, with_call, moved};
ghost use Rattle.vm_local.specs.Replays.{EachReplay};
ghost use Rattle.vm_local.specs.Listed.{AreListed, AreThere};
ghost use Rattle.vm_local.specs.Live.{AreBacked, IsMade, is_live};
ghost use Rattle.vm_local.specs.Opens.{NeverOpens};

/// The replay of a log and a further one is the replay of the further one, from where the first one
/// leads.
#[tactic(auto, using(crate::proofs::LogLemmas::replay_from_append))]
pub fn replay_of_an_append()
    ensures { (s : LocalState) → (first second : List Entry) →
        replay_from s (first ++ second) ≡ option_and_then (λ t. replay_from t second)
        (replay_from s first) }
{}

/// Opening leads to the opening state, opened; or memory was wanting, and nothing is changed.
#[tactic(auto, unfolding(crate::specs::Log::called))]
pub fn open_and_close()
    ensures opens { (s : LocalState) (line : ℕ) (nonblock : Bool) →
        called s line (OpenHandle nonblock) Done ≡ Some (opened_anew s nonblock) }
    ensures lacks_memory { (s : LocalState) (line : ℕ) (nonblock : Bool) →
        called s line (OpenHandle nonblock) (Refused Enomem) ≡ Some s }
    ensures closes { (s : LocalState) (line : ℕ) →
        called s line CloseHandle Done ≡ (if s.opened then Some (closed s) else None) }
    ensures was_closed { (s : LocalState) (line : ℕ) →
        called s line CloseHandle (Refused Ebadf) ≡ (if s.opened then None else Some s) }
{}

/// A refused call changes nothing, want of memory among the refusals.
pub fn refusals_change_nothing()
    ensures { (s : LocalState) (line : ℕ) (call : Call) (e : Errno) (t : LocalState) →
        called s line call (Refused e) ≡ Some t → t ≡ s }
{}

/// No buffer has an owner after a log without an `open` that was done.
pub fn no_owner_before_opening()
    ensures { EachReplay (λ log s. NeverOpens log → (t i : ℕ) → owner_of s t i ≡ None) }
{}

/// The owner of a buffer changes only at `qbuf`, `dqbuf`, `streamoff`, `reqbufs`, `close`, `open`
/// and the steps of the device. An `open` that is done gives the opening state from whatever state
/// it comes to; in the log of a script's handle it comes first.
pub fn owners_move_at_few_entries()
    ensures { (s t : LocalState) (e : Entry) → moves e ≡ false → after s e ≡ Some t → (k i : ℕ) →
        owner_of t k i ≡ owner_of s k i }
{}

/// After a legal log a buffer is Queued, Owed or Done exactly where its queue's queued list, the
/// owed list or its queue's done list has it, and that list has it once; and the lists have no
/// other buffers.
pub fn lists_have_each_buffer_once()
    ensures once { EachReplay (λ log s. AreListed s) }
    ensures there { EachReplay (λ log s. AreThere s) }
{}

/// After a legal log a queue has at most 32 buffers, and so its lists of queued and of done buffers
/// are no longer.
pub fn queues_have_few_buffers()
    ensures buffers { EachReplay (λ log s. (t : ℕ) → length (queue_of s t).buffers ≤ 32) }
    ensures queued { EachReplay (λ log s. (t : ℕ) → length (queue_of s t).queued ≤ 32) }
    ensures done { EachReplay (λ log s. (t : ℕ) → length (queue_of s t).done ≤ 32) }
{}

/// After a legal log each memory number that a buffer or a name has is that of one of the memories
/// that were made, and so each live memory's is.
pub fn live_memories_are_made()
    ensures backed { EachReplay (λ log s. AreBacked s) }
    ensures live { EachReplay (λ log s. (n : ℕ) → is_live s n ≡ true → IsMade s n) }
{}

/// An entry lists at most one event more, and so a log at most as many as it has entries.
pub fn few_events_more()
    ensures entry { (s t : LocalState) (e : Entry) → after s e ≡ Some t →
        length t.events ≤ length s.events + 1 }
    ensures log { EachReplay (λ log s. length s.events ≤ length log) }
{}

/// Two replies are tested to be the same exactly where they are equal.
pub fn same_replies_are_equal()
    ensures { (a b : Reply) → Decides (same_reply a b) (a ≡ b) }
{}

/// The record of a state decides calls as the state does: it has the same refusals, the same calls
/// wait and may lack memory, and the replies are the same but for those that tell bytes. A call
/// that no refusal stops leads to the record of the state that it leads to.
pub fn records_decide_as_states()
    ensures refusals { (s : LocalState) (line addr : ℕ) (call : Call) →
        (row_of (without_bytes s) line addr call).refusals ≡ (row_of s line addr call).refusals }
    ensures may_lack_memory { (s : LocalState) (line addr : ℕ) (call : Call) →
        (row_of (without_bytes s) line addr call).may_lack_memory ≡
        (row_of s line addr call).may_lack_memory }
    ensures waits { (s : LocalState) (line addr : ℕ) (call : Call) →
        (row_of (without_bytes s) line addr call).waits ≡ (row_of s line addr call).waits }
    ensures reply { (s : LocalState) (line addr : ℕ) (call : Call) → tells_bytes call ≡ false →
        (row_of (without_bytes s) line addr call).reply ≡ (row_of s line addr call).reply }
    ensures next { (s : LocalState) (line addr : ℕ) (call : Call) →
        first_refusal (row_of s line addr call).refusals ≡ None →
        with_call (without_bytes s) line addr call ≡ without_bytes (row_of s line addr call).next }
{}

/// The record of a state knows how many memories were made, and how many bytes each of them has.
pub fn records_know_lengths()
    ensures made { (s : LocalState) → length (without_bytes s).memories ≡ length s.memories }
    ensures bytes { (s : LocalState) (n : ℕ) →
        length (bytes_of (without_bytes s) n) ≡ length (bytes_of s n) }
{}

/// Where an entry is legal from a state, the record of that state moves to the record of the state
/// that the entry leads to.
pub fn records_move_as_states()
    ensures { (s t : LocalState) (e : Entry) → after s e ≡ Some t →
        moved (without_bytes s) e ≡ without_bytes t }
{}
