//! One V4L2 handle as a process alone on a machine would see it: its state, its calls with their
//! refusals, the device's own steps, and which logs are legal.
//!
//! Begin with `Local` and `local_step`. Its main definitions are the table of calls, `row_of`, in
//! `specs/Calls.antt`, and which logs are legal, `IsLegal`, in `specs/Log.antt`.
#![tactic(auto)]

mod answers;
mod bound;
mod buffer;
mod buffer_effects;
mod buffer_refusals;
mod buffers;
mod byte_effects;
mod byte_refusals;
mod bytes;
mod call;
mod effects;
mod entry;
mod form_effects;
mod form_refusals;
mod frames;
mod fresh;
mod laws;
mod local;
mod lookups;
mod memories;
mod name;
mod names;
mod owed;
mod pictures;
mod queue;
mod queues;
mod record;
mod refusals;
mod reply;
mod same;
mod small;
mod step;
mod steps;

pub use bound::{Bound, BoundKind, MemoryKind};
pub use buffer::{Buffer, BufferState};
pub use call::Call;
pub use entry::Entry;
pub use laws::{
    few_events_more, lists_have_each_buffer_once, live_memories_are_made, no_owner_before_opening,
    open_and_close, owners_move_at_few_entries, queues_have_few_buffers, records_decide_as_states,
    records_know_lengths, records_move_as_states, refusals_change_nothing, replay_of_an_append,
    same_replies_are_equal,
};
pub use local::Local;
pub use name::{NAME_LIMIT, Name};
pub use owed::{Owed, OwedItem, SyncEvent};
pub use record::Record;
pub use reply::Reply;
pub use small::{SMALL_LIMIT, Small};
pub use step::local_step;

#[cfg(test)]
mod tests;
