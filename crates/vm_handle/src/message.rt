//! The steps of the device that its messages stand for.
ghost use Rattle.std.specs.Prelude.{◌≡◌, ◌∷◌, []};
ghost use Rattle.std.specs.Option.{option_map_or};
ghost use Rattle.v4l_const.specs.Model.{source_queue};
ghost use Rattle.vm_exchange.specs.Messages.{is_marked, is_first, frame_step, made_by};

use v4l_const::{BufFlags, Model};
use v4l_layout::BufferRec;
use vm_local::Entry;
use vm_wire::EventMsg;

// Whether the message has the mark of a frame that failed.
fn is_marked(model: Model, buffer: &BufferRec) -> bool
    ensures { result ≡ is_marked model buffer.now }
{
    buffer.flags == model.timestamp_flag().0 + BufFlags::ERROR.0
}

// Whether a buffer's message is the first of its frame.
fn is_first(model: Model, buffer: &BufferRec) -> bool
    ensures { result ≡ is_first (source_queue model) model buffer.now }
{
    match model.source_queue() {
        None => is_marked(model, buffer),
        Some(source) => buffer.kind == source,
    }
}

// The step that made the frame of a buffer.
fn frame_step(model: Model, buffer: &BufferRec) -> Entry
    ensures { result ≡ frame_step model buffer.now }
{
    if is_marked(model, buffer) {
        Entry::Bad
    } else {
        Entry::Finish
    }
}

/// The step of the device that made a message's frame, where the message is the first of its frame.
pub fn made_by(model: Model, msg: &EventMsg) -> Option<Entry>
    ensures { option_map_or (λ step. step ∷ []) result [] ≡ made_by model msg.now }
{
    match msg {
        EventMsg::Happened { .. } => Some(Entry::Finish),
        EventMsg::Dequeued { buffer, .. } if is_first(model, buffer) => {
            Some(frame_step(model, buffer))
        }
        EventMsg::Dequeued { .. } => None,
    }
}
