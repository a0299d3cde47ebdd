//! The events of a frame that is done.

ghost use Rattle.std.specs.Prelude.{◌≡◌, ◌+◌, ◌≤◌, ◌*◌, ◌++◌, ◌∷◌, [], Some, if◌then◌else◌, length};
ghost use Rattle.std.specs.Option.{option_map, option_to_list};
ghost use Rattle.std.specs.VecDeque.{deque_capacity};
ghost use Rattle.v4l_format.specs.Fmt.{picture_size};
ghost use Rattle.vm_session.specs.State.{queue_of, pictures};
ghost use Rattle.vm_session.specs.Streaming.{frame_time, stamp_of, note_of, returned, sync_events};

use crate::returns::sequence_at;
use crate::{Running, Session, Unsent};
use std::collections::VecDeque;
use v4l_format::sizeimage;
use v4l_layout::BufferRec;
use v4l_rules::place_in;
use vm_frame::Held;
use vm_wire::{EventMsg, PictureNote, dequeued_buffer, frame_event};

/// How long a camera's frame takes, in microseconds.
///
/// Source: own.
pub const FRAME_MICROS: u64 = 40_000;

/// The microseconds of a second.
///
/// Source: own.
pub const SECOND_MICROS: u64 = 1_000_000;

/// As many events as a session may have unsent: two for each buffer of a camera, and one for each
/// buffer of a converter's two queues.
///
/// Source: own.
pub const MAX_UNSENT: usize = 64;

// The timestamp of a frame: that of the buffer that it was made from, else that of its number, in
// whole seconds and microseconds past them.
fn stamp_of(src: &Option<BufferRec>, sequence: u32) -> (u64, u64)
    ensures seconds { result.0 ≡ (stamp_of src.now sequence).seconds }
    ensures micros { result.1 ≡ (stamp_of src.now sequence).micros }
{
    match src {
        Some(buffer) => (buffer.seconds, buffer.micros),
        None => {
            let time = frame_time(sequence);
            (time / SECOND_MICROS, time % SECOND_MICROS)
        }
    }
}

// When a frame that is made from nothing began, in microseconds.
fn frame_time(sequence: u32) -> u64
    ensures { result ≡ frame_time sequence }
{
    u64::from(sequence) * FRAME_MICROS
}

impl Session {
    // The number of the next frame of the queue with this buffer type.
    fn sequence_of(&self, t: u32) -> u32
        ensures { result ≡ (queue_of self.now t).sequence }
    {
        sequence_at(&self.queues, place_in(self.model.queues(), t))
    }

    // The number of the next picture.
    pub(crate) fn picture_number(&self) -> u32
        ensures { result ≡ (pictures self.now).sequence }
    {
        self.sequence_of(self.model.picture_queue())
    }

    // What is told of a buffer of the running job, which came back good or bad and left so many
    // bytes of the buffer in use.
    fn note_of(&self, r: &Running, good: bool, b: &BufferRec, bytesused: u32) -> PictureNote
        ensures { result ≡ note_of self.now r.now good b.now bytesused }
    {
        let (seconds, micros) = stamp_of(&r.src, self.picture_number());
        PictureNote {
            bytesused,
            seconds,
            micros,
            sequence: self.sequence_of(b.kind),
            is_bad: !good,
        }
    }

    // A buffer of the running job goes back to the driver with its memory.
    fn returned(
        &self,
        r: &Running,
        good: bool,
        b: &BufferRec,
        bytesused: u32,
        held: Option<Held>,
    ) -> Unsent
        ensures { result ≡ returned self.now r.now good b.now bytesused held }
    {
        let note = self.note_of(r, good, b, bytesused);
        let msg = EventMsg::Dequeued {
            session: self.id,
            buffer: dequeued_buffer(self.model, b, &note),
        };
        Unsent { msg, held }
    }

    /// The event that a frame began, where the frame is good and the model has events.
    pub(crate) fn sync_event(&self, good: bool) -> Option<Unsent>
        ensures { option_to_list result ≡ sync_events self.now good }
    {
        if !self.model.has_events() || !good {
            return None;
        }
        let frame = self.picture_number();
        let msg = EventMsg::Happened {
            session: self.id,
            event: frame_event(frame, frame_time(frame)),
        };
        Some(Unsent { msg, held: None })
    }

    /// The event that gives back the buffer that the running job read, if it read one, with its
    /// memory.
    pub(crate) fn src_event(&self, r: &Running, good: bool, held: Option<Held>) -> Option<Unsent>
        ensures { result ≡ option_map
            (λ b. returned self.now r.now good b b.bytesused held) r.now.src }
    {
        match r.src {
            Some(buffer) => Some(self.returned(r, good, &buffer, buffer.bytesused, held)),
            None => None,
        }
    }

    /// The event that gives back the buffer of the running job's picture, with its memory.
    pub(crate) fn dst_event(&self, r: &Running, good: bool, held: Held) -> Unsent
        ensures { result ≡ returned self.now r.now good r.now.dst
            (if good then picture_size (pictures self.now).format else 0) (Some held) }
    {
        let bytesused = if good {
            sizeimage(&self.format_of(self.model.picture_queue()))
        } else {
            0
        };
        self.returned(r, good, &r.dst, bytesused, Some(held))
    }
}

/// Puts the events of a job behind those that are unsent: that the frame began, the buffer that was
/// read, and the one of the picture. There is room for them.
pub fn push_events(
    unsent: &mut VecDeque<Unsent>,
    sync: Option<Unsent>,
    src: Option<Unsent>,
    dst: Unsent,
)
    requires { length (unsent.old.items ++ (option_to_list sync ++
        (option_to_list src ++ dst ∷ []))) ≤ deque_capacity unsent.old }
    ensures items { unsent.new.items ≡ unsent.old.items ++
        (option_to_list sync ++ (option_to_list src ++ dst ∷ [])) }
    ensures capacity { deque_capacity unsent.new ≡ deque_capacity unsent.old }
{
    push_some(unsent, sync);
    push_some(unsent, src);
    push_some(unsent, Some(dst));
}

// Puts an event, if there is one, behind those that are unsent. There is room for it.
fn push_some(unsent: &mut VecDeque<Unsent>, event: Option<Unsent>)
    requires { length (unsent.old.items ++ option_to_list event) ≤ deque_capacity unsent.old }
    ensures items { unsent.new.items ≡ unsent.old.items ++ option_to_list event }
    ensures capacity { deque_capacity unsent.new ≡ deque_capacity unsent.old }
{
    if let Some(event) = event {
        unsent.push_back(event).unwrap();
    }
}
