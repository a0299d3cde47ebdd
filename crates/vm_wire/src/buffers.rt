// The records that calls and messages on buffers and events carry.

ghost use Rattle.std.specs.Prelude.{◌≡◌, ◌<◌, ◌+◌, if◌then◌else◌};
ghost use Rattle.v4l_const.specs.BufFlags.{error_flag};
ghost use Rattle.v4l_const.specs.Model.{timestamp_flag};
ghost use Rattle.vm_wire.specs.Buffers.{buffer_offset, reqbufs_request, reqbufs_answer, blank_buffer, querybuf_request, querybuf_answer, told_of, qbuf_request, qbuf_answer, dequeued_buffer, subscription_request, frame_event, frame_of};

use v4l_const::{BUF_TYPE_OUTPUT, BufFlags, EVENT_FRAME_SYNC, FIELD_NONE, MEMORY_MMAP, Model};
use v4l_layout::{BufferRec, EventRec, RequestBuffers, Subscription};
use vm_num::le32;

/// How far apart the offsets of two buffers of a queue are from which they are mapped, in bytes.
///
/// Source: own.
pub const BUFFER_STEP: u32 = 0x0010_0000;

/// The offset of the first buffer of the queue that the device reads, in bytes. Those of the other
/// queue begin at 0.
///
/// Source: own.
pub const OUTPUT_OFFSET: u32 = 0x0200_0000;

/// The microseconds of a second.
const MICROS: u64 = 1_000_000;

/// What is told of a buffer that is queued.
///
/// Source: Linux V4L2, `struct v4l2_buffer`.
#[derive(Clone, Copy, Debug, PartialEq, Eq)]
pub struct QueuedBuffer {
    /// The buffer type of its queue.
    pub kind: u32,
    /// Its place in its queue, from 0.
    pub index: u32,
    /// How many of its bytes hold a picture that the device reads; with 0, all do.
    pub bytesused: u32,
    /// The timestamp of a picture that the device reads, in microseconds.
    pub timestamp: u64,
    /// Its memory kind.
    pub memory: u32,
    /// Where its memory is: the offset of its mapping, or the address at which the first entry of
    /// the user's starts.
    pub m: u64,
    /// Its length, in bytes.
    pub length: u32,
}

/// What the device tells of the picture of a buffer that it gives back.
///
/// Source: Linux V4L2, `struct v4l2_buffer`.
#[derive(Clone, Copy, Debug, PartialEq, Eq)]
pub struct PictureNote {
    /// How many bytes of the buffer hold it.
    pub bytesused: u32,
    /// Its timestamp: whole seconds.
    pub seconds: u64,
    /// Its timestamp: microseconds past them.
    pub micros: u64,
    /// Its number in its queue.
    pub sequence: u32,
    /// Whether the device failed to make it.
    pub is_bad: bool,
}

/// The offset from which the buffer of a type and index is mapped. A queue has at most 32 buffers.
///
/// Source: own.
pub fn buffer_offset(t: u32, i: u32) -> u32
    requires { i < 32 }
    ensures { result ≡ buffer_offset t i }
{
    let first = if t == BUF_TYPE_OUTPUT {
        OUTPUT_OFFSET
    } else {
        0
    };
    first + i * BUFFER_STEP
}

/// What REQBUFS asks for: so many buffers of a memory kind for the queue of type `t`.
///
/// Source: Linux V4L2, `struct v4l2_requestbuffers`.
#[tactic(auto, unfolding(crate::specs::Buffers::reqbufs_request))]
pub fn reqbufs_request(t: u32, memory: u32, count: u32) -> RequestBuffers
    ensures { result ≡ reqbufs_request t memory count }
{
    RequestBuffers {
        count,
        kind: t,
        memory,
        capabilities: 0,
    }
}

/// What REQBUFS answers: so many buffers are there, and what a queue of this model can do.
///
/// Source: Linux V4L2, `struct v4l2_requestbuffers`.
#[tactic(auto, unfolding(crate::specs::Buffers::reqbufs_answer))]
pub fn reqbufs_answer(model: Model, t: u32, memory: u32, count: u32) -> RequestBuffers
    ensures { result ≡ reqbufs_answer model t memory count }
{
    RequestBuffers {
        count,
        kind: t,
        memory,
        capabilities: model.buffer_capabilities(),
    }
}

// The record of which the index and the type alone are told.
fn blank_buffer(t: u32, i: u32) -> BufferRec
    ensures { result ≡ blank_buffer t i }
{
    BufferRec {
        index: i,
        kind: t,
        bytesused: 0,
        flags: 0,
        field: 0,
        seconds: 0,
        micros: 0,
        timecode: [0; 16],
        sequence: 0,
        memory: 0,
        m: 0,
        length: 0,
        reserved2: 0,
        request_fd: 0,
    }
}

/// What QUERYBUF asks for: the buffer in place `i` of the queue of type `t`.
///
/// Source: Linux V4L2, `struct v4l2_buffer`.
#[tactic(auto, unfolding(crate::specs::Buffers::querybuf_request))]
pub fn querybuf_request(t: u32, i: u32) -> BufferRec
    ensures { result ≡ querybuf_request t i }
{
    blank_buffer(t, i)
}

/// What QUERYBUF answers: the memory kind and length of the buffer, where its timestamps come from,
/// and the offset from which it is mapped, 0 where it isn't. In which state it is, the driver
/// knows.
///
/// Source: Linux V4L2, `struct v4l2_buffer`.
#[tactic(auto, unfolding(crate::specs::Buffers::querybuf_answer))]
pub fn querybuf_answer(model: Model, t: u32, i: u32, memory: u32, length: u32) -> BufferRec
    requires { i < 32 }
    ensures { result ≡ querybuf_answer model t i memory length }
{
    BufferRec {
        flags: model.timestamp_flag().0,
        field: FIELD_NONE,
        memory,
        m: if memory == MEMORY_MMAP {
            u64::from(buffer_offset(t, i))
        } else {
            0
        },
        length,
        ..blank_buffer(t, i)
    }
}

// What is told of a picture that the device reads; nothing is told of one that it makes.
fn told_of(model: Model, t: u32, n: u64) -> u64
    ensures { result ≡ told_of model t n }
{
    match model.source_queue() {
        Some(source) if source == t => n,
        _ => 0,
    }
}

/// What QBUF asks for, on a device of this model: the buffer is queued. The bytes and the timestamp
/// of its picture are told where the device reads it.
///
/// Source: Linux V4L2, `struct v4l2_buffer`.
#[tactic(auto, unfolding(crate::specs::Buffers::qbuf_request))]
pub fn qbuf_request(model: Model, b: &QueuedBuffer) -> BufferRec
    ensures { result ≡ qbuf_request model b.now }
{
    BufferRec {
        bytesused: told_of(model, b.kind, u64::from(b.bytesused)) as u32,
        seconds: told_of(model, b.kind, b.timestamp / MICROS),
        micros: told_of(model, b.kind, b.timestamp % MICROS),
        memory: b.memory,
        m: b.m,
        length: b.length,
        ..blank_buffer(b.kind, b.index)
    }
}

/// What QBUF answers: what was told of the buffer.
///
/// Source: Linux V4L2, `struct v4l2_buffer`.
#[tactic(auto, unfolding(crate::specs::Buffers::qbuf_answer))]
pub fn qbuf_answer(asked: &BufferRec) -> BufferRec
    ensures { result ≡ qbuf_answer asked.now }
{
    BufferRec {
        bytesused: asked.bytesused,
        seconds: asked.seconds,
        micros: asked.micros,
        memory: asked.memory,
        m: asked.m,
        length: asked.length,
        ..blank_buffer(asked.kind, asked.index)
    }
}

// Where the timestamp comes from, and whether the picture failed.
fn buffer_flags(model: Model, is_bad: bool) -> u32
    ensures { result ≡ timestamp_flag model + (if is_bad then error_flag else 0) }
{
    let failed = if is_bad { BufFlags::ERROR.0 } else { 0 };
    model.timestamp_flag().0 + failed
}

/// The record of a buffer that the device gives back: what was told of its memory when it was
/// queued, and what is told of its picture.
///
/// Source: Linux V4L2, `struct v4l2_buffer`.
#[tactic(auto, unfolding(crate::specs::Buffers::dequeued_buffer))]
pub fn dequeued_buffer(model: Model, queued: &BufferRec, note: &PictureNote) -> BufferRec
    ensures { result ≡ dequeued_buffer model queued.now note.now }
{
    BufferRec {
        bytesused: note.bytesused,
        flags: buffer_flags(model, note.is_bad),
        field: FIELD_NONE,
        seconds: note.seconds,
        micros: note.micros,
        sequence: note.sequence,
        memory: queued.memory,
        m: queued.m,
        length: queued.length,
        ..blank_buffer(queued.kind, queued.index)
    }
}

/// What SUBSCRIBE_EVENT and UNSUBSCRIBE_EVENT ask for, and what they answer: the number of an
/// event.
///
/// Source: Linux V4L2, `struct v4l2_event_subscription`.
#[tactic(auto, unfolding(crate::specs::Buffers::subscription_request))]
pub fn subscription_request(event: u32) -> Subscription
    ensures { result ≡ subscription_request event }
{
    Subscription {
        kind: event,
        id: 0,
        flags: 0,
    }
}

/// The record of the event that a frame began: the frame's number, and its timestamp in
/// microseconds.
///
/// Source: Linux V4L2, `struct v4l2_event`, `struct v4l2_event_frame_sync`.
#[tactic(auto, unfolding(crate::specs::Buffers::frame_event))]
pub fn frame_event(frame: u32, timestamp: u64) -> EventRec
    ensures { result ≡ frame_event frame timestamp }
{
    let mut u = [0; 64];
    u[..4].copy_from_slice(&frame.to_le_bytes());
    EventRec {
        kind: EVENT_FRAME_SYNC,
        u,
        pending: 0,
        sequence: 0,
        seconds: timestamp / MICROS,
        nanos: timestamp % MICROS * 1000,
        id: 0,
    }
}

/// The number of the frame that began.
///
/// Source: Linux V4L2, `struct v4l2_event_frame_sync`.
pub fn frame_of(event: &EventRec) -> u32
    ensures { result ≡ frame_of event.now }
{
    le32(&event.u, 0)
}
