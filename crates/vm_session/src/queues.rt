//! The queues of a session, each at the place that its buffer type has in the model.
ghost use Rattle.std.specs.Prelude.{◌≡◌, ◌+◌, ◌*◌, ◌^◌, ◌<◌, ◌≤◌, ◌++◌, ◌==◌, ◌&&◌, ◌⊎◌, [], ◌∷◌, true, false, not, nat_lt, IfOk, IfSome, Option, length, map, replicate, slice_get, slice_index_or, slice_set, vec_len, vec_capacity};
ghost use Rattle.std.specs.List.{list_any, flat_map};
ghost use Rattle.v4l_const.specs.declared.numbers.TheConstants.{MEMORY_MMAP};
ghost use Rattle.v4l_format.specs.Fmt.{IsAdjusted, picture_size};
ghost use Rattle.v4l_rules.specs.Formats.{with_set_format_at};
ghost use Rattle.v4l_rules.specs.Queues.{place_in};
ghost use Rattle.vm_frame.specs.Mem.{mem_bytes};
ghost use Rattle.vm_queue.specs.Buffers.{memories};
ghost use Rattle.vm_session.specs.State.{opening_queue, queue_kind, queue_has_buffers};
ghost use Rattle.vm_session.specs.Buffers.{stopped_queue, renewed_queue, queued_memories, is_at_home, queue_with, started};
ghost use Rattle.vm_session.specs.Mapped.{frames_of, frame_at};

use crate::queue::Queue;
use std::alloc::Global;
use v4l_const::MEMORY_USERPTR;
use v4l_format::Fmt;
use v4l_layout::BufferRec;
use v4l_rules::{first_format, is_source, place_in, sized_as};
use vm_frame::Held;
use vm_mem::Memory;

/// As many queues as they begin.
pub fn opening_queues(alloc: Global, count: usize) -> Result<Vec<Queue>, Memory>
    ensures { IfOk result (λ queues. queues.items ≡ replicate count opening_queue) }
{
    let mut queues = Vec::new(alloc);
    for _k in 0..count {
        queues.push(Queue::new(alloc)?)?;
    }
    Ok(queues)
}

/// The format of the queue at a place, the first format where there is none.
pub fn format_at(queues: &[Queue], place: usize) -> Fmt
    ensures value { result ≡ (slice_index_or queues.now place opening_queue).format }
    ensures adjusted { IsAdjusted result }
{
    match queues.get(place) {
        Some(queue) => queue.format(),
        None => first_format(),
    }
}

/// Sets the format of the queue at a place, where there is one. No queue has buffers.
#[tactic(auto, using(std::proofs::lemmas::List::set_past))]
pub fn set_format_at(queues: &mut [Queue], place: usize, format: Fmt)
    requires adjusted { IsAdjusted format }
    requires no_buffers { (slice_index_or queues.old place opening_queue).lengths ≡ [] }
    ensures { queues.new ≡ slice_set queues.old place
        (record (slice_index_or queues.old place opening_queue) { format = format }) }
{
    if place < queues.len() {
        let queue = &mut queues[place];
        queue.set_format(format);
    }
}

/// Sets the format of the queue of type `t`, among the queues of a model, of which none has
/// buffers. Where the device makes its pictures from that queue's, they get its size.
#[tactic(auto, unfolding(v4l_rules::specs::Formats::with_set_format_at))]
pub fn set_formats(queues: &mut [Queue], model: v4l_const::Model, t: u32, format: Fmt)
    requires adjusted { IsAdjusted format }
    requires no_buffers { list_any queue_has_buffers queues.old ≡ false }
    ensures { queues.new ≡ with_set_format_at queue_kind model queues.old t format }
{
    let types = model.queues();
    let place = place_in(types, t);
    if is_source(model, t) {
        let pictures = place_in(types, model.picture_queue());
        let sized = sized_as(&format, &format_at(queues, pictures));
        set_format_at(queues, place, format);
        set_format_at(queues, pictures, sized);
    } else {
        set_format_at(queues, place, format);
    }
}

/// Whether one of the queues has buffers.
pub fn have_buffers(queues: &[Queue]) -> bool
    ensures { result ≡ list_any queue_has_buffers queues.now }
{
    queues.iter().any(|queue| queue.has_buffers())
}

/// Whether one of the queues streams.
pub fn are_streaming(queues: &[Queue]) -> bool
    ensures { result ≡ list_any (λ q. q.streaming) queues.now }
{
    queues.iter().any(|queue| queue.is_streaming())
}

/// Whether the queue at a place streams.
pub fn is_streaming_at(queues: &[Queue], place: usize) -> bool
    ensures { result ≡ (slice_index_or queues.now place opening_queue).streaming }
{
    match queues.get(place) {
        Some(queue) => queue.is_streaming(),
        None => false,
    }
}

/// The memory kind of the buffers of the queue at a place by its number, 0 where there is none.
pub fn kind_at(queues: &[Queue], place: usize) -> u32
    ensures { result ≡ (slice_index_or queues.now place opening_queue).kind }
{
    match queues.get(place) {
        Some(queue) => queue.kind(),
        None => 0,
    }
}

/// The length of the buffer with an index, in the queue at a place, in bytes.
pub fn length_at(queues: &[Queue], place: usize, index: u32) -> Option<u32>
    ensures value { result ≡ slice_get
        (slice_index_or queues.now place opening_queue).lengths index }
    ensures few { IfSome result (λ _. index < 32) }
{
    match queues.get(place) {
        Some(queue) => queue.length(index),
        None => None,
    }
}

/// Whether the queue at a place has buffers.
pub fn has_buffers_at(queues: &[Queue], place: usize) -> bool
    ensures { result ≡ queue_has_buffers (slice_index_or queues.now place opening_queue) }
{
    match queues.get(place) {
        Some(queue) => queue.has_buffers(),
        None => false,
    }
}

/// Whether the queue at a place takes a buffer with this record.
pub fn takes_at(queues: &[Queue], place: usize, asked: &BufferRec) -> bool
    ensures { result ≡ (nat_lt asked.now.index
        (length (slice_index_or queues.now place opening_queue).lengths) &&
        (is_at_home (slice_index_or queues.now place opening_queue) asked.now.index &&
        (asked.now.memory == (slice_index_or queues.now place opening_queue).kind && not
        (asked.now.memory == MEMORY_USERPTR && nat_lt asked.now.length
        (picture_size (slice_index_or queues.now place opening_queue).format))))) }
{
    match queues.get(place) {
        Some(queue) => queue.takes(asked),
        None => false,
    }
}

/// Starts the queue at a place, where there is one.
#[tactic(auto, using(std::proofs::lemmas::List::set_past))]
pub fn start_at(queues: &mut [Queue], place: usize)
    ensures { queues.new ≡ slice_set queues.old place
        (started (slice_index_or queues.old place opening_queue)) }
{
    if place < queues.len() {
        let queue = &mut queues[place];
        queue.start();
    }
}

/// Queues a buffer with its memory in the queue at a place, which has the buffer at home.
pub fn push_at(queues: &mut [Queue], place: usize, buffer: BufferRec, held: Held)
    requires index { buffer.index < length (slice_index_or queues.old place opening_queue).lengths }
    requires home { is_at_home (slice_index_or queues.old place opening_queue) buffer.index ≡ true }
    requires told { length (mem_bytes held.mem) ≡ buffer.length }
    requires frame { (slice_index_or queues.old place opening_queue).kind ≡ MEMORY_MMAP →
        IfSome (slice_get (slice_index_or queues.old place opening_queue).lengths buffer.index)
        (λ n. n ≡ buffer.length) }
    requires room { ((slice_index_or queues.old place opening_queue).kind ≡ MEMORY_MMAP) ⊎
        (picture_size (slice_index_or queues.old place opening_queue).format ≤ buffer.length) }
    ensures { queues.new ≡ slice_set queues.old place
        (queue_with (slice_index_or queues.old place opening_queue) buffer (held ∷ [])) }
{
    let queue = &mut queues[place];
    queue.push(buffer, held);
}

/// Stops the queue at a place, where there is one. The memories that are queued go behind what
/// `back` has, the first one first.
#[tactic(auto, using(std::proofs::lemmas::List::set_past))]
pub fn stop_at(queues: &mut [Queue], place: usize, back: &mut Vec<Held>)
    requires { vec_len back.old + 32 ≤ vec_capacity back.old }
    ensures queues { queues.new ≡ slice_set queues.old place
        (stopped_queue (slice_index_or queues.old place opening_queue)) }
    ensures memories { back.new.items ≡ back.old.items ++
        memories (slice_index_or queues.old place opening_queue).queued }
    ensures room { vec_capacity back.new ≡ vec_capacity back.old }
{
    if place < queues.len() {
        let queue = &mut queues[place];
        queue.stop(back);
    }
}

/// Stops the queue at a place, where there is one, and gives it `count` buffers of this memory
/// kind in place of the earlier ones, of which none is out. The session had made so many frames
/// before theirs.
#[tactic(auto, using(std::proofs::lemmas::List::set_past))]
pub fn renew_at(
    queues: &mut [Queue],
    place: usize,
    kind: u32,
    count: u32,
    made: u32,
    back: &mut Vec<Held>,
)
    requires none_out { (slice_index_or queues.old place opening_queue).out ≡ [] }
    requires count { count ≤ 32 }
    requires made { made + 32 ≤ 2 ^ 32 }
    requires room { vec_len back.old + 32 ≤ vec_capacity back.old }
    ensures queues { queues.new ≡ slice_set queues.old place
        (renewed_queue (slice_index_or queues.old place opening_queue) kind count made) }
    ensures memories { back.new.items ≡ back.old.items ++
        memories (slice_index_or queues.old place opening_queue).queued }
    ensures few { vec_len back.new ≤ vec_len back.old + 32 }
    ensures room { vec_capacity back.new ≡ vec_capacity back.old }
{
    if place < queues.len() {
        let queue = &mut queues[place];
        queue.renew(kind, count, made, back);
    }
}

/// Stops all queues. The memories that are queued go behind what `back` has, queue by queue.
pub fn stop_all(queues: &mut [Queue], back: &mut Vec<Held>)
    requires { vec_len back.old + 32 * length queues.old ≤ vec_capacity back.old }
    ensures queues { queues.new ≡ map stopped_queue queues.old }
    ensures memories { back.new.items ≡ back.old.items ++ queued_memories queues.old }
    ensures room { vec_capacity back.new ≡ vec_capacity back.old }
{
    for queue in queues.iter_mut() {
        queue.stop(back);
    }
}

/// The tag and the length of the frame that is mapped from an offset, among those of the queues of
/// these types, which are the queues of the session of this id.
pub fn find_in(queues: &[Queue], types: &[u32], id: u32, offset: u32) -> Option<(u64, u32)>
    ensures { result ≡ frame_at offset (flat_map
        (λ t. frames_of id t (slice_index_or queues.now
        (place_in types.now t) opening_queue)) types.now) }
{
    for kind in types {
        let found = find_at(queues, place_in(types, *kind), id, *kind, offset);
        if found.is_some() {
            return found;
        }
    }
    None
}

// The same of the queue at a place, which is of type `t`.
fn find_at(queues: &[Queue], place: usize, id: u32, t: u32, offset: u32) -> Option<(u64, u32)>
    ensures { result ≡ frame_at offset (frames_of id t
        (slice_index_or queues.now place opening_queue)) }
{
    match queues.get(place) {
        Some(queue) => queue.frame_at(id, t, offset),
        None => None,
    }
}
