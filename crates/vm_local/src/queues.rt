ghost use Rattle.std.specs.Prelude.{◌≡◌, ◌<◌, ℕ, List, ◌∷◌, [], ◌++◌, length, map, slice_set, slice_index_or, replicate, ◌≤◌, not, ◌&&◌};
ghost use Rattle.std.specs.List.{list_any, list_all};
ghost use Rattle.v4l_const.specs.Model.{queues as types_of};
ghost use Rattle.v4l_format.specs.Fmt.{IsAdjusted};
ghost use Rattle.vm_local.specs.Sizes.{resized};
ghost use Rattle.vm_local.specs.State.{QueueState, opening_queue, with_buffer};
ghost use Rattle.vm_local.specs.Queue.{stopped_queue, started, taken_back, is_empty, is_user_ptr};
ghost use Rattle.vm_local.specs.Memory.{is_just};
ghost use Rattle.vm_local.specs.Kinds.{is_away, is_idle};
ghost use Rattle.vm_local.specs.Steps.{head, taken, with_used, with_done};

use crate::bound::MemoryKind;
use crate::buffer::Buffer;
use crate::buffers::Buffers;
use crate::queue::Queue;
use arrayvec::ArrayVec;
use std::alloc::Global;
use std::marker::Model;
use v4l_format::Fmt;

/// How many queues a model has at most.
const QUEUE_LIMIT: usize = 2;

/// The queues of a handle, in the order of its model. All have pictures of one size.
#[derive(Drop)]
pub struct Queues {
    kept: ArrayVec<Queue, QUEUE_LIMIT, Global>,
}

impl Model for Queues {
    ghost use Rattle.std.specs.Prelude.{List};
    ghost use Rattle.vm_local.specs.State.{QueueState};
    ghost use Rattle.vm_local.specs.Sizes.{SizesAgree};

    ghost Value = { List QueueState };

    ghost view = { λ q. q.kept.items };

    ghost invariant = { λ q. SizesAgree q.kept.items };
}

impl Queues {
    /// The queues of a model, as they begin.
    pub fn new(alloc: Global, model: v4l_const::Model) -> Queues
        ensures { result ≡ map (λ _. opening_queue) (types_of model) }
    {
        Queues {
            kept: begun(alloc, model.queues().len()),
        }
    }

    /// How many there are.
    pub fn len(&self) -> usize
        ensures { result ≡ length self.now }
    {
        self.kept.len()
    }

    /// Sets the format of a queue, and the size of the pictures of all.
    pub fn set_format(&mut self, place: usize, format: Fmt)
        requires place { place < length self.old }
        requires adjusted { IsAdjusted format }
        ensures { self.new ≡ slice_set (map (resized format) self.old) place
            (record (slice_index_or self.old place opening_queue) { format = format }) }
    {
        reformat(self.kept.as_mut_slice(), place, format);
    }

    /// The queue at a place.
    pub fn at(&self, place: usize) -> &Queue
        requires { place < length self.now }
        ensures { result.now ≡ slice_index_or self.now place opening_queue }
    {
        &self.kept.as_slice()[place]
    }

    /// The index of the buffer that the next frame takes from the queue at a place, 0 where there
    /// is no queue.
    #[tactic(auto, using(std::proofs::lemmas::List::get_or_past))]
    pub fn head_at(&self, place: usize) -> u32
        ensures { result ≡ head (slice_index_or self.now place opening_queue) }
    {
        if place < self.len() {
            self.at(place).head()
        } else {
            0
        }
    }

    /// The formats of two queues, which have one size.
    pub fn formats(&self, first: usize, second: usize) -> (Fmt, Fmt)
        requires first { first < length self.now }
        requires second { second < length self.now }
        ensures first { result.0 ≡ (slice_index_or self.now first opening_queue).format }
        ensures second { result.1 ≡ (slice_index_or self.now second opening_queue).format }
        ensures first_adjusted { IsAdjusted result.0 }
        ensures second_adjusted { IsAdjusted result.1 }
        ensures width { result.0.width ≡ result.1.width }
        ensures height { result.0.height ≡ result.1.height }
    {
        // The size that all share is known where a field is.
        let _ = &self.kept;
        (self.at(first).format(), self.at(second).format())
    }

    /// Stops a queue.
    pub fn stop(&mut self, place: usize)
        requires { place < length self.old }
        ensures { self.new ≡ slice_set self.old place
            (stopped_queue (slice_index_or self.old place opening_queue)) }
    {
        let queue = &mut self.kept.as_mut_slice()[place];
        queue.stop();
    }

    /// Stops a queue and gives it other buffers.
    pub fn renew(&mut self, place: usize, memory: MemoryKind, buffers: Buffers)
        requires { place < length self.old }
        ensures { self.new ≡ slice_set self.old place
            (record (stopped_queue (slice_index_or self.old place opening_queue)) {
              memory = memory;
              buffers = buffers.items;
            }) }
    {
        let queue = &mut self.kept.as_mut_slice()[place];
        queue.renew(memory, buffers);
    }

    /// Queues a buffer, which becomes this one.
    pub fn queue_buffer(&mut self, place: usize, i: u32, buffer: Buffer)
        requires place { place < length self.old }
        requires room { length (slice_index_or self.old place opening_queue).queued < length
            (slice_index_or self.old place opening_queue).buffers }
        ensures { self.new ≡ slice_set self.old place
            (record (with_buffer (slice_index_or self.old place opening_queue) i buffer) {
              queued =
                  (slice_index_or self.old place opening_queue).queued ++ i ∷ [];
            }) }
    {
        let queue = &mut self.kept.as_mut_slice()[place];
        queue.queue_buffer(i, buffer);
    }

    /// Starts a queue.
    pub fn start(&mut self, place: usize)
        requires { place < length self.old }
        ensures { self.new ≡ slice_set self.old place
            (started (slice_index_or self.old place opening_queue)) }
    {
        let queue = &mut self.kept.as_mut_slice()[place];
        queue.start();
    }

    /// Gives the first done buffer of a queue back.
    pub fn take_back(&mut self, place: usize)
        requires { place < length self.old }
        ensures { self.new ≡ slice_set self.old place
            (taken_back (slice_index_or self.old place opening_queue)) }
    {
        let queue = &mut self.kept.as_mut_slice()[place];
        queue.take_back();
    }

    /// Sets how many bytes of a queue's buffer are in use, where there is a queue at this place.
    #[tactic(auto, using(std::proofs::lemmas::List::set_past))]
    pub fn set_used(&mut self, place: usize, i: u32, used: u32)
        ensures { self.new ≡ slice_set self.old place
            (with_used (slice_index_or self.old place opening_queue) i used) }
    {
        if place < self.kept.len() {
            let queue = &mut self.kept.as_mut_slice()[place];
            queue.set_used(i, used);
        }
    }

    /// Puts a buffer behind the done ones of its queue.
    pub fn give(&mut self, place: usize, i: u32)
        requires place { place < length self.old }
        requires room { length (slice_index_or self.old place opening_queue).done < length
            (slice_index_or self.old place opening_queue).buffers }
        ensures { self.new ≡ slice_set self.old place
            (with_done (slice_index_or self.old place opening_queue) i) }
    {
        let queue = &mut self.kept.as_mut_slice()[place];
        queue.give(i);
    }

    /// Stops all queues.
    pub fn stop_all(&mut self)
        ensures { self.new ≡ map stopped_queue self.old }
    {
        stop_all(self.kept.as_mut_slice());
    }

    /// Takes the first queued buffer of each queue for a frame.
    pub fn take_heads(&mut self, good: bool, timestamp: u64)
        ensures { self.new ≡ map (taken good timestamp) self.old }
    {
        take_heads(self.kept.as_mut_slice(), good, timestamp);
    }

    /// Whether one of them has buffers.
    pub fn has_buffers(&self) -> bool
        ensures { result ≡ list_any (λ q. not (is_empty q.buffers)) self.now }
    {
        has_buffers(self.kept.as_slice())
    }

    /// Whether one of them streams.
    pub fn is_streaming(&self) -> bool
        ensures { result ≡ list_any (λ q. q.streaming) self.now }
    {
        is_streaming(self.kept.as_slice())
    }

    /// Whether all stream and have a queued buffer.
    pub fn are_ready(&self) -> bool
        ensures { result ≡ list_all (λ q. q.streaming && not (is_empty q.queued)) self.now }
    {
        are_ready(self.kept.as_slice())
    }

    /// Whether the buffer of a memory is Queued or Owed.
    pub fn lend(&self, memory: u64) -> bool
        ensures { result ≡ list_any (λ q. list_any
            (λ b. is_just b.memory memory && is_away b.state) q.buffers) self.now }
    {
        lend(self.kept.as_slice(), memory)
    }

    /// Whether the buffer of a memory isn't Idle.
    pub fn use_memory(&self, memory: u64) -> bool
        ensures { result ≡ list_any (λ q. list_any
            (λ b. is_just b.memory memory && not (is_idle b.state)) q.buffers) self.now }
    {
        use_memory(self.kept.as_slice(), memory)
    }

    /// Whether the device made the memory for one of their buffers.
    pub fn own(&self, memory: u64) -> bool
        ensures { result ≡ list_any (λ q. not (is_user_ptr q.memory) && list_any
            (λ b. is_just b.memory memory) q.buffers) self.now }
    {
        own(self.kept.as_slice(), memory)
    }
}

/// As many queues as they begin.
fn begun(alloc: Global, count: usize) -> ArrayVec<Queue, QUEUE_LIMIT, Global>
    requires { count ≤ 2 }
    ensures { result.items ≡ replicate count opening_queue }
{
    let mut queues = ArrayVec::new_in(alloc);
    for _k in 0..count {
        queues.push(Queue::new());
    }
    queues
}

/// Sets the format of a queue, and the size of the pictures of all.
fn reformat(queues: &mut [Queue], place: usize, format: Fmt)
    requires place { place < length queues.old }
    requires adjusted { IsAdjusted format }
    ensures { queues.new ≡ slice_set (map (resized format) queues.old) place
        (record (slice_index_or queues.old place opening_queue) { format = format }) }
{
    resize(queues, format);
    let queue = &mut queues[place];
    queue.set_format(format);
}

/// Gives the pictures of all queues the size of a format.
fn resize(queues: &mut [Queue], format: Fmt)
    requires { IsAdjusted format }
    ensures { queues.new ≡ map (resized format) queues.old }
{
    for queue in queues.iter_mut() {
        queue.resize(format);
    }
}

fn stop_all(queues: &mut [Queue])
    ensures { queues.new ≡ map stopped_queue queues.old }
{
    for queue in queues.iter_mut() {
        queue.stop();
    }
}

fn take_heads(queues: &mut [Queue], good: bool, timestamp: u64)
    ensures { queues.new ≡ map (taken good timestamp) queues.old }
{
    for queue in queues.iter_mut() {
        queue.take_head(good, timestamp);
    }
}

fn has_buffers(queues: &[Queue]) -> bool
    ensures { result ≡ list_any (λ q. not (is_empty q.buffers)) queues.now }
{
    queues.iter().any(|queue| queue.has_buffers())
}

fn is_streaming(queues: &[Queue]) -> bool
    ensures { result ≡ list_any (λ q. q.streaming) queues.now }
{
    queues.iter().any(|queue| queue.is_streaming())
}

fn are_ready(queues: &[Queue]) -> bool
    ensures { result ≡ list_all (λ q. q.streaming && not (is_empty q.queued)) queues.now }
{
    queues.iter().all(|queue| queue.is_ready())
}

fn lend(queues: &[Queue], memory: u64) -> bool
    ensures { result ≡ list_any (λ q. list_any
        (λ b. is_just b.memory memory && is_away b.state) q.buffers) queues.now }
{
    queues.iter().any(|queue| queue.lends(memory))
}

fn use_memory(queues: &[Queue], memory: u64) -> bool
    ensures { result ≡ list_any (λ q. list_any
        (λ b. is_just b.memory memory && not (is_idle b.state)) q.buffers) queues.now }
{
    queues.iter().any(|queue| queue.uses(memory))
}

fn own(queues: &[Queue], memory: u64) -> bool
    ensures { result ≡ list_any (λ q. not (is_user_ptr q.memory) && list_any
        (λ b. is_just b.memory memory) q.buffers) queues.now }
{
    queues.iter().any(|queue| queue.owns(memory))
}
