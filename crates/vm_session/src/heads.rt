//! The buffers of a session's next frame, which leave their queues.
ghost use Rattle.std.specs.Prelude.{◌≡◌, ◌≤◌, true, Some, IfSome, length, map, slice_index_or, slice_set};
ghost use Rattle.std.specs.List.{list_all};
ghost use Rattle.std.specs.Option.{option_and_then};
ghost use Rattle.v4l_const.specs.Model.{queues as types_of, source_queue, picture_queue};
ghost use Rattle.v4l_format.specs.Fmt.{picture_size};
ghost use Rattle.v4l_rules.specs.Queues.{queue_at};
ghost use Rattle.vm_frame.specs.Mem.{mem_bytes};
ghost use Rattle.vm_job.specs.Job.{IsJob};
ghost use Rattle.vm_mem.specs.Lists.{first_of};
ghost use Rattle.vm_session.specs.State.{opening_queue, queue_kind};
ghost use Rattle.vm_session.specs.Streaming.{is_ready, headless, job_with, running_with};

use crate::Running;
use crate::queue::Queue;
use v4l_const::Model;
use v4l_rules::place_in;
use vm_job::{Job, JobSpec};
use vm_queue::Queued;

/// The buffers that a frame takes: the one that it is made from, where the device reads one, and
/// the one that its picture goes to.
///
/// Source: own.
#[derive(Drop)]
pub struct Heads {
    pub src: Option<Queued>,
    pub dst: Queued,
}

/// Whether all queues stream and have a buffer queued.
pub fn are_ready(queues: &[Queue]) -> bool
    ensures { result ≡ list_all is_ready queues.now }
{
    queues.iter().all(|queue| queue.is_ready())
}

/// Takes the buffer that is queued first out of the queue at a place, where there is one.
#[tactic(auto, using(std::proofs::lemmas::List::set_past))]
fn pop_at(queues: &mut [Queue], place: usize) -> Option<Queued>
    ensures queues { queues.new ≡ slice_set queues.old place
        (headless (slice_index_or queues.old place opening_queue)) }
    ensures first { result ≡ first_of (slice_index_or queues.old place opening_queue).queued }
    ensures room { IfSome result (λ b. picture_size
        (slice_index_or queues.old place opening_queue).format ≤ length (mem_bytes b.held.mem)) }
{
    if place < queues.len() {
        let queue = &mut queues[place];
        match queue.pop() {
            Some((buffer, held)) => Some(Queued { buffer, held }),
            None => None,
        }
    } else {
        None
    }
}

/// Takes the buffer that is queued first out of each of the queues, which are those of the model
/// and are ready.
pub fn take_heads(queues: &mut [Queue], model: Model) -> Heads
    requires all { length queues.old ≡ length (types_of model) }
    requires ready { list_all is_ready queues.old ≡ true }
    ensures queues { queues.new ≡ map headless queues.old }
    ensures src { result.src ≡ option_and_then
        (λ t. first_of (queue_at queue_kind model queues.old t).queued) (source_queue model) }
    ensures dst { Some result.dst ≡ first_of (queue_at queue_kind model queues.old
        (picture_queue model)).queued }
    ensures src_room { IfSome (source_queue model)
        (λ t. IfSome result.src (λ b. picture_size (queue_at queue_kind model queues.old t).format ≤
        length (mem_bytes b.held.mem))) }
    ensures dst_room { picture_size (queue_at queue_kind model queues.old
        (picture_queue model)).format ≤ length (mem_bytes result.dst.held.mem) }
{
    let types = model.queues();
    let dst = pop_at(queues, place_in(types, model.picture_queue())).unwrap();
    let src = match model.source_queue() {
        Some(source) => pop_at(queues, place_in(types, source)),
        None => None,
    };
    Heads { src, dst }
}

/// What is kept of a job of these buffers while it runs.
pub fn running_with(spec: JobSpec, src: &Option<Queued>, dst: &Queued) -> Running
    ensures { result ≡ running_with spec src.now dst.now }
{
    Running {
        spec,
        src: src.as_ref().map(|b| b.buffer),
        dst: dst.buffer,
    }
}

/// The job of these buffers, with their memories.
pub fn job_with(spec: JobSpec, src: Option<Queued>, dst: Queued) -> Job
    requires { IsJob (job_with spec src dst) }
    ensures { result ≡ job_with spec src dst }
{
    Job {
        spec,
        src: src.map(|b| b.held),
        dst: dst.held,
    }
}
