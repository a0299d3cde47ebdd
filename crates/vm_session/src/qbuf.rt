// What a session answers as a buffer is to be queued.

ghost use Rattle.std.specs.Prelude.{◌≡◌, ◌<◌, ◌≤◌, ◌&&◌, ◌⊎◌, [], ◌∷◌, true, nat_lt, slice_get, None, IfSome, IfOk, IfErr, OnOk, OnErr, length, vec_capacity};
ghost use Rattle.v4l_layout.specs.Records.{buffer_size};
ghost use Rattle.v4l_const.specs.declared.numbers.TheConstants.{MEMORY_MMAP};
ghost use Rattle.v4l_rules.specs.Formats.{is_source};
ghost use Rattle.v4l_rules.specs.Refusals.{first_refusal};
ghost use Rattle.v4l_format.specs.Fmt.{picture_size};
ghost use Rattle.vm_frame.specs.Mem.{mem_bytes};
ghost use Rattle.vm_session.specs.State.{queue_of};
ghost use Rattle.vm_session.specs.Buffers.{is_at_home, ComesWith, with_queued};
ghost use Rattle.vm_session.specs.Rows.{qbuf_row, Answers, Refuses, MayRefuse};

use crate::Session;
use crate::queues::{push_at, takes_at};
use v4l_const::Errno;
use v4l_layout::BufferRec;
use v4l_rules::{is_source, place_in};
use vm_frame::Held;
use vm_wire::{Payload, buffer_payload, qbuf_answer};

impl Session {
    /// Queues the buffer that the record tells of, with the memory that comes along.
    #[tactic(auto, unfolding(crate::specs::Rows::qbuf_row))]
    pub(crate) fn qbuf(&mut self, asked: &BufferRec, held: &mut Vec<Held>) -> Result<Payload, Errno>
        requires { ComesWith self.old asked.now held.old.items }
        ensures ok { IfOk result (λ payload. Answers
            (qbuf_row self.old asked.now held.old.items) payload self.new) }
        ensures err { IfErr result (λ e. MayRefuse (qbuf_row self.old asked.now held.old.items) e) }
        ensures kept { OnErr result (self.new ≡ self.old) }
        ensures taken { OnOk result (held.new.items ≡ []) }
        ensures held_kept { OnErr result (held.new.items ≡ held.old.items) }
        ensures capacity { vec_capacity held.new ≡ vec_capacity held.old }
        ensures size { IfOk result (λ payload. length payload ≡ buffer_size) }
    {
        self.check_qbuf(asked)?;
        if let Some(memory) = held.pop() {
            self.push(*asked, memory);
        }
        Ok(buffer_payload(&qbuf_answer(asked)))
    }

    /// Queues a buffer that is at home, with the memory that its record tells of: a frame of the
    /// length that the buffer has, or a user's memory into which a picture goes.
    fn push(&mut self, buffer: BufferRec, memory: Held)
        requires index { buffer.index < length (queue_of self.old buffer.kind).lengths }
        requires home { is_at_home (queue_of self.old buffer.kind) buffer.index ≡ true }
        requires told { length (mem_bytes memory.mem) ≡ buffer.length }
        requires frame { (queue_of self.old buffer.kind).kind ≡ MEMORY_MMAP →
            IfSome (slice_get (queue_of self.old buffer.kind).lengths buffer.index)
            (λ n. n ≡ buffer.length) }
        requires room { ((queue_of self.old buffer.kind).kind ≡ MEMORY_MMAP) ⊎
            (picture_size (queue_of self.old buffer.kind).format ≤ buffer.length) }
        ensures { self.new ≡ with_queued self.old buffer (memory ∷ []) }
    {
        let place = place_in(self.model.queues(), buffer.kind);
        push_at(&mut self.queues, place, buffer, memory);
    }

    /// Refuses a buffer that the queue of its type doesn't take, and more bytes in use of a source
    /// than its memory has.
    #[tactic(auto, unfolding(crate::specs::Rows::qbuf_row), using(crate::proofs::CallLemmas::qbuf_refusal))]
    fn check_qbuf(&self, asked: &BufferRec) -> Result<(), Errno>
        ensures ok { OnOk result (first_refusal (qbuf_row self.now asked.now []).refusals ≡ None) }
        ensures err { IfErr result (λ e. Refuses (qbuf_row self.now asked.now []) e) }
    {
        self.check_type(asked.kind)?;
        let place = place_in(self.model.queues(), asked.kind);
        if takes_at(&self.queues, place, asked) && !tells_more(self.model, asked) {
            Ok(())
        } else {
            Err(Errno::Einval)
        }
    }
}

// Whether the buffer is a source and has more bytes in use than its memory has.
fn tells_more(model: v4l_const::Model, asked: &BufferRec) -> bool
    ensures { result ≡ (is_source model asked.now.kind &&
        nat_lt asked.now.length asked.now.bytesused) }
{
    is_source(model, asked.kind) && asked.length < asked.bytesused
}
