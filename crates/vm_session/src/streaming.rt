// The frames of a session: a job begins, comes back, and its events are sent one by one.

ghost use Rattle.std.specs.Prelude.{◌≡◌, Some, IfSome, IfErr, OnOk, OnErr, if◌then◌else◌, is_some};
ghost use Rattle.v4l_format.specs.Fmt.{IsAdjusted};
ghost use Rattle.vm_session.specs.State.{is_quiet};
ghost use Rattle.vm_session.specs.Streaming.{can_begin, next_spec, next_job, begun, outstanding, IsStranger, finished, oldest, sent};

use crate::events::push_events;
use crate::heads::{Heads, are_ready, job_with, running_with, take_heads};
use crate::returns::{count_frame, settle_at};
use crate::{Session, Unsent};
use v4l_rules::place_in;
use vm_frame::Held;
use vm_job::{DoneJob, Job, JobSpec, Stranger};
use vm_wire::EventMsg;

impl Session {
    /// Whether a job can begin: none runs, all queues of the model stream, and each has a buffer
    /// queued.
    pub fn can_begin(&self) -> bool
        ensures { result ≡ can_begin self.now }
    {
        self.running.is_none() && are_ready(&self.queues)
    }

    /// Whether no job runs and no event is unsent, so that a call that stops can be done.
    pub fn is_quiet(&self) -> bool
        ensures { result ≡ is_quiet self.now }
    {
        self.running.is_none() && self.unsent.is_empty()
    }

    /// Begins a job under this number: the buffer that is queued first leaves each queue of the
    /// model, and goes into the job with its memory. The job's picture is that of the input, or is
    /// made from the buffer of the source queue, and its sequence number is the next one of the
    /// pictures. None is answered exactly where no job can begin.
    ///
    /// Source: own, after the Linux V4L2 interface.
    pub fn begin(&mut self, number: u64) -> Option<Job>
        ensures exactly { is_some result ≡ can_begin self.old }
        ensures job { IfSome result (λ job. next_job self.old number ≡ Some job) }
        ensures session { self.new ≡
            (if can_begin self.old then begun self.old number else self.old) }
    {
        if !self.can_begin() {
            return None;
        }
        let spec = self.next_spec(number);
        let Heads { src, dst } = take_heads(&mut self.queues, self.model);
        self.running = Some(running_with(spec, &src, &dst));
        Some(job_with(spec, src, dst))
    }

    /// Takes a job that came back, and its events are unsent behind the others: of a camera's good
    /// frame the event that it began and then its buffer, of a bad one the buffer alone; of a
    /// converter's the buffer that was read and then the one of the picture. In a bad frame no byte
    /// of the picture's buffer is in use, and each buffer is marked. The numbers of the queues'
    /// frames rise by one.
    ///
    /// # Errors
    /// The job is handed back exactly where none of its number runs, or one with another spec,
    /// which is told.
    ///
    /// Source: own, after the Linux V4L2 interface.
    pub fn finish(&mut self, done: DoneJob) -> Result<(), Stranger>
        ensures awaited { OnOk result (outstanding self.old done.job.spec.number ≡
            Some done.job.spec) }
        ensures finished { OnOk result (self.new ≡ finished self.old done) }
        ensures stranger { IfErr result (λ stranger. IsStranger self.old done stranger) }
        ensures kept { OnErr result (self.new ≡ self.old) }
    {
        let spec = self.outstanding(done.job.spec.number);
        match spec {
            Some(awaited) if awaited == done.job.spec => {
                self.take_back(done);
                Ok(())
            }
            _ => Err(Stranger { done, spec }),
        }
    }

    /// Takes the oldest event that is unsent, with the memory that goes along. The buffer that it
    /// gives back is at home from then on. None is answered exactly where nothing is unsent.
    ///
    /// Source: own, after the events of the VIRTIO 1.4 draft's media device.
    pub fn next_event(&mut self) -> Option<(EventMsg, Option<Held>)>
        ensures event { result ≡ oldest self.old }
        ensures session { self.new ≡ sent self.old }
    {
        let Unsent { msg, held } = self.unsent.pop_front()?;
        if let EventMsg::Dequeued { session: _, buffer } = msg {
            let place = place_in(self.model.queues(), buffer.kind);
            settle_at(&mut self.queues, place, buffer.index);
        }
        Some((msg, held))
    }

    // What the next frame is to be, under this number.
    fn next_spec(&self, number: u64) -> JobSpec
        ensures spec { result ≡ next_spec self.now number }
        ensures src { IsAdjusted result.src }
        ensures dst { IsAdjusted result.dst }
    {
        let dst = self.format_of(self.model.picture_queue());
        JobSpec {
            session: self.id,
            number,
            model: self.model,
            input: self.input,
            seq: self.picture_number(),
            src: match self.model.source_queue() {
                Some(source) => self.format_of(source),
                None => dst,
            },
            dst,
        }
    }

    // The spec of the running job, if it has this number.
    fn outstanding(&self, number: u64) -> Option<JobSpec>
        ensures { result ≡ outstanding self.now number }
    {
        match self.running {
            Some(running) if running.spec.number == number => Some(running.spec),
            _ => None,
        }
    }

    // Takes the job that came back, where one runs: its events are unsent, and its frame is
    // counted.
    fn take_back(&mut self, done: DoneJob)
        ensures { self.new ≡ finished self.old done }
    {
        let DoneJob { job, good } = done;
        let Job { spec: _, src, dst } = job;
        if let Some(running) = self.running {
            let sync_event = self.sync_event(good);
            let src_event = self.src_event(&running, good, src);
            let dst_event = self.dst_event(&running, good, dst);
            count_frame(&mut self.queues);
            push_events(&mut self.unsent, sync_event, src_event, dst_event);
            self.running = None;
        }
    }
}
