//! The frames of the device: a job begins for a session, comes back, and its events are sent one by
//! one.
ghost use Rattle.std.specs.Prelude.{◌≡◌, ◌<◌, ◌≤◌, ◌+◌, ◌-◌, ◌^◌, ◌++◌, ◌==◌, length, replicate, find, filter, not, vec_capacity, slice_index_or, slice_set, Some, None, IsSome, IfOk, IfErr, OnOk, OnErr};
ghost use Rattle.std.specs.Option.{option_map};
ghost use Rattle.std.specs.VecDeque.{deque_capacity};
ghost use Rattle.vm_session.specs.State.{SessionState};
ghost use Rattle.vm_session.specs.Streaming.{outstanding as outstanding_in, IsStranger as IsStrangerIn, finished};
ghost use Rattle.vm_device.specs.Stream.{Begins, IsStranger, Finishes, Sends, events_more};

use crate::Device;
use crate::sessions::{Sessions, mark};
use std::collections::VecDeque;
use vm_frame::Held;
use vm_job::{DoneJob, Job, JobOut, JobSpec, Stranger, entry_of};
use vm_wire::EventMsg;

/// What the job that is out under a number is to make.
fn spec_of(jobs: &[JobOut], number: u64) -> Option<JobSpec>
    ensures { result ≡ option_map (λ e. e.spec) (find (λ e. e.spec.number == number) jobs.now) }
{
    jobs.iter()
        .find(|entry| entry.spec.number == number)
        .map(|entry| entry.spec)
}

/// Gives a job back to its session, and tells how many events the session has to send for it.
fn give_back(sessions: &mut Sessions, session: u32, done: DoneJob) -> Result<u32, Stranger>
    requires live { IsSome (slice_index_or sessions.old session None) }
    ensures awaited { (s : SessionState) → slice_index_or sessions.old session None ≡ Some s →
        OnOk result (outstanding_in s done.job.spec.number ≡ Some done.job.spec) }
    ensures finished { (s : SessionState) → slice_index_or sessions.old session None ≡ Some s →
        OnOk result (sessions.new ≡ slice_set sessions.old session (Some (finished s done))) }
    ensures events { (s : SessionState) → slice_index_or sessions.old session None ≡ Some s →
        IfOk result (λ n. n ≡ events_more s done) }
    ensures few { (s : SessionState) → slice_index_or sessions.old session None ≡ Some s →
        OnOk result (length (finished s done).unsent ≤ 64) }
    ensures stranger { (s : SessionState) → slice_index_or sessions.old session None ≡ Some s →
        IfErr result (λ stranger. IsStrangerIn s done stranger) }
    ensures kept { OnErr result (sessions.new ≡ sessions.old) }
{
    let session = sessions.get_mut(session).unwrap();
    let before = session.unsent();
    session.finish(done)?;
    Ok(session.unsent() - before)
}

/// Takes the job of a session away.
fn drop_jobs(jobs: &mut Vec<JobOut>, session: u32)
    ensures jobs { jobs.new.items ≡ filter (λ e. not (e.spec.session == session)) jobs.old.items }
    ensures capacity { vec_capacity jobs.new ≡ vec_capacity jobs.old }
{
    jobs.retain(|entry| entry.spec.session != session);
}

/// Puts so many events of a session behind the others.
fn push_events(unsent: &mut VecDeque<u32>, session: u32, count: u32)
    requires { length unsent.old.items + count ≤ deque_capacity unsent.old }
    ensures events { unsent.new.items ≡ unsent.old.items ++ replicate count session }
    ensures capacity { deque_capacity unsent.new ≡ deque_capacity unsent.old }
{
    for _event in 0..count {
        unsent.push_back(session).unwrap();
    }
}

impl Device {
    /// Begins a job for a session, under the next number. The buffer that is queued first leaves
    /// each queue of the session, and goes into the job with its memory. `None` is answered exactly
    /// where the session isn't live or has no frame to make: a job of it runs, a queue of it
    /// doesn't stream, or one has no buffer queued. Fewer than 2^64 - 1 jobs were begun before.
    ///
    /// Source: own, after the Linux V4L2 interface.
    pub fn begin(&mut self, session: u32) -> Option<Job>
        requires { self.old.begun < 2 ^ 64 - 1 }
        ensures { Begins self.old session result self.new }
    {
        let job = self.sessions.get_mut(session)?.begin(self.begun)?;
        self.begun += 1;
        self.jobs.push_reserved(entry_of(&job));
        mark(&mut self.ready, &self.sessions, session);
        Some(job)
    }

    /// Takes a job that came back: it is out no more, and its events are to be sent, behind those
    /// of other jobs.
    ///
    /// # Errors
    /// The job is handed back exactly where none of its number is out, or one with another spec,
    /// which is told. Nothing changes then.
    ///
    /// Source: own, after the Linux V4L2 interface.
    pub fn finish(&mut self, done: DoneJob) -> Result<(), Stranger>
        ensures finished { OnOk result (Finishes self.old done self.new) }
        ensures stranger { IfErr result (λ stranger. IsStranger self.old done stranger) }
        ensures kept { OnErr result (self.new ≡ self.old) }
    {
        let Some(spec) = spec_of(&self.jobs, done.job.spec.number) else {
            return Err(Stranger { done, spec: None });
        };
        let session = spec.session;
        let events = give_back(&mut self.sessions, session, done)?;
        drop_jobs(&mut self.jobs, session);
        push_events(&mut self.unsent, session, events);
        mark(&mut self.ready, &self.sessions, session);
        Ok(())
    }

    /// Takes the oldest event that is to be sent, with the memory that goes along. `None` is
    /// answered exactly where none is.
    ///
    /// Source: own, after the events of the VIRTIO 1.4 draft's media device.
    pub fn next_event(&mut self) -> Option<(EventMsg, Option<Held>)>
        ensures { Sends self.old self.old.unsent result self.new }
    {
        let session = self.unsent.pop_front()?;
        let event = self.sessions.get_mut(session).unwrap().next_event();
        mark(&mut self.ready, &self.sessions, session);
        event
    }
}
