ghost use Rattle.std.specs.Prelude.{◌≡◌, ◌≤◌, ◌++◌, drop, true, IsTrue, IsFalse};
ghost use Rattle.v4l_format.specs.Fmt.{picture_size};
ghost use Rattle.vm_frame.specs.Mem.{mem_bytes, mem_rest};
ghost use Rattle.vm_io.specs.Faults.{Rose};
ghost use Rattle.vm_job.specs.Job.{IsJob, CameBack, HasPicture, picture_of};

use crate::Gate;
use v4l_convert::convert;
use v4l_pattern::fill_pattern;
use vm_frame::Held;
use vm_io::Engine;
use vm_job::{DoneJob, Job, JobSpec};

/// Does a job: it passes the gate and tries the engine once. Where the engine fails, the job comes
/// back bad, with its memories as they were; else it comes back good, with its picture. It takes
/// no memory.
///
/// Source: own.
pub fn work<E: Engine, G: Gate>(job: Job, engine: &mut E, gate: &G) -> DoneJob
    ensures back { CameBack job result }
    ensures good { IsTrue result.good → HasPicture result.job }
    ensures well { IsTrue result.good → E.faults engine.new ≡ E.faults engine.old }
    ensures bad { IsFalse result.good → Rose (E.faults engine.old) (E.faults engine.new) }
    ensures count { E.faults engine.old ≤ E.faults engine.new }
{
    gate.pass(job.spec.name());
    match engine.try_run() {
        Ok(()) => with_picture(job).done(true),
        Err(_failed) => job.done(false),
    }
}

/// The job once its picture was made.
fn with_picture(job: Job) -> Job
    ensures back { CameBack job (record { job = result; good = true }) }
    ensures picture { HasPicture result }
{
    let Job { spec, src, mut dst } = job;
    make_picture(&spec, &src, &mut dst);
    Job { spec, src, dst }
}

/// Makes the picture of a job in the memory for it.
fn make_picture(spec: &JobSpec, src: &Option<Held>, dst: &mut Held)
    requires { IsJob (record { spec = spec.now; src = src.now; dst = dst.old }) }
    ensures bytes { mem_bytes dst.new.mem ≡ picture_of spec.now src.now ++
        drop (picture_size spec.now.dst) (mem_bytes dst.old.mem) }
    ensures rest { mem_rest dst.new.mem ≡ mem_rest dst.old.mem }
    ensures queue { dst.new.queue ≡ dst.old.queue }
    ensures index { dst.new.index ≡ dst.old.index }
{
    match src {
        None => fill_pattern(spec.input, spec.seq, &spec.dst, &mut dst.mem),
        Some(held) => convert(&spec.src, &held.mem, &spec.dst, &mut dst.mem),
    }
}
