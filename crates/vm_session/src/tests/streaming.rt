// Frames: jobs that begin and come back, and the messages that tell of them. All pictures are GREY,
// 16 by 16, and have 256 bytes.

ghost use Rattle.std.specs.Prelude.{◌≡◌, ◌<◌, ◌≤◌, length, take};
ghost use Rattle.v4l_format.specs.Fmt.{IsAdjusted, picture_size};
ghost use Rattle.v4l_format.specs.Pattern.{patterns};
ghost use Rattle.v4l_format.specs.Picture.{pattern_picture};
ghost use Rattle.vm_frame.specs.Mem.{mem_bytes};

use super::queueing::{TAKEN, frame, qbuf, record, switch};
use super::*;
use std::test::Fail;
use v4l_const::{IoctlCode, MEMORY_MMAP, Model};
use v4l_format::{pattern_byte, sizeimage};
use v4l_layout::BufferRec;
use vm_frame::{Held, Mem};
use vm_job::{DoneJob, Job, JobSpec, Stranger};
use vm_mem::Store;
use vm_wire::{EventMsg, frame_of};

// Puts the picture of a camera's job into the memory for it.
#[tactic(auto, unfolding(v4l_format::specs::Picture::pattern_picture))]
fn draw(spec: &JobSpec, mem: &mut Mem)
    requires adjusted { IsAdjusted spec.now.dst }
    requires input { spec.now.input < length patterns }
    requires room { picture_size spec.now.dst ≤ length (mem_bytes mem.old) }
    ensures size { length (mem_bytes mem.new) ≡ length (mem_bytes mem.old) }
    ensures picture { take (picture_size spec.now.dst) (mem_bytes mem.new) ≡
        pattern_picture spec.now.input spec.now.seq spec.now.dst }
{
    for i in 0..sizeimage(&spec.dst) {
        mem.set(i, pattern_byte(spec.input, spec.seq, &spec.dst, i));
    }
}

// The job done well, where it is a camera's, else badly.
fn worked(job: Job) -> DoneJob {
    let Job { spec, src, dst } = job;
    if src.is_some() {
        return Job { spec, src, dst }.done(false);
    }
    let Held {
        queue,
        index,
        mut mem,
    } = dst;
    draw(&spec, &mut mem);
    let dst = Held { queue, index, mem };
    Job { spec, src, dst }.done(true)
}

// The job under other numbers.
fn renumbered(job: Job, number: u64, seq: u32) -> Job {
    let Job { spec, src, dst } = job;
    let spec = JobSpec {
        number,
        seq,
        ..spec
    };
    Job { spec, src, dst }
}

// Begins a job under this number and takes it back, good or bad. Says whether both were done.
fn run(opened: &mut Opened, number: u64, good: bool) -> bool {
    let Some(job) = opened.session.begin(number) else {
        return false;
    };
    let done = if good { worked(job) } else { job.done(false) };
    opened.session.finish(done).is_ok()
}

// What a message tells.
#[derive(Clone, Copy, Debug, PartialEq, Eq)]
enum Told {
    // A buffer's type and index, its bytes in use, flags and number, and its seconds and
    // microseconds.
    Buffer(u32, u32, u32, u32, u32, (u64, u64)),
    // A frame's number, and its seconds and nanoseconds.
    Frame(u32, (u64, u64)),
    Nothing,
}

// What the next message tells, where it is for session 7 and brings the memory of its buffer alone.
fn next_told(opened: &mut Opened) -> Told {
    match opened.session.next_event() {
        Some(
            (
                EventMsg::Dequeued {
                    session: 7,
                    buffer: b,
                },
                Some(held),
            ),
        ) if held.queue == b.kind && held.index == b.index => {
            let stamp = (b.seconds, b.micros);
            Told::Buffer(b.kind, b.index, b.bytesused, b.flags, b.sequence, stamp)
        }
        Some((EventMsg::Happened { session: 7, event }, None)) => {
            Told::Frame(frame_of(&event), (event.seconds, event.nanos))
        }
        _ => Told::Nothing,
    }
}

// Queues a buffer of this type and index, with 100 bytes in use and a timestamp of 5 microseconds
// past 2 seconds and as many as its index.
fn queue_one(opened: &mut Opened, model: Model, t: u32, index: u32) -> Result<bool, Fail> {
    let asked = BufferRec {
        seconds: 2 + u64::from(index),
        ..record(model, t, index, MEMORY_MMAP, 256, 100)
    };
    let memory = frame(opened.alloc, t, index, 256)?;
    Ok(qbuf(opened, &asked, memory)? == TAKEN)
}

// Makes and queues three buffers of this type.
fn queue_three(opened: &mut Opened, model: Model, t: u32) -> Result<bool, Fail> {
    let mut is_done = reqbufs(opened, t, 1, 3).is_ok();
    opened.held.clear();
    for index in 0..3 {
        is_done &= queue_one(opened, model, t, index)?;
    }
    Ok(is_done)
}

// A session with the id 7 and pictures of 256 bytes, on the queue of this type.
fn open_small(alloc: Global, model: Model, t: u32) -> Result<Opened, Fail> {
    let mut opened = open_session(alloc, model, 7)?;
    let _set = sfmt(&mut opened, t, GREY, 16, 16);
    Ok(opened)
}

#[test]
fn a_cameras_frames_are_told(rt: HostRuntime) -> Result<(), Fail> {
    let mut opened = open_small(rt.alloc(), Model::Capture, CAP)?;
    assert!(rt; queue_three(&mut opened, Model::Capture, CAP)?);
    // The queue doesn't stream yet.
    assert!(rt; !run(&mut opened, 0, false));
    assert_eq!(rt; switch(&mut opened, IoctlCode::StreamOn, CAP), Ok(()));
    for (number, good) in [(4, true), (5, false), (9, true)] {
        assert!(rt; opened.session.can_begin());
        assert!(rt; run(&mut opened, number, good));
    }
    // No buffer is queued any more.
    assert!(rt; !run(&mut opened, 10, false));
    assert!(rt; !opened.session.is_quiet());
    for want in [
        Told::Frame(0, (0, 0)),
        Told::Buffer(CAP, 0, 256, 0x2000, 0, (0, 0)),
        Told::Buffer(CAP, 1, 0, 0x2040, 1, (0, 40_000)),
        Told::Frame(2, (0, 80_000_000)),
        Told::Buffer(CAP, 2, 256, 0x2000, 2, (0, 80_000)),
        Told::Nothing,
    ] {
        assert_eq!(rt; next_told(&mut opened), want);
    }
    assert!(rt; opened.session.is_quiet());
    // The buffers are at home again.
    assert!(rt; queue_one(&mut opened, Model::Capture, CAP, 1)?);
    Ok(())
}

#[test]
fn strangers_are_handed_back(rt: HostRuntime) -> Result<(), Fail> {
    let mut opened = open_small(rt.alloc(), Model::Capture, CAP)?;
    assert!(rt; queue_three(&mut opened, Model::Capture, CAP)?);
    assert_eq!(rt; switch(&mut opened, IoctlCode::StreamOn, CAP), Ok(()));
    let mut running = opened.session.begin(5);
    // While a job runs none begins.
    assert!(rt; !opened.session.can_begin());
    assert!(rt; opened.session.begin(6).is_none());
    for (number, seq, told) in [(6, 0, None), (5, 1, Some(0)), (5, 0, None)] {
        assert!(rt; running.is_some());
        let Some(job) = running else {
            return Ok(());
        };
        let done = renumbered(job, number, seq).done(false);
        running = match opened.session.finish(done) {
            Ok(()) => None,
            Err(Stranger { done, spec }) => {
                assert_eq!(rt; spec.map(|spec| spec.seq), told);
                Some(done.job)
            }
        };
    }
    // The last one was its own.
    assert!(rt; running.is_none());
    assert_eq!(rt;
        next_told(&mut opened),
        Told::Buffer(CAP, 0, 0, 0x2040, 0, (0, 0))
    );
    Ok(())
}

#[test]
fn a_converter_gives_both_buffers_back(rt: HostRuntime) -> Result<(), Fail> {
    let mut opened = open_small(rt.alloc(), Model::Convert, OUT)?;
    assert!(rt; queue_three(&mut opened, Model::Convert, OUT)?);
    assert_eq!(rt; switch(&mut opened, IoctlCode::StreamOn, OUT), Ok(()));
    // The queue of pictures isn't ready.
    assert!(rt; !opened.session.can_begin());
    assert!(rt; queue_three(&mut opened, Model::Convert, CAP)?);
    assert_eq!(rt; switch(&mut opened, IoctlCode::StreamOn, CAP), Ok(()));
    assert!(rt; run(&mut opened, 1, false));
    for want in [
        Told::Buffer(OUT, 0, 100, 0x4040, 0, (2, 5)),
        Told::Buffer(CAP, 0, 0, 0x4040, 0, (2, 5)),
        Told::Nothing,
    ] {
        assert_eq!(rt; next_told(&mut opened), want);
    }
    // The queue of pictures is started again, and its frames are counted from 0.
    assert_eq!(rt; switch(&mut opened, IoctlCode::StreamOff, CAP), Ok(()));
    assert_eq!(rt; switch(&mut opened, IoctlCode::StreamOn, CAP), Ok(()));
    assert!(rt; queue_one(&mut opened, Model::Convert, CAP, 2)?);
    assert!(rt; run(&mut opened, 2, false));
    for want in [
        Told::Buffer(OUT, 1, 100, 0x4040, 1, (3, 5)),
        Told::Buffer(CAP, 2, 0, 0x4040, 0, (3, 5)),
        Told::Nothing,
    ] {
        assert_eq!(rt; next_told(&mut opened), want);
    }
    Ok(())
}
