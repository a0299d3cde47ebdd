// A whole capture, command by command, reply by reply and event by event. All pictures are GREY, 16
// by 16, and have 256 bytes. The numbers are those of the wire, worked by hand.

ghost use Rattle.std.specs.Prelude.{◌≡◌, ◌<◌, ◌≤◌, length, take};
ghost use Rattle.v4l_format.specs.Fmt.{IsAdjusted, picture_size};
ghost use Rattle.v4l_format.specs.Pattern.{patterns};
ghost use Rattle.v4l_format.specs.Picture.{pattern_picture};
ghost use Rattle.vm_frame.specs.Mem.{mem_bytes};

use super::rig::{Rig, Words, check, command, is_written};
use std::alloc::Global;
use std::test::Fail;
use v4l_format::{pattern_byte, sizeimage};
use vm_frame::{Frame, Held, MAX_ENTRIES, Mem, SgEntry, User};
use vm_job::{DoneJob, Job, JobSpec, Stranger};
use vm_link::{Finished, Parcel};
use vm_mem::{Page, Store};

const GREY: u32 = 0x5945_5247;

const MMAP: u32 = 1;

const USERPTR: u32 = 2;

// How much room there is for a reply.
const ROOM: u32 = 304;

// ---- messages

fn words(front: [u32; 10]) -> Words {
    let mut words = [0; 32];
    words[..10].copy_from_slice(&front);
    words
}

// A QBUF in a session, of a type, index, memory kind and length.
type Asked = (u32, u32, u32, u32, u32);

pub(super) fn qbuf(asked: Asked) -> Words {
    let (session, kind, index, memory, length) = asked;
    let mut words = words([3, 0, session, 15, index, kind, 0, 0, 0, 0]);
    words[19] = memory;
    words[20] = 0x10_0000 * (index % 32);
    words[22] = length;
    words
}

// The reply to it.
fn queued(index: u32) -> Words {
    let mut words = words([0, 0, index, 1, 0, 0, 0, 0, 0, 0]);
    words[17] = MMAP;
    words[18] = 0x10_0000 * (index % 32);
    words[20] = 256;
    words
}

// The event that tells of a buffer: its bytes in use, its flags, and of its frame the number and
// the microseconds.
fn dequeued(index: u32, used: u32, flags: u32, frame: u32, micros: u32) -> Words {
    let mut words = words([1, 0, index, 1, used, flags, 1, 0, 0, 0]);
    words[10] = micros;
    words[16] = frame;
    words[17] = MMAP;
    words[18] = 0x10_0000 * (index % 32);
    words[20] = 256;
    words
}

// The event that tells of a frame, and its nanoseconds.
fn happened(frame: u32, nanos: u32) -> Words {
    let mut words = words([2, 0, 4, 0, frame, 0, 0, 0, 0, 0]);
    words[24] = nanos;
    words
}

// ---- memories

fn frame(alloc: Global, kind: u32, index: u32, length: u32) -> Result<Held, Fail> {
    Ok(Held {
        queue: kind,
        index,
        mem: Mem::OfFrame(Frame::make_zero(alloc, 99, length)?),
    })
}

// A user's memory of so many bytes, from the front of a page on.
pub(super) fn user(alloc: Global, length: u32) -> Result<Held, Fail>
    requires few { length ≤ 4096 }
    requires some { 1 ≤ length }
{
    let mut entries = Vec::with_capacity(alloc, MAX_ENTRIES)?;
    entries.push_reserved(SgEntry {
        start: 0x1_0000_0000,
        len: length,
    });
    let mut pages = Vec::with_capacity(alloc, 1)?;
    pages.push_reserved(Page::make_zero(alloc, 0x10_0000)?);
    Ok(Held {
        queue: 1,
        index: 0,
        mem: Mem::OfUser(User { entries, pages }),
    })
}

// No memory, with room for those that a command may give back.
fn none(alloc: Global) -> Result<Vec<Held>, Fail> {
    Ok(Vec::with_capacity(alloc, 80)?)
}

pub(super) fn only(alloc: Global, memory: Held) -> Result<Vec<Held>, Fail> {
    let mut held = none(alloc)?;
    held.push(memory)?;
    Ok(held)
}

// The only memory that a chain brought, which is that of this buffer.
fn brought(mut done: Finished, index: u32) -> Result<Held, Fail> {
    let memory = done.parcel.held.pop().ok_or("no memory")?;
    check(done.parcel.held.is_empty(), "a memory more")?;
    check((memory.queue, memory.index) == (1, index), "another memory")?;
    Ok(memory)
}

// ---- steps

// Sends a command with no memory, and compares the reply.
pub(super) fn call(
    rig: &mut Rig,
    asked: [u32; 10],
    len: u32,
    reply: [u32; 10],
    used: u32,
) -> Result<Finished, Fail> {
    let alloc = rig.alloc();
    let parcel = command(alloc, &words(asked), len, ROOM, none(alloc)?)?;
    let done = rig.execute(parcel)?.ok_or("it waits")?;
    check(is_written(&done, 1, &words(reply), used), "another reply")?;
    Ok(done)
}

// Queues a buffer with its memory.
fn queue(rig: &mut Rig, memory: Held) -> Result<(), Fail> {
    let alloc = rig.alloc();
    let index = memory.index;
    let asked = qbuf((0, 1, index, MMAP, 256));
    let parcel = command(alloc, &asked, 104, ROOM, only(alloc, memory)?)?;
    let done = rig.execute(parcel)?.ok_or("it waits")?;
    check(is_written(&done, 1, &queued(index), 96), "another reply")?;
    Ok(check(done.parcel.held.is_empty(), "the memory is left")?)
}

// Sends a QBUF of so many bytes that is refused, and leaves its memories.
fn refuse(rig: &mut Rig, asked: &Words, len: u32, held: Vec<Held>, errno: u32) -> Result<(), Fail> {
    let parcel = command(rig.alloc(), asked, len, ROOM, held)?;
    refuse_chain(rig, parcel, errno)
}

// Sends a chain that is refused, and leaves its memories.
pub(super) fn refuse_chain(rig: &mut Rig, parcel: Parcel, errno: u32) -> Result<(), Fail> {
    let count = parcel.held.len();
    let done = rig.execute(parcel)?.ok_or("it waits")?;
    let refusal = words([errno, 0, 0, 0, 0, 0, 0, 0, 0, 0]);
    check(is_written(&done, 1, &refusal, 8), "another refusal")?;
    Ok(check(done.parcel.held.len() == count, "the memory is gone")?)
}

// Sends the oldest event, and compares it.
fn tell(rig: &mut Rig, event: &Words, used: u32) -> Result<Finished, Fail> {
    let done = rig.announce()?.ok_or("no event")?;
    check(is_written(&done, 0, event, used), "another event")?;
    Ok(done)
}

// ---- pictures

// Puts the picture of a camera's job into the memory for it.
#[tactic(auto, unfolding(v4l_format::specs::Picture::pattern_picture))]
fn draw(spec: &JobSpec, mem: &mut Mem)
    requires adjusted { IsAdjusted spec.now.dst }
    requires input { spec.now.input < length patterns }
    requires room { picture_size spec.now.dst ≤ length (mem_bytes mem.old) }
    ensures size { length (mem_bytes mem.new) ≡ length (mem_bytes mem.old) }
    ensures picture { take (picture_size spec.now.dst) (mem_bytes mem.new) ≡
        pattern_picture spec.now.input spec.now.seq spec.now.dst }
{
    for i in 0..sizeimage(&spec.dst) {
        mem.set(i, pattern_byte(spec.input, spec.seq, &spec.dst, i));
    }
}

// The job done well, where it is a camera's, else badly.
fn worked(job: Job) -> DoneJob {
    let Job { spec, src, dst } = job;
    if src.is_some() {
        return Job { spec, src, dst }.done(false);
    }
    let Held {
        queue,
        index,
        mut mem,
    } = dst;
    draw(&spec, &mut mem);
    let dst = Held { queue, index, mem };
    Job { spec, src, dst }.done(true)
}

// Whether a memory has the ramp of a frame: each byte is the sum of its place's numbers and the
// frame's.
fn is_ramp(mem: &Mem, frame: u8) -> bool {
    if mem.size() != 256 {
        return false;
    }
    let mut bytes = [0; 256];
    mem.copy_out(0, &mut bytes);
    let mut want = [0; 256];
    for (i, byte) in want.iter_mut().enumerate() {
        *byte = ((i % 16 + i / 16 + usize::from(frame)) % 256) as u8;
    }
    bytes == want
}

// ---- the capture

// Opens a session and makes three buffers, whose memories come along.
fn set_up(rig: &mut Rig) -> Result<Vec<Held>, Fail> {
    // The command's numbers and how many bytes it has; those of the reply.
    let rows = [
        // OPEN.
        ([1, 0, 0, 0, 0, 0, 0, 0, 0, 0], 8, [0; 10], 16),
        // S_FMT.
        (
            [3, 0, 0, 5, 1, 0, 16, 16, GREY, 0],
            224,
            [0, 0, 1, 0, 16, 16, GREY, 1, 16, 256],
            216,
        ),
        // S_INPUT: the ramp.
        (
            [3, 0, 0, 39, 1, 0, 0, 0, 0, 0],
            20,
            [0, 0, 1, 0, 0, 0, 0, 0, 0, 0],
            12,
        ),
        // STREAMON, where there is no buffer.
        (
            [3, 0, 0, 18, 1, 0, 0, 0, 0, 0],
            20,
            [22, 0, 0, 0, 0, 0, 0, 0, 0, 0],
            8,
        ),
    ];
    for (asked, len, reply, used) in rows {
        call(rig, asked, len, reply, used)?;
    }
    // REQBUFS.
    let made = call(
        rig,
        [3, 0, 0, 8, 3, 1, MMAP, 0, 0, 0],
        36,
        [0, 0, 3, 1, MMAP, 0x13, 0, 0, 0, 0],
        28,
    )?;
    Ok(made.parcel.held)
}

// Sends QBUFs that are refused.
fn refuse_frames(rig: &mut Rig) -> Result<(), Fail> {
    let alloc = rig.alloc();
    // What is asked for; the type, index and length of the frame that comes along; the errno.
    let rows = [
        // The session isn't live.
        ((9, 1, 0, MMAP, 256), (1, 0, 256), 9),
        // The frame isn't the one that is told: another type, index, kind or length.
        ((0, 1, 0, MMAP, 256), (2, 0, 256), 14),
        ((0, 1, 0, MMAP, 256), (1, 1, 256), 14),
        ((0, 1, 0, USERPTR, 256), (1, 0, 256), 14),
        ((0, 1, 0, MMAP, 255), (1, 0, 256), 14),
        // The buffer has another length.
        ((0, 1, 0, MMAP, 128), (1, 0, 128), 14),
        // There is no queue of this type, and no buffer of this index.
        ((0, 2, 0, MMAP, 256), (2, 0, 256), 22),
        ((0, 1, 3, MMAP, 256), (1, 3, 256), 22),
    ];
    for (asked, (kind, index, length), errno) in rows {
        let memory = frame(alloc, kind, index, length)?;
        refuse(rig, &qbuf(asked), 104, only(alloc, memory)?, errno)?;
    }
    let asked = qbuf((0, 1, 0, MMAP, 256));
    // No memory, and two.
    refuse(rig, &asked, 104, none(alloc)?, 14)?;
    let mut two = only(alloc, frame(alloc, 1, 0, 256)?)?;
    two.push(frame(alloc, 1, 0, 256)?)?;
    refuse(rig, &asked, 104, two, 14)?;
    // A byte of the payload is missing.
    let memory = frame(alloc, 1, 0, 256)?;
    refuse(rig, &asked, 103, only(alloc, memory)?, 22)
}

// Sends QBUFs with a user's memory, each of which is refused.
fn refuse_users(rig: &mut Rig) -> Result<(), Fail> {
    let alloc = rig.alloc();
    // The length that is told, that of the entry behind the payload, how many bytes the command
    // has, and the errno.
    let rows = [
        // The queue's buffers are frames.
        (256, 256, 120, 22),
        // The entry has another length than the memory, has none, or is cut.
        (256, 255, 120, 14),
        (256, 0, 120, 14),
        (256, 256, 112, 22),
        // The buffer has another length.
        (100, 100, 120, 14),
    ];
    for (length, entry, len, errno) in rows {
        let mut asked = qbuf((0, 1, 0, USERPTR, length));
        asked[27] = 1;
        asked[28] = entry;
        refuse(rig, &asked, len, only(alloc, user(alloc, 256)?)?, errno)?;
    }
    Ok(())
}

// Queues the buffers with the memories, the first one first, and starts the stream.
fn start(rig: &mut Rig, mut frames: Vec<Held>) -> Result<(), Fail> {
    for index in 0..3 {
        check(!frames.is_empty(), "too few frames")?;
        let memory = frames.remove(0);
        check(memory.index == index, "another frame")?;
        queue(rig, memory)?;
    }
    // A buffer that is queued isn't queued again.
    let alloc = rig.alloc();
    let memory = frame(alloc, 1, 1, 256)?;
    refuse(
        rig,
        &qbuf((0, 1, 1, MMAP, 256)),
        104,
        only(alloc, memory)?,
        22,
    )?;
    check(!rig.host().can_begin(0), "it streams")?;
    let on = [3, 0, 0, 18, 1, 0, 0, 0, 0, 0];
    call(rig, on, 20, [0, 0, 1, 0, 0, 0, 0, 0, 0, 0], 12)?;
    Ok(check(rig.host().can_begin(0), "it doesn't stream")?)
}

// A good frame is told of twice, and gives back its buffer's memory with its picture.
fn a_good_frame(rig: &mut Rig) -> Result<Held, Fail> {
    let job = rig.begin(0)?.ok_or("no job")?;
    check(rig.finish(worked(job)).is_ok(), "a stranger")?;
    tell(rig, &happened(0, 0), 144)?;
    let done = tell(rig, &dequeued(0, 256, 0x2000, 0, 0), 608)?;
    let memory = brought(done, 0)?;
    check(is_ramp(&memory.mem, 0), "another picture")?;
    Ok(memory)
}

// A bad frame is told of once, with the mark.
fn a_bad_frame(rig: &mut Rig) -> Result<Held, Fail> {
    let job = rig.begin(0)?.ok_or("no job")?;
    check(rig.finish(job.done(false)).is_ok(), "a stranger")?;
    let done = tell(rig, &dequeued(1, 0, 0x2040, 1, 40_000), 608)?;
    brought(done, 1)
}

// A STREAMOFF waits while a job runs and while its events are unsent, and gives back the memory of
// buffer 0, which is queued again.
fn stop(rig: &mut Rig) -> Result<(), Fail> {
    let job = rig.begin(0)?.ok_or("no job")?;
    let alloc = rig.alloc();
    let off = words([3, 0, 0, 19, 1, 0, 0, 0, 0, 0]);
    let parcel = command(alloc, &off, 20, ROOM, none(alloc)?)?;
    check(rig.execute(parcel)?.is_none(), "it doesn't wait")?;
    check(rig.host().waiting().len() == 1, "no call waits")?;
    check(rig.resume(0)?.is_none(), "a job runs")?;
    check(rig.finish(worked(job)).is_ok(), "a stranger")?;
    // A buffer is queued and no job runs, but a call waits.
    check(rig.host().ready_len() == 0, "a session is ready")?;
    check(rig.begin(0)?.is_none(), "a job begins while a call waits")?;
    tell(rig, &happened(2, 80_000_000), 144)?;
    check(rig.resume(0)?.is_none(), "an event is unsent")?;
    let done = tell(rig, &dequeued(2, 256, 0x2000, 2, 80_000), 608)?;
    check(is_ramp(&brought(done, 2)?.mem, 2), "another picture")?;
    check(rig.host().resumable_len() == 1, "the call can't go on")?;
    let resumable = (rig.host().resumable_at(0), rig.host().resumable_at(1));
    check(resumable == (Some(0), None), "another call can go on")?;
    let done = rig.resume(0)?.ok_or("it waits")?;
    let reply = words([0, 0, 1, 0, 0, 0, 0, 0, 0, 0]);
    check(is_written(&done, 1, &reply, 12), "another reply")?;
    brought(done, 0)?;
    Ok(check(rig.host().waiting().is_empty(), "a call waits")?)
}

// A CLOSE gives back the memory that is queued, and the session is dead.
fn close(rig: &mut Rig, memory: Held) -> Result<(), Fail> {
    queue(rig, memory)?;
    let asked = [2, 0, 0, 0, 0, 0, 0, 0, 0, 0];
    let done = call(rig, asked, 16, [0; 10], 8)?;
    brought(done, 1)?;
    call(rig, asked, 16, [9, 0, 0, 0, 0, 0, 0, 0, 0, 0], 8)?;
    Ok(check(rig.announce()?.is_none(), "an event is left")?)
}

#[test]
fn a_whole_capture(rt: HostRuntime) -> Result<(), Fail> {
    let mut rig = Rig::new(rt.alloc())?;
    let frames = set_up(&mut rig)?;
    refuse_frames(&mut rig)?;
    refuse_users(&mut rig)?;
    start(&mut rig, frames)?;
    let first = a_good_frame(&mut rig)?;
    let second = a_bad_frame(&mut rig)?;
    queue(&mut rig, first)?;
    stop(&mut rig)?;
    close(&mut rig, second)
}

// ---- strangers

// The job under other numbers.
fn renumbered(job: Job, number: u64, seq: u32) -> Job {
    let Job { spec, src, dst } = job;
    let spec = JobSpec {
        number,
        seq,
        ..spec
    };
    Job { spec, src, dst }
}

#[test]
fn strangers_are_handed_back(rt: HostRuntime) -> Result<(), Fail> {
    let mut rig = Rig::new(rt.alloc())?;
    let frames = set_up(&mut rig)?;
    start(&mut rig, frames)?;
    let mut running = rig.begin(0)?;
    assert_eq!(rt; rig.host().jobs_out().len(), 1);
    // The job's numbers as it comes back; where it is a stranger, the frame's number of the job
    // that is out under its own.
    for (number, seq, told) in [(7, 0, None), (0, 5, Some(0)), (0, 0, None)] {
        let job = running.ok_or("no job")?;
        running = match rig.finish(renumbered(job, number, seq).done(false)) {
            Ok(()) => None,
            Err(Stranger { done, spec }) => {
                assert_eq!(rt; spec.map(|spec| spec.seq), told);
                assert_eq!(rt; (done.job.spec.number, done.job.spec.seq), (number, seq));
                assert!(rt; !rig.host().has_unsent());
                Some(done.job)
            }
        };
    }
    // The last one was its own.
    assert!(rt; running.is_none());
    assert!(rt; rig.host().jobs_out().is_empty());
    tell(&mut rig, &dequeued(0, 0, 0x2040, 0, 0), 608)?;
    Ok(())
}
