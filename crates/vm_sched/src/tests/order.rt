// In which order the log of a handle has its calls and what the device tells. A log is compared by
// its letters: c for a call, f for a frame, g for an event or a buffer that the driver has.

use super::play::Play;
use super::scripts::{script_of, with_raw};
use std::alloc::Global;
use std::test::Fail;
use v4l_const::Errno;
use vm_local::{Reply, Small};
use vm_script::RawChain;
use vm_world::Step;

const ISSUE: Step = Step::Issue(0);

// A camera's first session makes a frame, of which it tells by an event and by the buffer.
fn frame(play: Play, number: u64) -> Result<Play, Fail> {
    play.steps(&[
        Step::Begin(0),
        Step::Finish(number),
        Step::Announce,
        Step::Announce,
    ])
}

// A script whose first process has so many calls answered, one after the other.
fn played(alloc: Global, text: &[u8], calls: u32) -> Result<Play, Fail> {
    Ok(Play::new(alloc, script_of(alloc, text)?)?.calls(0, calls)?)
}

#[test]
fn what_is_held_is_logged_behind_the_call(rt: HostRuntime) -> Result<(), Fail> {
    let text = b"open a\nreqbufs a cap mmap 1\nqbuf a cap 0\nstreamon a cap\nquerycap a\n";
    let mut play = played(rt.alloc(), text, 4)?;
    play = frame(play.steps(&[ISSUE])?, 0)?;
    play = play.steps(&[Step::Pump, Step::Execute, Step::Pump])?;
    assert!(rt; play.tells(0, b"cccc"));
    play = play.steps(&[Step::Collect])?;
    assert!(rt; play.tells(0, b"cccccfgg"));
    Ok(())
}

#[test]
fn a_blocked_dqbuf_is_answered_with_its_buffer(rt: HostRuntime) -> Result<(), Fail> {
    let text = b"open a\nreqbufs a cap mmap 1\nqbuf a cap 0\nstreamon a cap\ndqbuf a cap\n";
    let mut play = played(rt.alloc(), text, 4)?;
    play = frame(play.steps(&[ISSUE])?, 0)?;
    play = play.steps(&[Step::Pump])?;
    assert!(rt; play.tells(0, b"ccccfg"));
    play = play.steps(&[Step::Pump])?;
    assert!(rt; play.tells(0, b"ccccfggc"));
    Ok(())
}

// A process's `dqevent`, though it is refused, takes all events of the other's handle. Its blocked
// `dqbuf` is answered between them.
#[test]
fn a_blocked_dqbuf_is_answered_before_later_events(rt: HostRuntime) -> Result<(), Fail> {
    let text = b"\
open a\n\
reqbufs a cap mmap 2\n\
qbuf a cap 0\n\
qbuf a cap 1\n\
streamon a cap\n\
dqbuf a cap\n\
proc\n\
open b\n\
dqevent b\n\
";
    let mut play = played(rt.alloc(), text, 5)?.calls(1, 1)?;
    play = frame(play.steps(&[ISSUE])?, 0)?;
    play = frame(play, 1)?;
    assert!(rt; play.tells(0, b"ccccc"));
    play = play.steps(&[Step::Issue(1)])?;
    assert!(rt; play.tells(0, b"cccccfggcfgg"));
    assert_eq!(rt; play.last_reply(1), Some(Reply::Refused(Errno::Enoent)));
    Ok(())
}

// A `dqbuf` takes the events first, and looks then: it has the buffer, and the next one is refused,
// since no buffer can come.
#[test]
fn a_dqbuf_looks_behind_the_events(rt: HostRuntime) -> Result<(), Fail> {
    let texts: [(&[u8], Errno); 2] = [
        (
            b"\
open a\n\
reqbufs a cap mmap 1\n\
qbuf a cap 0\n\
streamon a cap\n\
dqbuf a cap\n\
dqbuf a cap\n\
",
            Errno::Edeadlk,
        ),
        (
            b"\
open a nonblock\n\
reqbufs a cap mmap 1\n\
qbuf a cap 0\n\
streamon a cap\n\
dqbuf a cap\n\
dqbuf a cap\n\
",
            Errno::Eagain,
        ),
    ];
    for (text, errno) in texts {
        let mut play = frame(played(rt.alloc(), text, 4)?, 0)?;
        play = play.steps(&[ISSUE])?;
        assert!(rt; play.tells(0, b"ccccfggc"));
        let flags = 0x2000;
        let reply = Reply::Frame {
            index: 0,
            used: 3072,
            seq: 0,
            ts: 0,
            flags,
        };
        assert_eq!(rt; play.last_reply(0), Some(reply));
        play = play.steps(&[ISSUE])?;
        assert_eq!(rt; play.last_reply(0), Some(Reply::Refused(errno)));
    }
    Ok(())
}

// While a stopping call is on its way nothing is held, though it is refused; and before it is logged
// every event is taken.
#[test]
fn a_stopping_call_is_logged_behind_the_events(rt: HostRuntime) -> Result<(), Fail> {
    let text = b"open a\nreqbufs a cap mmap 1\nqbuf a cap 0\nstreamon a cap\nstreamoff a out\n";
    let mut play = played(rt.alloc(), text, 4)?;
    play = frame(play.steps(&[ISSUE])?, 0)?;
    play = play.steps(&[Step::Pump, Step::Execute])?;
    assert!(rt; play.tells(0, b"ccccfg"));
    play = play.steps(&[Step::Collect])?;
    assert!(rt; play.tells(0, b"ccccfggc"));
    assert_eq!(rt; play.last_reply(0), Some(Reply::Refused(Errno::Einval)));
    Ok(())
}

// The same where the call stops the queue. It waits until all events are sent.
#[test]
fn a_call_that_stops_waits_for_the_events(rt: HostRuntime) -> Result<(), Fail> {
    let text = b"open a\nreqbufs a cap mmap 1\nqbuf a cap 0\nstreamon a cap\nstreamoff a cap\n";
    let mut play = played(rt.alloc(), text, 4)?;
    play = play.steps(&[ISSUE, Step::Begin(0), Step::Execute, Step::Finish(0)])?;
    play = play.steps(&[Step::Announce, Step::Pump])?;
    assert!(rt; play.tells(0, b"ccccfg"));
    play = play.steps(&[Step::Announce, Step::Resume(0)])?;
    assert!(rt; play.tells(0, b"ccccfg"));
    play = play.steps(&[Step::Collect])?;
    assert!(rt; play.tells(0, b"ccccfggc"));
    assert_eq!(rt; play.last_reply(0), Some(Reply::Done));
    Ok(())
}

// While a raw line is on its way nothing is held, though it spells the close of a session, and its
// reply is taken without the events.
#[test]
fn a_raw_line_leaves_the_events(rt: HostRuntime) -> Result<(), Fail> {
    let text = b"open a\nreqbufs a cap mmap 1\nqbuf a cap 0\nstreamon a cap\n";
    let close = [2, 0, 0, 0, 0, 0, 0, 0, 0, 64, 0, 0, 0, 0, 0, 0];
    let bytes = Small::new(&close).ok_or("too many bytes")?;
    let raw = RawChain::Bytes { bytes, room: 64 };
    let script = with_raw(rt.alloc(), script_of(rt.alloc(), text)?, &raw)?;
    let mut play = Play::new(rt.alloc(), script)?.calls(0, 4)?;
    play = frame(play.steps(&[ISSUE])?, 0)?;
    play = play.steps(&[Step::Pump])?;
    assert!(rt; play.tells(0, b"ccccfg"));
    play = play.steps(&[Step::Execute, Step::Collect])?;
    assert!(rt; play.tells(0, b"ccccfg"));
    assert_eq!(rt; play.world().guest().raw_answer(0, 4), Some(Errno::Ebadf));
    play = play.steps(&[Step::Pump])?;
    assert!(rt; play.tells(0, b"ccccfgg"));
    Ok(())
}

// The first event of the job that came back first is sent first, then that job's buffer, whichever
// session is opened first.
#[test]
fn events_are_sent_as_their_jobs_come_back(rt: HostRuntime) -> Result<(), Fail> {
    let text = b"\
open a\n\
reqbufs a cap mmap 1\n\
qbuf a cap 0\n\
streamon a cap\n\
proc\n\
open b\n\
reqbufs b cap mmap 1\n\
qbuf b cap 0\n\
streamon b cap\n\
";
    let mut play = played(rt.alloc(), text, 4)?.calls(1, 4)?;
    play = play.steps(&[
        Step::Begin(0),
        Step::Begin(1),
        Step::Finish(1),
        Step::Finish(0),
    ])?;
    for (first, second) in [
        (b"cccc".as_slice(), b"ccccfg".as_slice()),
        (b"cccc", b"ccccfgg"),
        (b"ccccfg", b"ccccfgg"),
        (b"ccccfgg", b"ccccfgg"),
    ] {
        play = play.steps(&[Step::Announce, Step::Pump])?;
        assert!(rt; play.tells(0, first));
        assert!(rt; play.tells(1, second));
    }
    Ok(())
}

// A line on a memory's bytes is judged when it is to go out, without the events: where its buffer is
// queued, it is refused and logged.
#[test]
fn a_refused_lease_is_logged_before_the_events(rt: HostRuntime) -> Result<(), Fail> {
    let text = b"\
open a\n\
reqbufs a cap mmap 1\n\
mmap a m cap 0\n\
qbuf a cap 0\n\
streamon a cap\n\
read a m 0 2\n\
";
    let mut play = frame(played(rt.alloc(), text, 5)?, 0)?;
    play = play.steps(&[Step::Lease(0)])?;
    assert!(rt; play.tells(0, b"cccccc"));
    assert_eq!(rt; play.last_reply(0), Some(Reply::Refused(Errno::Ebusy)));
    play = play.steps(&[Step::Pump, Step::Pump])?;
    assert!(rt; play.tells(0, b"ccccccfgg"));
    Ok(())
}

// Where its memory goes out, it is logged when that is back, behind the events that came meanwhile.
#[test]
fn a_lease_is_logged_when_it_is_back(rt: HostRuntime) -> Result<(), Fail> {
    let text = b"\
open a\n\
reqbufs a cap mmap 2\n\
mmap a m cap 1\n\
qbuf a cap 0\n\
streamon a cap\n\
read a m 0 2\n\
";
    let mut play = played(rt.alloc(), text, 5)?.steps(&[Step::Lease(0)])?;
    play = frame(play, 0)?.steps(&[Step::Pump])?;
    assert!(rt; play.tells(0, b"cccccfg"));
    play = play.steps(&[Step::GiveBack(0)])?;
    assert!(rt; play.tells(0, b"cccccfgc"));
    let bytes = Small::new(&[0, 0]).ok_or("too many bytes")?;
    assert_eq!(rt; play.last_reply(0), Some(Reply::Bytes(bytes)));
    Ok(())
}
