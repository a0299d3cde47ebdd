// In which order the driver takes events, begins lines and logs replies.

use super::rig::{FIRST, Rig, STOP, check};
use super::scripts::two;
use std::test::Fail;
use v4l_const::Errno;
use vm_link::Turn;
use vm_local::{Call, Entry, Reply};

const OPEN: Call = Call::OpenHandle { nonblock: false };

// The session of the second process's handle.
const SECOND: u32 = 0;

// How many event chains there are.
const CHAINS: u16 = 16;

// A call that is refused.
fn refused(line: u32, call: Call, errno: Errno) -> Option<Entry> {
    Some(Entry::Called {
        line,
        call,
        reply: Reply::Refused(errno),
    })
}

// Both handles are open, and a call of the first is on its way.
fn set_out(rig: &mut Rig) -> Result<(), Fail> {
    for (p, session) in [(0, FIRST), (1, SECOND)] {
        check(rig.issue(u32::from(p))? == Turn::Did, "it doesn't open")?;
        check(rig.open(p, session)? == Turn::Did, "no reply")?;
    }
    check(!rig.guest().holds_back(FIRST), "no call is out")?;
    check(rig.issue(0)? == Turn::Did, "it doesn't begin")?;
    Ok(check(!rig.guest().holds_back(SECOND), "the call is another's")?)
}

#[test]
fn an_event_is_held_back_while_a_call_is_out(rt: HostRuntime) -> Result<(), Fail> {
    let script = two(rt.alloc(), &[OPEN, Call::QueryCap], &[OPEN])?;
    let mut rig = Rig::new(rt.alloc(), &script)?;
    set_out(&mut rig)?;
    assert_eq!(rt; rig.hold()?, Turn::Did);
    // It isn't logged, and its chain waits again.
    assert!(rt; rig.logged(0, 1).is_none());
    assert_eq!(rt; (rig.has_event(), rig.chains()), (false, CHAINS));
    Ok(())
}

#[test]
fn events_are_taken_before_calls_that_tell_of_them(rt: HostRuntime) -> Result<(), Fail> {
    let take = Call::DqBuf { t: 1 };
    let script = two(
        rt.alloc(),
        &[OPEN, Call::QueryCap],
        &[OPEN, take, Call::DqEvent, Call::QueryCap],
    )?;
    let mut rig = Rig::new(rt.alloc(), &script)?;
    set_out(&mut rig)?;
    // They are refused, and the event is another handle's.
    for (place, line, call, errno) in [
        (1, 2, take, Errno::Einval),
        (2, 3, Call::DqEvent, Errno::Enoent),
    ] {
        assert_eq!(rt; rig.issue_behind(1)?, Turn::Did);
        assert_eq!(rt; (rig.has_event(), rig.chains()), (false, CHAINS));
        assert_eq!(rt; rig.logged(1, place), refused(line, call, errno));
    }
    // No other call takes them.
    assert_eq!(rt; rig.issue_behind(1)?, Turn::Did);
    assert_eq!(rt; (rig.has_event(), rig.chains()), (true, CHAINS - 1));
    Ok(())
}

#[test]
fn events_are_taken_before_the_reply_to_a_stopping_call(rt: HostRuntime) -> Result<(), Fail> {
    let script = two(rt.alloc(), &[OPEN, Call::QueryCap], &[OPEN, STOP])?;
    let mut rig = Rig::new(rt.alloc(), &script)?;
    set_out(&mut rig)?;
    assert_eq!(rt; rig.issue(1)?, Turn::Did);
    assert!(rt; rig.logged(1, 1).is_none());
    // The call is refused, and the event is another handle's.
    assert_eq!(rt; rig.stop_behind(1)?, Turn::Did);
    assert_eq!(rt; (rig.has_event(), rig.chains()), (false, CHAINS));
    assert_eq!(rt; rig.logged(1, 1), refused(2, STOP, Errno::Einval));
    Ok(())
}
