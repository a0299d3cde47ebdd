// The calls that subscribe to events: which events there are.

use super::{call, open_session};
use std::test::Fail;
use v4l_const::{Errno, IoctlCode, Model};
use v4l_layout::Subscription;
use vm_wire::{Payload, subscription_payload, subscription_request};

// What subscribing to an event answers, and what subscribing to it no more does.
type Told = (Result<(), Errno>, Result<(), Errno>);

const NONE: Told = (Err(Errno::Einval), Err(Errno::Einval));

#[test]
fn a_camera_tells_of_frames_alone(rt: HostRuntime) -> Result<(), Fail> {
    let mut session = open_session(rt.alloc(), Model::Capture, 1)?;
    // 4 is a frame's beginning, and 0 is all events, to which none subscribes.
    for (event, want) in [
        (0, (Err(Errno::Einval), Ok(()))),
        (1, NONE),
        (3, NONE),
        (4, (Ok(()), Ok(()))),
        (5, NONE),
        (0xffff_ffff, NONE),
    ] {
        let asked = subscription_payload(&subscription_request(event));
        let mut payload = asked;
        let wanted = call(&mut session, IoctlCode::SubscribeEvent, &mut payload);
        assert_eq!(rt; payload, asked);
        let unwanted = call(&mut session, IoctlCode::UnsubscribeEvent, &mut payload);
        assert_eq!(rt; payload, asked);
        assert_eq!(rt; (wanted, unwanted), want);
    }
    Ok(())
}

#[test]
fn a_converter_has_no_events(rt: HostRuntime) -> Result<(), Fail> {
    let mut session = open_session(rt.alloc(), Model::Convert, 1)?;
    for event in [0, 3, 4] {
        let mut payload = subscription_payload(&subscription_request(event));
        let wanted = call(&mut session, IoctlCode::SubscribeEvent, &mut payload);
        let unwanted = call(&mut session, IoctlCode::UnsubscribeEvent, &mut payload);
        assert_eq!(rt; (wanted, unwanted), NONE);
    }
    Ok(())
}

#[test]
fn the_answer_tells_the_event_alone(rt: HostRuntime) -> Result<(), Fail> {
    let mut session = open_session(rt.alloc(), Model::Capture, 1)?;
    let mut payload = subscription_payload(&Subscription {
        kind: 4,
        id: 9,
        flags: 2,
    });
    assert_eq!(rt;
        call(&mut session, IoctlCode::SubscribeEvent, &mut payload),
        Ok(())
    );
    let mut want = [0; 32];
    want[0] = 4;
    assert_eq!(rt; payload, Payload::new(&want));
    Ok(())
}
