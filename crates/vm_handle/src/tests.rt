//! Messages of the device by the steps that they stand for, and lines on a handle.

use crate::message::made_by;
use std::test::Fail;
use v4l_const::Model;
use v4l_layout::{BufferRec, EventRec};
use vm_local::Entry;
use vm_wire::EventMsg;

mod lines;
mod rig;

// The message that the device is done with a buffer of this type, which has these flags.
fn dequeued(kind: u32, flags: u32) -> EventMsg {
    EventMsg::Dequeued {
        session: 7,
        buffer: BufferRec {
            index: 0,
            kind,
            bytesused: 256,
            flags,
            field: 1,
            seconds: 0,
            micros: 40_000,
            timecode: [0; 16],
            sequence: 1,
            memory: 1,
            m: 0,
            length: 256,
            reserved2: 0,
            request_fd: 0,
        },
    }
}

// The message that a frame began.
const HAPPENED: EventMsg = EventMsg::Happened {
    session: 7,
    event: EventRec {
        kind: 4,
        u: [0; 64],
        pending: 0,
        sequence: 0,
        seconds: 0,
        nanos: 0,
        id: 0,
    },
};

#[test]
fn a_frame_is_made_before_its_first_message(rt: HostRuntime) -> Result<(), Fail> {
    for (model, msg, made) in [
        (Model::Capture, HAPPENED, Some(Entry::Finish)),
        (Model::Capture, dequeued(1, 0x2000), None),
        (Model::Capture, dequeued(1, 0x2040), Some(Entry::Bad)),
        (Model::Convert, dequeued(2, 0x4000), Some(Entry::Finish)),
        (Model::Convert, dequeued(1, 0x4000), None),
        (Model::Convert, dequeued(2, 0x4040), Some(Entry::Bad)),
        (Model::Convert, dequeued(1, 0x4040), None),
    ] {
        assert_eq!(rt; made_by(model, &msg), made);
    }
    Ok(())
}
