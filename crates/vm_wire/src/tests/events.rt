use super::{BEHIND, front};
use crate::{EventFault, EventMsg, decode_event, encode_event};
use std::test::Fail;
use v4l_layout::{BufferRec, EventRec};

// Message 1 of session 5, with a buffer's record; 512 zeros follow.
const DEQUEUED: [u8; 96] = [
    1, 0, 0, 0, 5, 0, 0, 0, 2, 0, 0, 0, 1, 0, 0, 0, 0, 0x0c, 0, 0, 0x40, 0x20, 0, 0, 1, 0, 0, 0, 0,
    0, 0, 0, 7, 0, 0, 0, 0, 0, 0, 0, 0x40, 0x9c, 0, 0, 0, 0, 0, 0, 0, 0, 0, 0, 0, 0, 0, 0, 0, 0, 0,
    0, 0, 0, 0, 0, 9, 0, 0, 0, 1, 0, 0, 0, 0, 0, 0x20, 0, 0, 0, 0, 0, 0, 0x0c, 0, 0, 0, 0, 0, 0, 0,
    0, 0, 0, 0, 0, 0, 0,
];

// Message 2 of session 5, with an event's record up to its id, which is 0; 36 zeros follow.
const HAPPENED: [u8; 108] = [
    2, 0, 0, 0, 5, 0, 0, 0, 4, 0, 0, 0, 0, 0, 0, 0, 9, 0, 0, 0, 0, 0, 0, 0, 0, 0, 0, 0, 0, 0, 0, 0,
    0, 0, 0, 0, 0, 0, 0, 0, 0, 0, 0, 0, 0, 0, 0, 0, 0, 0, 0, 0, 0, 0, 0, 0, 0, 0, 0, 0, 0, 0, 0, 0,
    0, 0, 0, 0, 0, 0, 0, 0, 0, 0, 0, 0, 0, 0, 0, 0, 6, 0, 0, 0, 3, 0, 0, 0, 7, 0, 0, 0, 0, 0, 0, 0,
    0, 0x5a, 0x62, 2, 0, 0, 0, 0, 0, 0, 0, 0,
];

// The buffer of index 2 in the capture queue: frame 9, made 7.04 seconds after the start, with an
// error.
fn dequeued() -> EventMsg {
    EventMsg::Dequeued {
        session: 5,
        buffer: BufferRec {
            index: 2,
            kind: 1,
            bytesused: 3072,
            flags: 0x2040,
            field: 1,
            seconds: 7,
            micros: 40_000,
            timecode: [0; 16],
            sequence: 9,
            memory: 1,
            m: 0x0020_0000,
            length: 3072,
            reserved2: 0,
            request_fd: 0,
        },
    }
}

// Frame 9 begins.
fn happened() -> EventMsg {
    let mut u = [0; 64];
    u[0] = 9;
    EventMsg::Happened {
        session: 5,
        event: EventRec {
            kind: 4,
            u,
            pending: 6,
            sequence: 3,
            seconds: 7,
            nanos: 40_000_000,
            id: 0,
        },
    }
}

#[test]
fn messages_are_written_and_read(rt: HostRuntime) -> Result<(), Fail> {
    let rows: [(EventMsg, &[u8], usize); 2] = [
        (dequeued(), &DEQUEUED, 608),
        (happened(), &HAPPENED, 144),
    ];
    for (message, start, size) in rows {
        let mut out = [BEHIND; 610];
        assert_eq!(rt; encode_event(&message, &mut out), size);
        assert_eq!(rt; front(&out, start.len()), start);
        assert_eq!(rt; out.get(start.len()..size).map(is_zero), Some(true));
        assert_eq!(rt; out.get(size), Some(&BEHIND));
        assert_eq!(rt; decode_event(front(&out, size)), Ok(message));
        assert_eq!(rt; decode_event(&out), Ok(message));
        assert_eq!(rt; decode_event(front(&out, size - 1)), Err(EventFault::Short));
        // What stands behind the fields doesn't count.
        if let Some(rest) = out.get_mut(start.len()..) {
            rest.fill(0xff);
        }
        assert_eq!(rt; decode_event(&out), Ok(message));
    }
    Ok(())
}

fn is_zero(bytes: &[u8]) -> bool {
    bytes.iter().all(|byte| *byte == 0)
}

#[test]
fn malformed_messages_are_refused(rt: HostRuntime) -> Result<(), Fail> {
    let rows: [(&[u8], EventFault); 14] = [
        (&[], EventFault::Short),
        (&[1, 0, 0], EventFault::Short),
        (&[3, 0, 0], EventFault::Short),
        (&[0, 0, 0, 0], EventFault::UnknownKind),
        (&[3, 0, 0, 0], EventFault::UnknownKind),
        (&[1, 1, 0, 0], EventFault::UnknownKind),
        (&[2, 0, 0, 1], EventFault::UnknownKind),
        (&[0xff; 608], EventFault::UnknownKind),
        (&[1, 0, 0, 0], EventFault::Short),
        (&[2, 0, 0, 0], EventFault::Short),
        (&[1, 0, 0, 0, 5, 0, 0, 0], EventFault::Short),
        (&[2, 0, 0, 0, 5, 0, 0, 0], EventFault::Short),
        (&DEQUEUED, EventFault::Short),
        (&HAPPENED, EventFault::Short),
    ];
    for (bytes, fault) in rows {
        assert_eq!(rt; decode_event(bytes), Err(fault));
    }
    Ok(())
}
