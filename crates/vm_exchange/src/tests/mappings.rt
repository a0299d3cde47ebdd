use super::desk::Desk;
use super::{IOCTL_OF_7, Row, STATUS_0, name, opening};
use crate::Way;
use std::test::Fail;
use v4l_const::{Errno, MEMORY_MMAP, Model};
use vm_local::{Call, Entry, Name, Reply};

// The record of the buffer that is queued: index 1 of type 2, of which 5 bytes hold a picture of
// 1.5 seconds. It is mapped from 0x2100000, and has 3,072 bytes.
const QUEUED: &[&[u8]] = &[
    &[1, 0, 0, 0, 2, 0, 0, 0, 5, 0, 0, 0],
    &[0; 12],
    &[1, 0, 0, 0, 0, 0, 0, 0, 0x20, 0xa1, 7, 0, 0, 0, 0, 0],
    &[0; 20],
    &[1, 0, 0, 0, 0, 0, 0x10, 2, 0, 0, 0, 0, 0, 0x0c, 0, 0],
    &[0; 12],
];

fn map(m: Name, t: u32, i: u32, ro: bool) -> Call {
    Call::Mmap { m, t, i, ro }
}

#[test]
fn buffers_are_mapped_and_queued(rt: HostRuntime) -> Result<(), Fail> {
    let mut desk = Desk::make(rt.alloc(), Model::Convert)?;
    desk.cross(&rt, 1, &opening())?;
    let request = Call::ReqBufs {
        t: 2,
        m: MEMORY_MMAP,
        n: 2,
    };
    desk.step(
        &rt,
        &Entry::Called {
            line: 2,
            call: request,
            reply: Reply::Count(2),
        },
    )?;
    assert!(rt; desk.way_of(&map(name(b"s"), 2, 2, false)) == Way::AnsweredHere);
    let rows = [
        Row {
            call: map(name(b"s"), 2, 1, false),
            crosses: &[
                &[4, 0, 0, 0, 0, 0, 0, 0, 7, 0, 0, 0],
                &[1, 0, 0, 0, 0, 0, 0x10, 2, 0, 0, 0, 0],
            ],
            answer: &[
                STATUS_0,
                &[0, 0x40, 0, 0, 0, 0, 0, 0, 0, 0x0c, 0, 0, 0, 0, 0, 0],
            ],
            reply: Reply::Mapped {
                addr: 0x4000,
                length: 3072,
            },
        },
        Row {
            call: map(name(b"r"), 2, 0, true),
            crosses: &[
                &[4, 0, 0, 0, 0, 0, 0, 0, 7, 0, 0, 0],
                &[0, 0, 0, 0, 0, 0, 0, 2, 0, 0, 0, 0],
            ],
            answer: &[&[12, 0, 0, 0, 0, 0, 0, 0]],
            reply: Reply::Refused(Errno::Enomem),
        },
        Row {
            call: Call::QBuf {
                t: 2,
                i: 1,
                user: None,
                used: 5,
                ts: 1_500_000,
            },
            crosses: &[
                IOCTL_OF_7,
                &[15, 0, 0, 0],
                QUEUED[0],
                QUEUED[1],
                QUEUED[2],
                QUEUED[3],
                QUEUED[4],
                QUEUED[5],
            ],
            answer: &[
                STATUS_0, QUEUED[0], QUEUED[1], QUEUED[2], QUEUED[3], QUEUED[4], QUEUED[5],
            ],
            reply: Reply::Done,
        },
        Row {
            call: Call::Unsubscribe { e: 0 },
            crosses: &[IOCTL_OF_7, &[91, 0, 0, 0, 0, 0, 0, 0], &[0; 28]],
            answer: &[&[22, 0, 0, 0, 0, 0, 0, 0]],
            reply: Reply::Refused(Errno::Einval),
        },
        Row {
            call: Call::StreamOff { t: 2 },
            crosses: &[IOCTL_OF_7, &[19, 0, 0, 0, 2, 0, 0, 0]],
            answer: &[STATUS_0, &[2, 0, 0, 0]],
            reply: Reply::Done,
        },
        Row {
            call: Call::CloseHandle,
            crosses: &[&[2, 0, 0, 0, 0, 0, 0, 0, 7, 0, 0, 0, 0, 0, 0, 0]],
            answer: &[STATUS_0],
            reply: Reply::Done,
        },
        // The name is still bound.
        Row {
            call: Call::Munmap { m: name(b"s") },
            crosses: &[&[5, 0, 0, 0, 0, 0, 0, 0, 0, 0x40, 0, 0, 0, 0, 0, 0]],
            answer: &[STATUS_0],
            reply: Reply::Done,
        },
    ];
    desk.cross_all(&rt, 3, &rows)?;
    assert!(rt; desk.way_of(&Call::Munmap { m: name(b"s") }) == Way::AnsweredHere);
    assert!(rt; desk.way_of(&Call::StreamOff { t: 2 }) == Way::AnsweredHere);
    Ok(())
}
