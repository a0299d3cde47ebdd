use super::desk::Desk;
use super::{IOCTL_OF_7, Row, STATUS_0, name, opening};
use crate::Way;
use std::test::Fail;
use v4l_const::{FourCc, MEMORY_USERPTR, Model};
use v4l_format::Fmt;
use vm_local::{Call, Entry, Reply};

const GREY: FourCc = FourCc(0x5945_5247);

// A buffer of index 0 and type 1.
const FIRST_OF_CAP: &[u8] = &[0, 0, 0, 0, 1, 0, 0, 0];

// User memory of 256 bytes, which begins at 0x100470fff.
const MEMORY: &[u8] = &[2, 0, 0, 0, 0xff, 0x0f, 0x47, 0, 1, 0, 0, 0, 0, 1, 0, 0];

// Its first byte, at that address, and the others, from 0x10046f000 on.
const ENTRIES: &[u8] = &[
    0xff, 0x0f, 0x47, 0, 1, 0, 0, 0, 1, 0, 0, 0, 0, 0, 0, 0, //
    0, 0xf0, 0x46, 0, 1, 0, 0, 0, 0xff, 0, 0, 0, 0, 0, 0, 0,
];

fn queue() -> Call {
    Call::QBuf {
        t: 1,
        i: 0,
        user: Some(name(b"u")),
        used: 7,
        ts: 9,
    }
}

// One buffer of user memory is asked for.
fn request() -> Row<'static> {
    Row {
        call: Call::ReqBufs {
            t: 1,
            m: MEMORY_USERPTR,
            n: 1,
        },
        crosses: &[
            IOCTL_OF_7,
            &[8, 0, 0, 0, 1, 0, 0, 0, 1, 0, 0, 0, 2, 0, 0, 0],
            &[0; 8],
        ],
        answer: &[
            STATUS_0,
            &[1, 0, 0, 0, 1, 0, 0, 0, 2, 0, 0, 0, 0x13, 0, 0, 0],
            &[0; 4],
        ],
        reply: Reply::Count(1),
    }
}

fn called(line: u32, call: Call, reply: Reply) -> Entry {
    Entry::Called { line, call, reply }
}

#[test]
fn user_memory_goes_along(rt: HostRuntime) -> Result<(), Fail> {
    let mut desk = Desk::make(rt.alloc(), Model::Capture)?;
    desk.cross(&rt, 1, &opening())?;
    let format = Fmt {
        code: GREY,
        width: 16,
        height: 16,
    };
    let set = Call::SFmt {
        t: 1,
        f: GREY,
        w: 16,
        h: 16,
    };
    let reply = Reply::Format {
        f: format,
        line: 16,
        size: 256,
    };
    desk.step(&rt, &called(2, set, reply))?;
    desk.cross(&rt, 4, &request())?;
    let make = Call::UAlloc {
        u: name(b"u"),
        len: 256,
        off: 4095,
    };
    assert!(rt; desk.way_of(&make) == Way::AnsweredHere);
    assert!(rt; desk.way_of(&queue()) == Way::AnsweredHere);
    desk.step(&rt, &called(5, make, Reply::Pages(2)))?;
    let rows = [
        // Nothing is told of a picture that the device makes. Two entries stand behind the record.
        Row {
            call: queue(),
            crosses: &[
                IOCTL_OF_7,
                &[15, 0, 0, 0],
                FIRST_OF_CAP,
                &[0; 52],
                MEMORY,
                &[0; 12],
                ENTRIES,
            ],
            answer: &[STATUS_0, FIRST_OF_CAP, &[0; 52], MEMORY, &[0; 12]],
            reply: Reply::Done,
        },
        // That the buffer is queued the device doesn't tell.
        Row {
            call: Call::QueryBuf { t: 1, i: 0 },
            crosses: &[IOCTL_OF_7, &[9, 0, 0, 0, 0, 0, 0, 0, 1, 0, 0, 0], &[0; 80]],
            answer: &[
                STATUS_0,
                &[
                    0, 0, 0, 0, 1, 0, 0, 0, 0, 0, 0, 0, 0, 0x20, 0, 0, 1, 0, 0, 0,
                ],
                &[0; 40],
                &[2, 0, 0, 0, 0, 0, 0, 0, 0, 0, 0, 0, 0, 1, 0, 0],
                &[0; 12],
            ],
            reply: Reply::Buf {
                length: 256,
                flags: 0x2002,
            },
        },
        Row {
            call: Call::StreamOn { t: 1 },
            crosses: &[IOCTL_OF_7, &[18, 0, 0, 0, 1, 0, 0, 0]],
            answer: &[STATUS_0, &[1, 0, 0, 0]],
            reply: Reply::Done,
        },
        Row {
            call: Call::Subscribe { e: 4 },
            crosses: &[IOCTL_OF_7, &[90, 0, 0, 0, 4, 0, 0, 0], &[0; 28]],
            answer: &[STATUS_0, &[4, 0, 0, 0], &[0; 28]],
            reply: Reply::Done,
        },
    ];
    desk.cross_all(&rt, 6, &rows)?;
    let take = Call::DqBuf { t: 1 };
    assert!(rt; desk.way_of(&queue()) == Way::AnsweredHere);
    assert!(rt; desk.way_of(&take) == Way::Waits);
    for entry in [Entry::Finish, Entry::Give, Entry::Give] {
        desk.step(&rt, &entry)?;
    }
    assert!(rt; desk.way_of(&take) == Way::AnsweredHere);
    assert!(rt; desk.way_of(&Call::DqEvent) == Way::AnsweredHere);
    assert!(rt; desk.way_of(&Call::Hash { m: name(b"u") }) == Way::TouchesMemory);
    Ok(())
}
