use super::rig::Rig;
use std::test::Fail;
use v4l_const::{Errno, Model};
use vm_local::{Call, Name, Reply, Small};
use vm_wire::Response;

const OPEN: Call = Call::OpenHandle { nonblock: false };

const TAKE: Call = Call::DqBuf { t: 1 };

fn make(u: &Name) -> Call {
    Call::UAlloc {
        u: *u,
        len: 256,
        off: 4095,
    }
}

fn fill(u: &Name) -> Call {
    Call::Fill { m: *u, seed: 93 }
}

fn peek(u: &Name) -> Call {
    Call::Peek {
        m: *u,
        off: 0,
        len: 3,
    }
}

fn unmap(u: &Name) -> Call {
    Call::Munmap { m: *u }
}

// The lines of the test with the replies that the table of calls has for them.
fn answers(u: &Name, read: &Small) -> [(Call, Reply); 11] {
    [
        (make(u), Reply::Refused(Errno::Ebadf)),
        (OPEN, Reply::Refused(Errno::Enomem)),
        (TAKE, Reply::Refused(Errno::Ebadf)),
        (OPEN, Reply::Done),
        (TAKE, Reply::Refused(Errno::Einval)),
        (Call::DqEvent, Reply::Refused(Errno::Enoent)),
        (fill(u), Reply::Refused(Errno::Efault)),
        (make(u), Reply::Pages(2)),
        (fill(u), Reply::Done),
        (peek(u), Reply::Bytes(*read)),
        (unmap(u), Reply::Refused(Errno::Einval)),
    ]
}

#[test]
fn lines_that_need_no_device(rt: HostRuntime) -> Result<(), Fail> {
    let u = Name::new(b"u").ok_or("no name")?;
    let read = Small::new(&[93, 100, 107]).ok_or("too many bytes")?;
    let mut rig = Rig::make(rt.alloc(), Model::Capture)?;
    rig.answer(&rt, &make(&u))?;
    rig.open(&rt, &Response::Refused(12))?;
    rig.answer(&rt, &TAKE)?;
    assert_eq!(rt; rig.session(), None);
    rig.open(&rt, &Response::Opened { session: 7 })?;
    assert_eq!(rt; rig.session(), Some(7));
    rig.answer(&rt, &TAKE)?;
    rig.answer(&rt, &Call::DqEvent)?;
    rig.touch(&rt, &fill(&u));
    rig.answer(&rt, &make(&u))?;
    rig.touch(&rt, &fill(&u));
    rig.touch(&rt, &peek(&u));
    rig.answer(&rt, &unmap(&u))?;
    rig.has_logged(&rt, Model::Capture, &answers(&u, &read))
}
