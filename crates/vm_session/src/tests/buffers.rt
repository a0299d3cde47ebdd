// The calls on buffers, their frames, and what comes back.

use super::*;
use std::alloc::Global;
use std::test::Fail;
use v4l_const::{Errno, IoctlCode, Model};
use vm_frame::{Frame, Held, Mem};
use vm_mem::Store;
use vm_wire::{Payload, buffer_payload, querybuf_request};

const MMAP: u32 = 1;

const USERPTR: u32 = 2;

const ID: u32 = 7;

// The tag of the frame that session 7 made after so many others: 7 times 2^32 and that number.
const FIRST: u64 = 30_064_771_072;

// The payload that answers QUERYBUF.
fn querybuf(session: &mut Opened, t: u32, i: u32) -> Result<Payload, Errno> {
    let mut payload = buffer_payload(&querybuf_request(t, i));
    call(session, IoctlCode::QueryBuf, &mut payload)?;
    Ok(payload)
}

// The v4l2_buffer of index 1 and type 1: flags 0x2000 at 12, field 1 at 16; at 60 memory 1, at 64
// the offset 0x100000, and at 72 the 3072 bytes.
const MAPPED: [u8; 88] = [
    1, 0, 0, 0, 1, 0, 0, 0, 0, 0, 0, 0, 0, 32, 0, 0, 1, 0, 0, 0, 0, 0, 0, 0, 0, 0, 0, 0, 0, 0, 0,
    0, 0, 0, 0, 0, 0, 0, 0, 0, 0, 0, 0, 0, 0, 0, 0, 0, 0, 0, 0, 0, 0, 0, 0, 0, 0, 0, 0, 0, 1, 0, 0,
    0, 0, 0, 16, 0, 0, 0, 0, 0, 0, 12, 0, 0, 0, 0, 0, 0, 0, 0, 0, 0, 0, 0, 0, 0,
];

// The same of a user's memory, 2, which has no offset.
const BROUGHT: [u8; 88] = [
    1, 0, 0, 0, 1, 0, 0, 0, 0, 0, 0, 0, 0, 32, 0, 0, 1, 0, 0, 0, 0, 0, 0, 0, 0, 0, 0, 0, 0, 0, 0,
    0, 0, 0, 0, 0, 0, 0, 0, 0, 0, 0, 0, 0, 0, 0, 0, 0, 0, 0, 0, 0, 0, 0, 0, 0, 0, 0, 0, 0, 2, 0, 0,
    0, 0, 0, 0, 0, 0, 0, 0, 0, 0, 12, 0, 0, 0, 0, 0, 0, 0, 0, 0, 0, 0, 0, 0, 0,
];

// Index 2 and type 2 of a converter: flags 0x4000, and the offset 0x2200000.
const MAPPED_OUT: [u8; 88] = [
    2, 0, 0, 0, 2, 0, 0, 0, 0, 0, 0, 0, 0, 64, 0, 0, 1, 0, 0, 0, 0, 0, 0, 0, 0, 0, 0, 0, 0, 0, 0,
    0, 0, 0, 0, 0, 0, 0, 0, 0, 0, 0, 0, 0, 0, 0, 0, 0, 0, 0, 0, 0, 0, 0, 0, 0, 0, 0, 0, 0, 1, 0, 0,
    0, 0, 0, 32, 2, 0, 0, 0, 0, 0, 12, 0, 0, 0, 0, 0, 0, 0, 0, 0, 0, 0, 0, 0, 0,
];

// What came back last: the type, the index, the tag, how many bytes, and whether all that are
// looked at are 0. It is taken away.
fn last_back(session: &mut Opened) -> (u32, u32, u64, u32, bool) {
    let Some(held) = session.held.pop() else {
        return (0, 0, 0, 0, false);
    };
    match &held.mem {
        Mem::OfFrame(frame) => {
            let size = frame.size();
            let mut bytes = [1; 256];
            let _ = frame.read(0, &mut bytes);
            let zeroed = bytes == [0; 256];
            (held.queue, held.index, frame.tag(), size, zeroed)
        }
        Mem::OfUser(_) => (held.queue, held.index, 0, 0, false),
    }
}

#[test]
fn buffers_are_made_and_told(rt: HostRuntime) -> Result<(), Fail> {
    let mut session = open_session(rt.alloc(), Model::Capture, ID)?;
    let none = Err(Errno::Einval);
    for (t, memory, count) in [
        (OUT, MMAP, 1),
        (0, MMAP, 0),
        (CAP, 0, 1),
        (CAP, 3, 1),
        (CAP, 4, 0),
        (OUT, 3, 4_294_967_295),
    ] {
        assert_eq!(rt; reqbufs(&mut session, t, memory, count), none);
    }
    assert_eq!(rt; querybuf(&mut session, CAP, 0), none);
    assert_eq!(rt; reqbufs(&mut session, CAP, MMAP, 2), made(2, 1, 1));
    assert_eq!(rt; querybuf(&mut session, CAP, 1), Ok(Payload::new(&MAPPED)));
    for (t, i) in [(CAP, 2), (CAP, 4_294_967_295), (OUT, 0), (0, 0)] {
        assert_eq!(rt; querybuf(&mut session, t, i), none);
    }
    // A user's buffer has the picture's size until it is queued, and no offset.
    assert_eq!(rt; reqbufs(&mut session, CAP, USERPTR, 2), made(2, 1, 2));
    assert_eq!(rt; querybuf(&mut session, CAP, 1), Ok(Payload::new(&BROUGHT)));
    Ok(())
}

#[test]
fn a_queue_has_at_most_32_buffers_and_none_after_0(rt: HostRuntime) -> Result<(), Fail> {
    let mut session = open_session(rt.alloc(), Model::Capture, ID)?;
    assert_eq!(rt; reqbufs(&mut session, CAP, MMAP, 40), made(32, 1, 1));
    assert_eq!(rt; session.held.len(), 32);
    assert_eq!(rt; last_back(&mut session), (1, 31, FIRST + 31, 3072, true));
    assert_eq!(rt; last_back(&mut session), (1, 30, FIRST + 30, 3072, true));
    assert_eq!(rt; reqbufs(&mut session, CAP, MMAP, 0), made(0, 1, 1));
    assert_eq!(rt; session.held.len(), 30);
    assert_eq!(rt; querybuf(&mut session, CAP, 0), Err(Errno::Einval));
    assert_eq!(rt; session.session.frame_of(0), Err(Errno::Einval));
    // The next frame's tag counts on, and those of the user have none.
    assert_eq!(rt; reqbufs(&mut session, CAP, USERPTR, 3), made(3, 1, 2));
    assert_eq!(rt; session.held.len(), 30);
    assert_eq!(rt; reqbufs(&mut session, CAP, MMAP, 1), made(1, 1, 1));
    assert_eq!(rt; last_back(&mut session), (1, 0, FIRST + 32, 3072, true));
    Ok(())
}

#[test]
fn formats_stay_while_there_are_buffers(rt: HostRuntime) -> Result<(), Fail> {
    let mut session = open_session(rt.alloc(), Model::Convert, ID)?;
    assert_eq!(rt; reqbufs(&mut session, OUT, USERPTR, 1), made(1, 2, 2));
    for (t, want) in [(OUT, Errno::Ebusy), (CAP, Errno::Ebusy), (0, Errno::Einval)] {
        assert_eq!(rt; sfmt(&mut session, t, GREY, 16, 16), Err(want));
    }
    assert_eq!(rt; gfmt(&mut session, OUT), Ok((GREY, 64, 48, 64, 3072)));
    assert_eq!(rt; reqbufs(&mut session, OUT, USERPTR, 0), made(0, 2, 2));
    let small = Ok((GREY, 16, 16, 16, 256));
    assert_eq!(rt; sfmt(&mut session, OUT, GREY, 16, 16), small);
    // A buffer has the size of the picture that the queue has as it is made.
    assert_eq!(rt; reqbufs(&mut session, OUT, MMAP, 1), made(1, 2, 1));
    assert_eq!(rt; last_back(&mut session), (2, 0, FIRST, 256, true));
    Ok(())
}

#[test]
fn frames_are_found_by_their_offsets(rt: HostRuntime) -> Result<(), Fail> {
    let mut session = open_session(rt.alloc(), Model::Convert, ID)?;
    assert_eq!(rt; reqbufs(&mut session, CAP, MMAP, 2), made(2, 1, 1));
    assert_eq!(rt; reqbufs(&mut session, OUT, MMAP, 3), made(3, 2, 1));
    let none = Err(Errno::Einval);
    for (offset, want) in [
        (0, Ok((FIRST, 3072))),
        (0x0010_0000, Ok((FIRST + 1, 3072))),
        (0x0020_0000, none),
        (0x0200_0000, Ok((FIRST + 2, 3072))),
        (0x0220_0000, Ok((FIRST + 4, 3072))),
        (0x0230_0000, none),
        (1, none),
        (0x0200_0001, none),
        (4_294_967_295, none),
    ] {
        assert_eq!(rt; session.session.frame_of(offset), want);
    }
    assert_eq!(rt;
        querybuf(&mut session, OUT, 2),
        Ok(Payload::new(&MAPPED_OUT))
    );
    // A user's buffers aren't mapped.
    assert_eq!(rt; reqbufs(&mut session, CAP, USERPTR, 2), made(2, 1, 2));
    assert_eq!(rt; session.session.frame_of(0), none);
    assert_eq!(rt;
        session.session.frame_of(0x0200_0000),
        Ok((FIRST + 2, 3072))
    );
    Ok(())
}

#[test]
fn nothing_comes_back_where_nothing_is_queued(rt: HostRuntime) -> Result<(), Fail> {
    let mut session = open_session(rt.alloc(), Model::Convert, ID)?;
    assert_eq!(rt; reqbufs(&mut session, CAP, MMAP, 2), made(2, 1, 1));
    let mut back = Vec::with_capacity(rt.alloc(), 64)?;
    if session.session.is_quiet() {
        session.session.stop(&mut back);
    }
    assert_eq!(rt; back.len(), 0);
    // The buffers stay.
    assert_eq!(rt;
        session.session.frame_of(0x0010_0000),
        Ok((FIRST + 1, 3072))
    );
    assert_eq!(rt; sfmt(&mut session, CAP, GREY, 16, 16), Err(Errno::Ebusy));
    Ok(())
}
