// Buffers that are queued, and queues that start and stop.

ghost use Rattle.std.specs.Prelude.{◌≡◌, ◌≤◌, true, length, slice_get, IfSome};
ghost use Rattle.v4l_const.specs.declared.numbers.TheConstants.{MEMORY_MMAP};
ghost use Rattle.vm_session.specs.State.{queue_of};
ghost use Rattle.vm_session.specs.Buffers.{IsTold, ComesWith};

use super::*;
use crate::queues::{kind_at, length_at};
use std::alloc::Global;
use std::test::Fail;
use v4l_const::{Errno, IoctlCode, MEMORY_MMAP, MEMORY_USERPTR, Model};
use v4l_layout::{BufferRec, read_buffer};
use v4l_rules::place_in;
use vm_frame::{Frame, Held, MAX_ENTRIES, Mem, SgEntry, User};
use vm_mem::{Page, Store};
use vm_wire::{
    Payload, QueuedBuffer, buffer_in, buffer_payload, number_payload, qbuf_request,
    querybuf_request,
};

// Whether the memory is the one that the record tells of.
fn is_told(asked: &BufferRec, held: &Held) -> bool
    ensures { result ≡ true → IsTold asked.now held.now }
{
    let memory = match &held.mem {
        Mem::OfFrame(_) => MEMORY_MMAP,
        Mem::OfUser(_) => MEMORY_USERPTR,
    };
    held.queue == asked.kind
        && held.index == asked.index
        && memory == asked.memory
        && held.mem.size() == asked.length
}

// Whether a frame of this length can be the buffer's.
fn has_length(session: &Session, asked: &BufferRec) -> bool
    ensures { result ≡ true → (queue_of session.now asked.now.kind).kind ≡ MEMORY_MMAP →
        IfSome (slice_get (queue_of session.now asked.now.kind).lengths asked.now.index)
        (λ n. n ≡ asked.now.length) }
{
    let place = place_in(session.model.queues(), asked.kind);
    let Some(length) = length_at(&session.queues, place, asked.index) else {
        return true;
    };
    kind_at(&session.queues, place) != MEMORY_MMAP || length == asked.length
}

// Whether the memory comes along with the record, as QBUF asks.
fn comes(session: &Session, asked: &BufferRec, held: &[Held]) -> bool
    ensures { result ≡ true → ComesWith session.now asked.now held.now }
{
    match held {
        [one] => is_told(asked, one) && has_length(session, asked),
        _ => false,
    }
}

// The length of a buffer, by QUERYBUF.
fn length_of(opened: &mut Opened, t: u32, i: u32) -> Result<u32, Errno> {
    let mut payload = buffer_payload(&querybuf_request(t, i));
    call(opened, IoctlCode::QueryBuf, &mut payload)?;
    Ok(read_buffer(payload.as_bytes()).unwrap().length)
}

// A record of QBUF for the buffer of this type, index, memory kind and length.
pub(super) fn record(
    model: Model,
    t: u32,
    index: u32,
    memory: u32,
    length: u32,
    used: u32,
) -> BufferRec {
    qbuf_request(
        model,
        &QueuedBuffer {
            kind: t,
            index,
            bytesused: used,
            timestamp: 5,
            memory,
            m: 7,
            length,
        },
    )
}

// A frame of so many bytes for the buffer of a type and index.
pub(super) fn frame(alloc: Global, t: u32, index: u32, length: u32) -> Result<Held, Fail> {
    Ok(Held {
        queue: t,
        index,
        mem: Mem::OfFrame(Frame::make_zero(alloc, 99, length)?),
    })
}

// A user's memory of so many bytes, from the front of a page on.
fn user(alloc: Global, t: u32, index: u32, length: u32) -> Result<Held, Fail>
    requires few { length ≤ 4096 }
    requires some { 1 ≤ length }
{
    let mut entries = Vec::with_capacity(alloc, MAX_ENTRIES)?;
    entries.push_reserved(SgEntry {
        start: 0x1_0000_0000,
        len: length,
    });
    let mut pages = Vec::with_capacity(alloc, 1)?;
    pages.push_reserved(Page::make_zero(alloc, 0x10_0000)?);
    Ok(Held {
        queue: t,
        index,
        mem: Mem::OfUser(User { entries, pages }),
    })
}

// What QBUF answers to the record with this memory, and whether the memory is left. The reply is
// the payload again where it isn't EINVAL. EIO, which no call answers, says that the memory isn't
// the one that the record tells of, or that the reply differs.
pub(super) fn qbuf(
    opened: &mut Opened,
    asked: &BufferRec,
    memory: Held,
) -> Result<(Result<(), Errno>, bool), Fail> {
    let mut held = Vec::with_capacity(opened.alloc, 1)?;
    held.push_reserved(memory);
    let mut payload = buffer_payload(asked);
    let told = buffer_in(&payload);
    if opened.session.made > 1000 || !comes(&opened.session, &told, held.as_slice()) {
        return Ok((Err(Errno::Eio), false));
    }
    let answer = opened
        .session
        .ioctl(IoctlCode::QBuf, &mut payload, &mut held);
    let left = !held.is_empty();
    if answer == Ok(()) && payload != buffer_payload(asked) {
        return Ok((Err(Errno::Eio), left));
    }
    Ok((answer, left))
}

// What STREAMON or STREAMOFF answers to a type.
pub(super) fn switch(opened: &mut Opened, code: IoctlCode, t: u32) -> Result<(), Errno> {
    call(opened, code, &mut number_payload(t))
}

// The index of the buffer whose memory came back last, which is taken away; 99 where none is left.
fn last_back(opened: &mut Opened) -> u32 {
    match opened.held.pop() {
        Some(held) => held.index,
        None => 99,
    }
}

// The memories that came back, the last one first, by the indices of their buffers; they are taken
// away.
fn indices_back(opened: &mut Opened) -> [u32; 4] {
    let indices = [
        last_back(opened),
        last_back(opened),
        last_back(opened),
        last_back(opened),
    ];
    opened.held.clear();
    indices
}

pub(super) const TAKEN: (Result<(), Errno>, bool) = (Ok(()), false);

const REFUSED: (Result<(), Errno>, bool) = (Err(Errno::Einval), true);

#[test]
fn a_buffer_is_queued_once(rt: HostRuntime) -> Result<(), Fail> {
    let alloc = rt.alloc();
    let mut opened = open_session(alloc, Model::Capture, 7)?;
    assert_eq!(rt; reqbufs(&mut opened, CAP, 1, 2), made(2, 1, 1));
    opened.held.clear();
    for (t, index, want) in [
        (OUT, 0, REFUSED),
        (0, 0, REFUSED),
        (CAP, 2, REFUSED),
        (CAP, 4_294_967_295, REFUSED),
        (CAP, 0, TAKEN),
        (CAP, 0, REFUSED),
        (CAP, 1, TAKEN),
        (CAP, 1, REFUSED),
    ] {
        let asked = record(Model::Capture, t, index, MEMORY_MMAP, 3072, 0);
        assert_eq!(rt;
            qbuf(&mut opened, &asked, frame(alloc, t, index, 3072)?)?,
            want
        );
    }
    // They come back in their order, the last one on top, and can be queued again.
    assert_eq!(rt; switch(&mut opened, IoctlCode::StreamOff, CAP), Ok(()));
    assert_eq!(rt; indices_back(&mut opened), [1, 0, 99, 99]);
    let asked = record(Model::Capture, CAP, 0, MEMORY_MMAP, 3072, 0);
    assert_eq!(rt;
        qbuf(&mut opened, &asked, frame(alloc, CAP, 0, 3072)?)?,
        TAKEN
    );
    // The user's memory is of another kind.
    let asked = record(Model::Capture, CAP, 1, MEMORY_USERPTR, 3072, 0);
    assert_eq!(rt;
        qbuf(&mut opened, &asked, user(alloc, CAP, 1, 3072)?)?,
        REFUSED
    );
    Ok(())
}

#[test]
fn a_queue_starts_and_stops(rt: HostRuntime) -> Result<(), Fail> {
    let alloc = rt.alloc();
    let mut opened = open_session(alloc, Model::Capture, 7)?;
    for t in [CAP, OUT, 0] {
        assert_eq!(rt;
            switch(&mut opened, IoctlCode::StreamOn, t),
            Err(Errno::Einval)
        );
    }
    assert_eq!(rt;
        switch(&mut opened, IoctlCode::StreamOff, OUT),
        Err(Errno::Einval)
    );
    // A queue that doesn't stream is stopped too.
    assert_eq!(rt; switch(&mut opened, IoctlCode::StreamOff, CAP), Ok(()));
    assert_eq!(rt; reqbufs(&mut opened, CAP, 1, 2), made(2, 1, 1));
    opened.held.clear();
    let asked = record(Model::Capture, CAP, 1, MEMORY_MMAP, 3072, 0);
    assert_eq!(rt;
        qbuf(&mut opened, &asked, frame(alloc, CAP, 1, 3072)?)?,
        TAKEN
    );
    assert_eq!(rt; switch(&mut opened, IoctlCode::StreamOn, CAP), Ok(()));
    assert_eq!(rt; switch(&mut opened, IoctlCode::StreamOn, CAP), Ok(()));
    assert_eq!(rt; sinput(&mut opened, 1), Err(Errno::Ebusy));
    assert_eq!(rt; sfmt(&mut opened, CAP, GREY, 16, 16), Err(Errno::Ebusy));
    assert_eq!(rt; reqbufs(&mut opened, CAP, 1, 1), Err(Errno::Ebusy));
    assert_eq!(rt; indices_back(&mut opened), [99; 4]);
    // Buffers that are freed give their memories back.
    assert_eq!(rt; reqbufs(&mut opened, CAP, 1, 0), made(0, 1, 1));
    assert_eq!(rt; indices_back(&mut opened), [1, 99, 99, 99]);
    assert_eq!(rt; sinput(&mut opened, 1), Ok(Payload::new(&[1, 0, 0, 0])));
    Ok(())
}

#[test]
fn a_users_memory_holds_a_picture(rt: HostRuntime) -> Result<(), Fail> {
    let alloc = rt.alloc();
    let mut opened = open_session(alloc, Model::Capture, 7)?;
    assert_eq!(rt; reqbufs(&mut opened, CAP, 2, 2), made(2, 1, 2));
    for (length, want) in [(3071, REFUSED), (4096, TAKEN), (4096, REFUSED)] {
        let asked = record(Model::Capture, CAP, 0, MEMORY_USERPTR, length, 0);
        assert_eq!(rt;
            qbuf(&mut opened, &asked, user(alloc, CAP, 0, length)?)?,
            want
        );
    }
    let asked = record(Model::Capture, CAP, 1, MEMORY_MMAP, 3072, 0);
    assert_eq!(rt;
        qbuf(&mut opened, &asked, frame(alloc, CAP, 1, 3072)?)?,
        REFUSED
    );
    // The buffer has its memory's length until it is queued again.
    assert_eq!(rt; switch(&mut opened, IoctlCode::StreamOff, CAP), Ok(()));
    assert_eq!(rt; length_of(&mut opened, CAP, 0), Ok(4096));
    let asked = record(Model::Capture, CAP, 0, MEMORY_USERPTR, 3072, 0);
    assert_eq!(rt;
        qbuf(&mut opened, &asked, user(alloc, CAP, 0, 3072)?)?,
        TAKEN
    );
    assert_eq!(rt; length_of(&mut opened, CAP, 0), Ok(3072));
    Ok(())
}

#[test]
fn no_more_of_a_source_is_in_use_than_there_is(rt: HostRuntime) -> Result<(), Fail> {
    let alloc = rt.alloc();
    let mut opened = open_session(alloc, Model::Convert, 7)?;
    for t in [OUT, CAP] {
        assert_eq!(rt; reqbufs(&mut opened, t, 1, 1), made(1, t as u8, 1));
    }
    opened.held.clear();
    // Of a picture to be made nothing is told, and what is told is ignored.
    for (t, used, want) in [
        (OUT, 3073, REFUSED),
        (OUT, 3072, TAKEN),
        (CAP, 4_294_967_295, TAKEN),
    ] {
        let told = record(Model::Convert, t, 0, MEMORY_MMAP, 3072, 0);
        let asked = BufferRec {
            bytesused: used,
            ..told
        };
        assert_eq!(rt; qbuf(&mut opened, &asked, frame(alloc, t, 0, 3072)?)?, want);
    }
    // As the session is closed, the source comes back first.
    let mut back = Vec::with_capacity(alloc, 64)?;
    if opened.session.is_quiet() {
        opened.session.stop(&mut back);
    }
    for t in [CAP, OUT] {
        assert_eq!(rt; back.pop().map(|held| held.queue), Some(t));
    }
    assert_eq!(rt; back.len(), 0);
    Ok(())
}
