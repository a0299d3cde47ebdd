use super::*;
use std::alloc::Global;
use std::test::Fail;
use v4l_layout::BufferRec;
use vm_frame::{Frame, Held, Mem};

const MMAP: u32 = 1;

// The record of the buffer with this index.
fn buffer(index: u32) -> BufferRec {
    BufferRec {
        index,
        kind: 1,
        bytesused: 0,
        flags: 0,
        field: 1,
        seconds: 0,
        micros: 0,
        timecode: [0; 16],
        sequence: 0,
        memory: MMAP,
        m: 0,
        length: 64,
        reserved2: 0,
        request_fd: 0,
    }
}

// A memory with this tag.
fn memory(alloc: Global, tag: u64) -> Result<Held, Fail> {
    let frame = Frame::make_zero(alloc, tag, 4)?;
    Ok(Held {
        queue: 1,
        index: 0,
        mem: Mem::OfFrame(frame),
    })
}

fn tag_of(held: &Held) -> u64 {
    match &held.mem {
        Mem::OfFrame(frame) => frame.tag(),
        Mem::OfUser(_) => 0,
    }
}

// A queue of 3 buffers. Those with these indices are queued in turn, with the memories 100, 101 and
// so on.
fn queue_of(alloc: Global, indices: &[u32]) -> Result<BufQueue, Fail> {
    let mut queue = BufQueue::new(alloc)?;
    queue.reset(MMAP, 3, 64);
    let mut tag = 100;
    for index in indices {
        let _refused = queue.push(buffer(*index), memory(alloc, tag)?);
        tag = u64::wrapping_add(tag, 1);
    }
    Ok(queue)
}

// The index and the memory of the buffer that is popped next, or 99 and 0.
fn popped(queue: &mut BufQueue) -> (u32, u64) {
    queue
        .pop()
        .map_or((99, 0), |(b, held)| (b.index, tag_of(&held)))
}

#[test]
fn buffers_that_are_not_at_home_are_refused(rt: HostRuntime) -> Result<(), Fail> {
    let alloc = rt.alloc();
    for (queued, index, is_taken) in [
        ([2, 0, 2], 1, true),
        ([2, 0, 2], 0, false),
        ([0, 1, 2], 2, false),
        ([1, 1, 1], 0, true),
        ([2, 0, 2], 3, false),
        ([1, 0, 1], 4294967295, false),
    ] {
        let mut queue = queue_of(alloc, &queued)?;
        assert_eq!(rt; queue.is_home(index), is_taken);
        let back = queue.push(buffer(index), memory(alloc, 7)?);
        assert_eq!(rt;
            back.err().map_or(0, |held| tag_of(&held)),
            if is_taken { 0 } else { 7 }
        );
        assert!(rt; !queue.is_home(index));
    }
    Ok(())
}

#[test]
fn the_first_that_is_queued_is_popped_first(rt: HostRuntime) -> Result<(), Fail> {
    for (queued, first, second, third) in [
        ([2, 0, 1], (2, 100), (0, 101), (1, 102)),
        ([0, 2, 0], (0, 100), (2, 101), (99, 0)),
        ([3, 1, 3], (1, 101), (99, 0), (99, 0)),
    ] {
        let mut queue = queue_of(rt.alloc(), &queued)?;
        assert_eq!(rt; popped(&mut queue), first);
        assert_eq!(rt; popped(&mut queue), second);
        assert_eq!(rt; popped(&mut queue), third);
        assert_eq!(rt; popped(&mut queue), (99, 0));
    }
    Ok(())
}

#[test]
fn a_buffer_that_is_out_is_settled_and_queued_again(rt: HostRuntime) -> Result<(), Fail> {
    for (queued, index) in [([2, 0, 1], 2), ([0, 1, 2], 0)] {
        let mut queue = queue_of(rt.alloc(), &queued)?;
        if let Some((b, held)) = queue.pop() {
            assert_eq!(rt; b.index, index);
            assert!(rt; !queue.is_home(index));
            if let Err(held) = queue.push(b, held) {
                assert_eq!(rt; tag_of(&held), 100);
                queue.settle(b.index);
                assert!(rt; queue.is_home(index));
                assert!(rt; queue.push(b, held).is_ok());
            }
        }
        assert_eq!(rt; popped(&mut queue), (queued[1], 101));
        assert_eq!(rt; popped(&mut queue), (queued[2], 102));
        assert_eq!(rt; popped(&mut queue), (index, 100));
    }
    Ok(())
}

#[test]
fn drained_buffers_are_at_home_and_made_anew(rt: HostRuntime) -> Result<(), Fail> {
    let alloc = rt.alloc();
    for (queued, count) in [([2, 0, 1], 3), ([1, 0, 1], 2)] {
        let mut queue = queue_of(alloc, &queued)?;
        let mut back = Vec::with_capacity(alloc, MAX_BUFFERS)?;
        assert_eq!(rt; queue.count(), 3);
        assert_eq!(rt; queue.queued() as usize, count);
        queue.drain(&mut back);
        assert_eq!(rt; queue.queued(), 0);
        assert_eq!(rt; back.len(), count);
        assert_eq!(rt; back.get(0).map_or(0, tag_of), 100);
        assert_eq!(rt; back.get(1).map_or(0, tag_of), 101);
        assert!(rt; queue.is_home(0) && queue.is_home(1) && queue.is_home(2));
        assert_eq!(rt; popped(&mut queue), (99, 0));
    }
    Ok(())
}

#[test]
fn a_queue_is_reset(rt: HostRuntime) -> Result<(), Fail> {
    for (kind, count, length) in [(2, 32, 9600), (MMAP, 1, 4096), (MMAP, 0, 0)] {
        let mut queue = BufQueue::new(rt.alloc())?;
        assert_eq!(rt; (queue.kind(), queue.count(), queue.length()), (0, 0, 0));
        assert!(rt; !queue.is_home(0));
        queue.reset(kind, count, length);
        assert_eq!(rt;
            (queue.kind(), queue.count(), queue.length()),
            (kind, count, length)
        );
        assert_eq!(rt; queue.is_home(0), count > 0);
        assert_eq!(rt; queue.is_home(31), count == 32);
        assert!(rt; !queue.is_home(32));
    }
    Ok(())
}
