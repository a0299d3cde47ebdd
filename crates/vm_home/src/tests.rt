ghost use Rattle.std.specs.Prelude.{◌<◌, ◌^◌};

use super::*;
use std::alloc::Global;
use std::test::Fail;
use vm_frame::{Frame, Mem};

// The memory of a frame with this tag.
fn frame(alloc: Global, tag: u64) -> Result<Mem, Fail> {
    Ok(Mem::OfFrame(Frame::make_zero(alloc, tag, 16)?))
}

// The tag of a memory that is a frame.
fn tag_of(mem: Option<&Mem>) -> Option<u64> {
    match mem {
        Some(Mem::OfFrame(frame)) => Some(frame.tag()),
        Some(Mem::OfUser(_)) | None => None,
    }
}

#[test]
fn memories_leave_and_come_back(rt: HostRuntime) -> Result<(), Fail> {
    let mut home = Home::new(rt.alloc());
    home.reserve(2)?;
    home.add(frame(rt.alloc(), 7)?);
    home.add(frame(rt.alloc(), 8)?);
    let taken = home.take(0);
    assert_eq!(rt;
        (
            tag_of(taken.as_ref()),
            tag_of(home.get(0)),
            tag_of(home.get(1))
        ),
        (Some(7), None, Some(8))
    );
    home.put(0, frame(rt.alloc(), 9)?);
    home.forget(1);
    assert_eq!(rt;
        (
            tag_of(home.get(0)),
            tag_of(home.get(1)),
            tag_of(home.get(2))
        ),
        (Some(9), None, None)
    );
    let made = home.size();
    home.clear();
    assert_eq!(rt; (made, home.size()), (2, 0));
    Ok(())
}
