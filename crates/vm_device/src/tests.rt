use super::*;
use std::test::Fail;
use v4l_const::{FourCc, Model};
use v4l_format::{adjust, sizeimage};
use vm_frame::{Frame, Held, Mem};
use vm_job::{Job, JobSpec};
use vm_mem::Store;
use vm_wire::{Command, Response};

#[test]
fn nothing_is_there_at_first(rt: HostRuntime) -> Result<(), Fail> {
    let mut device = Device::new(rt.alloc(), Model::Capture, 2)?;
    assert_eq!(rt; (device.opened(), device.has_unsent()), (0, false));
    assert_eq!(rt; (device.can_begin(0), device.is_quiet(0)), (false, true));
    assert!(rt; device.begin(0).is_none());
    assert!(rt; device.next_event().is_none());
    let close = Command::CloseSession { session: 0 };
    assert!(rt; !device.must_wait(&close));
    let mut held = Vec::with_capacity(rt.alloc(), 64)?;
    assert_eq!(rt; device.perform(close, &[], &mut held), Response::Refused(9));
    Ok(())
}

// A camera's job of 16 by 16 greys, 256 bytes, that never went out.
#[test]
fn a_stranger_is_handed_back(rt: HostRuntime) -> Result<(), Fail> {
    let mut device = Device::new(rt.alloc(), Model::Capture, 2)?;
    let grey = adjust(FourCc(u32::from_le_bytes(*b"GREY")), 16, 16);
    let spec = JobSpec {
        session: 0,
        number: 0,
        model: Model::Capture,
        input: 0,
        seq: 0,
        src: grey,
        dst: grey,
    };
    let mem = Mem::OfFrame(Frame::make_zero(rt.alloc(), 0, 256)?);
    assert!(rt; sizeimage(&grey) <= mem.size());
    let dst = Held {
        queue: 1,
        index: 0,
        mem,
    };
    let job = Job {
        spec,
        src: None,
        dst,
    };
    match device.finish(job.done(false)) {
        Ok(()) => assert!(rt; false),
        Err(stranger) => assert_eq!(rt; (stranger.spec, stranger.done.job.spec), (None, spec)),
    }
    assert!(rt; !device.has_unsent());
    Ok(())
}
