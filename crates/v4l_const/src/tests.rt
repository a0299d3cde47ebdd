use crate::*;
use bitflags::Flags;
use std::test::Fail;

#[test]
fn errors(rt: HostRuntime) -> Result<(), Fail> {
    for (error, number, name) in [
        (Errno::Enoent, 2, "ENOENT"),
        (Errno::Eio, 5, "EIO"),
        (Errno::Ebadf, 9, "EBADF"),
        (Errno::Eagain, 11, "EAGAIN"),
        (Errno::Enomem, 12, "ENOMEM"),
        (Errno::Eacces, 13, "EACCES"),
        (Errno::Efault, 14, "EFAULT"),
        (Errno::Ebusy, 16, "EBUSY"),
        (Errno::Einval, 22, "EINVAL"),
        (Errno::Enotty, 25, "ENOTTY"),
        (Errno::Edeadlk, 35, "EDEADLK"),
        (Errno::Emsgsize, 90, "EMSGSIZE"),
        (Errno::Eopnotsupp, 95, "EOPNOTSUPP"),
    ] {
        assert_eq!(rt; error.number(), number);
        assert_eq!(rt; error.name(), name);
        assert!(rt; Errno::of(number) == Some(error), "at {number}");
    }
    for number in [0, 1, 34, 91, 96, u32::MAX] {
        assert!(rt; Errno::of(number).is_none(), "at {number}");
    }
    Ok(())
}

#[test]
fn calls(rt: HostRuntime) -> Result<(), Fail> {
    for (code, number, payload) in [
        (IoctlCode::QueryCap, 0, 104),
        (IoctlCode::EnumFmt, 2, 64),
        (IoctlCode::GFmt, 4, 208),
        (IoctlCode::SFmt, 5, 208),
        (IoctlCode::ReqBufs, 8, 20),
        (IoctlCode::QueryBuf, 9, 88),
        (IoctlCode::QBuf, 15, 88),
        (IoctlCode::StreamOn, 18, 4),
        (IoctlCode::StreamOff, 19, 4),
        (IoctlCode::EnumInput, 26, 80),
        (IoctlCode::GInput, 38, 4),
        (IoctlCode::SInput, 39, 4),
        (IoctlCode::TryFmt, 64, 208),
        (IoctlCode::SubscribeEvent, 90, 32),
        (IoctlCode::UnsubscribeEvent, 91, 32),
    ] {
        assert_eq!(rt; code.number(), number);
        assert_eq!(rt; code.payload_size(), payload);
        assert!(rt; IoctlCode::of(number) == Some(code), "at {number}");
    }
    // DQBUF and DQEVENT are among those that aren't sent.
    for number in [1, 3, 17, 89, 92, u32::MAX] {
        assert!(rt; IoctlCode::of(number).is_none(), "at {number}");
    }
    Ok(())
}

#[test]
fn flags_and_numbers(rt: HostRuntime) -> Result<(), Fail> {
    for (got, want) in [
        (BufFlags::MAPPED.bits(), 1),
        (BufFlags::QUEUED.bits(), 2),
        (BufFlags::DONE.bits(), 4),
        (BufFlags::ERROR.bits(), 0x40),
        (BufFlags::TIMESTAMP_MONOTONIC.bits(), 0x2000),
        (BufFlags::TIMESTAMP_COPY.bits(), 0x4000),
        (Caps::VIDEO_CAPTURE.bits(), 1),
        (Caps::VIDEO_CAPTURE_MPLANE.bits(), 0x1000),
        (Caps::VIDEO_M2M_MPLANE.bits(), 0x4000),
        (Caps::VIDEO_M2M.bits(), 0x8000),
        (Caps::STREAMING.bits(), 0x0400_0000),
        (Caps::DEVICE_CAPS.bits(), 0x8000_0000),
        (BUF_TYPE_CAPTURE, 1),
        (BUF_TYPE_OUTPUT, 2),
        (MEMORY_MMAP, 1),
        (MEMORY_USERPTR, 2),
        (EVENT_ALL, 0),
        (EVENT_FRAME_SYNC, 4),
        (FIELD_NONE, 1),
        (INPUT_TYPE_CAMERA, 2),
        (DRIVER_VERSION, 0x0001_0000),
    ] {
        assert_eq!(rt; got, want);
    }
    assert_eq!(rt; DRIVER, "vmedia");
    assert_eq!(rt; BUS_INFO, "platform:vmedia");
    Ok(())
}

#[test]
fn models(rt: HostRuntime) -> Result<(), Fail> {
    for (model, card, capabilities, device, flag) in [
        (
            Model::Capture,
            "vmedia capture",
            0x8400_0001,
            0x0400_0001,
            0x2000,
        ),
        (
            Model::Convert,
            "vmedia convert",
            0x8400_8000,
            0x0400_8000,
            0x4000,
        ),
    ] {
        assert_eq!(rt; model.card(), card);
        assert_eq!(rt; model.capabilities().bits(), capabilities);
        assert_eq!(rt; model.device_capabilities().bits(), device);
        assert_eq!(rt; model.timestamp_flag().bits(), flag);
        assert_eq!(rt; model.buffer_capabilities(), 0x13);
        assert_eq!(rt; model.picture_queue(), 1);
    }
    for (model, kind, has) in [
        (Model::Capture, 1, true),
        (Model::Capture, 2, false),
        (Model::Convert, 1, true),
        (Model::Convert, 2, true),
        (Model::Convert, 9, false),
    ] {
        assert_eq!(rt; model.has_queue(kind), has);
    }
    assert!(rt; Model::Capture.queues() == [1].as_slice());
    assert!(rt; Model::Convert.queues() == [2, 1].as_slice());
    assert!(rt; Model::Capture.source_queue().is_none());
    assert!(rt; Model::Convert.source_queue() == Some(2));
    assert!(rt; Model::Capture.has_inputs() && !Model::Convert.has_inputs());
    assert!(rt; Model::Capture.has_events() && !Model::Convert.has_events());
    assert!(rt; Model::Convert.copies_timestamps() && !Model::Capture.copies_timestamps());
    Ok(())
}
