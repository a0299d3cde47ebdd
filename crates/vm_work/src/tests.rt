ghost use Rattle.v4l_format.specs.Fmt.{IsAdjusted};

use super::*;
use std::test::Fail;
use v4l_const::{FourCc, Model};
use v4l_format::{Fmt, adjust, sizeimage};
use vm_frame::{Frame, Held, Mem};
use vm_io::{ScriptedEngine, SureEngine};
use vm_job::{Job, JobSpec};
use vm_mem::{Memory, Store};

fn format(letters: [u8; 4]) -> Fmt
    ensures { IsAdjusted result }
{
    adjust(FourCc(u32::from_le_bytes(letters)), 16, 16)
}

/// A buffer of `len` bytes, filled from this seed on.
fn filled(rt: &HostRuntime, len: u32, seed: u8) -> Result<Held, Memory> {
    let mut frame = Frame::make_zero(rt.alloc(), 7, len)?;
    frame.fill(seed);
    let mem = Mem::OfFrame(frame);
    Ok(Held {
        queue: 1,
        index: 0,
        mem,
    })
}

// Frame 300 of the input that counts, with 8 bytes behind the picture. The second run fails.
#[test]
fn a_job_is_bad_where_the_engine_fails(rt: HostRuntime) -> Result<(), Fail> {
    let mut engine = ScriptedEngine::new(vec![in rt.alloc(); 2; 1]?);
    let spec = JobSpec {
        session: 0,
        number: 0,
        model: Model::Capture,
        input: 3,
        seq: 300,
        src: format(*b"GREY"),
        dst: format(*b"GREY"),
    };
    for (good, bytes) in [
        (true, [44, 44, 5]),
        (false, [5, 254, 5]),
        (true, [44, 44, 5]),
    ] {
        let dst = filled(&rt, 264, 5)?;
        assert!(rt; sizeimage(&spec.dst) <= dst.mem.size());
        let job = Job {
            spec,
            src: None,
            dst,
        };
        let done = work(job, &mut engine, &OpenGate);
        let mem = &done.job.dst.mem;
        assert!(rt; mem.size() == 264);
        assert_eq!(rt; done.good, good);
        assert_eq!(rt; [mem.get(0), mem.get(255), mem.get(256)], bytes);
    }
    Ok(())
}

#[test]
fn a_picture_is_converted(rt: HostRuntime) -> Result<(), Fail> {
    let spec = JobSpec {
        session: 0,
        number: 0,
        model: Model::Convert,
        input: 0,
        seq: 0,
        src: format(*b"GREY"),
        dst: format(*b"YUYV"),
    };
    let (src, dst) = (filled(&rt, 256, 0)?, filled(&rt, 520, 5)?);
    assert!(rt; spec.src.width == spec.dst.width && spec.src.height == spec.dst.height);
    assert!(rt; sizeimage(&spec.src) <= src.mem.size() && sizeimage(&spec.dst) <= dst.mem.size());
    let src = Some(src);
    let done = work(Job { spec, src, dst }, &mut SureEngine::new(), &OpenGate);
    let mem = &done.job.dst.mem;
    assert!(rt; done.good);
    assert!(rt; mem.size() == 520);
    assert_eq!(rt;
        [mem.get(0), mem.get(1), mem.get(2), mem.get(3)],
        [0, 128, 7, 128]
    );
    assert_eq!(rt; [mem.get(510), mem.get(512)], [249, 5]);
    Ok(())
}
