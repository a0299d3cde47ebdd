use super::*;
use std::test::Fail;
use v4l_const::{FourCc, Model};
use v4l_format::{adjust, sizeimage};
use vm_frame::{Frame, Held, Mem};
use vm_mem::{Memory, Store};

fn held(rt: &HostRuntime, queue: u32, index: u32, len: u32) -> Result<Held, Memory> {
    let mem = Mem::OfFrame(Frame::make_zero(rt.alloc(), 7, len)?);
    Ok(Held { queue, index, mem })
}

// From 16 by 16 greys, 256 bytes, to as many pixels of YUYV, 512 bytes, with 8 bytes behind them.
#[test]
fn a_bad_job_comes_back_with_its_parts(rt: HostRuntime) -> Result<(), Fail> {
    let spec = JobSpec {
        session: 5,
        number: 9,
        model: Model::Convert,
        input: 0,
        seq: 2,
        src: adjust(FourCc(u32::from_le_bytes(*b"GREY")), 16, 16),
        dst: adjust(FourCc(u32::from_le_bytes(*b"YUYV")), 16, 16),
    };
    let (src, dst) = (held(&rt, 2, 0, 256)?, held(&rt, 1, 3, 520)?);
    assert!(rt; spec.src.width == spec.dst.width && spec.src.height == spec.dst.height);
    assert!(rt; sizeimage(&spec.src) <= src.mem.size() && sizeimage(&spec.dst) <= dst.mem.size());
    let src = Some(src);
    let job = Job { spec, src, dst };
    assert_eq!(rt;
        job.spec.name(),
        JobName {
            session: 5,
            number: 9
        }
    );

    let entry = entry_of(&job);
    let DoneJob { job, good } = job.done(false);
    let Job { spec, src, dst } = job;
    assert!(rt; !good);
    assert_eq!(rt; spec, entry.spec);
    assert_eq!(rt; src.map(|held| held.index), Some(0));
    assert_eq!(rt; (dst.index, dst.mem.size()), (3, 520));
    Ok(())
}
