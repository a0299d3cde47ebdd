//! The frames of a session: how they are made, and from which offsets they are mapped.
ghost use Rattle.std.specs.Prelude.{◌≡◌, ◌+◌, ◌^◌, ◌<◌, ◌≤◌, IfOk, IsErr, length};
ghost use Rattle.vm_session.specs.Buffers.{frame_tag, fresh_frames};
ghost use Rattle.vm_session.specs.Mapped.{frames_from, frame_at};

use std::alloc::Global;
use std::collections::VecDeque;
use vm_frame::{Frame, Held, Mem};
use vm_mem::Memory;
use vm_wire::buffer_offset;

/// The tag of the frame that the session of this id makes after so many others.
pub fn frame_tag(id: u32, before: u32) -> u64
    ensures value { result ≡ frame_tag id before }
    ensures small { before + 32 ≤ 2 ^ 32 → result + 32 ≤ 2 ^ 64 }
{
    u64::from(id) * 0x1_0000_0000 + u64::from(before)
}

/// So many zeroed frames of `size` bytes for the first buffers of type `t`, with the tags from
/// `first` on. Want of memory comes only where one is asked for.
pub fn fresh_frames(
    alloc: Global,
    t: u32,
    first: u64,
    size: u32,
    count: u32,
) -> Result<VecDeque<Held>, Memory>
    requires { first + count ≤ 2 ^ 64 }
    ensures frames { IfOk result (λ v. v.items ≡ fresh_frames t first size count) }
    ensures len { IfOk result (λ v. length v.items ≡ count) }
    ensures err { IsErr result → 0 < count }
{
    let mut frames = VecDeque::new(alloc);
    for index in 0..count {
        let frame = Frame::make_zero(alloc, first + u64::from(index), size)?;
        frames.push_back(Held {
            queue: t,
            index,
            mem: Mem::OfFrame(frame),
        })?;
    }
    Ok(frames)
}

/// The tag and the length of the frame that is mapped from an offset, among those of buffers of
/// type `t` with these lengths; the first of them has the tag `first`.
pub fn find_frame(lengths: &[u32], t: u32, first: u64, offset: u32) -> Option<(u64, u32)>
    requires few { length lengths.now ≤ 32 }
    requires small { first + 32 ≤ 2 ^ 64 }
    ensures { result ≡ frame_at offset (frames_from t first 0 lengths.now) }
{
    let mut index = 0;
    for len in lengths {
        if buffer_offset(t, index) == offset {
            return Some((first + u64::from(index), *len));
        }
        index += 1;
    }
    None
}
