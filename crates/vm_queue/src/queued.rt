use v4l_layout::BufferRec;
use vm_frame::Held;

/// A buffer that is queued: its record and its memory.
///
/// Source: own.
#[derive(Drop)]
pub struct Queued {
    pub buffer: BufferRec,
    pub held: Held,
}
