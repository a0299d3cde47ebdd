ghost use Rattle.std.specs.Prelude.{⊤, [], ◌∷◌, codes};
ghost use Rattle.v4l_const.specs.BufFlags.{mapped_flag, queued_flag, done_flag, error_flag, monotonic_flag, copy_flag};

use bitflags::{Flag, Flags, bitflag_items};

/// What holds of a buffer.
///
/// Source: Linux V4L2, "Buffer Flags".
#[derive(Clone, Copy, Debug, PartialEq, Eq)]
pub struct BufFlags(pub u32);

bitflag_items! {
    impl BufFlags: u32 {
        /// A mapping of the buffer is bound.
        const MAPPED = 1;
        /// The buffer is with the device, or waits for it.
        const QUEUED = 2;
        /// The device is done with the buffer, which waits to be dequeued.
        const DONE = 4;
        /// The device failed to fill the buffer.
        const ERROR = 0x40;
        /// The timestamp is the device's own.
        const TIMESTAMP_MONOTONIC = 0x2000;
        /// The timestamp is that of the source picture.
        const TIMESTAMP_COPY = 0x4000;
    }
}

impl Flags for BufFlags {
    type Bits = u32;

    ghost exact = { ⊤ };

    ghost table = { (codes "MAPPED", mapped_flag) ∷ (codes "QUEUED", queued_flag) ∷
        (codes "DONE", done_flag) ∷ (codes "ERROR", error_flag) ∷
        (codes "TIMESTAMP_MONOTONIC", monotonic_flag) ∷ (codes "TIMESTAMP_COPY", copy_flag) ∷ [] };

    ghost set_of = { λ flags. flags.0 };

    fn flags<'a>() -> &'a [Flag<BufFlags>] {
        BufFlags::FLAGS
    }

    fn bits(&self) -> u32 {
        self.0
    }

    fn from_bits_retain(bits: u32) -> BufFlags {
        BufFlags(bits)
    }
}
