ghost use Rattle.std.specs.Prelude.{⊤, [], ◌∷◌, codes};
ghost use Rattle.v4l_const.specs.Caps.{video_capture_cap, video_capture_mplane_cap, video_m2m_mplane_cap, video_m2m_cap, streaming_cap, device_caps_cap};

use bitflags::{Flag, Flags, bitflag_items};

/// What a device can do.
///
/// Source: Linux V4L2, "Device Capabilities Flags".
#[derive(Clone, Copy, Debug, PartialEq, Eq)]
pub struct Caps(pub u32);

bitflag_items! {
    impl Caps: u32 {
        /// It captures pictures.
        const VIDEO_CAPTURE = 1;
        /// It captures pictures into planes.
        const VIDEO_CAPTURE_MPLANE = 0x1000;
        /// It turns pictures in planes into others.
        const VIDEO_M2M_MPLANE = 0x4000;
        /// It turns pictures into others.
        const VIDEO_M2M = 0x8000;
        /// Its buffers are queued and dequeued.
        const STREAMING = 0x0400_0000;
        /// The record tells the capabilities of this device apart.
        const DEVICE_CAPS = 0x8000_0000;
    }
}

impl Flags for Caps {
    type Bits = u32;

    ghost exact = { ⊤ };

    ghost table = { (codes "VIDEO_CAPTURE", video_capture_cap) ∷
        (codes "VIDEO_CAPTURE_MPLANE", video_capture_mplane_cap) ∷
        (codes "VIDEO_M2M_MPLANE", video_m2m_mplane_cap) ∷ (codes "VIDEO_M2M", video_m2m_cap) ∷
        (codes "STREAMING", streaming_cap) ∷ (codes "DEVICE_CAPS", device_caps_cap) ∷ [] };

    ghost set_of = { λ caps. caps.0 };

    fn flags<'a>() -> &'a [Flag<Caps>] {
        Caps::FLAGS
    }

    fn bits(&self) -> u32 {
        self.0
    }

    fn from_bits_retain(bits: u32) -> Caps {
        Caps(bits)
    }
}
