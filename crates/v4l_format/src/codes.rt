//! The codes of the formats: four letters each, as a little-endian number.
//!
//! Source: Linux V4L2, `videodev2.h`, `V4L2_PIX_FMT_GREY`, `_YUYV`, `_UYVY`, `_NV12`, `_YUV420`,
//! `_RGB24`.

use v4l_const::FourCc;

pub const GREY: FourCc = FourCc(0x5945_5247);

pub const YUYV: FourCc = FourCc(0x5659_5559);

pub const UYVY: FourCc = FourCc(0x5956_5955);

pub const NV12: FourCc = FourCc(0x3231_564e);

pub const YU12: FourCc = FourCc(0x3231_5559);

pub const RGB3: FourCc = FourCc(0x3342_4752);
