use crate::codes::{GREY, NV12, RGB3, UYVY, YU12, YUYV};
use crate::colours::Colours::{Rgb, Ycbcr};
use crate::fmt::Fmt;
use crate::formats::nth_format;
use crate::picture::{converted_byte, pattern_byte};
use crate::sizes::{adjust, bytesperline, sizeimage};
use crate::triple::Triple;
use std::process::Abort;
use v4l_const::FourCc;
use vm_mem::Store;

/// The letters ABCD, which no format has.
const UNKNOWN: FourCc = FourCc(0x4443_4241);

/// The bytes of a source picture of at most 16 by 16 pixels.
#[derive(Clone, Copy)]
struct Block {
    bytes: [u8; 768],
}

impl Store for Block {
    ghost Rest = { Unit {0} };

    ghost bytes_of = { λ b. b.bytes };

    ghost rest_of = { λ _. tt };

    fn size(&self) -> u32 {
        768
    }

    fn get(&self, i: u32) -> u8 {
        self.bytes[i as usize]
    }

    fn set(&mut self, i: u32, b: u8) {
        self.bytes[i as usize] = b;
    }
}

/// A block in which byte `i` is `7 * i`, and 13 more in each further 256 bytes.
fn counted() -> Block {
    let mut bytes = [0; 768];
    for (i, byte) in bytes.iter_mut().enumerate() {
        *byte = ((7 * i + 13 * (i / 256)) % 256) as u8;
    }
    Block { bytes }
}

/// The bytes of a 16 by 16 picture in `src`, converted, from these places.
fn converted(rt: &impl Abort, from: FourCc, src: &Block, to: FourCc, places: [u32; 4]) -> [u8; 4] {
    let (src_fmt, dst_fmt) = (adjust(from, 16, 16), adjust(to, 16, 16));
    assert!(rt; src_fmt.width == dst_fmt.width && src_fmt.height == dst_fmt.height);
    assert!(rt; sizeimage(&src_fmt) <= 768);
    let mut bytes = [0; 4];
    for (byte, place) in bytes.iter_mut().zip(places) {
        assert!(rt; place < sizeimage(&dst_fmt));
        *byte = converted_byte(&src_fmt, src, &dst_fmt, place);
    }
    bytes
}

/// Twelve bytes, from a place on, of a 16 by 16 picture that an input shows.
fn shown(rt: &impl Abort, input: u32, seq: u32, code: FourCc, at: u32) -> [u8; 12] {
    let f = adjust(code, 16, 16);
    assert!(rt; input < 4 && at < 768);
    let mut bytes = [0; 12];
    for (byte, place) in bytes.iter_mut().zip(at..at + 12) {
        assert!(rt; place < sizeimage(&f));
        *byte = pattern_byte(input, seq, &f, place);
    }
    bytes
}

#[test]
fn formats_are_adjusted_and_measured(rt: HostRuntime) {
    for ((code, width, height), (fit_code, fit_width, fit_height), line, size) in [
        ((UNKNOWN, 641, 1), (GREY, 640, 16), 640, 10240),
        ((NV12, 17, 481), (NV12, 16, 480), 16, 11520),
        ((RGB3, 0, u32::MAX), (RGB3, 16, 480), 48, 23040),
        ((GREY, 16, 16), (GREY, 16, 16), 16, 256),
        ((GREY, 640, 480), (GREY, 640, 480), 640, 307200),
        ((YUYV, 16, 16), (YUYV, 16, 16), 32, 512),
        ((YUYV, 640, 480), (YUYV, 640, 480), 1280, 614400),
        ((UYVY, 16, 16), (UYVY, 16, 16), 32, 512),
        ((UYVY, 640, 480), (UYVY, 640, 480), 1280, 614400),
        ((NV12, 16, 16), (NV12, 16, 16), 16, 384),
        ((NV12, 640, 480), (NV12, 640, 480), 640, 460800),
        ((YU12, 16, 16), (YU12, 16, 16), 16, 384),
        ((YU12, 640, 480), (YU12, 640, 480), 640, 460800),
        ((RGB3, 16, 16), (RGB3, 16, 16), 48, 768),
        ((RGB3, 640, 480), (RGB3, 640, 480), 1920, 921600),
        ((YUYV, u32::MAX, 0), (YUYV, 640, 16), 1280, 20480),
        ((UYVY, 639, 479), (UYVY, 638, 478), 1276, 609928),
        ((YU12, 18, 21), (YU12, 18, 20), 18, 540),
        ((GREY, 15, 482), (GREY, 16, 480), 16, 7680),
        ((FourCc(0), 0, 0), (GREY, 16, 16), 16, 256),
    ] {
        let f = adjust(code, width, height);
        assert_eq!(rt;
            f,
            Fmt {
                code: fit_code,
                width: fit_width,
                height: fit_height
            }
        );
        assert_eq!(rt; (bytesperline(&f), sizeimage(&f)), (line, size));
    }
}

#[test]
fn formats_stand_in_their_order(rt: HostRuntime) {
    for (i, letters) in [
        (0, b"GREY"),
        (1, b"YUYV"),
        (2, b"UYVY"),
        (3, b"NV12"),
        (4, b"YU12"),
        (5, b"RGB3"),
    ] {
        assert_eq!(rt; nth_format(i), Some(FourCc(u32::from_le_bytes(*letters))));
    }
    for i in [6, 7, u32::MAX] {
        assert_eq!(rt; nth_format(i), None);
    }
}

#[test]
fn colours_turn_by_their_formulas(rt: HostRuntime) {
    for (given, want) in [
        (Triple(255, 255, 255), Triple(235, 128, 128)),
        (Triple(0, 0, 0), Triple(16, 128, 128)),
        (Triple(255, 0, 0), Triple(82, 90, 240)),
        (Triple(0, 255, 0), Triple(144, 54, 34)),
        (Triple(0, 0, 255), Triple(41, 240, 110)),
        (Triple(0, 255, 255), Triple(169, 166, 16)),
        (Triple(255, 0, 255), Triple(107, 202, 222)),
        (Triple(255, 255, 0), Triple(210, 16, 146)),
    ] {
        assert_eq!(rt; given.turned(Rgb, Ycbcr), want);
    }
    for (given, want) in [
        (Triple(235, 128, 128), Triple(255, 255, 255)),
        (Triple(210, 16, 146), Triple(255, 255, 0)),
        (Triple(169, 166, 16), Triple(0, 254, 255)),
        (Triple(144, 54, 34), Triple(0, 254, 0)),
        (Triple(107, 202, 222), Triple(255, 1, 255)),
        (Triple(82, 90, 240), Triple(255, 1, 0)),
        (Triple(41, 240, 110), Triple(0, 0, 255)),
        (Triple(16, 128, 128), Triple(0, 0, 0)),
        (Triple(0, 0, 0), Triple(0, 135, 0)),
        (Triple(255, 255, 255), Triple(255, 125, 255)),
        (Triple(0, 255, 255), Triple(184, 0, 237)),
        (Triple(255, 0, 0), Triple(74, 255, 20)),
        (Triple(128, 0, 255), Triple(255, 77, 0)),
        (Triple(128, 255, 0), Triple(0, 185, 255)),
        (Triple(16, 129, 127), Triple(0, 0, 2)),
        (Triple(17, 128, 128), Triple(1, 1, 1)),
    ] {
        assert_eq!(rt; given.turned(Ycbcr, Rgb), want);
    }
}

#[test]
fn patterns_show_their_pictures(rt: HostRuntime) {
    for (input, seq, code, at, want) in [
        (
            0,
            7,
            GREY,
            4,
            [169, 169, 144, 144, 107, 107, 82, 82, 41, 41, 16, 16],
        ),
        (
            0,
            7,
            YUYV,
            8,
            [169, 166, 169, 16, 144, 54, 144, 34, 107, 202, 107, 222],
        ),
        (
            0,
            7,
            UYVY,
            8,
            [166, 169, 16, 169, 54, 144, 34, 144, 202, 107, 222, 107],
        ),
        (
            0,
            7,
            NV12,
            250,
            [82, 82, 41, 41, 16, 16, 128, 128, 16, 146, 166, 16],
        ),
        (
            0,
            7,
            YU12,
            314,
            [166, 54, 202, 90, 240, 128, 128, 146, 16, 34, 222, 240],
        ),
        (
            0,
            7,
            RGB3,
            18,
            [0, 254, 0, 0, 254, 0, 255, 1, 255, 255, 1, 255],
        ),
        (
            1,
            u32::MAX,
            GREY,
            4,
            [3, 4, 5, 6, 7, 8, 9, 10, 11, 12, 13, 14],
        ),
        (
            1,
            u32::MAX,
            YUYV,
            8,
            [3, 128, 4, 128, 5, 128, 6, 128, 7, 128, 8, 128],
        ),
        (
            1,
            u32::MAX,
            UYVY,
            8,
            [128, 3, 128, 4, 128, 5, 128, 6, 128, 7, 128, 8],
        ),
        (
            1,
            u32::MAX,
            NV12,
            250,
            [24, 25, 26, 27, 28, 29, 128, 128, 128, 128, 128, 128],
        ),
        (
            1,
            u32::MAX,
            YU12,
            250,
            [24, 25, 26, 27, 28, 29, 128, 128, 128, 128, 128, 128],
        ),
        (
            1,
            u32::MAX,
            RGB3,
            756,
            [12, 12, 12, 13, 13, 13, 14, 14, 14, 15, 15, 15],
        ),
        (
            2,
            3,
            GREY,
            4,
            [16, 16, 16, 16, 235, 235, 235, 235, 235, 235, 235, 235],
        ),
        (
            2,
            3,
            YUYV,
            8,
            [16, 128, 16, 128, 16, 128, 16, 128, 235, 128, 235, 128],
        ),
        (
            2,
            3,
            UYVY,
            8,
            [128, 16, 128, 16, 128, 16, 128, 16, 128, 235, 128, 235],
        ),
        (
            2,
            3,
            NV12,
            250,
            [16, 16, 16, 16, 16, 16, 128, 128, 128, 128, 128, 128],
        ),
        (
            2,
            3,
            YU12,
            250,
            [16, 16, 16, 16, 16, 16, 128, 128, 128, 128, 128, 128],
        ),
        (
            2,
            3,
            RGB3,
            18,
            [0, 0, 0, 0, 0, 0, 255, 255, 255, 255, 255, 255],
        ),
        (
            3,
            300,
            GREY,
            4,
            [44, 44, 44, 44, 44, 44, 44, 44, 44, 44, 44, 44],
        ),
        (
            3,
            300,
            YUYV,
            8,
            [44, 128, 44, 128, 44, 128, 44, 128, 44, 128, 44, 128],
        ),
        (
            3,
            300,
            UYVY,
            8,
            [128, 44, 128, 44, 128, 44, 128, 44, 128, 44, 128, 44],
        ),
        (
            3,
            300,
            NV12,
            250,
            [44, 44, 44, 44, 44, 44, 128, 128, 128, 128, 128, 128],
        ),
        (
            3,
            300,
            YU12,
            250,
            [44, 44, 44, 44, 44, 44, 128, 128, 128, 128, 128, 128],
        ),
        (
            3,
            300,
            RGB3,
            18,
            [33, 33, 33, 33, 33, 33, 33, 33, 33, 33, 33, 33],
        ),
    ] {
        assert_eq!(rt;
            shown(&rt, input, seq, code, at),
            want,
            "input {input} from {at}"
        );
    }
}

#[test]
fn conversions_take_the_pixel_of_each_byte(rt: HostRuntime) {
    // A bottom right pixel of a group, a last column, a first and a last Cb or Cr, a last byte.
    let places = [
        (GREY, [0, 17, 15, 255]),
        (YUYV, [1, 2, 31, 510]),
        (UYVY, [0, 3, 30, 511]),
        (NV12, [17, 256, 271, 383]),
        (YU12, [17, 256, 319, 383]),
        (RGB3, [0, 52, 47, 767]),
    ];
    let src = counted();
    for (from, wants) in [
        (
            GREY,
            [
                [0, 119, 105, 249],
                [128, 7, 128, 249],
                [128, 7, 128, 249],
                [119, 128, 128, 128],
                [119, 128, 128, 128],
                [0, 120, 104, 255],
            ],
        ),
        (
            YUYV,
            [
                [0, 238, 210, 255],
                [7, 14, 217, 255],
                [7, 14, 217, 255],
                [238, 7, 217, 38],
                [238, 7, 24, 38],
                [0, 123, 255, 255],
            ],
        ),
        (
            UYVY,
            [
                [7, 245, 217, 6],
                [0, 21, 210, 6],
                [0, 21, 210, 6],
                [245, 0, 210, 31],
                [245, 0, 17, 31],
                [0, 140, 255, 216],
            ],
        ),
        (
            NV12,
            [
                [0, 119, 105, 249],
                [13, 7, 118, 249],
                [13, 7, 118, 249],
                [119, 13, 118, 134],
                [119, 13, 127, 134],
                [0, 253, 69, 255],
            ],
        ),
        (
            YU12,
            [
                [0, 119, 105, 249],
                [13, 7, 254, 249],
                [13, 7, 254, 249],
                [119, 13, 254, 134],
                [119, 13, 198, 134],
                [104, 102, 0, 255],
            ],
        ),
        (
            RGB3,
            [
                [21, 108, 72, 25],
                [132, 39, 124, 25],
                [132, 39, 124, 25],
                [108, 132, 124, 124],
                [108, 132, 132, 124],
                [0, 108, 73, 19],
            ],
        ),
    ] {
        for ((to, at), want) in places.iter().zip(wants.iter()) {
            assert_eq!(rt; converted(&rt, from, &src, *to, *at), *want);
        }
    }
}

#[test]
fn grey_and_white_turn_into_yuyv(rt: HostRuntime) {
    let mut bytes = [0; 768];
    bytes[..6].copy_from_slice(&[255; 6]);
    let white = Block { bytes };
    assert_eq!(rt;
        converted(&rt, GREY, &counted(), YUYV, [0, 1, 2, 3]),
        [0x00, 0x80, 0x07, 0x80]
    );
    assert_eq!(rt;
        converted(&rt, GREY, &counted(), YUYV, [4, 5, 6, 7]),
        [0x0e, 0x80, 0x15, 0x80]
    );
    assert_eq!(rt;
        converted(&rt, RGB3, &white, YUYV, [0, 1, 2, 3]),
        [0xeb, 0x80, 0xeb, 0x80]
    );
}
