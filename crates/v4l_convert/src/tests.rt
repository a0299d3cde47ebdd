use crate::convert;
use std::process::Abort;
use v4l_const::FourCc;
use v4l_format::{adjust, converted_byte, nth_format, sizeimage};
use vm_mem::Store;

/// The bytes of a block: those of the largest picture that is tried, and some behind it.
const SIZE: u32 = 800;

/// The bytes of a picture of at most 16 by 16 pixels, with some behind it.
#[derive(Clone, Copy)]
struct Block {
    bytes: [u8; 800],
}

impl Store for Block {
    ghost Rest = { Unit {0} };

    ghost bytes_of = { λ b. b.bytes };

    ghost rest_of = { λ _. tt };

    fn size(&self) -> u32 {
        SIZE
    }

    fn get(&self, i: u32) -> u8 {
        self.bytes[i as usize]
    }

    fn set(&mut self, i: u32, b: u8) {
        self.bytes[i as usize] = b;
    }
}

/// A block in which byte `i` is `7 * i + seed`, modulo 256.
fn filled(seed: u8) -> Block {
    let mut bytes = [0; 800];
    for (i, byte) in bytes.iter_mut().enumerate() {
        *byte = ((7 * i + seed as usize) % 256) as u8;
    }
    Block { bytes }
}

/// A picture of 16 by 16 pixels is converted byte for byte as by the plain slow form, and no byte
/// behind it is set.
fn agrees(rt: &impl Abort, from: FourCc, to: FourCc, seed: u8) {
    let (src_fmt, dst_fmt) = (adjust(from, 16, 16), adjust(to, 16, 16));
    assert!(rt; src_fmt.width == dst_fmt.width && src_fmt.height == dst_fmt.height);
    assert!(rt; sizeimage(&src_fmt) <= SIZE && sizeimage(&dst_fmt) <= SIZE);
    let src = filled(seed);
    let mut dst = filled(seed ^ 255);
    let before = dst;
    convert(&src_fmt, &src, &dst_fmt, &mut dst);
    for i in 0..SIZE {
        let expected = if i < sizeimage(&dst_fmt) {
            converted_byte(&src_fmt, &src, &dst_fmt, i)
        } else {
            before.get(i)
        };
        assert_eq!(rt; dst.get(i), expected);
    }
}

#[test]
fn every_pair_agrees_with_the_slow_form(rt: HostRuntime) {
    for seed in [0, 93] {
        for from in 0..6 {
            for to in 0..6 {
                if let (Some(from), Some(to)) = (nth_format(from), nth_format(to)) {
                    agrees(&rt, from, to, seed);
                }
            }
        }
    }
}
