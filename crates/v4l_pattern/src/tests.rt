ghost use Rattle.std.specs.Prelude.{◌<◌};
ghost use Rattle.v4l_format.specs.Fmt.{IsAdjusted};

use super::*;
use std::process::Abort;
use std::test::Fail;
use v4l_format::{Fmt, adjust, nth_format, pattern_byte, sizeimage};
use vm_mem::Store;

/// What the bytes are before they are filled.
const UNTOUCHED: u8 = 0xee;

/// Room for a picture of at most 18 by 22 pixels, and for 12 bytes behind it.
#[derive(Drop)]
struct Block {
    bytes: [u8; 1200],
}

impl Store for Block {
    ghost Rest = { Unit {0} };

    ghost bytes_of = { λ b. b.bytes };

    ghost rest_of = { λ _. tt };

    fn size(&self) -> u32 {
        1200
    }

    fn get(&self, i: u32) -> u8 {
        self.bytes[i as usize]
    }

    fn set(&mut self, i: u32, b: u8) {
        self.bytes[i as usize] = b;
    }
}

/// The first byte that isn't that of the plain form, or behind the picture isn't as it was.
fn wrong_byte(rt: &impl Abort, input: u32, seq: u32, f: &Fmt) -> Option<u32>
    requires adjusted { IsAdjusted f.now }
    requires input { input < 4 }
{
    let size = sizeimage(f);
    assert!(rt; size <= 1188);
    let mut block = Block {
        bytes: [UNTOUCHED; 1200],
    };
    fill_pattern(input, seq, f, &mut block);
    for (i, byte) in block.bytes.iter().enumerate() {
        let place = i as u32;
        let want = if place < size {
            pattern_byte(input, seq, f, place)
        } else {
            UNTOUCHED
        };
        if *byte != want {
            return Some(place);
        }
    }
    None
}

#[test]
fn a_filled_picture_has_the_bytes_of_the_plain_form(rt: HostRuntime) -> Result<(), Fail> {
    for (width, height) in [(16, 16), (18, 22)] {
        for place in 0..6 {
            let code = nth_format(place).expect(&rt, "there are six formats");
            let f = adjust(code, width, height);
            for input in 0..4 {
                for seq in [0, 5, u32::MAX] {
                    assert_eq!(rt; wrong_byte(&rt, input, seq, &f), None);
                }
            }
        }
    }
    Ok(())
}
