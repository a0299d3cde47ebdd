ghost use Rattle.std.specs.Prelude.{◌<◌};

use super::*;
use vm_mem::Store;

/// The bytes of a picture of at most 16 by 16 pixels.
#[derive(Clone, Copy)]
struct Block {
    bytes: [u8; 768],
}

impl Store for Block {
    ghost Rest = { Unit {0} };

    ghost bytes_of = { λ b. b.bytes };

    ghost rest_of = { λ _. tt };

    fn size(&self) -> u32 {
        768
    }

    fn get(&self, i: u32) -> u8 {
        self.bytes[i as usize]
    }

    fn set(&mut self, i: u32, b: u8) {
        self.bytes[i as usize] = b;
    }
}

/// A block in which byte `i` is `i` modulo 251.
fn counted() -> Block {
    let mut bytes = [0; 768];
    for (i, byte) in bytes.iter_mut().enumerate() {
        *byte = (i % 251) as u8;
    }
    Block { bytes }
}

/// The places of the bytes 251, 252 and 253, which no counted block has.
fn places_set(block: &Block) -> [usize; 3] {
    let mut places = [0; 3];
    for (i, byte) in block.bytes.iter().enumerate() {
        if *byte > 250 {
            places[usize::from(*byte - 251) % 3] = i;
        }
    }
    places
}

/// The pixel at (3, 2), and the places that are set with the pixels at (3, 2) and at (2, 2).
fn probe<const F: u32>() -> (Triple, [usize; 3], [usize; 3])
    requires { F < 6 }
{
    let t = Triple(251, 252, 253);
    let (mut right, mut left) = (counted(), counted());
    let pixel = Image::<F>::sample(&right, 16, 16, 3, 2);
    Image::<F>::put(&mut right, 16, 16, 3, 2, t);
    Image::<F>::put(&mut left, 16, 16, 2, 2, t);
    (pixel, places_set(&right), places_set(&left))
}

#[test]
fn a_pixel_is_read_and_set_in_each_format(rt: HostRuntime) {
    for (found, want) in [
        (probe::<0>(), (Triple(35, 128, 128), [35, 0, 0], [34, 0, 0])),
        (probe::<1>(), (Triple(70, 69, 71), [70, 0, 0], [68, 69, 71])),
        (probe::<2>(), (Triple(71, 68, 70), [71, 0, 0], [69, 68, 70])),
        (
            probe::<3>(),
            (Triple(35, 23, 24), [35, 0, 0], [34, 274, 275]),
        ),
        (
            probe::<4>(),
            (Triple(35, 14, 78), [35, 0, 0], [34, 265, 329]),
        ),
        (
            probe::<5>(),
            (Triple(105, 106, 107), [105, 106, 107], [102, 103, 104]),
        ),
    ] {
        assert_eq!(rt; found, want);
    }
}
