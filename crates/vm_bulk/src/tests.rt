use crate::make_script;
use sha2::{Digest, Sha256};
use std::test::Fail;

/// The SHA-256 of the script of two processes, which was written apart from this program.
const TWO: [u8; 32] = [
    0x93, 0xfe, 0x67, 0x86, 0x46, 0x7e, 0xdc, 0x73, 0x06, 0x82, 0x47, 0xeb, 0x9d, 0xb6, 0xc5, 0xa6,
    0xd8, 0x17, 0x2b, 0x6d, 0x70, 0xda, 0xf9, 0x3e, 0x0c, 0x1f, 0x0b, 0x1a, 0xcd, 0xf1, 0x8e, 0x76,
];

const BEGINNING: &[u8] = b"\
device capture\n\
open a\n\
sfmt a cap GREY 64 48\n\
sinput a 0\n\
reqbufs a cap mmap 4\n\
mmap a m0 cap 0\n\
mmap a m1 cap 1\n\
mmap a m2 cap 2\n\
mmap a m3 cap 3\n\
qbuf a cap 0\n\
qbuf a cap 1\n\
qbuf a cap 2\n\
qbuf a cap 3\n\
streamon a cap\n\
dqbuf a cap\n\
hash a m0\n\
qbuf a cap 0\n\
";

const END: &[u8] = b"\
dqbuf a cap\n\
hash a m3\n\
qbuf a cap 3\n\
streamoff a cap\n\
munmap a m0\n\
munmap a m1\n\
munmap a m2\n\
munmap a m3\n\
close a\n\
";

#[test]
fn the_script_of_two_processes(rt: HostRuntime) -> Result<(), Fail> {
    let text = make_script(rt.alloc(), 2)?;
    assert_eq!(rt; Sha256::digest(&text), TWO);
    Ok(())
}

#[test]
fn scripts_begin_and_end_alike(rt: HostRuntime) -> Result<(), Fail> {
    for n in 1..=16 {
        let text = make_script(rt.alloc(), n)?;
        assert!(rt; text.starts_with(BEGINNING));
        assert!(rt; text.ends_with(END));
    }
    Ok(())
}
