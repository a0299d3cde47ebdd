ghost use Rattle.vm_lease.specs.Lease.{Touches};

use super::*;
use std::alloc::Global;
use std::test::Fail;
use vm_frame::{Frame, Mem};
use vm_local::{Call, Name, Reply, Small};
use vm_mem::Store;

// SHA-256 of the 5,000 bytes that the seed 93 gives, computed outside.
const OF_SEED_93: [u8; 32] = [
    0xd5, 0x0c, 0x87, 0x70, 0xb1, 0xde, 0x16, 0xe2, 0x47, 0x3c, 0xa7, 0xfc, 0x8a, 0x4e, 0x83, 0xdc,
    0x0c, 0xa0, 0x97, 0x5a, 0xcc, 0x7d, 0x43, 0x3a, 0xe2, 0xdc, 0x16, 0x82, 0xe7, 0x7f, 0x5b, 0x32,
];

// Does a call, twice, on 5,000 bytes that the seed 93 gave: its reply, and four of the bytes.
fn done(alloc: Global, call: Call, at: u32) -> Result<(Reply, [u8; 4]), Fail>
    requires { Touches call 5000 }
{
    let mut frame = Frame::make_zero(alloc, 7, 5000)?;
    frame.fill(93);
    let mut lease = Lease::new(2, call, Mem::OfFrame(frame));
    lease.apply();
    lease.apply();
    let mut read = [0; 4];
    if lease.mem.size() == 5000 && at <= 4996 {
        lease.mem.copy_out(at, &mut read);
    }
    Ok((lease.reply, read))
}

#[test]
fn calls_are_done_on_a_memory(rt: HostRuntime) -> Result<(), Fail> {
    let m = Name::new(b"m").ok_or("no name")?;
    let bytes = Small::new(&[0xaa, 0x55]).ok_or("too many bytes")?;
    let told = Small::new(&[100, 107, 114]).ok_or("too many bytes")?;
    let (off, len, seed) = (4095, 3, 250);
    let read = done(rt.alloc(), Call::Peek { m, off: 1, len }, 4094)?;
    assert_eq!(rt; read, (Reply::Bytes(told), [79, 86, 93, 100]));
    let hashed = done(rt.alloc(), Call::Hash { m }, 0)?;
    assert_eq!(rt; hashed, (Reply::Digest(OF_SEED_93), [93, 100, 107, 114]));
    let written = done(rt.alloc(), Call::Poke { m, off, bytes }, 4094)?;
    assert_eq!(rt; written, (Reply::Done, [79, 0xaa, 0x55, 100]));
    let filled = done(rt.alloc(), Call::Fill { m, seed }, 4094)?;
    assert_eq!(rt; filled, (Reply::Done, [236, 243, 250, 1]));
    Ok(())
}
