use super::*;
use std::test::Fail;
use vm_mem::{Page, Store};

#[test]
fn a_frame_is_read_written_and_filled(rt: HostRuntime) -> Result<(), Fail> {
    let mut frame = Frame::make_zero(rt.alloc(), 7, 300)?;
    assert_eq!(rt; frame.tag(), 7);
    assert_eq!(rt; frame.size(), 300);

    let mut read = [1; 4];
    assert_eq!(rt; frame.write(298, &[5, 6]), Ok(()));
    assert_eq!(rt; frame.read(296, &mut read), Ok(()));
    assert_eq!(rt; read, [0, 0, 5, 6]);

    assert_eq!(rt; frame.write(299, &[5, 6]), Err(Range));
    assert_eq!(rt; frame.read(u32::MAX, &mut read), Err(Range));
    assert_eq!(rt; frame.read(300, &mut []), Ok(()));

    frame.fill(250);
    assert_eq!(rt; frame.read(0, &mut read), Ok(()));
    assert_eq!(rt; read, [250, 1, 8, 15]);
    assert_eq!(rt; frame.get(299), 39);
    Ok(())
}

#[test]
fn a_users_bytes_lie_in_two_pages(rt: HostRuntime) -> Result<(), Fail> {
    let mut entries = Vec::with_capacity(rt.alloc(), MAX_ENTRIES)?;
    entries.push_reserved(SgEntry {
        start: 0x1_0047_0fff,
        len: 1,
    });
    entries.push_reserved(SgEntry {
        start: 0x1_0046_f000,
        len: 255,
    });
    let mut pages = Vec::with_capacity(rt.alloc(), 2)?;
    pages.push_reserved(Page::make_zero(rt.alloc(), 0x10_0470)?);
    pages.push_reserved(Page::make_zero(rt.alloc(), 0x10_046f)?);
    let mut mem = Mem::OfUser(User { entries, pages });
    assert_eq!(rt; mem.size(), 256);

    let mut read = [1; 3];
    mem.copy_in(0, &[9, 8]);
    mem.set(255, 7);
    mem.copy_out(0, &mut read);
    assert_eq!(rt; read, [9, 8, 0]);
    mem.copy_out(253, &mut read);
    assert_eq!(rt; read, [0, 0, 7]);
    assert_eq!(rt; mem.get(1), 8);
    Ok(())
}
