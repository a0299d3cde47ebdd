use super::*;
use std::test::Fail;
use vm_frame::SgEntry;
use vm_mem::{Page, Store};

fn entry(start: u64, len: u32) -> SgEntry {
    SgEntry { start, len }
}

#[test]
fn the_first_fault_is_found(rt: HostRuntime) -> Result<(), Fail> {
    let mut pages = Vec::new(rt.alloc());
    pages.push(Page::make_zero(rt.alloc(), 5)?)?;
    let rows = [
        (entry(0x5010, 16), entry(0x5010, 0), Err(SgFault::ZeroLen)),
        (entry(0x5010, 16), entry(0x5ff0, 17), Err(SgFault::Outside)),
        (entry(0x5010, 16), entry(0x5010, 16), Err(SgFault::Twice)),
        (entry(0x5010, 16), entry(0x501f, 1), Err(SgFault::Twice)),
        (entry(0x5010, 16), entry(0x5020, 4064), Ok(())),
        (entry(0x6000, 1), entry(0x5010, 0), Err(SgFault::Outside)),
    ];
    for (first, second, want) in rows {
        assert_eq!(rt; check(&[first, second], pages.as_slice()), want);
    }
    Ok(())
}

#[test]
fn the_largest_total_is_told(rt: HostRuntime) -> Result<(), Fail> {
    assert_eq!(rt; total(&[entry(0, u32::MAX); 249]), 1_069_446_856_455);
    Ok(())
}

#[test]
fn a_users_memory_is_made_and_loaded(rt: HostRuntime) -> Result<(), Fail> {
    let mut user = of_user(rt.alloc(), 5, 256, 4095)?;
    assert_eq!(rt; user.entries.len(), 2);
    assert_eq!(rt; user.entries[0], entry(0x1_0047_0fff, 1));
    assert_eq!(rt; user.entries[1], entry(0x1_0046_f000, 255));
    assert_eq!(rt; user.size(), 256);
    scatter_from(&mut user, 0, &[9, 8, 7]);

    // The entry of 2 bytes from 0x10046f001 on, with a pad of ones, and the same twice.
    let wire = [1, 0xf0, 0x46, 0, 1, 0, 0, 0, 2, 0, 0, 0, 1, 1, 1, 1];
    let twice = [
        1, 0xf0, 0x46, 0, 1, 0, 0, 0, 2, 0, 0, 0, 0, 0, 0, 0, //
        1, 0xf0, 0x46, 0, 1, 0, 0, 0, 2, 0, 0, 0, 0, 0, 0, 0,
    ];
    assert_eq!(rt; total_in(&twice), 4);
    assert_eq!(rt; load(&mut user, &twice), Err(SgFault::Twice));
    assert_eq!(rt; user.size(), 256);
    assert_eq!(rt; total_in(&wire), 2);
    assert_eq!(rt; load(&mut user, &wire), Ok(()));
    assert_eq!(rt; user.size(), 2);
    let mut read = [1; 2];
    gather_into(&user, 0, &mut read);
    assert_eq!(rt; read, [7, 0]);
    Ok(())
}
