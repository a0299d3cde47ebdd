// A user's memory that comes with a QBUF, and the entries behind it. No buffer is there, so that a
// QBUF whose entries have no fault is refused with EINVAL.

use super::capture::{call, only, qbuf, refuse_chain, user};
use super::rig::{Rig, Words, check, command};
use super::{COMMAND, desc};
use std::alloc::Global;
use std::test::Fail;
use vm_chain::NEXT;
use vm_link::Parcel;
use vm_mem::{Page, Store};

// The address of the page that the entries stand in, and of the page that they name.
const ENTRIES: u64 = 0x13000;

const USER: u64 = 0x1_0000_0000;

const USERPTR: u32 = 2;

// So many entries of so many bytes each: the place in the user's page where the first one starts,
// and how far from each the next one does.
#[derive(Clone, Copy)]
struct Entries {
    count: u32,
    len: u32,
    first: u64,
    step: u64,
}

// The page that they stand in.
fn page_of(alloc: Global, entries: Entries) -> Result<Page, Fail> {
    check(entries.count <= 256, "too many entries")?;
    let mut page = Page::make_zero(alloc, ENTRIES / 4096)?;
    let mut start = USER.wrapping_add(entries.first);
    for place in 0..entries.count {
        let mut bytes = [0; 16];
        bytes[..8].copy_from_slice(&start.to_le_bytes());
        bytes[8..12].copy_from_slice(&entries.len.to_le_bytes());
        if 16 * place + 16 <= page.size() {
            page.copy_in(16 * place, &bytes);
        }
        start = start.wrapping_add(entries.step);
    }
    Ok(page)
}

// A QBUF of a user's memory of 256 bytes, which is told to have so many.
fn with_entries(rig: &Rig, length: u32, entries: Entries) -> Result<Parcel, Fail> {
    let alloc = rig.alloc();
    let asked: Words = qbuf((0, 1, 0, USERPTR, length));
    let mut parcel = command(alloc, &asked, 104, 304, only(alloc, user(alloc, 256)?)?)?;
    check(entries.count <= 256 && !parcel.table.is_empty(), "no table")?;
    parcel.pages.push(page_of(alloc, entries)?)?;
    parcel.table[0] = desc(COMMAND, 104, NEXT, 2);
    parcel
        .table
        .push(desc(ENTRIES, 16 * entries.count, NEXT, 1))?;
    Ok(parcel)
}

#[test]
fn faulty_entries_are_refused(rt: HostRuntime) -> Result<(), Fail> {
    let mut rig = Rig::new(rt.alloc())?;
    // OPEN.
    call(&mut rig, [1, 0, 0, 0, 0, 0, 0, 0, 0, 0], 8, [0; 10], 16)?;
    // How many entries, their bytes, the first one's place and the step; what is told of their
    // bytes; the errno.
    let rows = [
        (2, 128, 0, 128, 256, 22),
        (249, 16, 0, 16, 3984, 22),
        // More than a user's memory may have.
        (250, 16, 0, 16, 4000, 14),
        // Another number of bytes is told.
        (2, 128, 0, 128, 255, 14),
        // An entry has no bytes.
        (1, 0, 0, 0, 0, 14),
        // It goes past its page, or its page isn't there.
        (1, 256, 3841, 0, 256, 14),
        (1, 256, 4096, 0, 256, 14),
        // Two entries are the same, or have bytes in common.
        (2, 128, 0, 0, 256, 14),
        (2, 128, 0, 127, 256, 14),
    ];
    for (count, len, first, step, length, errno) in rows {
        let entries = Entries {
            count,
            len,
            first,
            step,
        };
        let parcel = with_entries(&rig, length, entries)?;
        refuse_chain(&mut rig, parcel, errno)?;
    }
    Ok(())
}
