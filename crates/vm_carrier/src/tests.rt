ghost use Rattle.std.specs.Prelude.{◌≤◌, ◌+◌};
ghost use Rattle.vm_mem.specs.Page.{place_in_page};

use crate::{gather, spread};
use std::test::Fail;
use vm_chain::{Desc, NEXT, WRITE};
use vm_mem::{Page, Store};

const PAGE: u64 = 16;

// A descriptor of so many bytes from a place of the page on.
fn desc(at: u32, len: u32, flags: u16) -> Desc
    requires { at + len ≤ 4096 }
    ensures { place_in_page result.addr + result.len ≤ 4096 }
{
    Desc {
        addr: PAGE * 4096 + u64::from(at),
        len,
        flags,
        next: 0,
    }
}

#[test]
fn what_is_readable_is_joined_and_a_reply_is_spread(rt: HostRuntime) -> Result<(), Fail> {
    let mut page = Page::make_zero(rt.alloc(), PAGE)?;
    page.copy_in(0, &[0, 1, 2, 3, 4, 5, 6, 7, 8, 9, 10, 11]);
    let mut pages = vec![in rt.alloc(); page]?;
    // What is read stands in two parts, the second of them first in the page; so does what is
    // written, with a gap.
    let descs = [
        desc(3, 2, NEXT),
        desc(0, 3, NEXT),
        desc(9, 2, NEXT | WRITE),
        desc(6, 2, WRITE),
    ];
    let mut bytes = Vec::with_capacity(rt.alloc(), 4 * 4096)?;
    gather(&descs, &pages, &mut bytes);
    assert_eq!(rt; bytes.as_slice(), [3, 4, 0, 1, 2].as_slice());
    spread(&descs, &mut pages, &[20, 21, 22]);
    assert_eq!(rt;
        &pages[0].as_slice()[..12],
        [0, 1, 2, 3, 4, 5, 22, 7, 8, 20, 21, 11].as_slice()
    );
    Ok(())
}
