//! Where a new range starts.
ghost use Rattle.std.specs.Prelude.{◌≡◌, ◌≤◌, ◌*◌};
ghost use Rattle.vm_region.specs.Region.{IsLeast, IsOrderly, blocking_end, top_of};

use crate::live_range::LiveRange;
use vm_mem::PAGE_SIZE;

/// The least place where so many pages meet no range.
pub fn first_fit(ranges: &[LiveRange], pages: u32) -> u64
    requires orderly { IsOrderly ranges.now }
    requires small { pages ≤ 225 }
    requires within { top_of ranges.now ≤ 4096 * (225 * 16384) }
    ensures least { IsLeast result pages ranges.now }
    ensures within { result ≤ top_of ranges.now }
{
    let mut addr = 0;
    'places: while let Some(end) = blocking_end(ranges, addr, pages) {
        addr = end;
    }
    addr
}

/// The end of the first range that so many pages from an address on meet.
fn blocking_end(ranges: &[LiveRange], addr: u64, pages: u32) -> Option<u64>
    requires small { pages ≤ 225 }
    requires within { addr ≤ 4096 * (225 * 16384) }
    requires tops { top_of ranges.now ≤ 4096 * (225 * 16384) }
    ensures { result ≡ blocking_end addr pages ranges.now }
{
    let end = addr + byte_len(pages);
    for range in ranges {
        let range_end = range.addr + byte_len(range.pages);
        if addr < range_end && range.addr < end {
            return Some(range_end);
        }
    }
    None
}

/// How many bytes so many pages have.
fn byte_len(pages: u32) -> u64
    ensures { result ≡ 4096 * pages }
{
    u64::from(PAGE_SIZE) * u64::from(pages)
}
