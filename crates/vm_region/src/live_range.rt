//! The live ranges of a region, and how they are found and counted.
ghost use Rattle.std.specs.Prelude.{◌≡◌, ◌≤◌, ◌<◌, ◌*◌, ◌^◌, ◌-◌, map, IfOk, OnErr};
ghost use Rattle.vm_region.specs.Region.{IsOrderly, Grants, top_of, mapping_count, range_at, range_of, counted, with_count, without};

use crate::fit::first_fit;
use vm_mem::Memory;

/// A range that is mapped: the address of its first byte, its size in pages of 4096 bytes, the tag
/// of the memory that it was mapped for, and the number of its mappings.
///
/// Source: own.
#[derive(Clone, Copy, Debug, PartialEq, Eq)]
pub struct LiveRange {
    pub addr: u64,
    pub pages: u32,
    pub tag: u64,
    pub count: u32,
}

/// The range that starts at an address.
pub fn range_at(ranges: &[LiveRange], addr: u64) -> Option<LiveRange>
    ensures { result ≡ range_at addr ranges.now }
{
    for range in ranges {
        if range.addr == addr {
            return Some(*range);
        }
    }
    None
}

/// The range of a tag.
pub fn range_of(ranges: &[LiveRange], tag: u64) -> Option<LiveRange>
    ensures { result ≡ range_of tag ranges.now }
{
    for range in ranges {
        if range.tag == tag {
            return Some(*range);
        }
    }
    None
}

/// How many mappings the ranges have.
pub fn mappings_of(ranges: &[LiveRange]) -> usize
    requires { mapping_count ranges.now < 2 ^ 32 }
    ensures { result ≡ mapping_count ranges.now }
{
    let count: u32 = ranges.iter().map(|range| range.count).sum();
    count as usize
}

/// Gives the range that starts at an address another count. With the count 0 it is live no more.
#[tactic(auto, using(crate::proofs::CountLemmas::without_is_counted, crate::proofs::CountLemmas::recount_is_counted))]
pub fn set_count(ranges: &mut Vec<LiveRange>, addr: u64, count: u32)
    ensures { ranges.new.items ≡ counted addr count ranges.old.items }
{
    if count == 0 {
        remove(ranges, addr);
    } else {
        recount(ranges.as_mut_slice(), addr, count);
    }
}

fn remove(ranges: &mut Vec<LiveRange>, addr: u64)
    ensures { ranges.new.items ≡ without addr ranges.old.items }
{
    ranges.retain(|range| range.addr != addr);
}

fn recount(ranges: &mut [LiveRange], addr: u64, count: u32)
    ensures { ranges.new ≡ map (with_count addr count) ranges.old }
{
    for range in ranges.iter_mut() {
        *range = with_count(*range, addr, count);
    }
}

fn with_count(range: LiveRange, addr: u64, count: u32) -> LiveRange
    ensures { result ≡ with_count addr count range }
{
    if range.addr == addr {
        LiveRange { count, ..range }
    } else {
        range
    }
}

/// Counts the range of a tag once more, or adds one at the least place where it meets no other.
/// Answers it.
pub fn grant(ranges: &mut Vec<LiveRange>, tag: u64, pages: u32) -> Result<LiveRange, Memory>
    requires orderly { IsOrderly ranges.old.items }
    requires small { pages ≤ 225 }
    requires within { top_of ranges.old.items ≤ 4096 * (225 * 16384) }
    requires few { mapping_count ranges.old.items < 2 ^ 32 - 1 }
    ensures ok { IfOk result (λ given. Grants
        (range_of tag ranges.old.items) tag pages ranges.old.items given ranges.new.items) }
    ensures err { OnErr result (ranges.new.items ≡ ranges.old.items) }
{
    if let Some(range) = range_of(ranges.as_slice(), tag) {
        let count = range.count + 1;
        set_count(ranges, range.addr, count);
        return Ok(LiveRange { count, ..range });
    }
    ranges.reserve(1)?;
    let addr = first_fit(ranges.as_slice(), pages);
    let range = LiveRange {
        addr,
        pages,
        tag,
        count: 1,
    };
    ranges.push_reserved(range);
    Ok(range)
}
