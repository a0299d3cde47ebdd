use super::*;
use crate::live_range::range_of;
use std::alloc::Global;
use std::test::Fail;
use v4l_const::Errno;
use vm_mem::Memory;

#[derive(Clone, Copy, Debug, PartialEq, Eq)]
enum Step {
    Map(u64, u32),
    Unmap(u64),
}

// What a call answers: the address of the range. None where the region doesn't allow the call.
#[tactic(auto, using(crate::proofs::JournalLemmas::maps_within))]
fn call(region: &mut Region, step: Step) -> Result<Option<Result<u64, Errno>>, Memory> {
    match step {
        Step::Map(tag, pages) => {
            if pages == 0 || pages > 225 || region.journal().len() >= 16384 {
                return Ok(None);
            }
            if let Some(range) = range_of(region.ranges.as_slice(), tag) {
                if range.pages != pages {
                    return Ok(None);
                }
            }
            Ok(Some(Ok(region.map(tag, pages)?)))
        }
        Step::Unmap(addr) => Ok(Some(region.unmap(addr).map(|()| addr))),
    }
}

#[test]
fn ranges_start_at_the_least_page(rt: HostRuntime) -> Result<(), Fail> {
    let mut region = Region::new(rt.alloc());
    let rows = [
        (Step::Map(1, 2), Ok(0)),
        (Step::Map(2, 1), Ok(8192)),
        (Step::Map(3, 2), Ok(12288)),
        (Step::Unmap(8192), Ok(8192)),
        (Step::Unmap(8192), Err(Errno::Einval)),
        (Step::Map(4, 2), Ok(20480)),
        (Step::Map(5, 1), Ok(8192)),
        (Step::Unmap(4096), Err(Errno::Einval)),
    ];
    for (step, want) in rows {
        assert_eq!(rt; call(&mut region, step)?, Some(want));
    }
    Ok(())
}

#[test]
fn a_tag_has_one_range(rt: HostRuntime) -> Result<(), Fail> {
    let mut region = Region::new(rt.alloc());
    let rows = [
        (Step::Map(7, 3), Ok(0)),
        (Step::Map(8, 1), Ok(12288)),
        (Step::Map(7, 3), Ok(0)),
        (Step::Unmap(0), Ok(0)),
        (Step::Map(9, 1), Ok(16384)),
        (Step::Unmap(0), Ok(0)),
        (Step::Unmap(0), Err(Errno::Einval)),
        (Step::Map(7, 3), Ok(0)),
    ];
    for (step, want) in rows {
        assert_eq!(rt; call(&mut region, step)?, Some(want));
    }
    let entries = [
        RegionEntry::Map {
            addr: 0,
            pages: 3,
            count: 1,
        },
        RegionEntry::Map {
            addr: 12288,
            pages: 1,
            count: 1,
        },
        RegionEntry::Map {
            addr: 0,
            pages: 3,
            count: 2,
        },
        RegionEntry::Drop { addr: 0, count: 1 },
        RegionEntry::Map {
            addr: 16384,
            pages: 1,
            count: 1,
        },
        RegionEntry::Drop { addr: 0, count: 0 },
        RegionEntry::Map {
            addr: 0,
            pages: 3,
            count: 1,
        },
    ];
    assert_eq!(rt; region.journal().len(), entries.len());
    for (entry, want) in region.journal().iter().zip(entries.iter()) {
        assert_eq!(rt; entry, want);
    }
    Ok(())
}
