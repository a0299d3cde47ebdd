ghost use Rattle.std.specs.Option.{option_map};
ghost use Rattle.std.specs.Prelude.{◌≡◌, ℕ, ◌+◌, ◌*◌, ◌^◌, ◌<◌, ◌≤◌, ◌↔◌, [], IfOk, OnOk, OnErr, IsErr, IfSome, None, Some, IfErr};
ghost use Rattle.v4l_const.specs.declared.errno.Errno.TheVariants.{Einval};
ghost use Rattle.vm_region.specs.Region.{IsSoundJournal, live_ranges, placed, placed_at, map_count, range_of, range_at, Maps, Unmaps, AreApart};

use crate::entry::RegionEntry;
use crate::live_range::{LiveRange, grant, mappings_of, range_at, set_count};
use std::alloc::Global;
use std::marker::Model;
use v4l_const::Errno;
use vm_mem::Memory;

/// The region of 2^22 pages that a device shares with its driver. Each mapping of a memory gives a
/// range of it. The journal tells of every mapping and unmapping.
///
/// Source: own, after the VIRTIO 1.4 draft, "Media Device", shared memory region.
#[derive(Drop)]
pub struct Region {
    pub(crate) journal: Vec<RegionEntry>,
    pub(crate) ranges: Vec<LiveRange>,
}

impl Model for Region {
    ghost use Rattle.std.specs.Prelude.{vec_capacity};
    ghost use Rattle.vm_region.specs.Region.{RegionState, IsSound};

    ghost Value = { RegionState };

    ghost view = { λ r. record { journal = r.journal.items; ranges = r.ranges.items } };

    // The journal has room for an entry of each mapping that is to be given back.
    ghost invariant = { λ r. IsSound r.journal.items r.ranges.items (vec_capacity r.journal) };
}

impl Region {
    /// A region in which nothing is mapped.
    pub fn new(alloc: Global) -> Region
        ensures { result ≡ record { journal = []; ranges = [] } }
    {
        Region {
            journal: Vec::new(alloc),
            ranges: Vec::new(alloc),
        }
    }

    /// Maps the memory of a tag, and answers the address of its range, in bytes from the region's
    /// start on. A live range of this tag is given again. Else the range starts at the least page
    /// where it meets no live range. Where memory is wanting, nothing changes.
    pub fn map(&mut self, tag: u64, pages: u32) -> Result<u64, Memory>
        requires some { 1 ≤ pages }
        requires small { pages ≤ 225 }
        requires same { IfSome (range_of tag self.old.ranges) (λ r. r.pages ≡ pages) }
        requires few { map_count self.old.journal < 16384 }
        ensures ok { IfOk result (λ addr. Maps
            (range_of tag self.old.ranges) self.old tag pages addr self.new) }
        ensures within { IfOk result (λ addr. addr + 4096 * pages ≤ 4096 * 2 ^ 22) }
        ensures err { OnErr result (self.new ≡ self.old) }
    {
        let mappings = mappings_of(self.ranges.as_slice());
        self.journal.reserve(mappings + 2)?;
        let range = grant(&mut self.ranges, tag, pages)?;
        let LiveRange { addr, count, .. } = range;
        self.journal
            .push_reserved(RegionEntry::Map { addr, pages, count });
        Ok(addr)
    }

    /// Gives a mapping of the range that starts at an address back, which is the range of its tag.
    /// `EINVAL` is answered exactly where no live range starts there, and then nothing changes.
    pub fn unmap(&mut self, addr: u64) -> Result<(), Errno>
        ensures refused { IsErr result ↔ (range_at addr self.old.ranges ≡ None) }
        ensures errno { IfErr result (λ e. e ≡ Einval) }
        ensures own { IfSome (range_at addr self.old.ranges)
            (λ r. range_of r.tag self.old.ranges ≡ Some r) }
        ensures ok { OnOk result (IfSome (range_at addr self.old.ranges)
            (λ r. Unmaps self.old addr r self.new)) }
        ensures err { OnErr result (self.new ≡ self.old) }
    {
        let Some(range) = range_at(self.ranges.as_slice(), addr) else {
            return Err(Errno::Einval);
        };
        let count = range.count - 1;
        set_count(&mut self.ranges, addr, count);
        self.journal
            .push_reserved(RegionEntry::Drop { addr, count });
        Ok(())
    }

    /// Every mapping and unmapping, in order. Each may follow those before it.
    pub fn journal(&self) -> &[RegionEntry]
        ensures entries { result.now ≡ self.now.journal }
        ensures sound { IsSoundJournal result.now }
        ensures live { (addr : ℕ) → placed_at addr (live_ranges result.now) ≡
            option_map placed (range_at addr self.now.ranges) }
        ensures apart { AreApart self.now.ranges }
    {
        self.journal.as_slice()
    }
}
