/// One mapping or unmapping of a range of the shared region. `addr` is the address of the range's
/// first byte in the region, `pages` its size in pages of 4096 bytes, and `count` how many mappings
/// of the range there are after the entry.
///
/// Source: own.
#[derive(Clone, Copy, Debug, PartialEq, Eq)]
pub enum RegionEntry {
    /// The range is mapped once more; with the count 1 it begins to live.
    Map { addr: u64, pages: u32, count: u32 },
    /// A mapping of the range that starts here is given back; with the count 0 the range is free.
    Drop { addr: u64, count: u32 },
}
