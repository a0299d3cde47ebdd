//! The region of pages that a device shares with its driver: which ranges of it are live, and the
//! journal of their lives.
//!
//! Begin with `Region`. Its main definitions are which journals are sound, `IsSoundJournal`, and
//! what a mapping does, `Maps`, in `specs/Region.antt`.
#![tactic(auto)]

mod entry;
mod fit;
mod live_range;
mod region;

pub use entry::RegionEntry;
pub use region::Region;

#[cfg(test)]
mod tests;
