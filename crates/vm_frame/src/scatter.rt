/// A run of a guest's bytes, all in one page: `len` bytes from the address `start` on.
///
/// Source: own, after the VIRTIO 1.4 draft, "Media Device".
#[derive(Clone, Copy, Debug, PartialEq, Eq)]
pub struct SgEntry {
    /// A guest's address, in bytes.
    pub start: u64,
    /// How many bytes.
    pub len: u32,
}

/// What is wrong with an entry of a scatter list. It is looked for in the order ZeroLen, Outside,
/// Twice.
///
/// Source: own.
#[derive(Clone, Copy, Debug, PartialEq, Eq)]
pub enum SgFault {
    /// Its bytes don't lie in one of the pages.
    Outside,
    /// It has no bytes.
    ZeroLen,
    /// It has an address in common with an earlier entry.
    Twice,
}
