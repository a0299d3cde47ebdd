/// What is wrong with a descriptor on a walk. The faults are tried in this order.
///
/// Source: VIRTIO 1.3, 2.7.5 "The Virtqueue Descriptor Table"; own are the limit, the refusal of a
/// descriptor without bytes, the pages and the order.
#[derive(Clone, Copy, Debug, PartialEq, Eq)]
pub enum ChainKind {
    /// Its index isn't below the table's length.
    NextOutside,
    /// As many descriptors as the walk may have were visited before it.
    TooLong,
    /// Its bytes are a table of descriptors.
    Indirect,
    /// It has no bytes.
    ZeroLen,
    /// It is readable and follows a writable one.
    WriteBeforeRead,
    /// Its bytes don't lie in one of the pages.
    AddrOutside,
}

/// The first fault on a walk, and the index of its descriptor.
#[derive(Clone, Copy, Debug, PartialEq, Eq)]
pub struct ChainFault {
    pub kind: ChainKind,
    /// The index in the table that was walked.
    pub at: u16,
}
