/// An entry of the used ring: a chain that the device gave back.
///
/// Source: VIRTIO 1.3, 2.7.8 "The Virtqueue Used Ring".
#[derive(Clone, Copy, Debug, PartialEq, Eq)]
pub struct UsedEntry {
    /// The chain's head.
    pub id: u32,
    /// How many bytes the device wrote.
    pub len: u32,
}
