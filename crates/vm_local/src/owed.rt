/// What the device hands over at a step of its own.
///
/// Source: own.
#[derive(Clone, Copy, Debug, PartialEq, Eq)]
pub enum OwedItem {
    /// The buffer with this index.
    Buffer(u32),
    /// The event that tells of the frame with this number.
    Sync(u32),
}

/// An entry of the list of what the device owes the guest.
///
/// Source: own.
#[derive(Clone, Copy, Debug, PartialEq, Eq)]
pub struct Owed {
    /// The type of the queue whose entry it is.
    pub queue: u32,
    pub item: OwedItem,
}

/// An event that the guest has yet to take: a frame was finished.
///
/// Source: after the Linux V4L2 interface, event FRAME_SYNC of struct `v4l2_event`.
#[derive(Clone, Copy, Debug, PartialEq, Eq)]
pub struct SyncEvent {
    /// The number of the frame.
    pub frame: u32,
    /// The event's own number, from 0 on.
    pub number: u32,
}
