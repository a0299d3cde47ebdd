use crate::Finished;

/// A chain that is taken and not finished.
///
/// Source: own.
#[derive(Clone, Copy, Debug, PartialEq, Eq)]
pub struct OutChain {
    /// The number under which it was taken.
    pub head: u16,
    /// How many descriptors it has.
    pub count: u16,
}

/// A chain that is finished and not collected.
///
/// Source: own.
#[derive(Drop)]
pub struct DoneChain {
    pub finished: Finished,
    /// How many descriptors it has.
    pub count: u16,
}
