use crate::crossing::Crossing;

/// How a call is begun.
///
/// Source: own.
#[derive(Clone, Copy, Debug, PartialEq, Eq)]
pub enum Way {
    /// It crosses to the device, so.
    Crosses(Crossing),
    /// It is answered without the device.
    AnsweredHere,
    /// It waits.
    Waits,
    /// It touches a memory's bytes.
    TouchesMemory,
}
