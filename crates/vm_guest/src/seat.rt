/// The place of a handle among those of all processes.
///
/// Source: own.
#[derive(Clone, Copy, Debug, PartialEq, Eq)]
pub struct Seat {
    /// The number of its process.
    pub process: u32,
    /// Its place among the handles of its process, in the order of their `open` lines.
    pub handle: u32,
}
