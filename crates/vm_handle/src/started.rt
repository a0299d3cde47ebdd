/// What became of a call that was begun.
///
/// Source: own.
#[derive(Clone, Copy, Debug, PartialEq, Eq)]
pub enum Started {
    /// It is answered, and logged.
    Answered,
    /// It crosses to the device, by so many bytes.
    Send { len: u32 },
    /// It waits for a buffer.
    Wait,
}
