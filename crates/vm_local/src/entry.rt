use crate::call::Call;
use crate::reply::Reply;

/// One step of a local handle, as its log has it.
///
/// Source: own.
#[derive(Clone, Copy, Debug, PartialEq, Eq)]
pub enum Entry {
    /// The call of the script's line `line`, with its reply.
    Called { line: u32, call: Call, reply: Reply },
    /// The device finishes a picture.
    Finish,
    /// The device fails to make a picture.
    Bad,
    /// The device hands over what it owes first.
    Give,
}
