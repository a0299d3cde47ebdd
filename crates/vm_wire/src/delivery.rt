use crate::EventMsg;
use vm_frame::Held;

/// A message of the device on its way to the handle of its session, with the memory that comes with
/// it.
///
/// Source: own.
#[derive(Drop)]
pub struct Delivery {
    /// The id of the session that the message is for.
    pub session: u32,
    pub msg: EventMsg,
    /// The memory of a user's buffer that is given back.
    pub held: Option<Held>,
}
