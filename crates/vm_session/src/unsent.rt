use vm_frame::Held;
use vm_wire::EventMsg;

/// An event that is yet to be sent, with the memory that goes along.
///
/// Source: own.
#[derive(Drop)]
pub struct Unsent {
    pub msg: EventMsg,
    pub held: Option<Held>,
}
