use crate::user_place::UserPlace;
use vm_wire::Command;

/// What crosses to the device for a call.
///
/// Source: own, after the VIRTIO 1.4 draft, "Media Device".
#[derive(Clone, Copy, Debug, PartialEq, Eq)]
pub struct Crossing {
    /// Its command.
    pub command: Command,
    /// The user memory that goes along: its entries stand behind the command.
    pub user: Option<UserPlace>,
}
