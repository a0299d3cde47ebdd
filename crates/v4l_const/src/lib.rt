//! The numbers and names of the V4L2 interface that the device and its driver speak.
//!
//! Begin with `Errno`, `IoctlCode` and `Model`. Its main definitions are the errors, in
//! `specs/Errno.antt`, the calls that are sent, in `specs/IoctlCode.antt`, and what a model
//! decides, in `specs/Model.antt`.
#![tactic(auto)]

mod buf_flags;
mod caps;
mod errno;
mod four_cc;
mod ioctl_code;
mod model;
mod numbers;

pub use buf_flags::BufFlags;
pub use caps::Caps;
pub use errno::Errno;
pub use four_cc::FourCc;
pub use ioctl_code::IoctlCode;
pub use model::Model;
pub use numbers::{
    BUF_CAP_MMAP, BUF_CAP_ORPHANED_BUFS, BUF_CAP_USERPTR, BUF_TYPE_CAPTURE,
    BUF_TYPE_CAPTURE_MPLANE, BUF_TYPE_OUTPUT, BUF_TYPE_OUTPUT_MPLANE, BUS_INFO, DRIVER,
    DRIVER_VERSION, EVENT_ALL, EVENT_FRAME_SYNC, FIELD_NONE, INPUT_COUNT, INPUT_TYPE_CAMERA,
    MEMORY_MMAP, MEMORY_USERPTR,
};

#[cfg(test)]
mod tests;
