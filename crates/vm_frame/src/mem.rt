ghost use Rattle.std.specs.Prelude.{◌≡◌, ◌+◌, ◌<◌, ◌≤◌, ◌++◌, length, take, drop, slice_index, slice_set};
ghost use Rattle.vm_frame.specs.Mem.{MemRest, mem_bytes, mem_rest};

use crate::{Frame, User};
use vm_mem::Store;

/// The memory of a buffer: a frame of the device's, or a user's own.
///
/// Source: own, after the Linux V4L2 interface, `V4L2_MEMORY_MMAP` and `V4L2_MEMORY_USERPTR`.
#[derive(Drop)]
pub enum Mem {
    OfFrame(Frame),
    OfUser(User),
}

impl Store for Mem {
    ghost Rest = { MemRest };

    ghost bytes_of = { mem_bytes };

    ghost rest_of = { mem_rest };

    fn size(&self) -> u32 {
        match self {
            Mem::OfFrame(frame) => frame.size(),
            Mem::OfUser(user) => user.size(),
        }
    }

    fn get(&self, i: u32) -> u8 {
        match self {
            Mem::OfFrame(frame) => frame.get(i),
            Mem::OfUser(user) => user.get(i),
        }
    }

    fn set(&mut self, i: u32, b: u8) {
        match self {
            Mem::OfFrame(frame) => frame.set(i, b),
            Mem::OfUser(user) => user.set(i, b),
        }
    }

    fn copy_out(&self, at: u32, into: &mut [u8]) {
        match self {
            Mem::OfFrame(frame) => frame.copy_out(at, into),
            Mem::OfUser(user) => user.copy_out(at, into),
        }
    }

    fn copy_in(&mut self, at: u32, from: &[u8]) {
        match self {
            Mem::OfFrame(frame) => frame.copy_in(at, from),
            Mem::OfUser(user) => user.copy_in(at, from),
        }
    }
}

/// The memory of a buffer that is held somewhere, with the buffer's queue and index.
///
/// Source: own.
#[derive(Drop)]
pub struct Held {
    /// The type of the buffer, by its number.
    pub queue: u32,
    /// The buffer's index in its queue.
    pub index: u32,
    pub mem: Mem,
}
