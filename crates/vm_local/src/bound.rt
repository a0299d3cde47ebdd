ghost use Rattle.std.specs.Prelude.{◌≡◌};
ghost use Rattle.vm_local.specs.Kinds.{is_mapping_kind, is_writable_kind};

use crate::name::Name;

/// What a bound name stands for.
///
/// Source: own.
#[derive(Clone, Copy, Debug, PartialEq, Eq)]
pub enum BoundKind {
    /// A mapping of a buffer: its address, its length in bytes, and whether it may be written.
    Mapping {
        addr: u64,
        length: u32,
        writable: bool,
    },
    /// User memory: the line of its `ualloc`, and the place of its first byte in its first page.
    User {
        line: u32,
        off: u32,
    },
}

impl BoundKind {
    /// Whether it is a mapping.
    pub fn is_mapping(self) -> bool
        ensures { result ≡ is_mapping_kind self }
    {
        match self {
            BoundKind::Mapping { .. } => true,
            BoundKind::User { .. } => false,
        }
    }

    /// Whether the memory may be written through the name.
    pub fn is_writable(self) -> bool
        ensures { result ≡ is_writable_kind self }
    {
        match self {
            BoundKind::Mapping { writable, .. } => writable,
            BoundKind::User { .. } => true,
        }
    }
}

/// A name that a handle has bound to a memory.
///
/// Source: own.
#[derive(Clone, Copy, Debug, PartialEq, Eq)]
pub struct Bound {
    pub name: Name,
    /// The memory's number.
    pub memory: u64,
    pub kind: BoundKind,
}

/// The kind of memory that a queue's buffers have.
///
/// Source: the Linux V4L2 interface, enum `v4l2_memory`.
#[derive(Clone, Copy, Debug, PartialEq, Eq)]
pub enum MemoryKind {
    /// The device's, to be mapped.
    Mmap,
    /// The guest's own.
    UserPtr,
}
