ghost use Rattle.std.specs.Prelude.{◌≡◌};
ghost use Rattle.vm_local.specs.Kinds.{is_idle, is_away, is_done};

/// Where a buffer is.
///
/// Source: own.
#[derive(Clone, Copy, Debug, Default, PartialEq, Eq)]
pub enum BufferState {
    /// With the guest, which may use its memory.
    #[default]
    Idle,
    /// In the queue, for the device to take.
    Queued,
    /// With the device, which has finished it and owes it to the guest.
    Owed,
    /// With the guest, which has yet to take it by `dqbuf`.
    Done,
}

impl BufferState {
    /// Whether it is Idle.
    pub fn is_idle(self) -> bool
        ensures { result ≡ is_idle self }
    {
        match self {
            BufferState::Idle => true,
            BufferState::Queued | BufferState::Owed | BufferState::Done => false,
        }
    }

    /// Whether it is Queued or Owed, so that the guest may not even read the buffer's memory.
    pub fn is_away(self) -> bool
        ensures { result ≡ is_away self }
    {
        match self {
            BufferState::Queued | BufferState::Owed => true,
            BufferState::Idle | BufferState::Done => false,
        }
    }

    /// Whether it is Done.
    pub fn is_done(self) -> bool
        ensures { result ≡ is_done self }
    {
        match self {
            BufferState::Done => true,
            BufferState::Idle | BufferState::Queued | BufferState::Owed => false,
        }
    }
}

/// One buffer of a queue.
///
/// Source: after the Linux V4L2 interface, struct `v4l2_buffer`.
#[derive(Clone, Copy, Debug, Default, PartialEq, Eq)]
pub struct Buffer {
    pub state: BufferState,
    /// The length of its memory in bytes.
    pub length: u32,
    /// How many bytes of it are in use.
    pub used: u32,
    /// The number of its last frame.
    pub sequence: u32,
    /// The timestamp of its last frame, in microseconds.
    pub timestamp: u64,
    /// Whether its last frame failed.
    pub is_bad: bool,
    /// The number of its memory: none for user memory that no `qbuf` brought yet.
    pub memory: Option<u64>,
}
