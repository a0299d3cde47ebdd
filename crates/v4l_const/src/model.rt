ghost use Rattle.std.specs.Prelude.{◌≡◌, ◌↔◌, IsTrue, Contains};
ghost use Rattle.v4l_const.specs.Model.{queues as queues_of, source_queue as source_of, picture_queue as picture_of, card as card_of, device_capabilities as devices_of, capabilities as all_of, buffer_capabilities as buffers_of, copies_timestamps as copies, timestamp_flag as flag_of, has_inputs as inputs, has_events as events};

use crate::{
    BUF_CAP_MMAP, BUF_CAP_ORPHANED_BUFS, BUF_CAP_USERPTR, BUF_TYPE_CAPTURE, BUF_TYPE_OUTPUT,
    BufFlags, Caps,
};
use bitflags::Flags;

static CAPTURE_QUEUES: [u32; 1] = [BUF_TYPE_CAPTURE];

static CONVERT_QUEUES: [u32; 2] = [BUF_TYPE_OUTPUT, BUF_TYPE_CAPTURE];

/// Which device a session speaks to.
#[derive(Clone, Copy, Debug, PartialEq, Eq)]
pub enum Model {
    /// A camera: one queue, of captured pictures.
    Capture,
    /// A format converter: a queue of source pictures and one of converted pictures.
    Convert,
}

impl Model {
    /// The buffer types of its queues, in the order in which the buffers of one frame are given
    /// back.
    ///
    /// Source: own.
    pub fn queues(self) -> &'static [u32]
        ensures { result.now ≡ queues_of self }
    {
        match self {
            Model::Capture => &CAPTURE_QUEUES,
            Model::Convert => &CONVERT_QUEUES,
        }
    }

    /// Whether one of its queues has this buffer type.
    pub fn has_queue(self, kind: u32) -> bool
        ensures { IsTrue result ↔ Contains (queues_of self) kind }
    {
        self.queues().contains(&kind)
    }

    /// The queue whose buffers it reads, where there is one.
    ///
    /// Source: own.
    pub fn source_queue(self) -> Option<u32>
        ensures { result ≡ source_of self }
    {
        match self {
            Model::Capture => None,
            Model::Convert => Some(BUF_TYPE_OUTPUT),
        }
    }

    /// The queue whose buffers take its pictures.
    ///
    /// Source: own.
    pub fn picture_queue(self) -> u32
        ensures { result ≡ picture_of self }
    {
        match self {
            Model::Capture => BUF_TYPE_CAPTURE,
            Model::Convert => BUF_TYPE_CAPTURE,
        }
    }

    /// The device's name.
    ///
    /// Source: own.
    pub fn card(self) -> &'static str
        ensures { result.now ≡ card_of self }
    {
        match self {
            Model::Capture => "vmedia capture",
            Model::Convert => "vmedia convert",
        }
    }

    /// What this device can do.
    ///
    /// Source: Linux V4L2, `struct v4l2_capability`, `device_caps`.
    pub fn device_capabilities(self) -> Caps
        ensures { result.0 ≡ devices_of self }
    {
        match self {
            Model::Capture => Caps::VIDEO_CAPTURE.union(Caps::STREAMING),
            Model::Convert => Caps::VIDEO_M2M.union(Caps::STREAMING),
        }
    }

    /// What this device can do, with the mark that `device_capabilities` stand beside it.
    ///
    /// Source: Linux V4L2, `struct v4l2_capability`, `capabilities`.
    pub fn capabilities(self) -> Caps
        ensures { result.0 ≡ all_of self }
    {
        self.device_capabilities().union(Caps::DEVICE_CAPS)
    }

    /// What its queues can do, a sum of `BUF_CAP` numbers.
    ///
    /// Source: Linux V4L2, `struct v4l2_requestbuffers`, `capabilities`.
    pub fn buffer_capabilities(self) -> u32
        ensures { result ≡ buffers_of self }
    {
        match self {
            Model::Capture => BUF_CAP_MMAP | BUF_CAP_USERPTR | BUF_CAP_ORPHANED_BUFS,
            Model::Convert => BUF_CAP_MMAP | BUF_CAP_USERPTR | BUF_CAP_ORPHANED_BUFS,
        }
    }

    /// Whether a picture's timestamp is that of its source picture.
    ///
    /// Source: own.
    pub fn copies_timestamps(self) -> bool
        ensures { result ≡ copies self }
    {
        match self {
            Model::Capture => false,
            Model::Convert => true,
        }
    }

    /// The mark of where its timestamps come from.
    ///
    /// Source: Linux V4L2, "Buffer Flags".
    pub fn timestamp_flag(self) -> BufFlags
        ensures { result.0 ≡ flag_of self }
    {
        if self.copies_timestamps() {
            BufFlags::TIMESTAMP_COPY
        } else {
            BufFlags::TIMESTAMP_MONOTONIC
        }
    }

    /// Whether it has inputs to choose from.
    ///
    /// Source: own.
    pub fn has_inputs(self) -> bool
        ensures { result ≡ inputs self }
    {
        match self {
            Model::Capture => true,
            Model::Convert => false,
        }
    }

    /// Whether it has events to subscribe to.
    ///
    /// Source: own.
    pub fn has_events(self) -> bool
        ensures { result ≡ events self }
    {
        match self {
            Model::Capture => true,
            Model::Convert => false,
        }
    }
}
