// Numbers and texts that stand in the fields of records.

/// The buffer type of pictures that the device makes.
///
/// Source: Linux V4L2, `V4L2_BUF_TYPE_VIDEO_CAPTURE`.
pub const BUF_TYPE_CAPTURE: u32 = 1;

/// The buffer type of pictures that the device reads.
///
/// Source: Linux V4L2, `V4L2_BUF_TYPE_VIDEO_OUTPUT`.
pub const BUF_TYPE_OUTPUT: u32 = 2;

/// The buffer type of pictures of several planes that the device makes.
///
/// Source: Linux V4L2, `V4L2_BUF_TYPE_VIDEO_CAPTURE_MPLANE`.
pub const BUF_TYPE_CAPTURE_MPLANE: u32 = 9;

/// The buffer type of pictures of several planes that the device reads.
///
/// Source: Linux V4L2, `V4L2_BUF_TYPE_VIDEO_OUTPUT_MPLANE`.
pub const BUF_TYPE_OUTPUT_MPLANE: u32 = 10;

/// The memory kind of buffers that the device gives and the user maps.
///
/// Source: Linux V4L2, `V4L2_MEMORY_MMAP`.
pub const MEMORY_MMAP: u32 = 1;

/// The memory kind of buffers that the user brings.
///
/// Source: Linux V4L2, `V4L2_MEMORY_USERPTR`.
pub const MEMORY_USERPTR: u32 = 2;

/// A queue's buffers may be mapped.
///
/// Source: Linux V4L2, `V4L2_BUF_CAP_SUPPORTS_MMAP`.
pub const BUF_CAP_MMAP: u32 = 1;

/// A queue's buffers may be brought by the user.
///
/// Source: Linux V4L2, `V4L2_BUF_CAP_SUPPORTS_USERPTR`.
pub const BUF_CAP_USERPTR: u32 = 2;

/// A queue's buffers may be freed while they are mapped.
///
/// Source: Linux V4L2, `V4L2_BUF_CAP_SUPPORTS_ORPHANED_BUFS`.
pub const BUF_CAP_ORPHANED_BUFS: u32 = 0x10;

/// Every event type, where a subscription is taken back.
///
/// Source: Linux V4L2, `V4L2_EVENT_ALL`.
pub const EVENT_ALL: u32 = 0;

/// The event of a frame.
///
/// Source: Linux V4L2, `V4L2_EVENT_FRAME_SYNC`.
pub const EVENT_FRAME_SYNC: u32 = 4;

/// Pictures are whole frames and no fields.
///
/// Source: Linux V4L2, `V4L2_FIELD_NONE`.
pub const FIELD_NONE: u32 = 1;

/// How many inputs a device with inputs has.
///
/// Source: own.
pub const INPUT_COUNT: u32 = 4;

/// An input is a camera.
///
/// Source: Linux V4L2, `V4L2_INPUT_TYPE_CAMERA`.
pub const INPUT_TYPE_CAMERA: u32 = 2;

/// The driver's version, 1.0.0.
///
/// Source: own; the form is that of Linux' `KERNEL_VERSION`.
pub const DRIVER_VERSION: u32 = 0x0001_0000;

/// The driver's name.
///
/// Source: own.
pub const DRIVER: &str = "vmedia";

/// Where the device sits.
///
/// Source: own.
pub const BUS_INFO: &str = "platform:vmedia";
