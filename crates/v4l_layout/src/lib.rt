//! The records of V4L2 as bytes, at their 64-bit layouts.
//!
//! Begin with `write_fields` and a record, as `FormatRec`. Its main definition is the bytes of a
//! record, `layout_bytes`, in `specs/Layout.antt`; the fields of each record are in
//! `specs/Records.antt`.
//!
//! A record is a list of fields, each with its offset, its width and what it holds. A writer sets
//! these bytes, and zero in all the record's other bytes; a reader gives the fields, whatever the
//! other bytes are.
#![tactic(auto)]

mod buffer_rec;
mod capability;
mod event_rec;
mod field;
mod fmt_desc;
mod format_rec;
mod input_rec;
mod laws;
mod plane_rec;
mod read;
mod request_buffers;
mod short;
mod subscription;
mod text;
mod write;

pub use buffer_rec::{BUFFER_SIZE, BufferRec, read_buffer, write_buffer};
pub use capability::{CAPABILITY_SIZE, Capability, read_capability, write_capability};
pub use event_rec::{EVENT_SIZE, EventRec, read_event, write_event};
pub use field::{Field, Value};
pub use fmt_desc::{FMTDESC_SIZE, FmtDesc, read_fmtdesc, write_fmtdesc};
pub use format_rec::{FORMAT_SIZE, FormatRec, read_format, write_format};
pub use input_rec::{INPUT_SIZE, InputRec, read_input, write_input};
pub use laws::{at_most_one_reading, laid_out_reads_back};
pub use plane_rec::{PLANE_SIZE, PlaneRec, read_plane, write_plane};
pub use request_buffers::{REQUEST_SIZE, RequestBuffers, read_request, write_request};
pub use short::Short;
pub use subscription::{SUBSCRIPTION_SIZE, Subscription, read_subscription, write_subscription};
pub use text::padded;
pub use write::write_fields;

#[cfg(test)]
mod tests;
