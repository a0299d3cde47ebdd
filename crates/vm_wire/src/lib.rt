//! What goes over the link, as bytes: commands, their replies, and the messages that the device
//! sends by itself.
//!
//! Begin with `encode_command` and `decode_command`. Its main definitions are the bytes of commands
//! and replies, in `specs/Wire.antt`, and of messages, in `specs/Event.antt`.
#![tactic(auto)]

mod buffers;
mod command;
mod delivery;
mod event;
mod laws;
mod payload;
mod record_payloads;
mod records;
mod requests;
mod response;

pub use buffers::{
    BUFFER_STEP, OUTPUT_OFFSET, PictureNote, QueuedBuffer, buffer_offset, dequeued_buffer,
    frame_event, frame_of, qbuf_answer, qbuf_request, querybuf_answer, querybuf_request,
    reqbufs_answer, reqbufs_request, subscription_request,
};
pub use command::{CmdFault, Command, WIRE_ROOM, decode_command, encode_command};
pub use delivery::Delivery;
pub use event::{EventFault, EventMsg, decode_event, encode_event};
pub use laws::{
    buffer_records_are_read_again, buffer_requests_are_read, commands_are_decided,
    commands_are_read_again, events_are_read_again, offsets_are_apart, responses_are_read_again,
    written_bytes_fit,
};
pub use payload::{PAYLOAD_LIMIT, Payload};
pub use record_payloads::{
    buffer_payload, capability_payload, fmtdesc_payload, format_payload, input_payload,
    number_payload, reqbufs_payload, subscription_payload,
};
pub use records::{
    capability_of, fmt_desc_answer, fmt_desc_request, format_answer, format_request,
    format_type_request, input_answer, input_name, input_request,
};
pub use requests::{buffer_in, reqbufs_in, subscription_in};
pub use response::{Response, decode_response, encode_response};
pub use v4l_layout::Short;

#[cfg(test)]
mod tests;
