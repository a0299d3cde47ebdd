//! Reading the device's answers.

ghost use Rattle.std.specs.Prelude.{◌≡◌, ◌<◌, ◌^◌, ℕ, true, Some};
ghost use Rattle.v4l_const.specs.Model.{capabilities, device_capabilities};
ghost use Rattle.v4l_const.specs.declared.four_cc.FourCc.{FourCc};
ghost use Rattle.v4l_const.specs.declared.model.Model.{Model};
ghost use Rattle.v4l_format.specs.declared.fmt.Fmt.{Fmt};
ghost use Rattle.v4l_format.specs.Fmt.{IsAdjusted};
ghost use Rattle.v4l_layout.specs.Records.{capability_bytes, fmtdesc_bytes, format_bytes, input_bytes, request_bytes, buffer_bytes};
ghost use Rattle.vm_commute.specs.Commute.{may_cross};
ghost use Rattle.vm_local.specs.Calls.{format_reply};
ghost use Rattle.vm_local.specs.Queue.{flags_of};
ghost use Rattle.vm_local.specs.State.{queue_of, buffer_of};
ghost use Rattle.vm_local.specs.declared.reply.Reply.{Reply};
ghost use Rattle.vm_wire.specs.Buffers.{reqbufs_answer, querybuf_answer};
ghost use Rattle.vm_wire.specs.Records.{capability_of, fmt_desc_answer, format_answer, input_answer};
ghost use Rattle.vm_wire.specs.Wire.{le};
ghost use Rattle.vm_wire.specs.declared.response.Response.TheVariants.{Answered};
ghost use Rattle.vm_exchange.specs.Exchange.{IsAnswer};
ghost use Rattle.vm_exchange.specs.Range.{IsRecord, AreWords};

use v4l_const::{Errno, FourCc};
use v4l_format::Fmt;
use v4l_layout::{
    read_buffer, read_capability, read_fmtdesc, read_format, read_input, read_request,
};
use vm_local::{Call, Record, Reply};
use vm_wire::Response;

// A call as it is: its numbers are ones of their types.
fn words(call: Call) -> Call
    ensures same { result ≡ call }
    ensures fit { AreWords result }
{
    call
}

// What the device can do, by its record. None where the bytes are too few, here and below.
fn caps_in(bytes: &[u8]) -> Option<Reply>
    ensures { (m : Model) → bytes.now ≡ capability_bytes (capability_of m) →
        result ≡ Some (Reply.Caps (capabilities m) (device_capabilities m)) }
{
    let record = read_capability(bytes).ok()?;
    Some(Reply::Caps {
        all: record.capabilities,
        device: record.device_caps,
    })
}

// The code of a format that is offered.
fn code_in(bytes: &[u8]) -> Option<Reply>
    ensures { (t i : ℕ) (code : FourCc) → t < 2 ^ 32 → i < 2 ^ 32 → code.0 < 2 ^ 32 →
        bytes.now ≡ fmtdesc_bytes (fmt_desc_answer t i code) → result ≡ Some (Reply.Code code) }
{
    let record = read_fmtdesc(bytes).ok()?;
    Some(Reply::Code(FourCc(record.pixelformat)))
}

// The format of a queue.
fn format_in(bytes: &[u8]) -> Option<Reply>
    ensures { (t : ℕ) (f : Fmt) → t < 2 ^ 32 → IsAdjusted f →
        bytes.now ≡ format_bytes (format_answer t f) → result ≡ Some (format_reply f) }
{
    let record = read_format(bytes).ok()?;
    Some(Reply::Format {
        f: Fmt {
            code: FourCc(record.pixelformat),
            width: record.width,
            height: record.height,
        },
        line: record.bytesperline,
        size: record.sizeimage,
    })
}

// The number of an input whose name is told.
fn name_in(bytes: &[u8]) -> Option<Reply>
    ensures { (i : ℕ) → i < 2 ^ 32 → bytes.now ≡ input_bytes (input_answer i) →
        result ≡ Some (Reply.InputName i) }
{
    let record = read_input(bytes).ok()?;
    Some(Reply::InputName(record.index))
}

// The number of the input that is set.
fn input_in(bytes: &[u8]) -> Option<Reply>
    ensures { (i : ℕ) → i < 2 ^ 32 → bytes.now ≡ le i → result ≡ Some (Reply.InputIs i) }
{
    let number = *bytes.first_chunk()?;
    Some(Reply::InputIs(u32::from_le_bytes(number)))
}

// How many buffers were made.
fn count_in(bytes: &[u8]) -> Option<Reply>
    ensures { (model : Model) (t memory count : ℕ) → t < 2 ^ 32 → memory < 2 ^ 32 →
        count < 2 ^ 32 → bytes.now ≡ request_bytes (reqbufs_answer model t memory count) →
        result ≡ Some (Reply.Count count) }
{
    let record = read_request(bytes).ok()?;
    Some(Reply::Count(record.count))
}

// The length of a buffer. Its flags are those of the handle's record: in which state it is, the
// device doesn't tell.
fn buffer_in(kept: &Record, t: u32, i: u32, bytes: &[u8]) -> Option<Reply>
    ensures { (model : Model) (memory len : ℕ) → t < 2 ^ 32 → i < 32 → memory < 2 ^ 32 →
        len < 2 ^ 32 → bytes.now ≡ buffer_bytes (querybuf_answer model t i memory len) →
        result ≡ Some (Reply.Buf len
        (flags_of kept.now.local (buffer_of (queue_of kept.now.local t) i))) }
{
    let record = read_buffer(bytes).ok()?;
    Some(Reply::Buf {
        length: record.length,
        flags: kept.flags_of(&kept.buffer_of(t, i)),
    })
}

// The reply that the payload of an answer tells.
fn read_in(kept: &Record, call: &Call, bytes: &[u8]) -> Option<Reply>
    requires record { IsRecord kept.now.local }
    requires words { AreWords call.now }
    ensures { (line : ℕ) (reply : Reply) → may_cross call.now ≡ true →
        IsAnswer kept.now.local line call.now (Answered bytes.now) reply → result ≡ Some reply }
{
    match *call {
        Call::QueryCap => caps_in(bytes),
        Call::EnumFmt { .. } => code_in(bytes),
        Call::GFmt { .. } | Call::TryFmt { .. } | Call::SFmt { .. } => format_in(bytes),
        Call::EnumInput { .. } => name_in(bytes),
        Call::GInput | Call::SInput { .. } => input_in(bytes),
        Call::ReqBufs { .. } => count_in(bytes),
        Call::QueryBuf { t, i } => buffer_in(kept, t, i, bytes),
        _ => Some(Reply::Done),
    }
}

// Where a buffer is mapped, and how long it is.
fn mapping_in(addr: u64, length: u64) -> Option<Reply>
    ensures { length < 2 ^ 32 → result ≡ Some (Reply.Mapped addr length) }
{
    let length = u32::try_from(length).ok()?;
    Some(Reply::Mapped { addr, length })
}

// The reply that an answer tells, if it tells one.
fn told(kept: &Record, call: &Call, response: &Response) -> Option<Reply>
    requires { IsRecord kept.now.local }
    ensures { (line : ℕ) (reply : Reply) → may_cross call.now ≡ true →
        IsAnswer kept.now.local line call.now response.now reply → result ≡ Some reply }
{
    let call = words(*call);
    match response {
        Response::Refused(status) => Some(Reply::Refused(Errno::of(*status)?)),
        Response::Answered(payload) => read_in(kept, &call, payload.as_bytes()),
        Response::Mapped { addr, length } => mapping_in(*addr, *length),
        Response::Opened { .. } | Response::Closed | Response::Unmapped => Some(Reply::Done),
    }
}

/// The reply of a call that crossed from a handle of which this is the record, and to which the
/// device answers this: it is the one that the call has from there. The flags of a buffer are those
/// of the record. What the device never answers to the call reads as EIO.
///
/// Source: own.
pub fn reply_in(kept: &Record, call: &Call, response: &Response) -> Reply
    requires { IsRecord kept.now.local }
    ensures { (line : ℕ) (reply : Reply) → may_cross call.now ≡ true →
        IsAnswer kept.now.local line call.now response.now reply → result ≡ reply }
{
    told(kept, call, response).unwrap_or(Reply::Refused(Errno::Eio))
}
