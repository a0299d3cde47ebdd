//! The text of a reply.

ghost use Rattle.std.specs.Prelude.{◌≡◌, ◌++◌, OnOk};
ghost use Rattle.vm_script.specs.Reading.{Fits32};
ghost use Rattle.vm_report.specs.Text.{reply_text};
ghost use Rattle.vm_report.specs.Printed.{FitsReply, HasLetters, IsDigest, IsSmall};

use crate::text::{
    push, push_address, push_code, push_decimal, push_flags, push_hex, push_timestamp, push_word,
};
use v4l_const::{Errno, FourCc};
use v4l_format::Fmt;
use vm_local::{Reply, Small};
use vm_mem::Memory;
use vm_wire::input_name;

/// Adds a refusal.
fn push_refusal(text: &mut Vec<u8>, errno: Errno) -> Result<(), Memory>
    ensures { OnOk result (text.new.items ≡ text.old.items ++ reply_text (Reply.Refused errno)) }
{
    push(text, b"err")?;
    push_decimal(text, errno.number())?;
    push_word(text, errno.name().as_bytes())
}

/// Adds what the device can do.
fn push_caps(text: &mut Vec<u8>, all: u32, device: u32) -> Result<(), Memory>
    ensures { OnOk result (text.new.items ≡ text.old.items ++ reply_text (Reply.Caps all device)) }
{
    push(text, b"ok")?;
    push_flags(text, all)?;
    push_flags(text, device)
}

/// Adds a format's code.
fn push_code_alone(text: &mut Vec<u8>, code: FourCc) -> Result<(), Memory>
    ensures { OnOk result (text.new.items ≡ text.old.items ++ reply_text (Reply.Code code)) }
{
    push(text, b"ok")?;
    push_code(text, code)
}

/// Adds a format with the bytes of its first line and of the whole picture.
fn push_format(text: &mut Vec<u8>, f: &Fmt, line: u32, size: u32) -> Result<(), Memory>
    ensures text { OnOk result (text.new.items ≡ text.old.items ++
        reply_text (Reply.Format f.now line size)) }
    ensures fits { OnOk result (Fits32 f.now.width × Fits32 f.now.height) }
{
    push(text, b"ok")?;
    push_code(text, f.code)?;
    push_decimal(text, f.width)?;
    push_decimal(text, f.height)?;
    push_decimal(text, line)?;
    push_decimal(text, size)
}

/// Adds the name of an input.
fn push_input_name(text: &mut Vec<u8>, input: u32) -> Result<(), Memory>
    ensures { OnOk result (text.new.items ≡ text.old.items ++ reply_text (Reply.InputName input)) }
{
    push(text, b"ok")?;
    push_word(text, input_name(input).as_bytes())
}

/// Adds a reply that tells a number alone.
fn push_count(text: &mut Vec<u8>, count: u32) -> Result<(), Memory>
    ensures { OnOk result (text.new.items ≡ text.old.items ++ reply_text (Reply.Count count)) }
{
    push(text, b"ok")?;
    push_decimal(text, count)
}

/// Adds a buffer's length and flags.
fn push_buf(text: &mut Vec<u8>, len: u32, flags: u32) -> Result<(), Memory>
    ensures { OnOk result (text.new.items ≡ text.old.items ++ reply_text (Reply.Buf len flags)) }
{
    push(text, b"ok")?;
    push_decimal(text, len)?;
    push_flags(text, flags)
}

/// Adds a finished buffer.
fn push_frame(
    text: &mut Vec<u8>,
    index: u32,
    used: u32,
    seq: u32,
    ts: u64,
    flags: u32,
) -> Result<(), Memory>
    ensures { OnOk result (text.new.items ≡ text.old.items ++
        reply_text (Reply.Frame index used seq ts flags)) }
{
    push(text, b"ok")?;
    push_decimal(text, index)?;
    push_decimal(text, used)?;
    push_decimal(text, seq)?;
    push_timestamp(text, ts)?;
    push_flags(text, flags)
}

/// Adds where a mapping stands, and its length.
fn push_mapping(text: &mut Vec<u8>, addr: u64, len: u32) -> Result<(), Memory>
    ensures { OnOk result (text.new.items ≡ text.old.items ++ reply_text (Reply.Mapped addr len)) }
{
    push(text, b"ok")?;
    push_address(text, addr)?;
    push_decimal(text, len)
}

/// Adds bytes that were read.
fn push_small(text: &mut Vec<u8>, bytes: &Small) -> Result<(), Memory>
    ensures text { OnOk result (text.new.items ≡ text.old.items ++
        reply_text (Reply.Bytes bytes.now)) }
    ensures fits { OnOk result (IsSmall bytes.now) }
{
    push(text, b"ok")?;
    push_hex(text, bytes.as_bytes())
}

/// Adds a digest of bytes.
fn push_digest(text: &mut Vec<u8>, digest: &[u8; 32]) -> Result<(), Memory>
    ensures text { OnOk result (text.new.items ≡ text.old.items ++
        reply_text (Reply.Digest digest.now)) }
    ensures fits { OnOk result (IsDigest digest.now) }
{
    push(text, b"ok")?;
    push_hex(text, digest)
}

/// Adds an event.
fn push_event(
    text: &mut Vec<u8>,
    kind: u32,
    frame: u32,
    pending: u32,
    seq: u32,
) -> Result<(), Memory>
    ensures { OnOk result (text.new.items ≡ text.old.items ++
        reply_text (Reply.Event kind frame pending seq)) }
{
    push(text, b"ok")?;
    push_decimal(text, kind)?;
    push_decimal(text, frame)?;
    push_decimal(text, pending)?;
    push_decimal(text, seq)
}

/// Adds a reply: `ok` and what it tells, or `err` with the errno's number and its name. What it
/// tells is in its range, as it is a value of its type.
///
/// # Errors
/// `Memory` where there is none for the text.
pub fn push_reply(text: &mut Vec<u8>, reply: &Reply) -> Result<(), Memory>
    requires { HasLetters reply.now }
    ensures text { OnOk result (text.new.items ≡ text.old.items ++ reply_text reply.now) }
    ensures fits { OnOk result (FitsReply reply.now) }
{
    match reply {
        Reply::Done => push(text, b"ok"),
        Reply::Refused(errno) => push_refusal(text, *errno),
        Reply::Caps { all, device } => push_caps(text, *all, *device),
        Reply::Code(code) => push_code_alone(text, *code),
        Reply::Format { f, line, size } => push_format(text, f, *line, *size),
        Reply::InputName(input) => push_input_name(text, *input),
        Reply::InputIs(number) | Reply::Count(number) | Reply::Pages(number) => {
            push_count(text, *number)
        }
        Reply::Buf { length, flags } => push_buf(text, *length, *flags),
        Reply::Frame {
            index,
            used,
            seq,
            ts,
            flags,
        } => push_frame(text, *index, *used, *seq, *ts, *flags),
        Reply::Mapped { addr, length } => push_mapping(text, *addr, *length),
        Reply::Bytes(bytes) => push_small(text, bytes),
        Reply::Digest(digest) => push_digest(text, digest),
        Reply::Event {
            kind,
            frame,
            pending,
            seq,
        } => push_event(text, *kind, *frame, *pending, *seq),
    }
}
