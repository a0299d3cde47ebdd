// What is asked for in the payload of a call.

ghost use Rattle.std.specs.Prelude.{◌≡◌, length};
ghost use Rattle.v4l_layout.specs.Records.{fmtdesc_size, format_size, input_size};
ghost use Rattle.vm_wire.specs.Wire.{number_at};
ghost use Rattle.vm_session.specs.Buffers.{kept_record};

use v4l_layout::{BufferRec, FmtDesc, FormatRec, InputRec, read_fmtdesc, read_format, read_input};
use vm_num::le32;
use vm_wire::Payload;

/// The record of a format that a queue offers.
#[tactic(auto, unfolding(v4l_layout::specs::Records::fmtdesc_fields))]
pub fn fmtdesc_in(payload: &Payload) -> FmtDesc
    requires { length payload.now ≡ fmtdesc_size }
    ensures index { result.index ≡ number_at 0 payload.now }
    ensures kind { result.kind ≡ number_at 4 payload.now }
{
    read_fmtdesc(payload.as_bytes()).unwrap()
}

/// The record of a queue's format.
#[tactic(auto, unfolding(v4l_layout::specs::Records::format_fields))]
pub fn format_in(payload: &Payload) -> FormatRec
    requires { length payload.now ≡ format_size }
    ensures kind { result.kind ≡ number_at 0 payload.now }
    ensures width { result.width ≡ number_at 8 payload.now }
    ensures height { result.height ≡ number_at 12 payload.now }
    ensures code { result.pixelformat ≡ number_at 16 payload.now }
{
    read_format(payload.as_bytes()).unwrap()
}

/// The record of an input.
#[tactic(auto, unfolding(v4l_layout::specs::Records::input_fields))]
pub fn input_in(payload: &Payload) -> InputRec
    requires { length payload.now ≡ input_size }
    ensures { result.index ≡ number_at 0 payload.now }
{
    read_input(payload.as_bytes()).unwrap()
}

/// What is kept of the record of a buffer that is queued: with a bytesused of 0 all its bytes are
/// in use.
pub fn kept_record(asked: BufferRec) -> BufferRec
    ensures { result ≡ kept_record asked }
{
    let bytesused = if asked.bytesused == 0 {
        asked.length
    } else {
        asked.bytesused
    };
    BufferRec { bytesused, ..asked }
}

/// The number that is carried alone.
pub fn number_in(payload: &Payload) -> u32
    requires { length payload.now ≡ 4 }
    ensures { result ≡ number_at 0 payload.now }
{
    le32(payload.as_bytes(), 0)
}
