// The records that calls carry.

ghost use Rattle.std.specs.Prelude.{◌≡◌, ◌<◌, length};
ghost use Rattle.v4l_format.specs.Fmt.{IsAdjusted};
ghost use Rattle.v4l_format.specs.Pattern.{patterns};
ghost use Rattle.vm_wire.specs.Records.{capability_of, fmt_desc_request, fmt_desc_answer, format_request, format_type_request, format_answer, input_name, input_request, input_answer};

use v4l_const::{BUS_INFO, DRIVER, DRIVER_VERSION, FIELD_NONE, FourCc, INPUT_TYPE_CAMERA, Model};
use v4l_format::{Fmt, bytesperline, sizeimage};
use v4l_layout::{Capability, FmtDesc, FormatRec, InputRec, padded};

/// What QUERYCAP answers: the driver's and the device's names, and what the device can do.
///
/// Source: Linux V4L2, `struct v4l2_capability`; the texts and the version are own.
#[tactic(auto, unfolding(crate::specs::Records::capability_of))]
pub fn capability_of(model: Model) -> Capability
    ensures { result ≡ capability_of model }
{
    Capability {
        driver: padded(DRIVER),
        card: padded(model.card()),
        bus_info: padded(BUS_INFO),
        version: DRIVER_VERSION,
        capabilities: model.capabilities().0,
        device_caps: model.device_capabilities().0,
    }
}

/// What ENUM_FMT asks for: the format in place `i` of the queues of type `t`.
///
/// Source: Linux V4L2, `struct v4l2_fmtdesc`.
#[tactic(auto, unfolding(crate::specs::Records::fmt_desc_request))]
pub fn fmt_desc_request(t: u32, i: u32) -> FmtDesc
    ensures { result ≡ fmt_desc_request t i }
{
    FmtDesc {
        index: i,
        kind: t,
        flags: 0,
        description: [0; 32],
        pixelformat: 0,
    }
}

/// What ENUM_FMT answers: the code of the format in place `i`, and its four letters as the
/// description.
///
/// Source: Linux V4L2, `struct v4l2_fmtdesc`; the description is own.
#[tactic(auto, unfolding(crate::specs::Records::fmt_desc_answer))]
pub fn fmt_desc_answer(t: u32, i: u32, code: FourCc) -> FmtDesc
    ensures { result ≡ fmt_desc_answer t i code }
{
    let mut description = [0; 32];
    description[..4].copy_from_slice(&code.0.to_le_bytes());
    FmtDesc {
        index: i,
        kind: t,
        flags: 0,
        description,
        pixelformat: code.0,
    }
}

/// What TRY_FMT and S_FMT ask for: a code and a size in pixels for the queue of type `t`.
///
/// Source: Linux V4L2, `struct v4l2_format`.
#[tactic(auto, unfolding(crate::specs::Records::format_request))]
pub fn format_request(t: u32, code: FourCc, width: u32, height: u32) -> FormatRec
    ensures { result ≡ format_request t code width height }
{
    FormatRec {
        kind: t,
        width,
        height,
        pixelformat: code.0,
        field: 0,
        bytesperline: 0,
        sizeimage: 0,
    }
}

/// What G_FMT asks for: the type of the queue alone.
///
/// Source: Linux V4L2, `struct v4l2_format`.
#[tactic(auto, unfolding(crate::specs::Records::format_type_request))]
pub fn format_type_request(t: u32) -> FormatRec
    ensures { result ≡ format_type_request t }
{
    FormatRec {
        kind: t,
        width: 0,
        height: 0,
        pixelformat: 0,
        field: 0,
        bytesperline: 0,
        sizeimage: 0,
    }
}

/// What G_FMT, TRY_FMT and S_FMT answer: a format of the queue of type `t`, with the bytes of a row
/// and of a picture.
///
/// Source: Linux V4L2, `struct v4l2_format`.
#[tactic(auto, unfolding(crate::specs::Records::format_answer))]
pub fn format_answer(t: u32, f: &Fmt) -> FormatRec
    requires { IsAdjusted f.now }
    ensures { result ≡ format_answer t f.now }
{
    FormatRec {
        kind: t,
        width: f.width,
        height: f.height,
        pixelformat: f.code.0,
        field: FIELD_NONE,
        bytesperline: bytesperline(f),
        sizeimage: sizeimage(f),
    }
}

/// The name of an input, that of the first where there is no such input.
///
/// Source: own.
pub fn input_name(i: u32) -> &'static str
    ensures { result.now ≡ input_name i }
{
    match i {
        1 => "ramp",
        2 => "checker",
        3 => "count",
        _ => "bars",
    }
}

/// What ENUMINPUT asks for: the input in place `i`.
///
/// Source: Linux V4L2, `struct v4l2_input`.
#[tactic(auto, unfolding(crate::specs::Records::input_request))]
pub fn input_request(i: u32) -> InputRec
    ensures { result ≡ input_request i }
{
    InputRec {
        index: i,
        name: [0; 32],
        kind: 0,
    }
}

/// What ENUMINPUT answers: the name of the input in place `i`, which is a camera.
///
/// Source: Linux V4L2, `struct v4l2_input`; the names are own.
#[tactic(auto, unfolding(crate::specs::Records::input_answer))]
pub fn input_answer(i: u32) -> InputRec
    ensures { result ≡ input_answer i }
{
    InputRec {
        index: i,
        name: padded(input_name(i)),
        kind: INPUT_TYPE_CAMERA,
    }
}
