ghost use Rattle.std.specs.Prelude.{◌≡◌, IfSome};
ghost use Rattle.v4l_format.specs.Fmt.{IsAdjusted};
ghost use Rattle.v4l_rules.specs.Formats.{first_format, sized_as, adjusted_from, is_source};

use v4l_const::{FourCc, Model};
use v4l_format::{Fmt, adjust};

/// GREY 64 by 48, the format that a queue begins with.
///
/// Source: own.
pub const FIRST_FORMAT: Fmt = Fmt {
    code: FourCc(0x5945_5247),
    width: 64,
    height: 48,
};

/// The format that a queue begins with, which is an adjusted one.
pub fn first_format() -> Fmt
    ensures value { result ≡ first_format }
    ensures adjusted { IsAdjusted result }
{
    FIRST_FORMAT
}

/// A format with the size of another.
pub fn sized_as(size: &Fmt, f: &Fmt) -> Fmt
    requires size { IsAdjusted size.now }
    requires adjusted { IsAdjusted f.now }
    ensures value { result ≡ sized_as size.now f.now }
    ensures adjusted { IsAdjusted result }
{
    Fmt {
        code: f.code,
        width: size.width,
        height: size.height,
    }
}

/// The format that the queue of type `t` takes where it is asked for this one. `source` is the
/// format of the model's source queue, where it has one: the pictures that are made from its own
/// have their size.
///
/// Source: own, after the Linux V4L2 interface, `VIDIOC_TRY_FMT`.
pub fn adjust_from(source: Option<Fmt>, model: Model, t: u32, f: FourCc, w: u32, h: u32) -> Fmt
    requires source { IfSome source IsAdjusted }
    ensures value { result ≡ adjusted_from source model t f w h }
    ensures adjusted { IsAdjusted result }
{
    let adjusted = adjust(f, w, h);
    match source {
        Some(size) if t == model.picture_queue() => sized_as(&size, &adjusted),
        _ => adjusted,
    }
}

/// Whether the device reads the buffers of the queue of type `t`.
pub fn is_source(model: Model, t: u32) -> bool
    ensures { result ≡ is_source model t }
{
    match model.source_queue() {
        Some(source) => source == t,
        None => false,
    }
}
