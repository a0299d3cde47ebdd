ghost use Rattle.std.specs.Prelude.{◌≡◌, ◌≤◌};
ghost use Rattle.v4l_format.specs.Fmt.{adjusted_length, adjusted, IsFitting, IsAdjusted, line_length, picture_size};

use crate::fmt::Fmt;
use crate::formats::{order_of, single_planar_row};
use crate::sample_order::SampleOrder;
use v4l_const::FourCc;

/// The least width and height of a picture, in pixels.
const LEAST: u32 = 16;
/// The greatest width of a picture, in pixels.
const MOST_ACROSS: u32 = 640;
/// The greatest height of a picture, in pixels.
const MOST_DOWN: u32 = 480;

/// The format that a device takes where it is asked for this one: GREY for an unknown code, and
/// even sizes that it offers. Own.
#[tactic(auto, unfolding(crate::specs::Fmt::adjusted, crate::specs::FormatRow::row_of))]
pub fn adjust(code: FourCc, width: u32, height: u32) -> Fmt
    ensures value { result ≡ adjusted code width height }
    ensures fitting { IsAdjusted result }
{
    Fmt {
        code: single_planar_row(code).code,
        width: adjusted_to(width, MOST_ACROSS),
        height: adjusted_to(height, MOST_DOWN),
    }
}

/// A length lowered to an even one and brought into 16 to `most`.
fn adjusted_to(length: u32, most: u32) -> u32
    requires { IsFitting most most }
    ensures value { result ≡ adjusted_length most length }
    ensures fitting { IsFitting most result }
{
    (length - length % 2).clamp(LEAST, most)
}

/// The bytes of a line of a picture; of a line of Y where Y stands apart.
///
/// Source: Linux V4L2, struct v4l2_pix_format.
pub fn bytesperline(f: &Fmt) -> u32
    requires { IsAdjusted f.now }
    ensures { result ≡ line_length f.now }
{
    match order_of(f) {
        SampleOrder::Grey | SampleOrder::Nv12 | SampleOrder::Yu12 => f.width,
        SampleOrder::Yuyv | SampleOrder::Uyvy => 2 * f.width,
        SampleOrder::Rgb3 => 3 * f.width,
    }
}

/// The bytes of a picture.
///
/// Source: Linux V4L2, struct v4l2_pix_format.
#[tactic(auto, using(crate::proofs::FmtLemmas::area_most))]
pub fn sizeimage(f: &Fmt) -> u32
    requires { IsAdjusted f.now }
    ensures { result ≡ picture_size f.now }
{
    let pixels = f.width * f.height;
    match order_of(f) {
        SampleOrder::Grey => pixels,
        SampleOrder::Yuyv | SampleOrder::Uyvy => 2 * pixels,
        SampleOrder::Nv12 | SampleOrder::Yu12 => pixels * 3 / 2,
        SampleOrder::Rgb3 => 3 * pixels,
    }
}
