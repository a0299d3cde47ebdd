ghost use Rattle.std.specs.Prelude.{◌≡◌, ◌<◌, ◌≤◌, length};
ghost use Rattle.v4l_format.specs.Fmt.{IsAdjusted, picture_size};
ghost use Rattle.v4l_format.specs.Pattern.{patterns};
ghost use Rattle.v4l_format.specs.Picture.{pixel_at, pattern_byte_at, converted_byte_at};

use crate::colours::Colours;
use crate::fmt::Fmt;
use crate::formats::order_of;
use crate::patterns::pattern_at;
use crate::places::{carried_at, pair_number, pixel_number, square_number};
use crate::sample_order::SampleOrder;
use crate::triple::Triple;
use vm_mem::Store;

/// Byte `i` of the picture that an input shows in frame `seq`.
///
/// This is the plain slow form: faster ones give the same bytes. Source: own.
#[tactic(auto, using(crate::proofs::CarriedLemmas::carried_at_within))]
pub fn pattern_byte(input: u32, seq: u32, f: &Fmt, i: u32) -> u8
    requires adjusted { IsAdjusted f.now }
    requires input { input < length patterns }
    requires place { i < picture_size f.now }
    ensures { result ≡ pattern_byte_at input seq f.now i }
{
    let carried = carried_at(f, i);
    pattern_at(input, seq, f.width, carried.x, carried.y)
        .turned(Colours::Ycbcr, order_of(f).colours())
        .component(carried.component)
}

/// Byte `i` of the picture in `src`, converted to another format of the same size.
///
/// This is the plain slow form: faster ones give the same bytes. Source: own.
#[tactic(auto, using(crate::proofs::CarriedLemmas::carried_at_within))]
pub fn converted_byte<S: Store>(src_fmt: &Fmt, src: &S, dst_fmt: &Fmt, i: u32) -> u8
    requires source_adjusted { IsAdjusted src_fmt.now }
    requires adjusted { IsAdjusted dst_fmt.now }
    requires same_width { src_fmt.now.width ≡ dst_fmt.now.width }
    requires same_height { src_fmt.now.height ≡ dst_fmt.now.height }
    requires whole { picture_size src_fmt.now ≤ length (S.bytes_of src.now) }
    requires place { i < picture_size dst_fmt.now }
    ensures { result ≡ converted_byte_at src_fmt.now (S.bytes_of src.now) dst_fmt.now i }
{
    let carried = carried_at(dst_fmt, i);
    pixel_at(src_fmt, src, carried.x, carried.y)
        .turned(order_of(src_fmt).colours(), order_of(dst_fmt).colours())
        .component(carried.component)
}

/// The pixel at (`x`, `y`) of the picture in `src`.
#[tactic(auto, using(crate::proofs::FmtLemmas::area_most))]
fn pixel_at<S: Store>(f: &Fmt, src: &S, x: u32, y: u32) -> Triple
    requires adjusted { IsAdjusted f.now }
    requires across { x < f.now.width }
    requires down { y < f.now.height }
    requires whole { picture_size f.now ≤ length (S.bytes_of src.now) }
    ensures { result ≡ pixel_at f.now (S.bytes_of src.now) x y }
{
    match order_of(f) {
        SampleOrder::Grey => Triple(src.get(pixel_number(f, x, y)), 128, 128),
        SampleOrder::Yuyv => {
            let pair = 4 * pair_number(f, x, y);
            Triple(
                src.get(pair + 2 * (x % 2)),
                src.get(pair + 1),
                src.get(pair + 3),
            )
        }
        SampleOrder::Uyvy => {
            let pair = 4 * pair_number(f, x, y);
            Triple(
                src.get(pair + 2 * (x % 2) + 1),
                src.get(pair),
                src.get(pair + 2),
            )
        }
        SampleOrder::Nv12 => {
            let square = f.width * f.height + 2 * square_number(f, x, y);
            Triple(
                src.get(pixel_number(f, x, y)),
                src.get(square),
                src.get(square + 1),
            )
        }
        SampleOrder::Yu12 => {
            let pixels = f.width * f.height;
            let square = pixels + square_number(f, x, y);
            Triple(
                src.get(pixel_number(f, x, y)),
                src.get(square),
                src.get(square + pixels / 4),
            )
        }
        SampleOrder::Rgb3 => {
            let pixel = 3 * pixel_number(f, x, y);
            Triple(src.get(pixel), src.get(pixel + 1), src.get(pixel + 2))
        }
    }
}
