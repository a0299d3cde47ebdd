ghost use Rattle.std.specs.Prelude.{◌≡◌, ◌<◌, ◌≤◌, ◌+◌, ◌*◌, ◌/◌, ℕ, true, length, take, drop, slice_index};
ghost use Rattle.v4l_convert.specs.Lines.{converted_line, goes_by_pixels, kind_at, line_size, order_at, planes_of};
ghost use Rattle.v4l_format.specs.Fmt.{IsFitting};
ghost use Rattle.v4l_format.specs.FormatRow.{single_planar};
ghost use Rattle.v4l_format.specs.SampleOrder.{picture_bytes, pixel_in};

use crate::line_kind::{colours_in, kind_at, order_at};
use crate::pair::{Pair, pair_of, put_pair};
use crate::pixel::{chroma_of, goes_by_pixels, luma_of, put_pixel};
use v4l_format::SampleOrder;
use vm_mem::Store;

/// The bytes that the widest line takes.
pub const MOST: usize = 1920;

/// The bytes of a line.
pub type Line = [u8; MOST];

/// Makes of the row in `line` the line of plane `P` of a picture of format `G`.
pub fn make_line<const F: u32, const G: u32, const P: u32>(line: &Line, w: u32, out: &mut Line)
    requires source { F < length single_planar }
    requires target { G < length single_planar }
    requires plane { P < length (planes_of (order_at G)) }
    requires width { IsFitting 640 w }
    ensures { take (line_size (kind_at (order_at G) P) w) out.new ≡
        converted_line (order_at F) (kind_at (order_at G) P) w 2 line.now 0 }
{
    if goes_by_pixels(order_at(F), kind_at(order_at(G), P)) {
        make_by_pixels::<F, G, P>(line, w, out);
    } else {
        make_by_pairs::<F, G, P>(line, w, out);
    }
}

/// The same pixel by pixel.
fn make_by_pixels<const F: u32, const G: u32, const P: u32>(line: &Line, w: u32, out: &mut Line)
    requires source { F < length single_planar }
    requires target { G < length single_planar }
    requires plane { P < length (planes_of (order_at G)) }
    requires width { IsFitting 640 w }
    requires by_pixels { goes_by_pixels (order_at F) (kind_at (order_at G) P) ≡ true }
    ensures { take (line_size (kind_at (order_at G) P) w) out.new ≡
        converted_line (order_at F) (kind_at (order_at G) P) w 2 line.now 0 }
{
    let (order, kind) = (order_at(F), kind_at(order_at(G), P));
    let wide = w as usize;
    for x in 0..wide {
        let luma = luma_of(order, line, wide, x);
        let chroma = chroma_of(order, line, wide, x);
        put_pixel(order, kind, out, x, luma, chroma);
    }
}

/// The same by pairs of pixels side by side.
fn make_by_pairs<const F: u32, const G: u32, const P: u32>(line: &Line, w: u32, out: &mut Line)
    requires source { F < length single_planar }
    requires target { G < length single_planar }
    requires plane { P < length (planes_of (order_at G)) }
    requires width { IsFitting 640 w }
    ensures { take (line_size (kind_at (order_at G) P) w) out.new ≡
        converted_line (order_at F) (kind_at (order_at G) P) w 2 line.now 0 }
{
    let (order, kind) = (order_at(F), kind_at(order_at(G), P));
    let (from, to) = (order.colours(), colours_in(kind));
    for k in 0..w as usize / 2 {
        let Pair { left, right } = pair_of(order, line, w as usize, k);
        let turned = Pair {
            left: left.turned(from, to),
            right: right.turned(from, to),
        };
        put_pair(kind, out, k, turned);
    }
}

/// Reads the row `y` of a picture into `line`: as the first row of a picture of two rows.
pub fn read_line<S: Store>(order: SampleOrder, src: &S, w: u32, h: u32, y: u32, line: &mut Line)
    requires width { IsFitting 640 w }
    requires height { IsFitting 480 h }
    requires down { y < h }
    requires whole { picture_bytes order w h ≤ length (S.bytes_of src.now) }
    ensures { (x : ℕ) → x < w → pixel_in order w 2 line.new x 0 ≡
        pixel_in order w h (S.bytes_of src.now) x y }
{
    let pixels = w * h;
    let at = y * w;
    let wide = w as usize;
    match order {
        SampleOrder::Grey => read_part(src, at, line, 0, wide),
        SampleOrder::Yuyv => read_part(src, 2 * at, line, 0, 2 * wide),
        SampleOrder::Uyvy => read_part(src, 2 * at, line, 0, 2 * wide),
        SampleOrder::Nv12 => {
            read_part(src, at, line, 0, wide);
            read_part(src, pixels + y / 2 * w, line, 2 * wide, wide);
        }
        SampleOrder::Yu12 => {
            let square = y / 2 * (w / 2);
            read_part(src, at, line, 0, wide);
            read_part(src, pixels + square, line, 2 * wide, wide / 2);
            read_part(
                src,
                pixels + pixels / 4 + square,
                line,
                2 * wide + wide / 2,
                wide / 2,
            );
        }
        SampleOrder::Rgb3 => read_part(src, 3 * at, line, 0, 3 * wide),
    }
}

/// Sets `count` bytes of a line, from `to` on, to those of `src` from `at` on.
fn read_part<S: Store>(src: &S, at: u32, line: &mut Line, to: usize, count: usize)
    requires place { to + count ≤ 1920 }
    requires whole { at + count ≤ length (S.bytes_of src.now) }
    ensures read { (i : ℕ) → i < count → slice_index line.new (to + i) ≡
        slice_index (S.bytes_of src.now) (at + i) }
    ensures before { (i : ℕ) → i < to → slice_index line.new i ≡ slice_index line.old i }
{
    src.copy_out(at, &mut line[to..to + count]);
}
