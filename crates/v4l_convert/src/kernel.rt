ghost use Rattle.std.specs.Prelude.{◌≡◌, ◌<◌, ◌≤◌, ◌++◌, length, drop};
ghost use Rattle.v4l_convert.specs.Lines.{order_at};
ghost use Rattle.v4l_format.specs.Fmt.{IsAdjusted, order_of, picture_size};
ghost use Rattle.v4l_format.specs.FormatRow.{single_planar};
ghost use Rattle.v4l_format.specs.Picture.{converted_picture};

use crate::copy::copy_front;
use crate::line_kind::order_at;
use crate::plane::{write_first, write_plane};
use v4l_format::{Fmt, SampleOrder, sizeimage};
use vm_mem::Store;

/// Converts a picture of the format in place `F` of the table of formats to that in place `G`:
/// plane by plane, and as a whole where the formats are the same.
pub fn kernel<const F: u32, const G: u32, S: Store, D: Store>(
    src_fmt: &Fmt,
    src: &S,
    dst_fmt: &Fmt,
    dst: &mut D,
)
    requires from { F < length single_planar }
    requires to { G < length single_planar }
    requires source { order_of src_fmt.now ≡ order_at F }
    requires target { order_of dst_fmt.now ≡ order_at G }
    requires source_adjusted { IsAdjusted src_fmt.now }
    requires adjusted { IsAdjusted dst_fmt.now }
    requires same_width { src_fmt.now.width ≡ dst_fmt.now.width }
    requires same_height { src_fmt.now.height ≡ dst_fmt.now.height }
    requires whole { picture_size src_fmt.now ≤ length (S.bytes_of src.now) }
    requires room { picture_size dst_fmt.now ≤ length (D.bytes_of dst.old) }
    ensures bytes { D.bytes_of dst.new ≡ converted_picture src_fmt.now
        (S.bytes_of src.now) dst_fmt.now ++ drop (picture_size dst_fmt.now) (D.bytes_of dst.old) }
    ensures size { length (D.bytes_of dst.new) ≡ length (D.bytes_of dst.old) }
    ensures rest { D.rest_of dst.new ≡ D.rest_of dst.old }
{
    if F == G {
        copy_front(src, dst, sizeimage(dst_fmt));
        return;
    }
    let (w, h) = (dst_fmt.width, dst_fmt.height);
    let first = write_first::<F, G, S, D>(src, dst, w, h);
    match order_at(G) {
        SampleOrder::Nv12 => {
            let _end = write_plane::<F, G, 1, S, D>(src, dst, w, h, first);
        }
        SampleOrder::Yu12 => {
            let second = write_plane::<F, G, 1, S, D>(src, dst, w, h, first);
            let _end = write_plane::<F, G, 2, S, D>(src, dst, w, h, second);
        }
        _ => {}
    }
}
