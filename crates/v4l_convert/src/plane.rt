ghost use Rattle.std.specs.Prelude.{◌≡◌, ◌<◌, ◌≤◌, ◌+◌, ◌++◌, ◌↔◌, IsTrue, length, take, drop};
ghost use Rattle.v4l_convert.specs.declared.line_kind.LineKind.TheVariants.{Luma};
ghost use Rattle.v4l_convert.specs.Lines.{converted_plane, kind_at, order_at, plane_size, planes_of};
ghost use Rattle.v4l_format.specs.Fmt.{IsFitting};
ghost use Rattle.v4l_format.specs.FormatRow.{single_planar};
ghost use Rattle.v4l_format.specs.SampleOrder.{picture_bytes};

use crate::copy::copy_front;
use crate::line::{MOST, make_line, read_line};
use crate::line_kind::{kind_at, order_at, pair_size, rows_of};
use v4l_format::SampleOrder;
use vm_mem::Store;

/// Writes plane `P` of a picture of format `G`, converted from one of format `F`, from the byte
/// `start` on. Answers where the plane ends.
pub fn write_plane<const F: u32, const G: u32, const P: u32, S: Store, D: Store>(
    src: &S,
    dst: &mut D,
    w: u32,
    h: u32,
    start: u32,
) -> u32
    requires source { F < length single_planar }
    requires target { G < length single_planar }
    requires plane { P < length (planes_of (order_at G)) }
    requires width { IsFitting 640 w }
    requires height { IsFitting 480 h }
    requires whole { picture_bytes (order_at F) w h ≤ length (S.bytes_of src.now) }
    requires room { start + plane_size w h (kind_at (order_at G) P) ≤ length (D.bytes_of dst.old) }
    ensures end { result ≡ start + plane_size w h (kind_at (order_at G) P) }
    ensures bytes { D.bytes_of dst.new ≡ take start (D.bytes_of dst.old) ++
        (converted_plane (order_at F) w h (S.bytes_of src.now) (kind_at (order_at G) P) ++
        drop (start + plane_size w h (kind_at (order_at G) P)) (D.bytes_of dst.old)) }
    ensures size { length (D.bytes_of dst.new) ≡ length (D.bytes_of dst.old) }
    ensures rest { D.rest_of dst.new ≡ D.rest_of dst.old }
{
    // The size fits its type, so no place wraps.
    let _size = dst.size();
    let kind = kind_at(order_at(G), P);
    let rows = rows_of(kind);
    let size = pair_size(kind) * (w / 2);
    let mut line = [0; MOST];
    let mut out = [0; MOST];
    let mut at = start;
    for n in 0..h / rows {
        read_line(order_at(F), src, w, h, rows * n, &mut line);
        make_line::<F, G, P>(&line, w, &mut out);
        dst.copy_in(at, &out[..size as usize]);
        at += size;
    }
    at
}

/// Writes the first plane likewise. It is copied where both formats begin with a plane of Y.
pub fn write_first<const F: u32, const G: u32, S: Store, D: Store>(
    src: &S,
    dst: &mut D,
    w: u32,
    h: u32,
) -> u32
    requires source { F < length single_planar }
    requires target { G < length single_planar }
    requires width { IsFitting 640 w }
    requires height { IsFitting 480 h }
    requires whole { picture_bytes (order_at F) w h ≤ length (S.bytes_of src.now) }
    requires room { 0 + plane_size w h (kind_at (order_at G) 0) ≤ length (D.bytes_of dst.old) }
    ensures end { result ≡ 0 + plane_size w h (kind_at (order_at G) 0) }
    ensures bytes { D.bytes_of dst.new ≡ take 0 (D.bytes_of dst.old) ++
        (converted_plane (order_at F) w h (S.bytes_of src.now) (kind_at (order_at G) 0) ++
        drop (0 + plane_size w h (kind_at (order_at G) 0)) (D.bytes_of dst.old)) }
    ensures size { length (D.bytes_of dst.new) ≡ length (D.bytes_of dst.old) }
    ensures rest { D.rest_of dst.new ≡ D.rest_of dst.old }
{
    if begins_with_luma(order_at(F)) && begins_with_luma(order_at(G)) {
        let count = w * h;
        copy_front(src, dst, count);
        count
    } else {
        write_plane::<F, G, 0, S, D>(src, dst, w, h, 0)
    }
}

/// Whether the first plane of a picture is one of Y.
fn begins_with_luma(order: SampleOrder) -> bool
    ensures { IsTrue result ↔ (kind_at order 0 ≡ Luma) }
{
    matches!(
        order,
        SampleOrder::Grey | SampleOrder::Nv12 | SampleOrder::Yu12
    )
}
