ghost use Rattle.std.specs.Prelude.{◌≡◌, ◌<◌, ◌≤◌, ◌++◌, length, drop};
ghost use Rattle.v4l_format.specs.Fmt.{IsAdjusted, picture_size};
ghost use Rattle.v4l_format.specs.Pattern.{patterns};
ghost use Rattle.v4l_format.specs.Picture.{pattern_picture};

use crate::line_kind::LineKind;
use crate::lines::{STRIP, fill_plane};
use crate::shown::Shown;
use v4l_format::{Fmt, SampleOrder, order_of};
use vm_mem::Store;

/// Sets the first bytes of `dst` to the picture that an input shows in frame `seq`, as many as a
/// picture of this format has, and leaves the bytes behind it. It takes no memory.
///
/// Source: own.
pub fn fill_pattern<D: Store>(input: u32, seq: u32, f: &Fmt, dst: &mut D)
    requires adjusted { IsAdjusted f.now }
    requires input { input < length patterns }
    requires room { picture_size f.now ≤ length (D.bytes_of dst.old) }
    ensures bytes { D.bytes_of dst.new ≡ pattern_picture input seq f.now ++
        drop (picture_size f.now) (D.bytes_of dst.old) }
    ensures rest { D.rest_of dst.new ≡ D.rest_of dst.old }
{
    let shown = Shown {
        input,
        seq,
        width: f.width,
    };
    let (lines, pixels) = (f.height, f.width * f.height);
    let mut strip = [0; STRIP];
    match order_of(f) {
        SampleOrder::Grey => fill_plane(&shown, LineKind::Luma, lines, 0, &mut strip, dst),
        SampleOrder::Yuyv => fill_plane(&shown, LineKind::LumaFirst, lines, 0, &mut strip, dst),
        SampleOrder::Uyvy => fill_plane(&shown, LineKind::ChromaFirst, lines, 0, &mut strip, dst),
        SampleOrder::Nv12 => {
            fill_plane(&shown, LineKind::Luma, lines, 0, &mut strip, dst);
            fill_plane(&shown, LineKind::Chroma, lines / 2, pixels, &mut strip, dst);
        }
        SampleOrder::Yu12 => {
            fill_plane(&shown, LineKind::Luma, lines, 0, &mut strip, dst);
            fill_plane(
                &shown,
                LineKind::BlueChroma,
                lines / 2,
                pixels,
                &mut strip,
                dst,
            );
            fill_plane(
                &shown,
                LineKind::RedChroma,
                lines / 2,
                pixels + pixels / 4,
                &mut strip,
                dst,
            );
        }
        SampleOrder::Rgb3 => fill_plane(&shown, LineKind::Primaries, lines, 0, &mut strip, dst),
    }
}
