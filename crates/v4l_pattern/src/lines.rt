ghost use Rattle.std.specs.Prelude.{◌≡◌, ◌<◌, ◌≤◌, ◌+◌, ◌*◌, length};
ghost use Rattle.v4l_format.specs.Pattern.{patterns};
ghost use Rattle.v4l_pattern.specs.Lines.{line_size, strip_width, HoldsStrip, ShowsPlane};

use crate::line_kind::LineKind;
use crate::shown::Shown;
use vm_mem::Store;

/// The bytes that the longest strip takes: three for each pixel of the widest picture, and of the
/// most that a line is ahead.
pub const STRIP: usize = 3 * (640 + 255);

/// Sets the bytes from `at` on to the first lines of a plane, and no others. The strip is free to
/// be used.
pub fn fill_plane<D: Store>(
    shown: &Shown,
    kind: LineKind,
    lines: u32,
    at: u32,
    strip: &mut [u8; STRIP],
    dst: &mut D,
)
    requires input { shown.now.input < length patterns }
    requires width { shown.now.width ≤ 640 }
    requires room { at + lines * line_size kind shown.now.width ≤ length (D.bytes_of dst.old) }
    ensures bytes { ShowsPlane shown.now kind lines at (D.bytes_of dst.old) (D.bytes_of dst.new) }
    ensures rest { D.rest_of dst.new ≡ D.rest_of dst.old }
{
    make_strip(shown, kind, strip);
    copy_lines(shown, kind, lines, at, strip, dst);
}

/// Makes the strip that has all lines of a plane in it.
fn make_strip(shown: &Shown, kind: LineKind, strip: &mut [u8])
    requires input { shown.now.input < length patterns }
    requires width { shown.now.width ≤ 640 }
    requires room { line_size kind (strip_width shown.now) ≤ length strip.old }
    ensures { HoldsStrip shown.now kind strip.new }
{
    let size = kind.line_size(shown.strip_width());
    for k in 0..size {
        strip[k as usize] = shown.strip_byte(kind, k);
    }
}

/// Copies the first lines of a plane out of their strip.
fn copy_lines<D: Store>(
    shown: &Shown,
    kind: LineKind,
    lines: u32,
    at: u32,
    strip: &[u8],
    dst: &mut D,
)
    requires input { shown.now.input < length patterns }
    requires width { shown.now.width ≤ 640 }
    requires strip { HoldsStrip shown.now kind strip.now }
    requires room { at + lines * line_size kind shown.now.width ≤ length (D.bytes_of dst.old) }
    ensures bytes { ShowsPlane shown.now kind lines at (D.bytes_of dst.old) (D.bytes_of dst.new) }
    ensures rest { D.rest_of dst.new ≡ D.rest_of dst.old }
{
    // The store's size fits its type, so no place wraps.
    let _size = dst.size();
    let size = kind.line_size(shown.width);
    for y in 0..lines {
        let start = kind.bytes_ahead(shown.pixels_ahead(y)) as usize;
        dst.copy_in(at + y * size, &strip[start..start + size as usize]);
    }
}
