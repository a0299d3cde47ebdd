ghost use Rattle.std.specs.Prelude.{◌≡◌, ◌<◌, ◌≤◌, ◌+◌, ◌*◌, ◌++◌, length, take, drop};
ghost use Rattle.v4l_convert.specs.Lines.{pair_bytes, pair_size};
ghost use Rattle.v4l_format.specs.SampleOrder.{pixel_in};

use crate::line_kind::LineKind;
use crate::pixel::NEUTRAL;
use v4l_format::{SampleOrder, Triple};

/// Two pixels side by side.
pub struct Pair {
    pub left: Triple,
    pub right: Triple,
}

/// The `k`-th pair of the first row of a picture of `w` pixels across and two down.
pub fn pair_of(order: SampleOrder, line: &[u8], w: usize, k: usize) -> Pair
    requires across { 2 * k + 1 < w }
    requires whole { 3 * w ≤ length line.now }
    ensures left { result.left ≡ pixel_in order w 2 line.now (2 * k) 0 }
    ensures right { result.right ≡ pixel_in order w 2 line.now (2 * k + 1) 0 }
{
    match order {
        SampleOrder::Grey => side_by_side(line[2 * k], line[2 * k + 1], NEUTRAL, NEUTRAL),
        SampleOrder::Yuyv => side_by_side(
            line[4 * k],
            line[4 * k + 2],
            line[4 * k + 1],
            line[4 * k + 3],
        ),
        SampleOrder::Uyvy => side_by_side(
            line[4 * k + 1],
            line[4 * k + 3],
            line[4 * k],
            line[4 * k + 2],
        ),
        SampleOrder::Nv12 => side_by_side(
            line[2 * k],
            line[2 * k + 1],
            line[2 * w + 2 * k],
            line[2 * w + 2 * k + 1],
        ),
        SampleOrder::Yu12 => side_by_side(
            line[2 * k],
            line[2 * k + 1],
            line[2 * w + k],
            line[2 * w + k + w / 2],
        ),
        SampleOrder::Rgb3 => Pair {
            left: Triple(line[6 * k], line[6 * k + 1], line[6 * k + 2]),
            right: Triple(line[6 * k + 3], line[6 * k + 4], line[6 * k + 5]),
        },
    }
}

/// Two pixels that share their colour differences.
fn side_by_side(left: u8, right: u8, cb: u8, cr: u8) -> Pair
    ensures { result ≡ record {
      left = record { 0 = left; 1 = cb; 2 = cr };
      right = record { 0 = right; 1 = cb; 2 = cr };
    } }
{
    Pair {
        left: Triple(left, cb, cr),
        right: Triple(right, cb, cr),
    }
}

/// Sets what the `k`-th pair has in a line, and nothing else.
pub fn put_pair(kind: LineKind, out: &mut [u8], k: usize, pair: Pair)
    requires place { pair_size kind * k + pair_size kind ≤ length out.old }
    ensures { out.new ≡ take (pair_size kind * k) out.old ++
        (pair_bytes kind pair.left pair.right ++
        drop (pair_size kind * k + pair_size kind) out.old) }
{
    let Pair { left, right } = pair;
    match kind {
        LineKind::Luma => out[2 * k..2 * k + 2].copy_from_slice(&[left.0, right.0]),
        LineKind::LumaFirst => out[4 * k..4 * k + 4].copy_from_slice(&[
            left.0, left.1, right.0, left.2,
        ]),
        LineKind::ChromaFirst => out[4 * k..4 * k + 4].copy_from_slice(&[
            left.1, left.0, left.2, right.0,
        ]),
        LineKind::Chroma => out[2 * k..2 * k + 2].copy_from_slice(&[left.1, left.2]),
        LineKind::BlueChroma => out[k..k + 1].copy_from_slice(&[left.1]),
        LineKind::RedChroma => out[k..k + 1].copy_from_slice(&[left.2]),
        LineKind::Primaries => out[6 * k..6 * k + 6].copy_from_slice(&[
            left.0, left.1, left.2, right.0, right.1, right.2,
        ]),
    }
}
