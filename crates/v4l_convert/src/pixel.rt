ghost use Rattle.std.specs.Prelude.{◌≡◌, ◌<◌, ◌≤◌, ◌+◌, ◌*◌, ◌++◌, ◌∷◌, [], length, take, drop};
ghost use Rattle.v4l_convert.specs.Lines.{chroma_in, goes_by_pixels, luma_in, pixel_bytes};

use crate::line_kind::LineKind;
use v4l_format::SampleOrder;

/// What a grey pixel has as its colour differences.
pub const NEUTRAL: u8 = 128;

/// Whether a line is made pixel by pixel: one in which Y and colour differences stand by turns,
/// from a row that has both for each pixel's place.
pub fn goes_by_pixels(order: SampleOrder, kind: LineKind) -> bool
    ensures { result ≡ goes_by_pixels order kind }
{
    match kind {
        LineKind::LumaFirst | LineKind::ChromaFirst => matches!(
            order,
            SampleOrder::Grey | SampleOrder::Yuyv | SampleOrder::Uyvy | SampleOrder::Nv12
        ),
        _ => false,
    }
}

/// The Y of the pixel `x` of a row of `w` pixels.
pub fn luma_of(order: SampleOrder, line: &[u8], w: usize, x: usize) -> u8
    requires across { x < w }
    requires whole { 3 * w ≤ length line.now }
    ensures { result ≡ luma_in order line.now x }
{
    match order {
        SampleOrder::Yuyv => line[2 * x],
        SampleOrder::Uyvy => line[2 * x + 1],
        _ => line[x],
    }
}

/// What stands at the place of the pixel `x` of a row: of two pixels the left has their Cb and
/// the right their Cr.
pub fn chroma_of(order: SampleOrder, line: &[u8], w: usize, x: usize) -> u8
    requires across { x < w }
    requires whole { 3 * w ≤ length line.now }
    ensures { result ≡ chroma_in order w line.now x }
{
    match order {
        SampleOrder::Yuyv => line[2 * x + 1],
        SampleOrder::Uyvy => line[2 * x],
        SampleOrder::Nv12 => line[2 * w + x],
        _ => NEUTRAL,
    }
}

/// Sets what the pixel `x` of a row of this order has in a line, and nothing else.
pub fn put_pixel(order: SampleOrder, kind: LineKind, out: &mut [u8], x: usize, luma: u8, chroma: u8)
    requires place { 2 * x + 2 ≤ length out.old }
    ensures { out.new ≡ take (2 * x) out.old ++
        (pixel_bytes kind luma chroma ++ drop (2 * x + 2) out.old) }
{
    let (first, second) = match kind {
        LineKind::LumaFirst => (luma, chroma),
        _ => (chroma, luma),
    };
    let bytes = match order {
        SampleOrder::Grey => [first, second],
        _ => two_bytes(first, second),
    };
    out[2 * x..2 * x + 2].copy_from_slice(&bytes);
}

/// Two bytes by way of their number: the compiler then sees two neighbours that change places as
/// one step. Where one of them is always the same it does better without.
fn two_bytes(first: u8, second: u8) -> [u8; 2]
    ensures { result ≡ first ∷ second ∷ [] }
{
    u16::from_be_bytes([second, first]).to_le_bytes()
}
