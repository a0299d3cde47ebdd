ghost use Rattle.std.specs.Prelude.{◌≡◌, ◌<◌, length};
ghost use Rattle.v4l_convert.specs.Lines.{colours_in, kind_at, order_at, pair_size, planes_of, rows_of};
ghost use Rattle.v4l_format.specs.FormatRow.{single_planar};

use v4l_format::{Colours, SampleOrder};

/// What a line of a picture's plane carries of each two pixels side by side.
#[derive(Clone, Copy, Debug, PartialEq, Eq)]
pub enum LineKind {
    /// Y, Y.
    Luma,
    /// Y, Cb, Y, Cr.
    LumaFirst,
    /// Cb, Y, Cr, Y.
    ChromaFirst,
    /// Cb, Cr, of two rows.
    Chroma,
    /// Cb, of two rows.
    BlueChroma,
    /// Cr, of two rows.
    RedChroma,
    /// Red, green, blue, red, green, blue.
    Primaries,
}

/// The bytes that two pixels have in a line.
pub fn pair_size(kind: LineKind) -> u32
    ensures { result ≡ pair_size kind }
{
    match kind {
        LineKind::Luma | LineKind::Chroma => 2,
        LineKind::LumaFirst | LineKind::ChromaFirst => 4,
        LineKind::BlueChroma | LineKind::RedChroma => 1,
        LineKind::Primaries => 6,
    }
}

/// How many rows of pixels share a line.
pub fn rows_of(kind: LineKind) -> u32
    ensures { result ≡ rows_of kind }
{
    match kind {
        LineKind::Chroma | LineKind::BlueChroma | LineKind::RedChroma => 2,
        _ => 1,
    }
}

/// The colours that a line's bytes are components of.
pub fn colours_in(kind: LineKind) -> Colours
    ensures { result ≡ colours_in kind }
{
    match kind {
        LineKind::Primaries => Colours::Rgb,
        _ => Colours::Ycbcr,
    }
}

/// The lines of a picture's plane, which is counted from 0.
pub fn kind_at(order: SampleOrder, plane: u32) -> LineKind
    requires { plane < length (planes_of order) }
    ensures { result ≡ kind_at order plane }
{
    match (order, plane) {
        (SampleOrder::Yuyv, _) => LineKind::LumaFirst,
        (SampleOrder::Uyvy, _) => LineKind::ChromaFirst,
        (SampleOrder::Rgb3, _) => LineKind::Primaries,
        (_, 0) => LineKind::Luma,
        (SampleOrder::Nv12, _) => LineKind::Chroma,
        (_, 1) => LineKind::BlueChroma,
        _ => LineKind::RedChroma,
    }
}

/// How the samples of the format in this place of the table lie, counted from 0.
pub fn order_at(place: u32) -> SampleOrder
    requires { place < length single_planar }
    ensures { result ≡ order_at place }
{
    match place {
        0 => SampleOrder::Grey,
        1 => SampleOrder::Yuyv,
        2 => SampleOrder::Uyvy,
        3 => SampleOrder::Nv12,
        4 => SampleOrder::Yu12,
        _ => SampleOrder::Rgb3,
    }
}
