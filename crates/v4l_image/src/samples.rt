ghost use Rattle.std.specs.Prelude.{◌≡◌, ◌<◌, length, slice_index_or};
ghost use Rattle.v4l_format.specs.Fmt.{IsFitting};
ghost use Rattle.v4l_format.specs.FormatRow.{single_planar};
ghost use Rattle.v4l_format.specs.SampleOrder.{picture_bytes};
ghost use Rattle.v4l_image.specs.Samples.{order_at, samples_of};

use v4l_format::SampleOrder;

/// Where the samples of a pixel lie in a picture's bytes.
#[derive(Clone, Copy, Debug, PartialEq, Eq)]
pub struct Samples {
    /// The place of its Y, or of its red.
    pub first: u32,
    /// The places of its Cb and Cr, or of its green and blue. A grey format has none.
    pub others: Option<(u32, u32)>,
    /// Whether the pixel is the top left one of those that share the others, which are its own
    /// then.
    pub top_left: bool,
}

/// How the samples of the format in this place lie.
pub fn order_at(place: u32) -> SampleOrder
    requires { place < length single_planar }
    ensures { result ≡ order_at place }
{
    match place {
        0 => SampleOrder::Grey,
        1 => SampleOrder::Yuyv,
        2 => SampleOrder::Uyvy,
        3 => SampleOrder::Nv12,
        4 => SampleOrder::Yu12,
        _ => SampleOrder::Rgb3,
    }
}

/// Where the samples of the pixel at (`x`, `y`) lie in a picture of `w` by `h` pixels.
pub fn samples_of(order: SampleOrder, w: u32, h: u32, x: u32, y: u32) -> Samples
    requires width { IsFitting 640 w }
    requires height { IsFitting 480 h }
    requires across { x < w }
    requires down { y < h }
    ensures { result ≡ samples_of order w h x y }
{
    let pixels = w * h;
    let pixel = y * w + x;
    let pair = 4 * (y * (w / 2) + x / 2);
    let square = y / 2 * (w / 2) + x / 2;
    let (left, top) = (x % 2 == 0, y % 2 == 0);
    let (first, others, top_left) = match order {
        SampleOrder::Grey => (pixel, None, false),
        SampleOrder::Yuyv => (pair + 2 * (x % 2), Some((pair + 1, pair + 3)), left),
        SampleOrder::Uyvy => (pair + 2 * (x % 2) + 1, Some((pair, pair + 2)), left),
        SampleOrder::Nv12 => {
            let first = pixels + 2 * square;
            (pixel, Some((first, first + 1)), left && top)
        }
        SampleOrder::Yu12 => {
            let first = pixels + square;
            (pixel, Some((first, first + pixels / 4)), left && top)
        }
        SampleOrder::Rgb3 => (3 * pixel, Some((3 * pixel + 1, 3 * pixel + 2)), true),
    };
    Samples {
        first,
        others,
        top_left,
    }
}
