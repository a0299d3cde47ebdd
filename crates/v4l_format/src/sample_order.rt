use crate::colours::Colours;

/// How the samples of a picture lie in its bytes, row by row from the top.
#[derive(Clone, Copy, Debug, PartialEq, Eq)]
pub enum SampleOrder {
    /// Y of each pixel.
    Grey,
    /// Y, Cb, Y, Cr for each two pixels.
    Yuyv,
    /// Cb, Y, Cr, Y for each two pixels.
    Uyvy,
    /// All Y; then Cb and Cr by turns for each two by two pixels.
    Nv12,
    /// All Y; then all Cb; then all Cr, for each two by two pixels.
    Yu12,
    /// Red, green, blue of each pixel.
    Rgb3,
}

impl SampleOrder {
    ghost use Rattle.std.specs.Prelude.{◌≡◌};
    ghost use Rattle.v4l_format.specs.SampleOrder.{colours_of};

    /// The components of a pixel; of a grey one these are Y, 128 and 128.
    pub fn colours(self) -> Colours
        ensures { result ≡ colours_of self }
    {
        match self {
            SampleOrder::Rgb3 => Colours::Rgb,
            _ => Colours::Ycbcr,
        }
    }
}
