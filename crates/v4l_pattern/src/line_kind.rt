/// What the lines of a plane carry.
#[derive(Clone, Copy, Debug, PartialEq, Eq)]
pub enum LineKind {
    /// Y of each pixel.
    Luma,
    /// Y, Cb, Y, Cr for each two pixels.
    LumaFirst,
    /// Cb, Y, Cr, Y for each two pixels.
    ChromaFirst,
    /// Red, green, blue of each pixel.
    Primaries,
    /// Cb and Cr by turns for each two pixels.
    Chroma,
    /// Cb for each two pixels.
    BlueChroma,
    /// Cr for each two pixels.
    RedChroma,
}

impl LineKind {
    ghost use Rattle.std.specs.Prelude.{◌≡◌, ◌<◌, ◌^◌};
    ghost use Rattle.v4l_pattern.specs.Lines.{line_size, bytes_ahead};

    /// The bytes of a line of `width` pixels.
    pub fn line_size(self, width: u32) -> u32
        requires { width < 2 ^ 16 }
        ensures { result ≡ line_size self width }
    {
        match self {
            LineKind::Luma | LineKind::Chroma => width,
            LineKind::LumaFirst | LineKind::ChromaFirst => 2 * width,
            LineKind::Primaries => 3 * width,
            LineKind::BlueChroma | LineKind::RedChroma => width / 2,
        }
    }

    /// The bytes from a line's front to what it shows this many pixels further on.
    pub fn bytes_ahead(self, pixels: u32) -> u32
        requires { pixels < 2 ^ 16 }
        ensures { result ≡ bytes_ahead self pixels }
    {
        match self {
            LineKind::Luma => pixels,
            LineKind::LumaFirst | LineKind::ChromaFirst => 2 * pixels,
            LineKind::Primaries => 3 * pixels,
            LineKind::Chroma | LineKind::BlueChroma | LineKind::RedChroma => 0,
        }
    }
}
