use crate::line_kind::LineKind;
use v4l_format::{Colours, Triple, pattern_at};

/// What an input shows in a frame, in pictures of this width.
#[derive(Clone, Copy, Debug, PartialEq, Eq)]
pub struct Shown {
    pub input: u32,
    pub seq: u32,
    pub width: u32,
}

impl Shown {
    ghost use Rattle.std.specs.Prelude.{◌≡◌, ◌<◌, ◌≤◌, length};
    ghost use Rattle.v4l_format.specs.Pattern.{patterns};
    ghost use Rattle.v4l_pattern.specs.Lines.{pattern_of, pixels_ahead, most_ahead, line_size, strip_width, strip_pixel, byte_of_strip};

    /// How many pixels line `y` is ahead of the first line.
    pub fn pixels_ahead(&self, y: u32) -> u32
        requires { self.now.input < length patterns }
        ensures value { result ≡ pixels_ahead (pattern_of self.now.input) y }
        ensures most { result ≤ most_ahead (pattern_of self.now.input) }
    {
        match self.input {
            1 => y % 256,
            2 => 8 * (y / 8 % 2),
            _ => 0,
        }
    }

    /// The width of the strip that has all lines in it.
    pub fn strip_width(&self) -> u32
        requires input { self.now.input < length patterns }
        requires width { self.now.width ≤ 640 }
        ensures { result ≡ strip_width self.now }
    {
        let ahead = match self.input {
            1 => 255,
            2 => 8,
            _ => 0,
        };
        self.width + ahead
    }

    /// A pixel of the strip.
    fn pixel(&self, x: u32) -> Triple
        requires input { self.now.input < length patterns }
        requires width { self.now.width ≤ 640 }
        requires across { x < strip_width self.now }
        ensures { result ≡ strip_pixel self.now x }
    {
        pattern_at(self.input, self.seq, self.strip_width(), x, 0)
    }

    /// A byte of the strip, in lines of this kind.
    pub fn strip_byte(&self, kind: LineKind, k: u32) -> u8
        requires input { self.now.input < length patterns }
        requires width { self.now.width ≤ 640 }
        requires within { k < line_size kind (strip_width self.now) }
        ensures { result ≡ byte_of_strip self.now kind k }
    {
        match kind {
            LineKind::Luma => self.pixel(k).0,
            LineKind::LumaFirst => match k % 4 {
                1 => self.pixel(2 * (k / 4)).1,
                3 => self.pixel(2 * (k / 4)).2,
                _ => self.pixel(k / 2).0,
            },
            LineKind::ChromaFirst => match k % 4 {
                0 => self.pixel(2 * (k / 4)).1,
                2 => self.pixel(2 * (k / 4)).2,
                _ => self.pixel(k / 2).0,
            },
            LineKind::Primaries => {
                let rgb = self.pixel(k / 3).turned(Colours::Ycbcr, Colours::Rgb);
                match k % 3 {
                    0 => rgb.0,
                    1 => rgb.1,
                    _ => rgb.2,
                }
            }
            LineKind::Chroma => match k % 2 {
                0 => self.pixel(2 * (k / 2)).1,
                _ => self.pixel(2 * (k / 2)).2,
            },
            LineKind::BlueChroma => self.pixel(2 * k).1,
            LineKind::RedChroma => self.pixel(2 * k).2,
        }
    }
}
