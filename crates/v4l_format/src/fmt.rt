use v4l_const::FourCc;

/// A picture's format: its code, and its size in pixels.
#[derive(Clone, Copy, Debug, PartialEq, Eq)]
pub struct Fmt {
    pub code: FourCc,
    pub width: u32,
    pub height: u32,
}
