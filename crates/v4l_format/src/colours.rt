/// The components that a pixel is made of.
#[derive(Clone, Copy, Debug, PartialEq, Eq)]
pub enum Colours {
    /// Y, Cb and Cr.
    Ycbcr,
    /// Red, green and blue.
    Rgb,
}
