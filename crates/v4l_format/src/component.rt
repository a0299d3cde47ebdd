/// One of the numbers that make a pixel's colour: its brightness and its two colour differences,
/// or its red, green and blue.
#[derive(Clone, Copy, Debug, PartialEq, Eq)]
pub enum Component {
    Y,
    Cb,
    Cr,
    R,
    G,
    B,
}
