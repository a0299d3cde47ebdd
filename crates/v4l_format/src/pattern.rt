/// A picture that a camera's input shows.
#[derive(Clone, Copy, Debug, PartialEq, Eq)]
pub enum Pattern {
    /// Eight upright bars of colour.
    Bars,
    /// A ramp of greys from the top left on, that moves with each frame.
    Ramp,
    /// A board of white and black squares, that change with each frame.
    Checker,
    /// One grey, by the frame's number.
    Count,
}
