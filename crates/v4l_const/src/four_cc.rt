/// A picture format's code: four characters as a little-endian number.
///
/// Source: the Linux V4L2 interface, `v4l2_fourcc`.
#[derive(Clone, Copy, Debug, PartialEq, Eq)]
pub struct FourCc(pub u32);
