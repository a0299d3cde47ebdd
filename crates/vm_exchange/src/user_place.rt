/// User memory that a line of a script made, by what tells the entries of its bytes.
///
/// Source: own.
#[derive(Clone, Copy, Debug, PartialEq, Eq)]
pub struct UserPlace {
    /// The number of the line.
    pub line: u32,
    /// How many bytes it has.
    pub length: u32,
    /// The place of its first byte in a page.
    pub off: u32,
}
