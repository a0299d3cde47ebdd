ghost use Rattle.std.specs.Prelude.{◌≡◌};

/// What a field of a record holds.
#[derive(Clone, Copy, Debug, PartialEq, Eq)]
pub enum Value {
    /// A number in one byte.
    Byte(u8),
    /// A number in four bytes, the lowest first.
    Le32(u32),
    /// A number in eight bytes, the lowest first.
    Le64(u64),
    /// Sixteen bytes as they are.
    Bytes16([u8; 16]),
    /// Thirty-two bytes as they are.
    Bytes32([u8; 32]),
    /// Sixty-four bytes as they are.
    Bytes64([u8; 64]),
}

/// A field of a record: where it stands, in bytes from the record's start, and what it holds.
#[derive(Clone, Copy, Debug, PartialEq, Eq)]
pub struct Field {
    pub at: usize,
    pub value: Value,
}

impl Field {
    /// A value at an offset.
    pub fn new(at: usize, value: Value) -> Field
        ensures { result ≡ record { at = at; value = value } }
    {
        Field { at, value }
    }
}
