ghost use Rattle.std.specs.Prelude.{◌≡◌, ◌<◌, ◌++◌, ◌↔◌, length, drop, OnOk, OnErr, IfOk, IsErr};
ghost use Rattle.v4l_layout.specs.Layout.{IsLaid, ReadsAs};
ghost use Rattle.v4l_layout.specs.Records.{format_size, format_fields, format_bytes};

use crate::{Field, Short, Value, write_fields};
use vm_num::le32;

/// The size of a `FormatRec`, in bytes.
pub const FORMAT_SIZE: usize = 208;

/// The record of a queue's format, with its picture's.
///
/// Source: Linux V4L2, `struct v4l2_format` with `struct v4l2_pix_format`.
#[derive(Clone, Copy, Debug, PartialEq, Eq)]
pub struct FormatRec {
    /// The buffer type of the queue.
    pub kind: u32,
    /// The picture's width, in pixels.
    pub width: u32,
    /// The picture's height, in pixels.
    pub height: u32,
    /// The format's code.
    pub pixelformat: u32,
    /// How a picture is made of fields.
    pub field: u32,
    /// The bytes of a row of pixels.
    pub bytesperline: u32,
    /// The bytes of a picture.
    pub sizeimage: u32,
}

impl FormatRec {
    #[tactic(auto, unfolding(crate::specs::Records::format_fields))]
    fn fields(self) -> [Field; 7]
        ensures value { result ≡ format_fields self }
        ensures laid { IsLaid format_size 0 result }
    {
        [
            Field::new(0, Value::Le32(self.kind)),
            Field::new(8, Value::Le32(self.width)),
            Field::new(12, Value::Le32(self.height)),
            Field::new(16, Value::Le32(self.pixelformat)),
            Field::new(20, Value::Le32(self.field)),
            Field::new(24, Value::Le32(self.bytesperline)),
            Field::new(28, Value::Le32(self.sizeimage)),
        ]
    }
}

/// Writes the record to the front of `out`: its fields, and zero in all its other bytes. What
/// follows stays.
///
/// `Short` comes where `out` is shorter than the record, and nothing is changed then.
pub fn write_format(r: &FormatRec, out: &mut [u8]) -> Result<(), Short>
    ensures short { IsErr result ↔ (length out.old < format_size) }
    ensures ok { OnOk result (out.new ≡ format_bytes r.now ++ drop format_size out.old) }
    ensures reads_back { OnOk result (ReadsAs out.new (format_fields r.now)) }
    ensures err { OnErr result (out.new ≡ out.old) }
{
    write_fields(FORMAT_SIZE, &r.fields(), out)
}

/// Reads the record at the front of `b`, whatever its bytes between the fields are.
///
/// `Short` comes where `b` is shorter than the record.
#[tactic(auto, unfolding(crate::specs::Records::format_fields))]
pub fn read_format(b: &[u8]) -> Result<FormatRec, Short>
    ensures short { IsErr result ↔ (length b.now < format_size) }
    ensures ok { IfOk result (λ r. ReadsAs b.now (format_fields r)) }
{
    if b.len() < FORMAT_SIZE {
        return Err(Short);
    }
    Ok(FormatRec {
        kind: le32(b, 0),
        width: le32(b, 8),
        height: le32(b, 12),
        pixelformat: le32(b, 16),
        field: le32(b, 20),
        bytesperline: le32(b, 24),
        sizeimage: le32(b, 28),
    })
}
