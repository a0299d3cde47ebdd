ghost use Rattle.std.specs.Prelude.{◌≡◌, ◌<◌, ◌++◌, ◌↔◌, length, drop, OnOk, OnErr, IfOk, IsErr};
ghost use Rattle.v4l_layout.specs.Layout.{IsLaid, ReadsAs};
ghost use Rattle.v4l_layout.specs.Records.{plane_size, plane_fields, plane_bytes};

use crate::{Field, Short, Value, write_fields};
use vm_num::{le32, le64};

/// The size of a `PlaneRec`, in bytes.
pub const PLANE_SIZE: usize = 64;

/// The record of one plane of a buffer.
///
/// Source: Linux V4L2, `struct v4l2_plane`.
#[derive(Clone, Copy, Debug, PartialEq, Eq)]
pub struct PlaneRec {
    /// How many of its bytes hold a picture.
    pub bytesused: u32,
    /// Its size, in bytes.
    pub length: u32,
    /// Where its memory is: the offset of its mapping, or the address of the user's.
    pub m: u64,
    /// Where in it the picture begins, in bytes.
    pub data_offset: u32,
}

impl PlaneRec {
    #[tactic(auto, unfolding(crate::specs::Records::plane_fields))]
    fn fields(self) -> [Field; 4]
        ensures value { result ≡ plane_fields self }
        ensures laid { IsLaid plane_size 0 result }
    {
        [
            Field::new(0, Value::Le32(self.bytesused)),
            Field::new(4, Value::Le32(self.length)),
            Field::new(8, Value::Le64(self.m)),
            Field::new(16, Value::Le32(self.data_offset)),
        ]
    }
}

/// Writes the record to the front of `out`: its fields, and zero in all its other bytes. What
/// follows stays.
///
/// `Short` comes where `out` is shorter than the record, and nothing is changed then.
pub fn write_plane(r: &PlaneRec, out: &mut [u8]) -> Result<(), Short>
    ensures short { IsErr result ↔ (length out.old < plane_size) }
    ensures ok { OnOk result (out.new ≡ plane_bytes r.now ++ drop plane_size out.old) }
    ensures reads_back { OnOk result (ReadsAs out.new (plane_fields r.now)) }
    ensures err { OnErr result (out.new ≡ out.old) }
{
    write_fields(PLANE_SIZE, &r.fields(), out)
}

/// Reads the record at the front of `b`, whatever its bytes between the fields are.
///
/// `Short` comes where `b` is shorter than the record.
#[tactic(auto, unfolding(crate::specs::Records::plane_fields))]
pub fn read_plane(b: &[u8]) -> Result<PlaneRec, Short>
    ensures short { IsErr result ↔ (length b.now < plane_size) }
    ensures ok { IfOk result (λ r. ReadsAs b.now (plane_fields r)) }
{
    if b.len() < PLANE_SIZE {
        return Err(Short);
    }
    Ok(PlaneRec {
        bytesused: le32(b, 0),
        length: le32(b, 4),
        m: le64(b, 8),
        data_offset: le32(b, 16),
    })
}
