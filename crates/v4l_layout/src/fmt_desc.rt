ghost use Rattle.std.specs.Prelude.{◌≡◌, ◌<◌, ◌++◌, ◌↔◌, length, drop, OnOk, OnErr, IfOk, IsErr};
ghost use Rattle.v4l_layout.specs.Layout.{IsLaid, ReadsAs};
ghost use Rattle.v4l_layout.specs.Records.{fmtdesc_size, fmtdesc_fields, fmtdesc_bytes};

use crate::read::array;
use crate::{Field, Short, Value, write_fields};
use vm_num::le32;

/// The size of a `FmtDesc`, in bytes.
pub const FMTDESC_SIZE: usize = 64;

/// The record of one of the formats that a queue offers.
///
/// Source: Linux V4L2, `struct v4l2_fmtdesc`.
#[derive(Clone, Copy, Debug, PartialEq, Eq)]
pub struct FmtDesc {
    /// The format's place among those that the queue offers, from 0.
    pub index: u32,
    /// The buffer type of the queue.
    pub kind: u32,
    /// Properties of the format, none of which is used.
    pub flags: u32,
    /// The format's name, with zeros behind it.
    pub description: [u8; 32],
    /// The format's code.
    pub pixelformat: u32,
}

impl FmtDesc {
    #[tactic(auto, unfolding(crate::specs::Records::fmtdesc_fields))]
    fn fields(self) -> [Field; 5]
        ensures value { result ≡ fmtdesc_fields self }
        ensures laid { IsLaid fmtdesc_size 0 result }
    {
        [
            Field::new(0, Value::Le32(self.index)),
            Field::new(4, Value::Le32(self.kind)),
            Field::new(8, Value::Le32(self.flags)),
            Field::new(12, Value::Bytes32(self.description)),
            Field::new(44, Value::Le32(self.pixelformat)),
        ]
    }
}

/// Writes the record to the front of `out`: its fields, and zero in all its other bytes. What
/// follows stays.
///
/// `Short` comes where `out` is shorter than the record, and nothing is changed then.
pub fn write_fmtdesc(r: &FmtDesc, out: &mut [u8]) -> Result<(), Short>
    ensures short { IsErr result ↔ (length out.old < fmtdesc_size) }
    ensures ok { OnOk result (out.new ≡ fmtdesc_bytes r.now ++ drop fmtdesc_size out.old) }
    ensures reads_back { OnOk result (ReadsAs out.new (fmtdesc_fields r.now)) }
    ensures err { OnErr result (out.new ≡ out.old) }
{
    write_fields(FMTDESC_SIZE, &r.fields(), out)
}

/// Reads the record at the front of `b`, whatever its bytes between the fields are.
///
/// `Short` comes where `b` is shorter than the record.
#[tactic(auto, unfolding(crate::specs::Records::fmtdesc_fields))]
pub fn read_fmtdesc(b: &[u8]) -> Result<FmtDesc, Short>
    ensures short { IsErr result ↔ (length b.now < fmtdesc_size) }
    ensures ok { IfOk result (λ r. ReadsAs b.now (fmtdesc_fields r)) }
{
    if b.len() < FMTDESC_SIZE {
        return Err(Short);
    }
    Ok(FmtDesc {
        index: le32(b, 0),
        kind: le32(b, 4),
        flags: le32(b, 8),
        description: array(b, 12),
        pixelformat: le32(b, 44),
    })
}
