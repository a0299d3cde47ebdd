ghost use Rattle.std.specs.Prelude.{◌≡◌, ◌<◌, ◌++◌, ◌↔◌, length, drop, OnOk, OnErr, IfOk, IsErr};
ghost use Rattle.v4l_layout.specs.Layout.{IsLaid, ReadsAs};
ghost use Rattle.v4l_layout.specs.Records.{input_size, input_fields, input_bytes};

use crate::read::array;
use crate::{Field, Short, Value, write_fields};
use vm_num::le32;

/// The size of a `InputRec`, in bytes.
pub const INPUT_SIZE: usize = 80;

/// The record of one of the device's inputs.
///
/// Source: Linux V4L2, `struct v4l2_input`.
#[derive(Clone, Copy, Debug, PartialEq, Eq)]
pub struct InputRec {
    /// The input's place among the device's, from 0.
    pub index: u32,
    /// The input's name, with zeros behind it.
    pub name: [u8; 32],
    /// The type of the input.
    pub kind: u32,
}

impl InputRec {
    #[tactic(auto, unfolding(crate::specs::Records::input_fields))]
    fn fields(self) -> [Field; 3]
        ensures value { result ≡ input_fields self }
        ensures laid { IsLaid input_size 0 result }
    {
        [
            Field::new(0, Value::Le32(self.index)),
            Field::new(4, Value::Bytes32(self.name)),
            Field::new(36, Value::Le32(self.kind)),
        ]
    }
}

/// Writes the record to the front of `out`: its fields, and zero in all its other bytes. What
/// follows stays.
///
/// `Short` comes where `out` is shorter than the record, and nothing is changed then.
pub fn write_input(r: &InputRec, out: &mut [u8]) -> Result<(), Short>
    ensures short { IsErr result ↔ (length out.old < input_size) }
    ensures ok { OnOk result (out.new ≡ input_bytes r.now ++ drop input_size out.old) }
    ensures reads_back { OnOk result (ReadsAs out.new (input_fields r.now)) }
    ensures err { OnErr result (out.new ≡ out.old) }
{
    write_fields(INPUT_SIZE, &r.fields(), out)
}

/// Reads the record at the front of `b`, whatever its bytes between the fields are.
///
/// `Short` comes where `b` is shorter than the record.
#[tactic(auto, unfolding(crate::specs::Records::input_fields))]
pub fn read_input(b: &[u8]) -> Result<InputRec, Short>
    ensures short { IsErr result ↔ (length b.now < input_size) }
    ensures ok { IfOk result (λ r. ReadsAs b.now (input_fields r)) }
{
    if b.len() < INPUT_SIZE {
        return Err(Short);
    }
    Ok(InputRec {
        index: le32(b, 0),
        name: array(b, 4),
        kind: le32(b, 36),
    })
}
