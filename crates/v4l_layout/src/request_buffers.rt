ghost use Rattle.std.specs.Prelude.{◌≡◌, ◌<◌, ◌++◌, ◌↔◌, length, drop, OnOk, OnErr, IfOk, IsErr};
ghost use Rattle.v4l_layout.specs.Layout.{IsLaid, ReadsAs};
ghost use Rattle.v4l_layout.specs.Records.{request_size, request_fields, request_bytes};

use crate::{Field, Short, Value, write_fields};
use vm_num::le32;

/// The size of a `RequestBuffers`, in bytes.
pub const REQUEST_SIZE: usize = 20;

/// The record of how many buffers a queue shall have.
///
/// Source: Linux V4L2, `struct v4l2_requestbuffers`.
#[derive(Clone, Copy, Debug, PartialEq, Eq)]
pub struct RequestBuffers {
    /// How many buffers are wanted, or were given.
    pub count: u32,
    /// The buffer type of the queue.
    pub kind: u32,
    /// The memory kind of the buffers.
    pub memory: u32,
    /// What the queue can do, a sum of `BUF_CAP` numbers.
    pub capabilities: u32,
}

impl RequestBuffers {
    #[tactic(auto, unfolding(crate::specs::Records::request_fields))]
    fn fields(self) -> [Field; 4]
        ensures value { result ≡ request_fields self }
        ensures laid { IsLaid request_size 0 result }
    {
        [
            Field::new(0, Value::Le32(self.count)),
            Field::new(4, Value::Le32(self.kind)),
            Field::new(8, Value::Le32(self.memory)),
            Field::new(12, Value::Le32(self.capabilities)),
        ]
    }
}

/// Writes the record to the front of `out`: its fields, and zero in all its other bytes. What
/// follows stays.
///
/// `Short` comes where `out` is shorter than the record, and nothing is changed then.
pub fn write_request(r: &RequestBuffers, out: &mut [u8]) -> Result<(), Short>
    ensures short { IsErr result ↔ (length out.old < request_size) }
    ensures ok { OnOk result (out.new ≡ request_bytes r.now ++ drop request_size out.old) }
    ensures reads_back { OnOk result (ReadsAs out.new (request_fields r.now)) }
    ensures err { OnErr result (out.new ≡ out.old) }
{
    write_fields(REQUEST_SIZE, &r.fields(), out)
}

/// Reads the record at the front of `b`, whatever its bytes between the fields are.
///
/// `Short` comes where `b` is shorter than the record.
#[tactic(auto, unfolding(crate::specs::Records::request_fields))]
pub fn read_request(b: &[u8]) -> Result<RequestBuffers, Short>
    ensures short { IsErr result ↔ (length b.now < request_size) }
    ensures ok { IfOk result (λ r. ReadsAs b.now (request_fields r)) }
{
    if b.len() < REQUEST_SIZE {
        return Err(Short);
    }
    Ok(RequestBuffers {
        count: le32(b, 0),
        kind: le32(b, 4),
        memory: le32(b, 8),
        capabilities: le32(b, 12),
    })
}
