ghost use Rattle.std.specs.Prelude.{◌≡◌, ◌<◌, ◌++◌, ◌↔◌, length, drop, OnOk, OnErr, IfOk, IsErr};
ghost use Rattle.v4l_layout.specs.Layout.{IsLaid, ReadsAs};
ghost use Rattle.v4l_layout.specs.Records.{buffer_size, buffer_fields, buffer_bytes};

use crate::read::array;
use crate::{Field, Short, Value, write_fields};
use vm_num::{le32, le64};

/// The size of a `BufferRec`, in bytes.
pub const BUFFER_SIZE: usize = 88;

/// The record of a buffer.
///
/// Source: Linux V4L2, `struct v4l2_buffer`.
#[derive(Clone, Copy, Debug, PartialEq, Eq)]
pub struct BufferRec {
    /// The buffer's place in its queue, from 0.
    pub index: u32,
    /// The buffer type of the queue.
    pub kind: u32,
    /// How many of its bytes hold a picture.
    pub bytesused: u32,
    /// What holds of the buffer, a set of `BufFlags`.
    pub flags: u32,
    /// How its picture is made of fields.
    pub field: u32,
    /// Its picture's timestamp: whole seconds.
    pub seconds: u64,
    /// Its picture's timestamp: microseconds past them.
    pub micros: u64,
    /// A timecode, which isn't used.
    pub timecode: [u8; 16],
    /// Its picture's number.
    pub sequence: u32,
    /// The memory kind of the buffer.
    pub memory: u32,
    /// Where its memory is: the offset of its mapping, or the address of the user's.
    pub m: u64,
    /// Its size, in bytes.
    pub length: u32,
    /// Not used.
    pub reserved2: u32,
    /// A request's file, which isn't used.
    pub request_fd: u32,
}

impl BufferRec {
    #[tactic(auto, unfolding(crate::specs::Records::buffer_fields))]
    fn fields(self) -> [Field; 14]
        ensures value { result ≡ buffer_fields self }
        ensures laid { IsLaid buffer_size 0 result }
    {
        [
            Field::new(0, Value::Le32(self.index)),
            Field::new(4, Value::Le32(self.kind)),
            Field::new(8, Value::Le32(self.bytesused)),
            Field::new(12, Value::Le32(self.flags)),
            Field::new(16, Value::Le32(self.field)),
            Field::new(24, Value::Le64(self.seconds)),
            Field::new(32, Value::Le64(self.micros)),
            Field::new(40, Value::Bytes16(self.timecode)),
            Field::new(56, Value::Le32(self.sequence)),
            Field::new(60, Value::Le32(self.memory)),
            Field::new(64, Value::Le64(self.m)),
            Field::new(72, Value::Le32(self.length)),
            Field::new(76, Value::Le32(self.reserved2)),
            Field::new(80, Value::Le32(self.request_fd)),
        ]
    }
}

/// Writes the record to the front of `out`: its fields, and zero in all its other bytes. What
/// follows stays.
///
/// `Short` comes where `out` is shorter than the record, and nothing is changed then.
pub fn write_buffer(r: &BufferRec, out: &mut [u8]) -> Result<(), Short>
    ensures short { IsErr result ↔ (length out.old < buffer_size) }
    ensures ok { OnOk result (out.new ≡ buffer_bytes r.now ++ drop buffer_size out.old) }
    ensures reads_back { OnOk result (ReadsAs out.new (buffer_fields r.now)) }
    ensures err { OnErr result (out.new ≡ out.old) }
{
    write_fields(BUFFER_SIZE, &r.fields(), out)
}

/// Reads the record at the front of `b`, whatever its bytes between the fields are.
///
/// `Short` comes where `b` is shorter than the record.
#[tactic(auto, unfolding(crate::specs::Records::buffer_fields))]
pub fn read_buffer(b: &[u8]) -> Result<BufferRec, Short>
    ensures short { IsErr result ↔ (length b.now < buffer_size) }
    ensures ok { IfOk result (λ r. ReadsAs b.now (buffer_fields r)) }
{
    if b.len() < BUFFER_SIZE {
        return Err(Short);
    }
    Ok(BufferRec {
        index: le32(b, 0),
        kind: le32(b, 4),
        bytesused: le32(b, 8),
        flags: le32(b, 12),
        field: le32(b, 16),
        seconds: le64(b, 24),
        micros: le64(b, 32),
        timecode: array(b, 40),
        sequence: le32(b, 56),
        memory: le32(b, 60),
        m: le64(b, 64),
        length: le32(b, 72),
        reserved2: le32(b, 76),
        request_fd: le32(b, 80),
    })
}
