ghost use Rattle.std.specs.Prelude.{◌≡◌, ◌<◌, ◌++◌, ◌↔◌, length, drop, OnOk, OnErr, IfOk, IsErr};
ghost use Rattle.v4l_layout.specs.Layout.{IsLaid, ReadsAs};
ghost use Rattle.v4l_layout.specs.Records.{event_size, event_fields, event_bytes};

use crate::read::array;
use crate::{Field, Short, Value, write_fields};
use vm_num::{le32, le64};

/// The size of a `EventRec`, in bytes.
pub const EVENT_SIZE: usize = 136;

/// The record of an event.
///
/// Source: Linux V4L2, `struct v4l2_event`.
#[derive(Clone, Copy, Debug, PartialEq, Eq)]
pub struct EventRec {
    /// The type of the event.
    pub kind: u32,
    /// What the event tells, by its type.
    pub u: [u8; 64],
    /// How many events still wait.
    pub pending: u32,
    /// The event's number.
    pub sequence: u32,
    /// Its timestamp: whole seconds.
    pub seconds: u64,
    /// Its timestamp: nanoseconds past them.
    pub nanos: u64,
    /// What the event is about, by its type.
    pub id: u32,
}

impl EventRec {
    #[tactic(auto, unfolding(crate::specs::Records::event_fields))]
    fn fields(self) -> [Field; 7]
        ensures value { result ≡ event_fields self }
        ensures laid { IsLaid event_size 0 result }
    {
        [
            Field::new(0, Value::Le32(self.kind)),
            Field::new(8, Value::Bytes64(self.u)),
            Field::new(72, Value::Le32(self.pending)),
            Field::new(76, Value::Le32(self.sequence)),
            Field::new(80, Value::Le64(self.seconds)),
            Field::new(88, Value::Le64(self.nanos)),
            Field::new(96, Value::Le32(self.id)),
        ]
    }
}

/// Writes the record to the front of `out`: its fields, and zero in all its other bytes. What
/// follows stays.
///
/// `Short` comes where `out` is shorter than the record, and nothing is changed then.
pub fn write_event(r: &EventRec, out: &mut [u8]) -> Result<(), Short>
    ensures short { IsErr result ↔ (length out.old < event_size) }
    ensures ok { OnOk result (out.new ≡ event_bytes r.now ++ drop event_size out.old) }
    ensures reads_back { OnOk result (ReadsAs out.new (event_fields r.now)) }
    ensures err { OnErr result (out.new ≡ out.old) }
{
    write_fields(EVENT_SIZE, &r.fields(), out)
}

/// Reads the record at the front of `b`, whatever its bytes between the fields are.
///
/// `Short` comes where `b` is shorter than the record.
#[tactic(auto, unfolding(crate::specs::Records::event_fields))]
pub fn read_event(b: &[u8]) -> Result<EventRec, Short>
    ensures short { IsErr result ↔ (length b.now < event_size) }
    ensures ok { IfOk result (λ r. ReadsAs b.now (event_fields r)) }
{
    if b.len() < EVENT_SIZE {
        return Err(Short);
    }
    Ok(EventRec {
        kind: le32(b, 0),
        u: array(b, 8),
        pending: le32(b, 72),
        sequence: le32(b, 76),
        seconds: le64(b, 80),
        nanos: le64(b, 88),
        id: le32(b, 96),
    })
}
