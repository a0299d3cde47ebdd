ghost use Rattle.std.specs.Prelude.{◌≡◌, ◌<◌, ◌++◌, ◌↔◌, length, drop, OnOk, OnErr, IfOk, IsErr};
ghost use Rattle.v4l_layout.specs.Layout.{IsLaid, ReadsAs};
ghost use Rattle.v4l_layout.specs.Records.{subscription_size, subscription_fields, subscription_bytes};

use crate::{Field, Short, Value, write_fields};
use vm_num::le32;

/// The size of a `Subscription`, in bytes.
pub const SUBSCRIPTION_SIZE: usize = 32;

/// The record of which events are wanted.
///
/// Source: Linux V4L2, `struct v4l2_event_subscription`.
#[derive(Clone, Copy, Debug, PartialEq, Eq)]
pub struct Subscription {
    /// The type of the events.
    pub kind: u32,
    /// What they are about, by their type.
    pub id: u32,
    /// How they are sent, which isn't used.
    pub flags: u32,
}

impl Subscription {
    #[tactic(auto, unfolding(crate::specs::Records::subscription_fields))]
    fn fields(self) -> [Field; 3]
        ensures value { result ≡ subscription_fields self }
        ensures laid { IsLaid subscription_size 0 result }
    {
        [
            Field::new(0, Value::Le32(self.kind)),
            Field::new(4, Value::Le32(self.id)),
            Field::new(8, Value::Le32(self.flags)),
        ]
    }
}

/// Writes the record to the front of `out`: its fields, and zero in all its other bytes. What
/// follows stays.
///
/// `Short` comes where `out` is shorter than the record, and nothing is changed then.
pub fn write_subscription(r: &Subscription, out: &mut [u8]) -> Result<(), Short>
    ensures short { IsErr result ↔ (length out.old < subscription_size) }
    ensures ok { OnOk result (out.new ≡ subscription_bytes r.now ++
        drop subscription_size out.old) }
    ensures reads_back { OnOk result (ReadsAs out.new (subscription_fields r.now)) }
    ensures err { OnErr result (out.new ≡ out.old) }
{
    write_fields(SUBSCRIPTION_SIZE, &r.fields(), out)
}

/// Reads the record at the front of `b`, whatever its bytes between the fields are.
///
/// `Short` comes where `b` is shorter than the record.
#[tactic(auto, unfolding(crate::specs::Records::subscription_fields))]
pub fn read_subscription(b: &[u8]) -> Result<Subscription, Short>
    ensures short { IsErr result ↔ (length b.now < subscription_size) }
    ensures ok { IfOk result (λ r. ReadsAs b.now (subscription_fields r)) }
{
    if b.len() < SUBSCRIPTION_SIZE {
        return Err(Short);
    }
    Ok(Subscription {
        kind: le32(b, 0),
        id: le32(b, 4),
        flags: le32(b, 8),
    })
}
