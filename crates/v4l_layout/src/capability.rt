ghost use Rattle.std.specs.Prelude.{◌≡◌, ◌<◌, ◌++◌, ◌↔◌, length, drop, OnOk, OnErr, IfOk, IsErr};
ghost use Rattle.v4l_layout.specs.Layout.{IsLaid, ReadsAs};
ghost use Rattle.v4l_layout.specs.Records.{capability_size, capability_fields, capability_bytes};

use crate::read::array;
use crate::{Field, Short, Value, write_fields};
use vm_num::le32;

/// The size of a `Capability`, in bytes.
pub const CAPABILITY_SIZE: usize = 104;

/// The record of the device and what it can do.
///
/// Source: Linux V4L2, `struct v4l2_capability`.
#[derive(Clone, Copy, Debug, PartialEq, Eq)]
pub struct Capability {
    /// The driver's name, with zeros behind it.
    pub driver: [u8; 16],
    /// The device's name, with zeros behind it.
    pub card: [u8; 32],
    /// Where the device sits, with zeros behind it.
    pub bus_info: [u8; 32],
    /// The driver's version, a byte each for its last three parts.
    pub version: u32,
    /// What the device and its siblings can do, a set of `Caps`.
    pub capabilities: u32,
    /// What the device can do, a set of `Caps`.
    pub device_caps: u32,
}

impl Capability {
    #[tactic(auto, unfolding(crate::specs::Records::capability_fields))]
    fn fields(self) -> [Field; 6]
        ensures value { result ≡ capability_fields self }
        ensures laid { IsLaid capability_size 0 result }
    {
        [
            Field::new(0, Value::Bytes16(self.driver)),
            Field::new(16, Value::Bytes32(self.card)),
            Field::new(48, Value::Bytes32(self.bus_info)),
            Field::new(80, Value::Le32(self.version)),
            Field::new(84, Value::Le32(self.capabilities)),
            Field::new(88, Value::Le32(self.device_caps)),
        ]
    }
}

/// Writes the record to the front of `out`: its fields, and zero in all its other bytes. What
/// follows stays.
///
/// `Short` comes where `out` is shorter than the record, and nothing is changed then.
pub fn write_capability(r: &Capability, out: &mut [u8]) -> Result<(), Short>
    ensures short { IsErr result ↔ (length out.old < capability_size) }
    ensures ok { OnOk result (out.new ≡ capability_bytes r.now ++ drop capability_size out.old) }
    ensures reads_back { OnOk result (ReadsAs out.new (capability_fields r.now)) }
    ensures err { OnErr result (out.new ≡ out.old) }
{
    write_fields(CAPABILITY_SIZE, &r.fields(), out)
}

/// Reads the record at the front of `b`, whatever its bytes between the fields are.
///
/// `Short` comes where `b` is shorter than the record.
#[tactic(auto, unfolding(crate::specs::Records::capability_fields))]
pub fn read_capability(b: &[u8]) -> Result<Capability, Short>
    ensures short { IsErr result ↔ (length b.now < capability_size) }
    ensures ok { IfOk result (λ r. ReadsAs b.now (capability_fields r)) }
{
    if b.len() < CAPABILITY_SIZE {
        return Err(Short);
    }
    Ok(Capability {
        driver: array(b, 0),
        card: array(b, 16),
        bus_info: array(b, 48),
        version: le32(b, 80),
        capabilities: le32(b, 84),
        device_caps: le32(b, 88),
    })
}
