// Writing the fields of a record.

ghost use Rattle.std.specs.Prelude.{◌≡◌, ◌+◌, ◌<◌, ◌≤◌, ◌++◌, ◌↔◌, length, take, drop, OnOk, OnErr, IsErr};
ghost use Rattle.v4l_layout.specs.Layout.{IsLaid, ReadsAs, bytes_of, layout_bytes, width};

use crate::{Field, Short, Value};
use vm_num::{put32, put64};

impl Field {
    /// Sets the field's bytes, and no other.
    fn put(self, out: &mut [u8])
        requires { self.at + width self.value ≤ length out.old }
        ensures { out.new ≡ take self.at out.old ++
            (bytes_of self.value ++ drop (self.at + width self.value) out.old) }
    {
        match self.value {
            Value::Byte(number) => put_bytes(out, self.at, &[number]),
            Value::Le32(number) => put32(out, self.at, number),
            Value::Le64(number) => put64(out, self.at, number),
            Value::Bytes16(bytes) => put_bytes(out, self.at, &bytes),
            Value::Bytes32(bytes) => put_bytes(out, self.at, &bytes),
            Value::Bytes64(bytes) => put_bytes(out, self.at, &bytes),
        }
    }
}

/// Sets the bytes from `at` on, and no other.
fn put_bytes(out: &mut [u8], at: usize, bytes: &[u8])
    requires { at + length bytes.now ≤ length out.old }
    ensures { out.new ≡ take at out.old ++ (bytes.now ++ drop (at + length bytes.now) out.old) }
{
    out[at..at + bytes.len()].copy_from_slice(bytes);
}

/// Writes a record of `size` bytes to the front of `out`: its fields, and zero in all its other
/// bytes. What follows stays. `Short` comes where `out` is shorter, which then stays as it was.
pub fn write_fields(size: usize, fields: &[Field], out: &mut [u8]) -> Result<(), Short>
    requires { IsLaid size 0 fields.now }
    ensures short { IsErr result ↔ (length out.old < size) }
    ensures ok { OnOk result (out.new ≡ layout_bytes size fields.now ++ drop size out.old) }
    ensures reads_back { OnOk result (ReadsAs out.new fields.now) }
    ensures err { OnErr result (out.new ≡ out.old) }
{
    if out.len() < size {
        return Err(Short);
    }
    out[..size].fill(0);
    for field in fields {
        field.put(out);
    }
    Ok(())
}
