// Payloads that hold a record or a number.

ghost use Rattle.std.specs.Prelude.{◌≡◌, length};
ghost use Rattle.v4l_layout.specs.Records.{buffer_bytes, buffer_size, capability_bytes, capability_size, fmtdesc_bytes, fmtdesc_size, format_bytes, format_size, input_bytes, input_size, request_bytes, request_size, subscription_bytes, subscription_size};
ghost use Rattle.vm_wire.specs.Wire.{le};

use crate::Payload;
use v4l_layout::{
    BUFFER_SIZE, BufferRec, CAPABILITY_SIZE, Capability, FMTDESC_SIZE, FORMAT_SIZE, FmtDesc,
    FormatRec, INPUT_SIZE, InputRec, REQUEST_SIZE, RequestBuffers, SUBSCRIPTION_SIZE, Subscription,
    write_buffer, write_capability, write_fmtdesc, write_format, write_input, write_request,
    write_subscription,
};

/// The payload that is this record.
pub fn capability_payload(r: &Capability) -> Payload
    ensures bytes { result ≡ capability_bytes r.now }
    ensures size { length result ≡ capability_size }
{
    let mut bytes = [0; CAPABILITY_SIZE];
    let _ = write_capability(r, &mut bytes);
    Payload::new(&bytes)
}

/// The payload that is this record.
pub fn fmtdesc_payload(r: &FmtDesc) -> Payload
    ensures bytes { result ≡ fmtdesc_bytes r.now }
    ensures size { length result ≡ fmtdesc_size }
{
    let mut bytes = [0; FMTDESC_SIZE];
    let _ = write_fmtdesc(r, &mut bytes);
    Payload::new(&bytes)
}

/// The payload that is this record.
pub fn format_payload(r: &FormatRec) -> Payload
    ensures bytes { result ≡ format_bytes r.now }
    ensures size { length result ≡ format_size }
{
    let mut bytes = [0; FORMAT_SIZE];
    let _ = write_format(r, &mut bytes);
    Payload::new(&bytes)
}

/// The payload that is this record.
pub fn input_payload(r: &InputRec) -> Payload
    ensures bytes { result ≡ input_bytes r.now }
    ensures size { length result ≡ input_size }
{
    let mut bytes = [0; INPUT_SIZE];
    let _ = write_input(r, &mut bytes);
    Payload::new(&bytes)
}

/// The payload that is this record.
pub fn reqbufs_payload(r: &RequestBuffers) -> Payload
    ensures bytes { result ≡ request_bytes r.now }
    ensures size { length result ≡ request_size }
{
    let mut bytes = [0; REQUEST_SIZE];
    let _ = write_request(r, &mut bytes);
    Payload::new(&bytes)
}

/// The payload that is this record.
pub fn buffer_payload(r: &BufferRec) -> Payload
    ensures bytes { result ≡ buffer_bytes r.now }
    ensures size { length result ≡ buffer_size }
{
    let mut bytes = [0; BUFFER_SIZE];
    let _ = write_buffer(r, &mut bytes);
    Payload::new(&bytes)
}

/// The payload that is this record.
pub fn subscription_payload(r: &Subscription) -> Payload
    ensures bytes { result ≡ subscription_bytes r.now }
    ensures size { length result ≡ subscription_size }
{
    let mut bytes = [0; SUBSCRIPTION_SIZE];
    let _ = write_subscription(r, &mut bytes);
    Payload::new(&bytes)
}

/// The payload that is this number, in four bytes.
pub fn number_payload(n: u32) -> Payload
    ensures bytes { result ≡ le n }
    ensures size { length result ≡ 4 }
{
    Payload::new(&n.to_le_bytes())
}
