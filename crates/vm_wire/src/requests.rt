// The words of the record in a call's payload.

ghost use Rattle.std.specs.Prelude.{◌≡◌, length};
ghost use Rattle.v4l_layout.specs.Records.{request_size, buffer_size, subscription_size};
ghost use Rattle.vm_wire.specs.Buffers.{reqbufs_in, buffer_in, subscription_in};

use crate::Payload;
use v4l_layout::{
    BufferRec, RequestBuffers, Subscription, read_buffer, read_request, read_subscription,
};

/// The record of a request for buffers, and of its answer.
pub fn reqbufs_in(payload: &Payload) -> RequestBuffers
    requires { length payload.now ≡ request_size }
    ensures { result ≡ reqbufs_in payload.now }
{
    read_request(payload.as_bytes()).unwrap()
}

/// The record of a buffer that is asked for or queued, and of its answer.
pub fn buffer_in(payload: &Payload) -> BufferRec
    requires { length payload.now ≡ buffer_size }
    ensures { result ≡ buffer_in payload.now }
{
    read_buffer(payload.as_bytes()).unwrap()
}

/// The record of an event that is subscribed to or no more, and of its answer.
pub fn subscription_in(payload: &Payload) -> Subscription
    requires { length payload.now ≡ subscription_size }
    ensures { result ≡ subscription_in payload.now }
{
    read_subscription(payload.as_bytes()).unwrap()
}
