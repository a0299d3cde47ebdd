ghost use Rattle.std.specs.Prelude.{◌≡◌, ◌≤◌, ◌+◌, ◌++◌, length, take, drop, IfOk, IfErr, IsErr, ◌<◌, ◌↔◌};
ghost use Rattle.vm_wire.specs.Wire.{response_bytes, response_len, response_of};
ghost use Rattle.vm_wire.specs.declared.response.Response.TheVariants.{Answered};

use crate::command::put_head;
use crate::{Command, Payload};
use v4l_layout::Short;
use vm_num::{le32, le64, put32, put64};

/// What the device answers to a command: a status, a pad, and with status 0 the answer's fields.
/// Numbers and pads have four bytes, an address and its length eight, little-endian.
///
/// Source: own, after the sessions of the VIRTIO 1.4 draft's media device.
#[derive(Clone, Copy, Debug, PartialEq, Eq)]
pub enum Response {
    /// The command is refused: the status is this errno. 8 bytes.
    Refused(u32),
    /// The session of this id is open. 16 bytes, the last four a pad.
    Opened { session: u32 },
    /// The session is closed. 8 bytes.
    Closed,
    /// The call is made, and this is its payload. 8 bytes and the payload.
    Answered(Payload),
    /// The buffer is mapped at this address, with so many bytes. 24 bytes.
    Mapped { addr: u64, length: u64 },
    /// The mapping is taken away. 8 bytes.
    Unmapped,
}

/// Writes a reply at the front of `out`, which has room for it, and answers how many bytes it took.
/// What stands behind stays.
pub fn encode_response(r: &Response, out: &mut [u8]) -> usize
    requires { length (response_bytes r.now) ≤ length out.old }
    ensures bytes { out.new ≡ response_bytes r.now ++ drop (length (response_bytes r.now)) out.old }
    ensures count { result ≡ length (response_bytes r.now) }
{
    match *r {
        Response::Refused(errno) => {
            put_head(out, errno);
            8
        }
        Response::Opened { session } => {
            put_head(out, 0);
            put32(out, 8, session);
            put32(out, 12, 0);
            16
        }
        Response::Answered(payload) => {
            let bytes = payload.as_bytes();
            put_head(out, 0);
            out[8..8 + bytes.len()].copy_from_slice(bytes);
            8 + bytes.len()
        }
        Response::Mapped { addr, length } => {
            put_head(out, 0);
            put64(out, 8, addr);
            put64(out, 16, length);
            24
        }
        Response::Closed | Response::Unmapped => {
            put_head(out, 0);
            8
        }
    }
}

/// Reads the reply to a command. The content of pads is ignored, and so are bytes behind the reply.
///
/// # Errors
/// `Short` exactly where there are fewer bytes than the reply has.
pub fn decode_response(c: &Command, b: &[u8]) -> Result<Response, Short>
    ensures short { IsErr result ↔ (length b.now < response_len c.now b.now) }
    ensures ok { IfOk result (λ r. r ≡ response_of c.now b.now) }
{
    if b.len() < 8 {
        return Err(Short);
    }
    let status = le32(b, 0);
    if status != 0 {
        return Ok(Response::Refused(status));
    }
    match *c {
        Command::OpenSession if b.len() < 16 => Err(Short),
        Command::OpenSession => Ok(Response::Opened {
            session: le32(b, 8),
        }),
        Command::CloseSession { .. } => Ok(Response::Closed),
        Command::Ioctl { payload, .. } => answered(payload.as_bytes().len(), b),
        Command::Map { .. } if b.len() < 24 => Err(Short),
        Command::Map { .. } => Ok(Response::Mapped {
            addr: le64(b, 8),
            length: le64(b, 16),
        }),
        Command::Unmap { .. } => Ok(Response::Unmapped),
    }
}

/// Reads the reply with status 0 to a call whose payload has so many bytes.
fn answered(size: usize, b: &[u8]) -> Result<Response, Short>
    requires { size ≤ 208 }
    ensures short { IsErr result ↔ (length b.now < 8 + size) }
    ensures ok { IfOk result (λ r. r ≡ Answered (take size (drop 8 b.now))) }
{
    if b.len() < 8 + size {
        return Err(Short);
    }
    Ok(Response::Answered(Payload::new(&b[8..8 + size])))
}
