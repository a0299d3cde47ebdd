//! Calls on a handle, by the bytes of what crosses for them and of the device's answers, which are
//! worked by hand from the tables of the wire and of the records.

ghost use Rattle.std.specs.Prelude.{◌≤◌, ◌<◌, length};

use std::alloc::Global;
use std::test::Fail;
use vm_local::{Call, Name, Reply};

mod desk;
mod mappings;
mod user_memory;

const OPEN: Call = Call::OpenHandle { nonblock: false };

// The number of an IOCTL, a pad, and the session 7.
const IOCTL_OF_7: &[u8] = &[3, 0, 0, 0, 0, 0, 0, 0, 7, 0, 0, 0];

// The status and the pad of the answer to a call that is done.
const STATUS_0: &[u8] = &[0; 8];

/// A call with the bytes that cross for it and those of the device's answer in parts, and the reply
/// that it has.
#[derive(Clone, Copy)]
struct Row<'a> {
    call: Call,
    crosses: &'a [&'a [u8]],
    answer: &'a [&'a [u8]],
    reply: Reply,
}

// An open by which the session 7 is opened.
fn opening() -> Row<'static> {
    Row {
        call: OPEN,
        crosses: &[&[1, 0, 0, 0, 0, 0, 0, 0]],
        answer: &[STATUS_0, &[7, 0, 0, 0, 0, 0, 0, 0]],
        reply: Reply::Done,
    }
}

// Bytes in parts as they stand behind each other.
fn joined(alloc: Global, parts: &[&[u8]]) -> Result<Vec<u8>, Fail> {
    let mut bytes = Vec::new(alloc);
    for part in parts {
        bytes.extend_from_slice(part)?;
    }
    Ok(bytes)
}

fn name(bytes: &[u8]) -> Name
    requires some { 0 < length bytes.now }
    requires few { length bytes.now ≤ 8 }
{
    Name::new(bytes).unwrap()
}
