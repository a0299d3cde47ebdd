ghost use Rattle.std.specs.Prelude.{◌≡◌, ◌≤◌, length};
ghost use Rattle.vm_wire.specs.Wire.{response_bytes};

use super::{BEHIND, front};
use crate::{Command, Payload, Response, Short, WIRE_ROOM, decode_response, encode_response};
use std::test::Fail;
use v4l_const::IoctlCode;

const OPENED_7: [u8; 16] = [0, 0, 0, 0, 0, 0, 0, 0, 7, 0, 0, 0, 0, 0, 0, 0];

const DONE: [u8; 8] = [0; 8];

const REFUSED_12: [u8; 8] = [12, 0, 0, 0, 0, 0, 0, 0];

const REFUSED_256: [u8; 8] = [0, 1, 0, 0, 0, 0, 0, 0];

const ANSWERED: [u8; 12] = [0, 0, 0, 0, 0, 0, 0, 0, 3, 0, 0, 0];

const MAPPED: [u8; 24] = [
    0, 0, 0, 0, 0, 0, 0, 0, 8, 7, 6, 5, 4, 3, 2, 1, 0, 0x0c, 0, 0, 0, 0, 0, 0,
];

const OPEN: Command = Command::OpenSession;

const CLOSE: Command = Command::CloseSession { session: 7 };

const MAP: Command = Command::Map {
    session: 7,
    writable: true,
    offset: 0,
};

const UNMAP: Command = Command::Unmap { addr: 4096 };

fn get_input() -> Command {
    Command::Ioctl {
        session: 7,
        code: IoctlCode::GInput,
        payload: Payload::zeros(4),
    }
}

// A command, its answer, and the answer's bytes.
fn replies() -> [(Command, Response, &'static [u8]); 11] {
    [
        (OPEN, Response::Opened { session: 7 }, &OPENED_7),
        (CLOSE, Response::Closed, &DONE),
        (
            get_input(),
            Response::Answered(Payload::new(&[3, 0, 0, 0])),
            &ANSWERED,
        ),
        (
            MAP,
            Response::Mapped {
                addr: 0x0102_0304_0506_0708,
                length: 3072,
            },
            &MAPPED,
        ),
        (UNMAP, Response::Unmapped, &DONE),
        (OPEN, Response::Refused(12), &REFUSED_12),
        (CLOSE, Response::Refused(12), &REFUSED_12),
        (get_input(), Response::Refused(12), &REFUSED_12),
        (MAP, Response::Refused(12), &REFUSED_12),
        (UNMAP, Response::Refused(12), &REFUSED_12),
        (UNMAP, Response::Refused(256), &REFUSED_256),
    ]
}

// How many bytes are written of a reply.
fn size_of(response: &Response) -> usize
    ensures size { result ≡ length (response_bytes response.now) }
    ensures at_most_216 { result ≤ 216 }
{
    match response {
        Response::Opened { .. } => 16,
        Response::Answered(payload) => 8 + payload.as_bytes().len(),
        Response::Mapped { .. } => 24,
        Response::Refused(_) | Response::Closed | Response::Unmapped => 8,
    }
}

#[test]
fn replies_are_written_and_read(rt: HostRuntime) -> Result<(), Fail> {
    for (command, response, bytes) in replies() {
        let mut out = [BEHIND; WIRE_ROOM];
        assert_eq!(rt; size_of(&response), bytes.len());
        assert_eq!(rt; encode_response(&response, &mut out), bytes.len());
        assert_eq!(rt; front(&out, bytes.len()), bytes);
        assert_eq!(rt; out.get(bytes.len()), Some(&BEHIND));
        assert_eq!(rt; decode_response(&command, bytes), Ok(response));
        // What stands behind is ignored, and so are the pads.
        assert_eq!(rt; decode_response(&command, &out), Ok(response));
        out[4..8].fill(9);
        assert_eq!(rt; decode_response(&command, &out), Ok(response));
        // With a byte less there are too few.
        for count in [0, 3, 4, 7, bytes.len() - 1] {
            assert_eq!(rt; decode_response(&command, front(bytes, count)), Err(Short));
        }
    }
    Ok(())
}
