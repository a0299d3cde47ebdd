ghost use Rattle.std.specs.Prelude.{◌≡◌, ◌≤◌, length};
ghost use Rattle.vm_wire.specs.Wire.{command_bytes};

use super::{BEHIND, front};
use crate::{CmdFault, Command, Payload, WIRE_ROOM, decode_command, encode_command};
use std::test::Fail;
use v4l_const::IoctlCode;

const OPEN: [u8; 8] = [1, 0, 0, 0, 0, 0, 0, 0];

const CLOSE_5: [u8; 16] = [2, 0, 0, 0, 0, 0, 0, 0, 5, 0, 0, 0, 0, 0, 0, 0];

// STREAMON of session 5 with the capture queue's type.
const STREAM_ON: [u8; 20] = [3, 0, 0, 0, 0, 0, 0, 0, 5, 0, 0, 0, 18, 0, 0, 0, 1, 0, 0, 0];

// REQBUFS of session 0x04030201 with four mapped buffers.
const REQ_BUFS: [u8; 36] = [
    3, 0, 0, 0, 0, 0, 0, 0, 1, 2, 3, 4, 8, 0, 0, 0, 4, 0, 0, 0, 1, 0, 0, 0, 1, 0, 0, 0, 0, 0, 0, 0,
    0, 0, 0, 0,
];

const MMAP_WRITABLE: [u8; 24] = [
    4, 0, 0, 0, 0, 0, 0, 0, 5, 0, 0, 0, 1, 0, 0, 0, 0, 0, 0x30, 0, 0, 0, 0, 0,
];

const MMAP_READ_ONLY: [u8; 24] = [
    4, 0, 0, 0, 0, 0, 0, 0, 5, 0, 0, 0, 0, 0, 0, 0, 0, 0, 0, 2, 0, 0, 0, 0,
];

const MUNMAP: [u8; 16] = [5, 0, 0, 0, 0, 0, 0, 0, 8, 7, 6, 5, 4, 3, 2, 1];

// The command, its bytes, and the room that its reply needs.
fn commands() -> [(Command, &'static [u8], u32); 7] {
    [
        (Command::OpenSession, &OPEN, 16),
        (Command::CloseSession { session: 5 }, &CLOSE_5, 8),
        (
            Command::Ioctl {
                session: 5,
                code: IoctlCode::StreamOn,
                payload: Payload::new(&[1, 0, 0, 0]),
            },
            &STREAM_ON,
            12,
        ),
        (
            Command::Ioctl {
                session: 0x0403_0201,
                code: IoctlCode::ReqBufs,
                payload: Payload::new(&[
                    4, 0, 0, 0, 1, 0, 0, 0, 1, 0, 0, 0, 0, 0, 0, 0, 0, 0, 0, 0,
                ]),
            },
            &REQ_BUFS,
            28,
        ),
        (
            Command::Map {
                session: 5,
                writable: true,
                offset: 0x0030_0000,
            },
            &MMAP_WRITABLE,
            24,
        ),
        (
            Command::Map {
                session: 5,
                writable: false,
                offset: 0x0200_0000,
            },
            &MMAP_READ_ONLY,
            24,
        ),
        (
            Command::Unmap {
                addr: 0x0102_0304_0506_0708,
            },
            &MUNMAP,
            8,
        ),
    ]
}

// How many bytes are written of a command.
fn size_of(command: &Command) -> usize
    ensures size { result ≡ length (command_bytes command.now) }
    ensures at_most_224 { result ≤ 224 }
{
    match command {
        Command::OpenSession => 8,
        Command::CloseSession { .. } | Command::Unmap { .. } => 16,
        Command::Ioctl { payload, .. } => 16 + payload.as_bytes().len(),
        Command::Map { .. } => 24,
    }
}

#[test]
fn commands_are_written_and_read(rt: HostRuntime) -> Result<(), Fail> {
    for (command, bytes, room) in commands() {
        let mut out = [BEHIND; WIRE_ROOM];
        assert_eq!(rt; size_of(&command), bytes.len());
        assert_eq!(rt; encode_command(&command, &mut out), bytes.len());
        assert_eq!(rt; front(&out, bytes.len()), bytes);
        assert_eq!(rt; out.get(bytes.len()), Some(&BEHIND));
        assert_eq!(rt; decode_command(bytes, room), Ok(command));
        assert_eq!(rt; decode_command(bytes, room - 1), Err(CmdFault::Room));
        // What stands behind is ignored.
        assert_eq!(rt; decode_command(&out, room), Ok(command));
        // With a byte less there are too few, whatever the room is.
        let short = front(bytes, bytes.len() - 1);
        assert_eq!(rt;
            decode_command(short, WIRE_ROOM as u32),
            Err(CmdFault::Short)
        );
        assert_eq!(rt; decode_command(short, 0), Err(CmdFault::Short));
    }
    Ok(())
}

#[test]
fn pads_and_flags_are_ignored(rt: HostRuntime) -> Result<(), Fail> {
    let rows: [(&[u8], Command); 5] = [
        (&[1, 0, 0, 0, 9, 9, 9, 9], Command::OpenSession),
        (
            &[2, 0, 0, 0, 9, 9, 9, 9, 5, 0, 0, 0, 9, 9, 9, 9],
            Command::CloseSession { session: 5 },
        ),
        (
            &[
                4, 0, 0, 0, 9, 9, 9, 9, 5, 0, 0, 0, 0xff, 0xff, 0xff, 0xff, 1, 0, 0, 0, 9, 9, 9, 9,
            ],
            Command::Map {
                session: 5,
                writable: true,
                offset: 1,
            },
        ),
        (
            &[
                4, 0, 0, 0, 0, 0, 0, 0, 5, 0, 0, 0, 0xfe, 0xff, 0xff, 0xff, 1, 0, 0, 0, 0, 0, 0, 0,
            ],
            Command::Map {
                session: 5,
                writable: false,
                offset: 1,
            },
        ),
        (
            &[5, 0, 0, 0, 9, 9, 9, 9, 1, 0, 0, 0, 0, 0, 0, 0],
            Command::Unmap { addr: 1 },
        ),
    ];
    for (bytes, command) in rows {
        assert_eq!(rt; decode_command(bytes, 24), Ok(command));
    }
    Ok(())
}
