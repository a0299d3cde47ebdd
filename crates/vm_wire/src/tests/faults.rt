use super::front;
use crate::{CmdFault, Command, Payload, WIRE_ROOM, decode_command};
use std::test::Fail;
use v4l_const::IoctlCode;

// QBUF of session 5, with the memory of its buffer, and room for entries.
fn qbuf(memory: [u8; 4]) -> [u8; 137] {
    let mut bytes = [0; 137];
    bytes[0] = 3;
    bytes[8] = 5;
    bytes[12] = 15;
    bytes[76..80].copy_from_slice(&memory);
    bytes
}

// The start of an IOCTL of session 5 with this code, and zeros.
fn ioctl(code: u8) -> [u8; 224] {
    let mut bytes = [0; 224];
    bytes[0] = 3;
    bytes[8] = 5;
    bytes[12] = code;
    bytes
}

#[test]
fn too_few_bytes_and_unknown_numbers(rt: HostRuntime) -> Result<(), Fail> {
    let rows: [(&[u8], usize, CmdFault); 22] = [
        // Fewer than a number and its pad, whatever stands there.
        (&[1, 0, 0, 0, 0, 0, 0, 0], 0, CmdFault::Short),
        (&[1, 0, 0, 0, 0, 0, 0, 0], 4, CmdFault::Short),
        (&[1, 0, 0, 0, 0, 0, 0, 0], 7, CmdFault::Short),
        (&[6, 0, 0, 0, 0, 0, 0, 0], 7, CmdFault::Short),
        // A number that no command has, also where it is one in its lowest byte.
        (&[0, 0, 0, 0, 0, 0, 0, 0], 8, CmdFault::UnknownCmd),
        (&[6, 0, 0, 0, 0, 0, 0, 0], 8, CmdFault::UnknownCmd),
        (&[1, 1, 0, 0, 0, 0, 0, 0], 8, CmdFault::UnknownCmd),
        (&[5, 0, 0, 1, 0, 0, 0, 0], 8, CmdFault::UnknownCmd),
        (&[0xff; 8], 8, CmdFault::UnknownCmd),
        // The fields' bytes, the last pad among them. The code isn't looked at before it is there.
        (&[2; 1], 1, CmdFault::Short),
        (
            &[2, 0, 0, 0, 0, 0, 0, 0, 5, 0, 0, 0, 0, 0, 0, 0],
            8,
            CmdFault::Short,
        ),
        (
            &[2, 0, 0, 0, 0, 0, 0, 0, 5, 0, 0, 0, 0, 0, 0, 0],
            12,
            CmdFault::Short,
        ),
        (
            &[2, 0, 0, 0, 0, 0, 0, 0, 5, 0, 0, 0, 0, 0, 0, 0],
            15,
            CmdFault::Short,
        ),
        (
            &[3, 0, 0, 0, 0, 0, 0, 0, 5, 0, 0, 0, 17, 0, 0, 0],
            8,
            CmdFault::Short,
        ),
        (
            &[3, 0, 0, 0, 0, 0, 0, 0, 5, 0, 0, 0, 17, 0, 0, 0],
            12,
            CmdFault::Short,
        ),
        (
            &[3, 0, 0, 0, 0, 0, 0, 0, 5, 0, 0, 0, 17, 0, 0, 0],
            15,
            CmdFault::Short,
        ),
        (
            &[
                4, 0, 0, 0, 0, 0, 0, 0, 5, 0, 0, 0, 1, 0, 0, 0, 0, 0, 0, 0, 0, 0, 0, 0,
            ],
            16,
            CmdFault::Short,
        ),
        (
            &[
                4, 0, 0, 0, 0, 0, 0, 0, 5, 0, 0, 0, 1, 0, 0, 0, 0, 0, 0, 0, 0, 0, 0, 0,
            ],
            20,
            CmdFault::Short,
        ),
        (
            &[
                4, 0, 0, 0, 0, 0, 0, 0, 5, 0, 0, 0, 1, 0, 0, 0, 0, 0, 0, 0, 0, 0, 0, 0,
            ],
            23,
            CmdFault::Short,
        ),
        (
            &[5, 0, 0, 0, 0, 0, 0, 0, 0, 0, 0, 1, 0, 0, 0, 0],
            8,
            CmdFault::Short,
        ),
        (
            &[5, 0, 0, 0, 0, 0, 0, 0, 0, 0, 0, 1, 0, 0, 0, 0],
            12,
            CmdFault::Short,
        ),
        (
            &[5, 0, 0, 0, 0, 0, 0, 0, 0, 0, 0, 1, 0, 0, 0, 0],
            15,
            CmdFault::Short,
        ),
    ];
    for (bytes, count, fault) in rows {
        // The room comes after all of these.
        for room in [0, WIRE_ROOM as u32] {
            assert_eq!(rt; decode_command(front(bytes, count), room), Err(fault));
        }
    }
    Ok(())
}

#[test]
fn codes_come_before_payloads(rt: HostRuntime) -> Result<(), Fail> {
    // DQBUF, DQEVENT, and numbers that no call has.
    for code in [1, 3, 17, 89, 92, 255] {
        for count in [16, 17, 224] {
            for room in [0, WIRE_ROOM as u32] {
                assert_eq!(rt;
                    decode_command(front(&ioctl(code), count), room),
                    Err(CmdFault::UnknownIoctl)
                );
            }
        }
    }
    // Each code that is sent, with the bytes of its payload: one too few, and as many.
    for (code, size) in [
        (0, 104u8),
        (2, 64),
        (4, 208),
        (5, 208),
        (8, 20),
        (9, 88),
        (15, 88),
        (18, 4),
        (19, 4),
        (26, 80),
        (38, 4),
        (39, 4),
        (64, 208),
        (90, 32),
        (91, 32),
    ] {
        let bytes = ioctl(code);
        let there = front(&bytes, 16 + usize::from(size));
        let short = front(&bytes, 15 + usize::from(size));
        for (part, room, fault) in [
            (short, WIRE_ROOM as u32, CmdFault::Short),
            (short, 0, CmdFault::Short),
            (there, 0, CmdFault::Room),
            (there, 7 + u32::from(size), CmdFault::Room),
        ] {
            assert_eq!(rt; decode_command(part, room), Err(fault));
        }
        assert!(rt; decode_command(there, 8 + u32::from(size)).is_ok());
    }
    Ok(())
}

#[test]
fn entries_are_whole(rt: HostRuntime) -> Result<(), Fail> {
    // How many bytes stand behind a QBUF of this memory, and whether it is a command.
    let rows = [
        ([2, 0, 0, 0], 0u8, true),
        ([2, 0, 0, 0], 1, false),
        ([2, 0, 0, 0], 15, false),
        ([2, 0, 0, 0], 16, true),
        ([2, 0, 0, 0], 17, false),
        ([2, 0, 0, 0], 32, true),
        ([2, 0, 0, 0], 33, false),
        // Behind a buffer of another memory they are free.
        ([1, 0, 0, 0], 15, true),
        ([1, 0, 0, 0], 16, true),
        ([1, 0, 0, 0], 17, true),
        ([2, 1, 0, 0], 15, true),
        ([0, 0, 0, 0], 1, true),
    ];
    for (memory, behind, is_command) in rows {
        let bytes = qbuf(memory);
        let command = Command::Ioctl {
            session: 5,
            code: IoctlCode::QBuf,
            payload: Payload::new(&bytes[16..104]),
        };
        let there = front(&bytes, 104 + usize::from(behind));
        let want = if is_command {
            Ok(command)
        } else {
            Err(CmdFault::Short)
        };
        assert_eq!(rt; decode_command(there, 96), want);
        // The room comes last.
        let want = if is_command {
            Err(CmdFault::Room)
        } else {
            Err(CmdFault::Short)
        };
        assert_eq!(rt; decode_command(there, 95), want);
    }
    Ok(())
}
