// Each record with other bytes in each of its fields, against its bytes worked by hand from its
// table of offsets.

use crate::*;
use std::test::Fail;

const TEXT16: &[u8; 16] = b"#$%&'()*+,-./:;<";

const TEXT32: &[u8; 32] = b"0123456789abcdef0123456789ABCDEF";

const BUS: &[u8; 32] = b"abcdefghijklmnopqrstuvwxyz012345";

const TEXT64: &[u8; 64] = b"ABCDEFGHIJKLMNOPQRSTUVWXYZabcdefghijklmnopqrstuvwxyz0123456789+/";

// What stands behind a record.
const BEHIND: &[u8; 2] = &[0xee; 2];

// Whether bytes are these parts joined.
fn is_joined(bytes: &[u8], parts: &[&[u8]]) -> bool {
    let mut left = bytes;
    for part in parts {
        match left.strip_prefix(part) {
            Some(rest) => left = rest,
            None => return false,
        }
    }
    left.is_empty()
}

// The first bytes, or all where there are fewer.
fn front(bytes: &[u8], count: usize) -> &[u8] {
    bytes.get(..count).unwrap_or(bytes)
}

#[test]
fn capability(rt: HostRuntime) -> Result<(), Fail> {
    let capability = Capability {
        driver: *TEXT16,
        card: *TEXT32,
        bus_info: *BUS,
        version: 0x0403_0201,
        capabilities: 0x0807_0605,
        device_caps: 0x0c0b_0a09,
    };
    let mut out = [0xee; 106];
    assert!(rt; write_capability(&capability, &mut out[..103]) == Err(Short));
    assert!(rt; out == [0xee; 106]);
    assert!(rt; write_capability(&capability, &mut out).is_ok());
    let numbers = [1, 2, 3, 4, 5, 6, 7, 8, 9, 10, 11, 12];
    assert!(rt; is_joined(&out, &[TEXT16, TEXT32, BUS, &numbers, &[0; 12], BEHIND]));
    assert!(rt; read_capability(front(&out, 104)) == Ok(capability));
    assert!(rt; read_capability(front(&out, 103)) == Err(Short));
    Ok(())
}

#[test]
fn formats(rt: HostRuntime) -> Result<(), Fail> {
    let fmtdesc = FmtDesc {
        index: 0x0403_0201,
        kind: 0x0807_0605,
        flags: 0x0c0b_0a09,
        description: *TEXT32,
        pixelformat: 0x100f_0e0d,
    };
    let mut out = [0xee; 66];
    assert!(rt; write_fmtdesc(&fmtdesc, &mut out).is_ok());
    let numbers = [1, 2, 3, 4, 5, 6, 7, 8, 9, 10, 11, 12];
    assert!(rt;
        is_joined(
            &out,
            &[&numbers, TEXT32, &[13, 14, 15, 16], &[0; 16], BEHIND]
        )
    );
    assert!(rt; read_fmtdesc(front(&out, 64)) == Ok(fmtdesc));
    assert!(rt; read_fmtdesc(front(&out, 63)) == Err(Short));

    let format = FormatRec {
        kind: 0x0403_0201,
        width: 0x0807_0605,
        height: 0x0c0b_0a09,
        pixelformat: 0x100f_0e0d,
        field: 0x1413_1211,
        bytesperline: 0x1817_1615,
        sizeimage: 0x1c1b_1a19,
    };
    let mut out = [0xee; 210];
    assert!(rt; write_format(&format, &mut out).is_ok());
    let picture = [
        5, 6, 7, 8, 9, 10, 11, 12, 13, 14, 15, 16, 17, 18, 19, 20, 21, 22, 23, 24, 25, 26, 27, 28,
    ];
    assert!(rt; is_joined(&out, &[&[1, 2, 3, 4], &[0; 4], &picture, &[0; 176], BEHIND]));
    assert!(rt; read_format(front(&out, 208)) == Ok(format));
    assert!(rt; read_format(front(&out, 207)) == Err(Short));
    Ok(())
}

#[test]
fn buffers(rt: HostRuntime) -> Result<(), Fail> {
    let request = RequestBuffers {
        count: 0x0403_0201,
        kind: 0x0807_0605,
        memory: 0x0c0b_0a09,
        capabilities: 0x100f_0e0d,
    };
    let mut out = [0xee; 22];
    assert!(rt; write_request(&request, &mut out).is_ok());
    assert!(rt;
        is_joined(
            &out,
            &[
                &[1, 2, 3, 4, 5, 6, 7, 8, 9, 10, 11, 12, 13, 14, 15, 16],
                &[0; 4],
                BEHIND
            ]
        )
    );
    assert!(rt; read_request(front(&out, 20)) == Ok(request));
    assert!(rt; read_request(front(&out, 19)) == Err(Short));

    let plane = PlaneRec {
        bytesused: 0x0403_0201,
        length: 0x0807_0605,
        m: 0x100f_0e0d_0c0b_0a09,
        data_offset: 0x1413_1211,
    };
    let mut out = [0xee; 66];
    assert!(rt; write_plane(&plane, &mut out).is_ok());
    let numbers = [
        1, 2, 3, 4, 5, 6, 7, 8, 9, 10, 11, 12, 13, 14, 15, 16, 17, 18, 19, 20,
    ];
    assert!(rt; is_joined(&out, &[&numbers, &[0; 44], BEHIND]));
    assert!(rt; read_plane(front(&out, 64)) == Ok(plane));
    assert!(rt; read_plane(front(&out, 63)) == Err(Short));

    let buffer = BufferRec {
        index: 0x0403_0201,
        kind: 0x0807_0605,
        bytesused: 0x0c0b_0a09,
        flags: 0x100f_0e0d,
        field: 0x1413_1211,
        seconds: 0x1c1b_1a19_1817_1615,
        micros: 0x2423_2221_201f_1e1d,
        timecode: *TEXT16,
        sequence: 0x8483_8281,
        memory: 0x8887_8685,
        m: 0x908f_8e8d_8c8b_8a89,
        length: 0x9493_9291,
        reserved2: 0x9897_9695,
        request_fd: 0x9c9b_9a99,
    };
    let mut out = [0xee; 90];
    assert!(rt; write_buffer(&buffer, &mut out).is_ok());
    let state = [
        1, 2, 3, 4, 5, 6, 7, 8, 9, 10, 11, 12, 13, 14, 15, 16, 17, 18, 19, 20,
    ];
    let time = [
        21, 22, 23, 24, 25, 26, 27, 28, 29, 30, 31, 32, 33, 34, 35, 36,
    ];
    let memory =
        b"\x81\x82\x83\x84\x85\x86\x87\x88\x89\x8a\x8b\x8c\x8d\x8e\x8f\x90\x91\x92\x93\x94\x95\x96\x97\x98";
    let request = b"\x99\x9a\x9b\x9c";
    assert!(rt;
        is_joined(
            &out,
            &[
                &state, &[0; 4], &time, TEXT16, memory, request, &[0; 4], BEHIND
            ]
        )
    );
    // What stands between the fields doesn't count.
    for pad in [20..24, 84..88] {
        if let Some(bytes) = out.get_mut(pad) {
            bytes.fill(0xff);
        }
    }
    assert!(rt; read_buffer(front(&out, 88)) == Ok(buffer));
    assert!(rt; read_buffer(front(&out, 87)) == Err(Short));
    Ok(())
}

#[test]
fn texts(rt: HostRuntime) -> Result<(), Fail> {
    assert!(rt; padded::<6>("ab") == *b"ab\0\0\0\0");
    assert!(rt; padded::<2>("ab") == *b"ab");
    Ok(())
}

#[test]
fn events_and_inputs(rt: HostRuntime) -> Result<(), Fail> {
    let event = EventRec {
        kind: 0x8483_8281,
        u: *TEXT64,
        pending: 0x0403_0201,
        sequence: 0x0807_0605,
        seconds: 0x100f_0e0d_0c0b_0a09,
        nanos: 0x1817_1615_1413_1211,
        id: 0x1c1b_1a19,
    };
    let mut out = [0xee; 138];
    assert!(rt; write_event(&event, &mut out).is_ok());
    let numbers = [
        1, 2, 3, 4, 5, 6, 7, 8, 9, 10, 11, 12, 13, 14, 15, 16, 17, 18, 19, 20, 21, 22, 23, 24, 25,
        26, 27, 28,
    ];
    assert!(rt;
        is_joined(
            &out,
            &[
                b"\x81\x82\x83\x84",
                &[0; 4],
                TEXT64,
                &numbers,
                &[0; 36],
                BEHIND
            ]
        )
    );
    assert!(rt; read_event(front(&out, 136)) == Ok(event));
    assert!(rt; read_event(front(&out, 135)) == Err(Short));

    let subscription = Subscription {
        kind: 0x0403_0201,
        id: 0x0807_0605,
        flags: 0x0c0b_0a09,
    };
    let mut out = [0xee; 34];
    assert!(rt; write_subscription(&subscription, &mut out).is_ok());
    assert!(rt;
        is_joined(
            &out,
            &[&[1, 2, 3, 4, 5, 6, 7, 8, 9, 10, 11, 12], &[0; 20], BEHIND]
        )
    );
    assert!(rt; read_subscription(front(&out, 32)) == Ok(subscription));
    assert!(rt; read_subscription(front(&out, 31)) == Err(Short));

    let input = InputRec {
        index: 0x0403_0201,
        name: *TEXT32,
        kind: 0x0807_0605,
    };
    let mut out = [0xee; 82];
    assert!(rt; write_input(&input, &mut out).is_ok());
    assert!(rt;
        is_joined(
            &out,
            &[&[1, 2, 3, 4], TEXT32, &[5, 6, 7, 8], &[0; 40], BEHIND]
        )
    );
    assert!(rt; read_input(front(&out, 80)) == Ok(input));
    assert!(rt; read_input(front(&out, 79)) == Err(Short));
    Ok(())
}

#[test]
fn fields_of_one_byte(rt: HostRuntime) -> Result<(), Fail> {
    let fields = [
        Field::new(1, Value::Byte(0x7f)),
        Field::new(2, Value::Byte(0xff)),
    ];
    let mut out = [0xee; 7];
    assert!(rt; write_fields(5, &fields, &mut out).is_ok());
    assert!(rt; out == [0, 0x7f, 0xff, 0, 0, 0xee, 0xee]);
    Ok(())
}
