// The records of buffers and events, as whole bytes.

use super::front;
use crate::{
    Payload, PictureNote, QueuedBuffer, buffer_payload, dequeued_buffer, frame_event, qbuf_request,
    querybuf_answer, reqbufs_answer, reqbufs_payload, reqbufs_request,
};
use std::test::Fail;
use v4l_const::Model;
use v4l_layout::{BufferRec, write_event};

// Four buffers are asked for in the capture queue, to be mapped.
const ASKED: [u8; 20] = [4, 0, 0, 0, 1, 0, 0, 0, 1, 0, 0, 0, 0, 0, 0, 0, 0, 0, 0, 0];

// Three are there.
const THERE: [u8; 20] = [
    3, 0, 0, 0, 1, 0, 0, 0, 1, 0, 0, 0, 0x13, 0, 0, 0, 0, 0, 0, 0,
];

// Buffer 3 of the output queue: timestamps are copied, and it is mapped from 0x2300000.
const TOLD: [u8; 88] = [
    3, 0, 0, 0, 2, 0, 0, 0, 0, 0, 0, 0, 0, 0x40, 0, 0, 1, 0, 0, 0, 0, 0, 0, 0, 0, 0, 0, 0, 0, 0, 0,
    0, 0, 0, 0, 0, 0, 0, 0, 0, 0, 0, 0, 0, 0, 0, 0, 0, 0, 0, 0, 0, 0, 0, 0, 0, 0, 0, 0, 0, 1, 0, 0,
    0, 0, 0, 0x30, 2, 0, 0, 0, 0, 0, 12, 0, 0, 0, 0, 0, 0, 0, 0, 0, 0, 0, 0, 0, 0,
];

// Buffer 2 of the capture queue is queued; it has no picture yet.
const TO_FILL: [u8; 88] = [
    2, 0, 0, 0, 1, 0, 0, 0, 0, 0, 0, 0, 0, 0, 0, 0, 0, 0, 0, 0, 0, 0, 0, 0, 0, 0, 0, 0, 0, 0, 0, 0,
    0, 0, 0, 0, 0, 0, 0, 0, 0, 0, 0, 0, 0, 0, 0, 0, 0, 0, 0, 0, 0, 0, 0, 0, 0, 0, 0, 0, 1, 0, 0, 0,
    0, 0, 0x20, 0, 0, 0, 0, 0, 0, 12, 0, 0, 0, 0, 0, 0, 0, 0, 0, 0, 0, 0, 0, 0,
];

// Buffer 1 of the output queue is queued: 3000 bytes, of 7.04 seconds, in the user's memory at
// 0x100123045.
const TO_READ: [u8; 88] = [
    1, 0, 0, 0, 2, 0, 0, 0, 0xb8, 0x0b, 0, 0, 0, 0, 0, 0, 0, 0, 0, 0, 0, 0, 0, 0, 7, 0, 0, 0, 0, 0,
    0, 0, 0x40, 0x9c, 0, 0, 0, 0, 0, 0, 0, 0, 0, 0, 0, 0, 0, 0, 0, 0, 0, 0, 0, 0, 0, 0, 0, 0, 0, 0,
    2, 0, 0, 0, 0x45, 0x30, 0x12, 0, 1, 0, 0, 0, 0, 12, 0, 0, 0, 0, 0, 0, 0, 0, 0, 0, 0, 0, 0, 0,
];

// The buffer that was queued first comes back: frame 9, of 7.04 seconds, failed.
const FAILED: [u8; 88] = [
    2, 0, 0, 0, 1, 0, 0, 0, 0, 0, 0, 0, 0x40, 0x20, 0, 0, 1, 0, 0, 0, 0, 0, 0, 0, 7, 0, 0, 0, 0, 0,
    0, 0, 0x40, 0x9c, 0, 0, 0, 0, 0, 0, 0, 0, 0, 0, 0, 0, 0, 0, 0, 0, 0, 0, 0, 0, 0, 0, 9, 0, 0, 0,
    1, 0, 0, 0, 0, 0, 0x20, 0, 0, 0, 0, 0, 0, 12, 0, 0, 0, 0, 0, 0, 0, 0, 0, 0, 0, 0, 0, 0,
];

// Frame 9 begins, at 7.04 seconds: 40,000,000 is 0x2625a00.
const BEGINS: [u8; 136] = [
    4, 0, 0, 0, 0, 0, 0, 0, 9, 0, 0, 0, 0, 0, 0, 0, 0, 0, 0, 0, 0, 0, 0, 0, 0, 0, 0, 0, 0, 0, 0, 0,
    0, 0, 0, 0, 0, 0, 0, 0, 0, 0, 0, 0, 0, 0, 0, 0, 0, 0, 0, 0, 0, 0, 0, 0, 0, 0, 0, 0, 0, 0, 0, 0,
    0, 0, 0, 0, 0, 0, 0, 0, 0, 0, 0, 0, 0, 0, 0, 0, 7, 0, 0, 0, 0, 0, 0, 0, 0, 0x5a, 0x62, 2, 0, 0,
    0, 0, 0, 0, 0, 0, 0, 0, 0, 0, 0, 0, 0, 0, 0, 0, 0, 0, 0, 0, 0, 0, 0, 0, 0, 0, 0, 0, 0, 0, 0, 0,
    0, 0, 0, 0, 0, 0, 0, 0, 0, 0,
];

fn to_fill() -> QueuedBuffer {
    QueuedBuffer {
        kind: 1,
        index: 2,
        bytesused: 3000,
        timestamp: 7_040_000,
        memory: 1,
        m: 0x0020_0000,
        length: 3072,
    }
}

fn to_read() -> QueuedBuffer {
    QueuedBuffer {
        kind: 2,
        index: 1,
        memory: 2,
        m: 0x0001_0012_3045,
        ..to_fill()
    }
}

fn failed() -> BufferRec {
    let note = PictureNote {
        bytesused: 0,
        seconds: 7,
        micros: 40_000,
        sequence: 9,
        is_bad: true,
    };
    dequeued_buffer(
        Model::Capture,
        &qbuf_request(Model::Capture, &to_fill()),
        &note,
    )
}

#[test]
fn records_are_laid_out(rt: HostRuntime) -> Result<(), Fail> {
    let rows: [(Payload, &[u8]); 6] = [
        (reqbufs_payload(&reqbufs_request(1, 1, 4)), &ASKED),
        (
            reqbufs_payload(&reqbufs_answer(Model::Capture, 1, 1, 3)),
            &THERE,
        ),
        (
            buffer_payload(&querybuf_answer(Model::Convert, 2, 3, 1, 3072)),
            &TOLD,
        ),
        (
            buffer_payload(&qbuf_request(Model::Capture, &to_fill())),
            &TO_FILL,
        ),
        (
            buffer_payload(&qbuf_request(Model::Convert, &to_read())),
            &TO_READ,
        ),
        (buffer_payload(&failed()), &FAILED),
    ];
    for (payload, bytes) in rows {
        assert_eq!(rt; payload.as_bytes(), bytes);
    }
    let mut out = [0; 136];
    assert_eq!(rt; write_event(&frame_event(9, 7_040_000), &mut out), Ok(()));
    assert_eq!(rt; front(&out, 136), front(&BEGINS, 136));
    Ok(())
}
