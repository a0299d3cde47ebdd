//! The bytes of the rings after a whole run, worked by hand.

use crate::readback_tests::run_over_rings;
use std::test::Fail;
use vm_link::QueueId;

/// A picture is taken. Five of the calls cross, by one process, each by the same two descriptors.
/// The frame comes by two events.
const SCRIPT: &[u8] =
    b"open a\nreqbufs a cap mmap 1\nqbuf a cap 0\nstreamon a cap\ndqbuf a cap\nclose a\n";

/// The last command, which has 16 bytes, and the room for its reply.
const COMMANDS: [u8; 32] = [
    0, 0, 1, 0, 0, 0, 0, 0, 16, 0, 0, 0, 1, 0, 1, 0, //
    0, 0x10, 1, 0, 0, 0, 0, 0, 0x30, 1, 0, 0, 2, 0, 0, 0,
];

/// Five commands were posted, each with the head 0.
const POSTED_COMMANDS: [u8; 4] = [0, 0, 5, 0];

/// Five came back. Their replies have 16 bytes, 8 with a payload of 20, of 88 and of 4, and 8.
const DONE_COMMANDS: [u8; 44] = [
    0, 0, 5, 0, //
    0, 0, 0, 0, 16, 0, 0, 0, //
    0, 0, 0, 0, 28, 0, 0, 0, //
    0, 0, 0, 0, 96, 0, 0, 0, //
    0, 0, 0, 0, 12, 0, 0, 0, //
    0, 0, 0, 0, 8, 0, 0, 0,
];

/// Sixteen chains for events, of 608 bytes each, in the pages 64 to 79. Each has one descriptor.
/// Its `next`, which no flag makes valid, is that of the first one of its table: its own.
const EVENTS: [u8; 256] = [
    0, 0, 4, 0, 0, 0, 0, 0, 0x60, 2, 0, 0, 2, 0, 0, 0, //
    0, 0x10, 4, 0, 0, 0, 0, 0, 0x60, 2, 0, 0, 2, 0, 1, 0, //
    0, 0x20, 4, 0, 0, 0, 0, 0, 0x60, 2, 0, 0, 2, 0, 2, 0, //
    0, 0x30, 4, 0, 0, 0, 0, 0, 0x60, 2, 0, 0, 2, 0, 3, 0, //
    0, 0x40, 4, 0, 0, 0, 0, 0, 0x60, 2, 0, 0, 2, 0, 4, 0, //
    0, 0x50, 4, 0, 0, 0, 0, 0, 0x60, 2, 0, 0, 2, 0, 5, 0, //
    0, 0x60, 4, 0, 0, 0, 0, 0, 0x60, 2, 0, 0, 2, 0, 6, 0, //
    0, 0x70, 4, 0, 0, 0, 0, 0, 0x60, 2, 0, 0, 2, 0, 7, 0, //
    0, 0x80, 4, 0, 0, 0, 0, 0, 0x60, 2, 0, 0, 2, 0, 8, 0, //
    0, 0x90, 4, 0, 0, 0, 0, 0, 0x60, 2, 0, 0, 2, 0, 9, 0, //
    0, 0xa0, 4, 0, 0, 0, 0, 0, 0x60, 2, 0, 0, 2, 0, 10, 0, //
    0, 0xb0, 4, 0, 0, 0, 0, 0, 0x60, 2, 0, 0, 2, 0, 11, 0, //
    0, 0xc0, 4, 0, 0, 0, 0, 0, 0x60, 2, 0, 0, 2, 0, 12, 0, //
    0, 0xd0, 4, 0, 0, 0, 0, 0, 0x60, 2, 0, 0, 2, 0, 13, 0, //
    0, 0xe0, 4, 0, 0, 0, 0, 0, 0x60, 2, 0, 0, 2, 0, 14, 0, //
    0, 0xf0, 4, 0, 0, 0, 0, 0, 0x60, 2, 0, 0, 2, 0, 15, 0, //
];

/// They were posted once, and two of them again, with the heads that they had.
const POSTED_EVENTS: [u8; 36] = [
    0, 0, 18, 0, //
    0, 0, 1, 0, 2, 0, 3, 0, 4, 0, 5, 0, 6, 0, 7, 0, //
    8, 0, 9, 0, 10, 0, 11, 0, 12, 0, 13, 0, 14, 0, 15, 0,
];

/// The frame was told of by 144 bytes, and its buffer by 608.
const DONE_EVENTS: [u8; 20] = [
    0, 0, 2, 0, //
    0, 0, 0, 0, 144, 0, 0, 0, //
    1, 0, 0, 0, 0x60, 2, 0, 0,
];

/// Whether these bytes stand in a place of a page, with zeros behind them up to another place.
fn stand_at(page: &[u8], at: usize, bytes: &[u8], end: usize) -> bool {
    let Some(part) = page.get(at..end) else {
        return false;
    };
    part.starts_with(bytes) && part.iter().skip(bytes.len()).all(|byte| *byte == 0)
}

#[test]
fn a_run_leaves_its_rings(rt: HostRuntime) -> Result<(), Fail> {
    for seed in [0, 1, 7, 63] {
        let ran = run_over_rings(rt.alloc(), SCRIPT, seed)?;
        let commands = ran.world.link().ring(QueueId::Command);
        assert!(rt; stand_at(commands, 0, &COMMANDS, 1024));
        assert!(rt; stand_at(commands, 1024, &POSTED_COMMANDS, 1160));
        assert!(rt; stand_at(commands, 1160, &DONE_COMMANDS, 4096));
        let events = ran.world.link().ring(QueueId::Event);
        assert!(rt; stand_at(events, 0, &EVENTS, 256));
        assert!(rt; stand_at(events, 256, &POSTED_EVENTS, 296));
        assert!(rt; stand_at(events, 296, &DONE_EVENTS, 4096));
    }
    Ok(())
}
