//! Texts that were worked outside, and what becomes of them where they are changed.

mod texts;

use crate::{HandleLog, Logs, LogsError, logs_of};
use std::alloc::{AllocError, Global};
use std::test::Fail;
use texts::{CAPTURE, CONVERT, DEADLOCK, ORPHAN, REFUSALS, TWO_PROCESSES, USER};
use vm_local::Entry;

/// Of a script without statements.
const EMPTY: &[u8] =
    b"region\nwire e3b0c44298fc1c149afbf4c8996fb92427ae41e4649b934ca495991b7852b855\n";

/// Of one handle.
const OPEN_CLOSE: &[u8] =
    b"handle 0 a 0\n1 open a = ok\n2 close a = ok\nregion\nwire 989fe555f0346a6e44705d83652bdf0d955caa2edeb1a615d82b93d7c7a00851\n";

/// Of three handles.
const MANY: &[u8] =
    b"handle 0 a 0\n3 open a = ok\n5 close a = ok\n6 close a = err 9 EBADF\nhandle 0 b 1\n4 open b = ok\n10 close b = ok\n11 close b = err 9 EBADF\nhandle 0 c9 2\n7 open c9 = ok\n9 close c9 = ok\nregion\nwire b7bc582e23478317bccb88c62950db9b0f5bf4c9be9ddaf22bf55446725408d0\n";

/// Of formats.
const FORMATS: &[u8] =
    b"handle 0 a 0\n1 open a = ok\n2 sfmt a cap ABCD 641 1 = ok GREY 640 16 640 10240\n3 tryfmt a cap NV12 17 481 = ok NV12 16 480 16 11520\n4 tryfmt a cap RGB3 0 4294967295 = ok RGB3 16 480 48 23040\n5 gfmt a cap = ok GREY 640 16 640 10240\nregion\nwire 40fab78172e223ddf868ebbaae76d07c9cca4911c1680b8c6403ee0de9f902cc\n";

/// Of each call that is built.
const BUILT: &[u8] =
    b"handle 0 a 0\n1 open a = ok\n2 querycap a = ok 84000001 04000001\n3 enumfmt a cap 5 = ok RGB3\n4 enumfmt a cap 6 = err 22 EINVAL\n5 enuminput a 3 = ok count\n6 enuminput a 4 = err 22 EINVAL\n7 gfmt a cap = ok GREY 64 48 64 3072\n8 gfmt a out = err 22 EINVAL\n9 ginput a = ok 0\n10 sinput a 3 = ok 3\n11 ginput a = ok 3\n12 close a = ok\n13 ginput a = err 9 EBADF\nregion\nwire 2dfa5a41c51afe9aed2f7c84e01e33abb3da86033a1b017eed456fdb37788b70\n";

/// Of raw lines.
const RAWS: &[u8] =
    b"raws 0\n1 raw chain loop = err 5 EIO\n2 raw chain outside = err 5 EIO\n3 raw chain order = err 5 EIO\n4 raw chain zero = err 5 EIO\n5 raw chain addr = err 5 EIO\n6 raw chain indirect = err 5 EIO\n7 raw bytes 0100000000000000 7 = err 5 EIO\n8 raw bytes 010000 64 = err 22 EINVAL\n9 raw bytes 0900000000000000 64 = err 95 EOPNOTSUPP\n10 raw bytes 03000000000000000000000011000000 64 = err 25 ENOTTY\n11 raw bytes 02000000000000000040000000000000 64 = err 9 EBADF\n12 raw bytes 0100000000000000 8 = err 90 EMSGSIZE\nregion\nwire e3b0c44298fc1c149afbf4c8996fb92427ae41e4649b934ca495991b7852b855\n";

/// Of one handle, with a step of the device.
const STEP: &[u8] =
    b"handle 0 a 0\n1 open a = ok\n2 querycap a = ok 84000001 04000001\n+ finish\n13 ginput a = ok 3\nregion\nwire 2dfa5a41c51afe9aed2f7c84e01e33abb3da86033a1b017eed456fdb37788b70\n";

/// How many handles there are, how many entries the first has, and how many raw lines and entries
/// of the journal there are.
type Counts = (usize, usize, usize, usize);

/// Those of the logs of a text.
fn counts(alloc: Global, text: &[u8]) -> Result<Counts, LogsError> {
    let logs = logs_of(alloc, text)?;
    let entries = match logs.handles.first() {
        Some(handle) => handle.entries.len(),
        None => 0,
    };
    Ok((
        logs.handles.len(),
        entries,
        logs.raws.len(),
        logs.journal.len(),
    ))
}

#[test]
fn outside_texts_give_their_logs(rt: HostRuntime) -> Result<(), Fail> {
    let rows: [(&[u8], Counts); 13] = [
        (EMPTY, (0, 0, 0, 0)),
        (OPEN_CLOSE, (1, 2, 0, 0)),
        (MANY, (3, 3, 0, 0)),
        (FORMATS, (1, 5, 0, 0)),
        (BUILT, (1, 13, 0, 0)),
        (RAWS, (0, 0, 12, 0)),
        (CAPTURE, (1, 52, 0, 8)),
        (DEADLOCK, (2, 6, 0, 0)),
        (TWO_PROCESSES, (2, 5, 0, 4)),
        (ORPHAN, (1, 9, 0, 3)),
        (CONVERT, (1, 18, 0, 2)),
        (USER, (1, 14, 0, 0)),
        (REFUSALS, (1, 12, 0, 1)),
    ];
    for (text, want) in rows {
        assert_eq!(rt; counts(rt.alloc(), text), Ok(want));
    }
    Ok(())
}

/// What logs tell in the places where the texts below differ: the digest's first byte, the id of
/// the first handle's session, and the number of its last line.
type Summary = (u8, Option<u32>, u32);

/// That of these logs.
fn summary(logs: &Logs) -> Summary {
    let Some(handle) = logs.handles.first() else {
        return (logs.wire[0], None, 0);
    };
    let line = match handle.entries.last() {
        Some(Entry::Called { line, .. }) => *line,
        _ => 0,
    };
    (logs.wire[0], handle.session, line)
}

/// What the logs of a text tell.
fn told(alloc: Global, text: &[u8]) -> Result<Summary, LogsError> {
    let logs = logs_of(alloc, text)?;
    Ok(summary(&logs))
}

/// The text with another byte in a place.
fn changed(alloc: Global, text: &[u8], at: usize, byte: u8) -> Result<Vec<u8>, AllocError> {
    let mut copy = Vec::new(alloc);
    copy.extend_from_slice(text)?;
    if let Some(place) = copy.get_mut(at) {
        *place = byte;
    }
    Ok(copy)
}

#[test]
fn a_changed_byte_tells(rt: HostRuntime) -> Result<(), Fail> {
    assert_eq!(rt; told(rt.alloc(), STEP), Ok((0x2d, Some(0), 13)));
    let rows = [
        // the digest's first digit, and a letter in upper case
        (103, b'3', Ok((0x3d, Some(0), 13))),
        (104, b'D', Err(LogsError::NotPrinted)),
        // a flag that is no digit
        (52, b'A', Err(LogsError::NotPrinted)),
        // a zero in front of a line's number, and another number
        (72, b'0', Err(LogsError::NotPrinted)),
        (73, b'4', Ok((0x2d, Some(0), 14))),
        // another handle's name, and the id of another session
        (38, b'b', Err(LogsError::NotPrinted)),
        (11, b'1', Ok((0x2d, Some(1), 13))),
        // a tab between words
        (81, b'\t', Err(LogsError::NotPrinted)),
        // a step that there isn't
        (65, b'g', Err(LogsError::NotPrinted)),
        // no newline at the end
        (167, b' ', Err(LogsError::NotPrinted)),
    ];
    for (at, byte, want) in rows {
        let text = changed(rt.alloc(), STEP, at, byte)?;
        assert_eq!(rt; told(rt.alloc(), &text), want);
    }
    Ok(())
}

/// Whether two handles have the same log.
fn are_alike(one: &HandleLog, other: &HandleLog) -> bool {
    one.process == other.process
        && one.name.is(&other.name)
        && one.session == other.session
        && one.entries.as_slice() == other.entries.as_slice()
}

/// Whether two lists of handles have the same logs.
fn all_alike(handles: &[HandleLog], others: &[HandleLog]) -> bool {
    if handles.len() != others.len() {
        return false;
    }
    for (one, other) in handles.iter().zip(others.iter()) {
        if !are_alike(one, other) {
            return false;
        }
    }
    true
}

/// Whether these are the same logs.
fn are_same(logs: &Logs, others: &Logs) -> bool {
    all_alike(&logs.handles, &others.handles)
        && logs.raws.as_slice() == others.raws.as_slice()
        && logs.journal.as_slice() == others.journal.as_slice()
        && logs.wire == others.wire
}

/// Whether a text gives the same logs with another byte in a place.
fn keeps_its_logs(alloc: Global, text: &[u8], at: usize, byte: u8) -> Result<bool, LogsError> {
    let logs = logs_of(alloc, text)?;
    let copy = changed(alloc, text, at, byte).map_err(|_| LogsError::Memory)?;
    let others = logs_of(alloc, &copy)?;
    Ok(are_same(&logs, &others))
}

#[test]
fn one_byte_makes_other_logs_or_none(rt: HostRuntime) -> Result<(), Fail> {
    let rows: [(&[u8], usize, u8, Result<bool, LogsError>); 26] = [
        // the process of the second handle, its name in the head alone, and its session's id
        (TWO_PROCESSES, 170, b'0', Ok(false)),
        (TWO_PROCESSES, 172, b'a', Err(LogsError::NotPrinted)),
        (DEADLOCK, 174, b'0', Ok(false)),
        // the journal: how often a range is mapped, its pages, and an address in upper case
        (TWO_PROCESSES, 344, b'3', Ok(false)),
        (TWO_PROCESSES, 342, b'0', Ok(false)),
        (TWO_PROCESSES, 366, b'A', Err(LogsError::NotPrinted)),
        // two lines in one
        (TWO_PROCESSES, 162, b' ', Err(LogsError::NotPrinted)),
        (TWO_PROCESSES, 345, b' ', Err(LogsError::NotPrinted)),
        // a call's bytes in upper case read as before, a reply's aren't printed so
        (ORPHAN, 115, b'A', Ok(true)),
        (ORPHAN, 219, b'A', Err(LogsError::NotPrinted)),
        (ORPHAN, 219, b'b', Ok(false)),
        // another call, another memory, and a word that there isn't
        (ORPHAN, 48, b'2', Ok(false)),
        (CAPTURE, 479, b'9', Ok(false)),
        (DEADLOCK, 185, b'N', Err(LogsError::NotPrinted)),
        // no step
        (CAPTURE, 415, b'-', Err(LogsError::NotPrinted)),
        // other flags, and a time with a zero in front
        (CAPTURE, 466, b'9', Ok(false)),
        (CAPTURE, 625, b'0', Err(LogsError::NotPrinted)),
        (REFUSALS, 274, b'9', Ok(false)),
        // an errno that isn't the name's
        (REFUSALS, 128, b'4', Err(LogsError::NotPrinted)),
        (RAWS, 30, b'6', Err(LogsError::NotPrinted)),
        // another reply, and none
        (USER, 328, b'2', Ok(false)),
        (USER, 323, b'-', Err(LogsError::NotPrinted)),
        // raw lines of another process, of another room, and of no kind
        (RAWS, 5, b'1', Ok(false)),
        (RAWS, 251, b'5', Ok(false)),
        (RAWS, 19, b'r', Err(LogsError::NotPrinted)),
        // nothing changed
        (CONVERT, 0, b'h', Ok(true)),
    ];
    for (text, at, byte, want) in rows {
        assert_eq!(rt; keeps_its_logs(rt.alloc(), text, at, byte), want);
    }
    Ok(())
}

#[test]
fn a_moved_line_tells(rt: HostRuntime) -> Result<(), Fail> {
    let rows: [(&[u8], Result<Summary, LogsError>); 5] = [
        // the last newline dropped
        (
            b"handle 0 a 0\n1 open a = ok\nregion\nwire 2dfa5a41c51afe9aed2f7c84e01e33abb3da86033a1b017eed456fdb37788b70",
            Err(LogsError::NotPrinted),
        ),
        // two lines swapped
        (
            b"handle 0 a 0\n2 querycap a = ok 84000001 04000001\n1 open a = ok\nregion\nwire 2dfa5a41c51afe9aed2f7c84e01e33abb3da86033a1b017eed456fdb37788b70\n",
            Ok((0x2d, Some(0), 1)),
        ),
        // a step behind the last line, and one before the handle's head
        (
            b"handle 0 a 0\n1 open a = ok\n+ finish\nregion\nwire 2dfa5a41c51afe9aed2f7c84e01e33abb3da86033a1b017eed456fdb37788b70\n",
            Ok((0x2d, Some(0), 0)),
        ),
        (
            b"+ finish\nhandle 0 a 0\n1 open a = ok\nregion\nwire 2dfa5a41c51afe9aed2f7c84e01e33abb3da86033a1b017eed456fdb37788b70\n",
            Err(LogsError::NotPrinted),
        ),
        // a line behind the region's head
        (
            b"handle 0 a 0\nregion\n1 open a = ok\nwire 2dfa5a41c51afe9aed2f7c84e01e33abb3da86033a1b017eed456fdb37788b70\n",
            Err(LogsError::NotPrinted),
        ),
    ];
    for (text, want) in rows {
        assert_eq!(rt; told(rt.alloc(), text), want);
    }
    Ok(())
}
