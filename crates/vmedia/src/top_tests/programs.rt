// What `check` and `bulk` tell.

use super::rows::CAPTURE;
use super::{Outside, SURE, USAGE, answer_of, tens};
use std::test::Fail;

// Three processes, the second without statements.
const THREE: &[u8] = b"device convert\nopen a\nproc\n# none\nproc\nopen b\nclose b";

const BULK_1: &[u8] =
    b"bulk 1 lines 199 frames 60 digest 29557b25a2ba87a7e284b60c726d0c56b96d69a14a68729334527011f5c141ba\n";

const BULK_2: &[u8] =
    b"bulk 2 lines 398 frames 120 digest 64ff8233f9acb86d9d143fe9586021d5a5d54d7e626c4d62fbc48d3640a09a6d\n";

const BULK_6: &[u8] =
    b"bulk 6 lines 1194 frames 360 digest 2e57bddd6c11f142d171b73db87d0853d4321419b0ab2a2c144432c98ae268b5\n";

const BULK_16: &[u8] =
    b"bulk 16 lines 3184 frames 960 digest d927df9c89191937655c7c0216c666c9c1f8cc8226e6c1b415bb6eacb77fd219\n";

#[test]
fn counts_scripts(rt: HostRuntime) -> Result<(), Fail> {
    let cases: [(&[&str], &[u8], u8, &[u8]); 8] = [
        (&["check"], b"", 0, b"ok 1 0\n"),
        (&["check"], b"open a\nclose a\n", 0, b"ok 1 2\n"),
        (&["check"], CAPTURE, 0, b"ok 1 31\n"),
        (&["check"], THREE, 0, b"ok 3 3\n"),
        (&["check"], b"open a\nsfm", 3, b"script 2 Word\n"),
        (&["check"], b"open 9x\n", 3, b"script 1 Name\n"),
        (&["check", "0"], b"", 2, USAGE),
        (&["Check"], b"", 2, USAGE),
    ];
    for (words, script, status, text) in cases {
        let told = answer_of(rt.alloc(), words, script, &SURE)?;
        assert_eq!(rt; told.status, status);
        assert_eq!(rt; told.sink.held(), text);
    }
    Ok(())
}

// The source fails at its first call: `bulk` makes none. The sink fails at its second in the last.
#[test]
fn runs_scripts_that_are_made(rt: HostRuntime) -> Result<(), Fail> {
    let cases: [(&[&str], Outside, u8, &[u8]); 9] = [
        (&["bulk", "1"], tens(800, &[1], &[]), 0, BULK_1),
        (
            &["bulk", "00000000000000000001"],
            tens(800, &[1], &[]),
            0,
            BULK_1,
        ),
        (&["bulk", "2"], tens(800, &[1], &[]), 0, BULK_2),
        (&["bulk", "6"], tens(800, &[1], &[]), 0, BULK_6),
        (&["bulk", "1"], tens(800, &[1], &[2]), 5, b"bulk 1 lin"),
        (&["bulk"], SURE, 2, USAGE),
        (&["bulk", "17"], SURE, 2, USAGE),
        (&["bulk", "1", "1"], SURE, 2, USAGE),
        (&["bulk", "000000000000000000001"], SURE, 2, USAGE),
    ];
    for (words, outside, status, text) in cases {
        let told = answer_of(rt.alloc(), words, b"open 9x\n", &outside)?;
        assert_eq!(rt; told.status, status);
        assert_eq!(rt; told.sink.held(), text);
    }
    Ok(())
}

#[test]
fn runs_the_longest_script_that_is_made(rt: HostRuntime) -> Result<(), Fail> {
    let told = answer_of(rt.alloc(), &["bulk", "16"], b"", &SURE)?;
    assert_eq!(rt; told.status, 0);
    assert_eq!(rt; told.sink.held(), BULK_16);
    Ok(())
}
