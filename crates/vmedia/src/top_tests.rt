mod converter;
mod processes;
mod programs;
pub(crate) mod rows;

use crate::top::top_plain;
use rows::CAPTURE;
use std::alloc::{AllocError, Global};
use std::test::Fail;
use vm_io::{Engine, MemSink, MemSource, ScriptedEngine, SureEngine};

// A script that sets, tries and asks formats, and its text.
const FORMATS: &[u8] = b"\
open a\n\
sfmt a cap ABCD 641 1\n\
tryfmt a cap NV12 17 481\n\
tryfmt a cap RGB3 0 4294967295\n\
gfmt a cap\n\
";

const FORMATS_TEXT: &[u8] = b"\
handle 0 a 0\n\
1 open a = ok\n\
2 sfmt a cap ABCD 641 1 = ok GREY 640 16 640 10240\n\
3 tryfmt a cap NV12 17 481 = ok NV12 16 480 16 11520\n\
4 tryfmt a cap RGB3 0 4294967295 = ok RGB3 16 480 48 23040\n\
5 gfmt a cap = ok GREY 640 16 640 10240\n\
region\n\
wire 40fab78172e223ddf868ebbaae76d07c9cca4911c1680b8c6403ee0de9f902cc\n\
";

/// What lies outside: how many bytes the source gives a call and the sink takes, how many bytes the
/// sink has room for, and the numbers of the calls at which each fails.
#[derive(Clone, Copy)]
struct Outside {
    piece: usize,
    room: usize,
    source_fails: &'static [u64],
    sink_fails: &'static [u64],
}

/// An outside that doesn't fail.
const SURE: Outside = Outside {
    piece: 4096,
    room: 4096,
    source_fails: &[],
    sink_fails: &[],
};

/// The status, and what the sink then holds.
#[derive(Drop)]
struct Told {
    status: u8,
    sink: MemSink,
}

/// What is told to words and a script, with an engine.
fn answer_by<E: Engine>(
    alloc: Global,
    words: &[&str],
    script: &[u8],
    outside: &Outside,
    engine: &mut E,
) -> Result<Told, AllocError> {
    let mut line = Vec::new(alloc);
    for word in words {
        line.push(String::from_str(alloc, word)?)?;
    }
    let piece = outside.piece.max(1);
    let mut source = MemSource::new(
        Vec::from_slice(alloc, script)?,
        piece,
        Vec::from_slice(alloc, outside.source_fails)?,
    );
    let mut sink = MemSink::new(
        vec![in alloc; 0; outside.room]?,
        piece,
        Vec::from_slice(alloc, outside.sink_fails)?,
    );
    let status = top_plain(alloc, &line, &mut source, &mut sink, engine);
    Ok(Told { status, sink })
}

/// The same, with an engine that doesn't fail.
fn answer_of(
    alloc: Global,
    words: &[&str],
    script: &[u8],
    outside: &Outside,
) -> Result<Told, AllocError> {
    answer_by(alloc, words, script, outside, &mut SureEngine::new())
}

const EMPTY: &[u8] =
    b"region\nwire e3b0c44298fc1c149afbf4c8996fb92427ae41e4649b934ca495991b7852b855\n";

const OPEN_CLOSE: &[u8] =
    b"handle 0 a 0\n1 open a = ok\n2 close a = ok\nregion\nwire 989fe555f0346a6e44705d83652bdf0d955caa2edeb1a615d82b93d7c7a00851\n";

/// Several handles, with a comment, a blank line, tabs, closes of closed handles and no last
/// newline.
const SEVERAL: &[u8] =
    b"# three handles\n\nopen a\n\topen  b \r\nclose a\nclose a\nopen c9\n# more\nclose c9\nclose b\nclose b";

const SEVERAL_TEXT: &[u8] =
    b"handle 0 a 0\n3 open a = ok\n5 close a = ok\n6 close a = err 9 EBADF\nhandle 0 b 1\n4 open b = ok\n10 close b = ok\n11 close b = err 9 EBADF\nhandle 0 c9 2\n7 open c9 = ok\n9 close c9 = ok\nregion\nwire b7bc582e23478317bccb88c62950db9b0f5bf4c9be9ddaf22bf55446725408d0\n";

const USAGE: &[u8] = b"usage: vmedia check | step SEED | bulk N | run W\n";

#[test]
fn tells_runs_faults_and_usage(rt: HostRuntime) -> Result<(), Fail> {
    let cases: [(&[&str], &[u8], u8, &[u8]); 21] = [
        (&["step", "0"], b"", 0, EMPTY),
        (&["step", "0"], b"device convert\nproc\n", 0, EMPTY),
        (&["step", "0"], b"open a\nclose a\n", 0, OPEN_CLOSE),
        (
            &["step", "18446744073709551615"],
            b"open\ta\r\nclose  a",
            0,
            OPEN_CLOSE,
        ),
        (&["step", "007"], SEVERAL, 0, SEVERAL_TEXT),
        (&["step", "0"], FORMATS, 0, FORMATS_TEXT),
        (&["step", "1"], FORMATS, 0, FORMATS_TEXT),
        (&["step", "18446744073709551616"], b"", 2, USAGE),
        (&["step"], b"", 2, USAGE),
        (&["step", "-1"], b"", 2, USAGE),
        (&["run", "5"], b"", 2, USAGE),
        (&["bulk", "0"], b"", 2, USAGE),
        (
            &["step", "0"],
            b"open a\nopen a\n",
            3,
            b"script 2 OpenTwice\n",
        ),
        (
            &["step", "0"],
            b"open a\nproc\nraw chain loop\n",
            3,
            b"script 3 NotBuilt\n",
        ),
        (
            &["step", "0"],
            b"open a\n\ndevice capture\n",
            3,
            b"script 3 Word\n",
        ),
        (&["step", "0"], b"open a\nsfm", 3, b"script 2 Word\n"),
        (&["step", "0"], b"open 9x\n", 3, b"script 1 Name\n"),
        (
            &["step", "0"],
            b"open a\nsinput a x\n",
            3,
            b"script 2 Number\n",
        ),
        (
            &["step", "0"],
            b"open a\nsinput a 4294967296\n",
            3,
            b"script 2 Number\n",
        ),
        (
            &["step", "0"],
            b"open a\nclose b\n",
            3,
            b"script 2 NotDeclared\n",
        ),
        (
            &["step", "0"],
            b"proc\nproc\nproc\nproc\nproc\nproc\nproc\nproc\nproc\nproc\nproc\nproc\nproc\nproc\nproc\nproc\n",
            3,
            b"script 16 TooManyProcesses\n",
        ),
    ];
    for (words, script, status, text) in cases {
        let told = answer_of(rt.alloc(), words, script, &SURE)?;
        assert_eq!(rt; told.status, status);
        assert_eq!(rt; told.sink.held(), text);
    }
    Ok(())
}

/// Whether a line stands in a text.
fn has_line(text: &[u8], line: &[u8]) -> bool {
    text.split(|byte| *byte == b'\n').any(|own| own == line)
}

/// A `dqbuf` and a `read` of its bytes.
type Taking = (&'static [u8], &'static [u8]);

/// What the pictures of a run tell where the engine makes them all.
const GOOD: [Taking; 4] = [
    (
        b"14 dqbuf a cap = ok 0 256 0 0 00002001",
        b"15 read a m0 0 8 = ok 0001020304050607",
    ),
    (
        b"17 dqbuf a cap = ok 1 256 1 40000 00002001",
        b"18 read a m1 0 8 = ok 0102030405060708",
    ),
    (
        b"20 dqbuf a cap = ok 2 256 2 80000 00002001",
        b"21 read a m2 0 8 = ok 0203040506070809",
    ),
    (
        b"23 dqbuf a cap = ok 3 256 3 120000 00002001",
        b"24 read a m3 0 8 = ok 030405060708090a",
    ),
];

/// What each of them tells where the engine fails at it.
const FAILED: [Taking; 4] = [
    (
        b"14 dqbuf a cap = ok 0 0 0 0 00002041",
        b"15 read a m0 0 8 = ok 0000000000000000",
    ),
    (
        b"17 dqbuf a cap = ok 1 0 1 40000 00002041",
        b"18 read a m1 0 8 = ok 0000000000000000",
    ),
    (
        b"20 dqbuf a cap = ok 2 0 2 80000 00002041",
        b"21 read a m2 0 8 = ok 0000000000000000",
    ),
    (
        b"23 dqbuf a cap = ok 3 0 3 120000 00002041",
        b"24 read a m3 0 8 = ok 0000000000000000",
    ),
];

#[test]
fn tells_the_frame_at_which_the_engine_fails(rt: HostRuntime) -> Result<(), Fail> {
    for k in 0..4 {
        let mut engine = ScriptedEngine::new(vec![in rt.alloc(); k as u64 + 1; 1]?);
        let words = ["step", "0"];
        let told = answer_by(rt.alloc(), &words, CAPTURE, &SURE, &mut engine)?;
        assert_eq!(rt; told.status, 0);
        for i in 0..4 {
            let (taken, read) = if i == k { FAILED[i] } else { GOOD[i] };
            assert!(rt; has_line(told.sink.held(), taken));
            assert!(rt; has_line(told.sink.held(), read));
        }
    }
    Ok(())
}

/// An outside with pieces of ten bytes, in which this fails.
const fn tens(room: usize, source_fails: &'static [u64], sink_fails: &'static [u64]) -> Outside {
    Outside {
        piece: 10,
        room,
        source_fails,
        sink_fails,
    }
}

#[test]
fn tells_a_failing_outside(rt: HostRuntime) -> Result<(), Fail> {
    let script: &[u8] = b"open a\nclose a\n";
    let (step, run): (&[&str], &[&str]) = (&["step", "0"], &["run", "5"]);
    let cases: [(&[&str], &[u8], Outside, u8, &[u8]); 9] = [
        // The script has 15 bytes, and is read by three calls.
        (step, script, tens(800, &[1], &[]), 4, b""),
        (step, script, tens(800, &[2], &[]), 4, b""),
        (step, script, tens(800, &[3], &[]), 4, b""),
        (step, CAPTURE, tens(800, &[2], &[]), 4, b""),
        // Words are judged before anything is read.
        (run, script, tens(800, &[1], &[]), 2, USAGE),
        (
            run,
            script,
            tens(800, &[1], &[3]),
            5,
            b"usage: vmedia check ",
        ),
        // The sink takes ten bytes, or fails at its second call.
        (step, script, tens(10, &[], &[]), 5, b"handle 0 a"),
        (step, CAPTURE, tens(10, &[], &[]), 5, b"handle 0 a"),
        (step, script, tens(800, &[], &[2]), 5, b"handle 0 a"),
    ];
    for (words, script, outside, status, text) in cases {
        let told = answer_of(rt.alloc(), words, script, &outside)?;
        assert_eq!(rt; told.status, status);
        assert_eq!(rt; told.sink.held(), text);
    }
    Ok(())
}

#[test]
fn tells_too_many_bytes_and_statements(rt: HostRuntime) -> Result<(), Fail> {
    let long = vec![in rt.alloc(); b'\n'; 4_194_305]?;
    let told = answer_of(rt.alloc(), &["step", "0"], &long, &SURE)?;
    assert_eq!(rt; told.status, 3);
    assert_eq!(rt; told.sink.held(), b"script 0 TooLong\n".as_slice());
    let mut many = Vec::new(rt.alloc());
    many.extend_from_slice(b"open a\n")?;
    for _ in 0..1024 {
        many.extend_from_slice(b"close a\n")?;
    }
    let told = answer_of(rt.alloc(), &["step", "0"], &many, &SURE)?;
    assert_eq!(rt; told.status, 3);
    assert_eq!(rt; told.sink.held(), b"script 1025 TooManyLines\n".as_slice());
    Ok(())
}
