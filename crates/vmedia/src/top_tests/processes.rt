// As many processes as there may be, each of as many statements as it may have.

use super::{Outside, answer_of};
use std::alloc::AllocError;
use std::test::Fail;

// Room for all that is printed.
const WIDE: Outside = Outside {
    piece: 65536,
    room: 2_097_152,
    source_fails: &[],
    sink_fails: &[],
};

// Adds a process of 1,024 statements, which takes 509 pictures.
fn add_process(script: &mut Vec<u8>) -> Result<(), AllocError> {
    script.extend_from_slice(b"open a\nsfmt a cap GREY 16 16\nreqbufs a cap mmap 1\n")?;
    script.extend_from_slice(b"streamon a cap\n")?;
    for _ in 0..509 {
        script.extend_from_slice(b"qbuf a cap 0\ndqbuf a cap\n")?;
    }
    script.extend_from_slice(b"streamoff a cap\nclose a\n")
}

// How often a word stands in a text.
fn count_of(text: &[u8], word: &[u8]) -> usize {
    text.split(|byte| *byte == b' ')
        .filter(|own| *own == word)
        .count()
}

#[test]
fn tells_every_statement_of_every_process(rt: HostRuntime) -> Result<(), Fail> {
    let mut script = Vec::new(rt.alloc());
    add_process(&mut script)?;
    for _ in 1..16 {
        script.extend_from_slice(b"proc\n")?;
        add_process(&mut script)?;
    }
    let told = answer_of(rt.alloc(), &["step", "16"], &script, &WIDE)?;
    assert_eq!(rt; told.status, 0);
    let text = told.sink.held();
    // Of each statement an answer, which is no error.
    assert_eq!(rt; (count_of(text, b"="), count_of(text, b"err")), (16384, 0));
    // Of each process a line, of each statement one, of each picture three; and the last two.
    let lines = text.split(|byte| *byte == b'\n').count() - 1;
    assert_eq!(rt; lines, 16 + 16384 + 3 * 16 * 509 + 2);
    Ok(())
}
