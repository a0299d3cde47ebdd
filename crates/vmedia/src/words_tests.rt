use crate::words::{WordsError, words_of};
use std::alloc::Global;
use std::env::FillError;
use std::rt::Env;
use std::test::Fail;

/// A command line of these words, the program's name among them.
#[derive(Drop)]
struct CommandLine(&'static [&'static [u8]]);

impl Env for CommandLine {
    fn arg(&self, i: usize, buf: &mut [u8]) -> Result<usize, FillError> {
        let Some(word) = self.0.get(i) else {
            return Err(FillError::NotPresent);
        };
        if buf.len() < word.len() {
            return Err(FillError::TooLong);
        }
        buf[..word.len()].copy_from_slice(word);
        Ok(word.len())
    }

    fn var(&self, _name: &str, _buf: &mut [u8]) -> Result<usize, FillError> {
        Err(FillError::NotPresent)
    }

    fn var_at(&self, _i: usize, _buf: &mut [u8]) -> Result<usize, FillError> {
        Err(FillError::NotPresent)
    }
}

#[test]
fn a_word_that_is_not_utf_8_is_no_want_of_memory(rt: HostRuntime) -> Result<(), Fail> {
    let lines: [(&'static [&'static [u8]], Result<usize, WordsError>); 6] = [
        (&[], Ok(0)),
        (&[b"vmedia"], Ok(0)),
        (&[b"vmedia", b"step", b"0"], Ok(2)),
        (&[b"vmedia", b"step", b"\xc3\xa9"], Ok(2)),
        (&[b"vmedia", b"step", b"\xff"], Err(WordsError::NotUtf8)),
        (&[b"vmedia", b"\xc3", b"0"], Err(WordsError::NotUtf8)),
    ];
    for (line, want) in lines {
        let told = words_of(&(CommandLine(line), rt.alloc()));
        assert_eq!(rt; told.map(|words| words.len()), want);
    }
    Ok(())
}
