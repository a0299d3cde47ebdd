//! The words of the command line, as the system tells them.

ghost use Rattle.std.specs.Prelude.{◌≡◌};
ghost use Rattle.std.specs.IoError.{error_kind};

use std::env;
use std::io::{self, ErrorKind};
use std::rt::Env;

/// Why there are no words to judge.
#[derive(Clone, Copy, Debug, PartialEq, Eq)]
pub enum WordsError {
    /// A word isn't UTF-8.
    NotUtf8,
    /// There was no memory for the words.
    Memory,
}

impl From<io::Error> for WordsError {
    ghost use Rattle.std.specs.IoError.{error_kind};
    ghost use Rattle.vmedia.specs.Words.{words_error};

    ghost from_gives = { λ error cause. cause ≡ words_error (error_kind error) };

    fn from(error: io::Error) -> WordsError {
        match error.kind() {
            ErrorKind::InvalidData => WordsError::NotUtf8,
            _ => WordsError::Memory,
        }
    }
}

// The words after the program's name. std answers `InvalidData` where one isn't UTF-8.
fn told_words<R: Env + AllocGlobal>(rt: &R) -> io::Result<Vec<String>> {
    let mut words = Vec::new(rt.alloc());
    for word in env::args(rt)?.skip(1) {
        words.push(word)?;
    }
    Ok(words)
}

/// The words after the program's name.
///
/// # Errors
/// `NotUtf8` where a word of the command line isn't UTF-8, be it the program's name, and `Memory`
/// where there is none for the words.
///
/// Source: own.
pub fn words_of<R: Env + AllocGlobal>(rt: &R) -> Result<Vec<String>, WordsError> {
    Ok(told_words(rt)?)
}
