//! The words of a script's line.

ghost use Rattle.std.specs.Prelude.{◌≡◌, IfOk, map};
ghost use Rattle.std.specs.List.{join_with_byte};
ghost use Rattle.vm_script.specs.Words.{words_in, parts_words};

use crate::Echo;
use std::alloc::Global;
use vm_mem::Memory;

const SPACE: u8 = b' ';

const TAB: u8 = b'\t';

const CARRIAGE_RETURN: u8 = b'\r';

/// Whether this byte parts words.
fn parts_words(byte: u8) -> bool
    ensures { result ≡ parts_words byte }
{
    byte == SPACE || byte == TAB || byte == CARRIAGE_RETURN
}

/// The words of a line, in order.
///
/// # Errors
/// `Memory` where there is none for their places.
pub fn words_in(alloc: Global, line: &[u8]) -> Result<Vec<&[u8]>, Memory>
    ensures { IfOk result (λ words. map (λ word. word.now) words.items ≡ words_in line.now) }
{
    let words = line
        .split(|byte| parts_words(*byte))
        .filter(|word| !word.is_empty());
    Ok(words.collect(alloc)?)
}

/// Words, joined by one space.
///
/// # Errors
/// `Memory` where there is none for the text.
pub fn echo_of(alloc: Global, words: &[&[u8]]) -> Result<Echo, Memory>
    ensures { IfOk result (λ echo. echo ≡ join_with_byte 32 (map (λ word. word.now) words.now)) }
{
    let mut text = Vec::new(alloc);
    for (place, word) in words.iter().enumerate() {
        if place > 0 {
            text.push(SPACE)?;
        }
        text.extend_from_slice(word)?;
    }
    Echo::new(alloc, &text)
}
