//! What words stand for in their places.

ghost use Rattle.std.specs.Prelude.{◌≡◌, ◌≤◌, ◌||◌, ℕ, IfOk, Ok, Err, if◌then◌else◌};
ghost use Rattle.std.specs.List.{list_all};
ghost use Rattle.std.specs.Option.{ok_or};
ghost use Rattle.std.specs.Str.{bytes_eq};
ghost use Rattle.vm_script.specs.declared.fault.ScriptKind.TheVariants.{Word, Name as NoName, Number};
ghost use Rattle.vm_script.specs.Words.{is_lower, is_digit, is_visible, begins_lower, name_in, code_in};
ghost use Rattle.vm_script.specs.Places.{count_in, type_in, memory_kind_in, between_in, bytes_in};

use crate::ScriptKind;
use crate::number::number_of;
use v4l_const::{BUF_TYPE_CAPTURE, BUF_TYPE_OUTPUT, MEMORY_MMAP, MEMORY_USERPTR};
use vm_local::{Name, SMALL_LIMIT, Small};

/// How many digits a count has at most.
const DIGIT_LIMIT: usize = 10;

const CAPTURE: &[u8] = b"cap";

const OUTPUT: &[u8] = b"out";

const MMAP: &[u8] = b"mmap";

const USERPTR: &[u8] = b"userptr";

/// Whether the word begins with a lower-case letter.
fn begins_lower(word: &[u8]) -> bool
    ensures { result ≡ begins_lower word.now }
{
    word.first().is_some_and(|byte| byte.is_ascii_lowercase())
}

/// Whether the word has only lower-case letters and digits.
fn is_plain(word: &[u8]) -> bool
    ensures { result ≡ list_all (λ b. is_lower b || is_digit b) word.now }
{
    word.iter()
        .all(|byte| byte.is_ascii_lowercase() || byte.is_ascii_digit())
}

/// Whether the word has only visible bytes.
fn is_visible(word: &[u8]) -> bool
    ensures { result ≡ list_all is_visible word.now }
{
    word.iter().all(|byte| byte.is_ascii_graphic())
}

/// The name that a word is: 1 to 8 lower-case letters and digits, a letter first.
///
/// # Errors
/// `Name` for any other word.
pub fn name_of(word: &[u8]) -> Result<Name, ScriptKind>
    ensures { result ≡ ok_or (name_in word.now) NoName }
{
    if !begins_lower(word) || !is_plain(word) {
        return Err(ScriptKind::Name);
    }
    Name::new(word).ok_or(ScriptKind::Name)
}

/// The number that a word writes: 1 to 10 decimal digits, at most 4,294,967,295.
///
/// # Errors
/// `Number` for any other word.
pub fn count_of(word: &[u8]) -> Result<u32, ScriptKind>
    ensures { result ≡ ok_or (count_in word.now) Number }
{
    let number = number_of(word, DIGIT_LIMIT, u64::from(u32::MAX)).ok_or(ScriptKind::Number)?;
    Ok(number as u32)
}

/// The buffer type that a word is: `cap`, `out` or a number.
///
/// # Errors
/// `Number` for any other word.
pub fn type_of(word: &[u8]) -> Result<u32, ScriptKind>
    ensures { result ≡ ok_or (type_in word.now) Number }
{
    if word == CAPTURE {
        Ok(BUF_TYPE_CAPTURE)
    } else if word == OUTPUT {
        Ok(BUF_TYPE_OUTPUT)
    } else {
        count_of(word)
    }
}

/// The kind of memory that a word is: `mmap`, `userptr` or a number.
///
/// # Errors
/// `Number` for any other word.
pub fn memory_kind_of(word: &[u8]) -> Result<u32, ScriptKind>
    ensures { result ≡ ok_or (memory_kind_in word.now) Number }
{
    if word == MMAP {
        Ok(MEMORY_MMAP)
    } else if word == USERPTR {
        Ok(MEMORY_USERPTR)
    } else {
        count_of(word)
    }
}

/// The number from `least` to `most` that a word writes.
///
/// # Errors
/// `Number` for any other word.
pub fn between_of(word: &[u8], least: u32, most: u32) -> Result<u32, ScriptKind>
    ensures number { result ≡ ok_or (between_in least most word.now) Number }
    ensures most { IfOk result (λ n. n ≤ most) }
{
    let number = count_of(word)?;
    if number < least || number > most {
        return Err(ScriptKind::Number);
    }
    Ok(number)
}

/// The picture format's code that a word is: four visible bytes.
///
/// # Errors
/// `Word` for any other word.
pub fn code_of(word: &[u8]) -> Result<u32, ScriptKind>
    ensures { result ≡ ok_or (code_in word.now) Word }
{
    if !is_visible(word) {
        return Err(ScriptKind::Word);
    }
    match word {
        [a, b, c, d] => Ok(u32::from_le_bytes([*a, *b, *c, *d])),
        _ => Err(ScriptKind::Word),
    }
}

/// The bytes that a word writes: 1 to 256, two hexadecimal digits of either case for each.
///
/// # Errors
/// `Word` for any other word.
#[tactic(auto, using(crate::proofs::ByteLemmas::bytes_none, crate::proofs::ByteLemmas::bytes_many))]
pub fn bytes_of(word: &[u8]) -> Result<Small, ScriptKind>
    ensures { result ≡ ok_or (bytes_in word.now) Word }
{
    let size = word.len() / 2;
    if size == 0 || size > SMALL_LIMIT {
        return Err(ScriptKind::Word);
    }
    let mut bytes = [0; SMALL_LIMIT];
    hex::decode_to_slice(word, &mut bytes[..size]).map_err(|_| ScriptKind::Word)?;
    Small::new(&bytes[..size]).ok_or(ScriptKind::Word)
}

/// Asks for one word alone.
///
/// # Errors
/// `Word` for any other word.
pub fn this(wanted: &[u8], word: &[u8]) -> Result<(), ScriptKind>
    ensures { result ≡ (if bytes_eq word.now wanted.now then Ok tt else Err Word) }
{
    if word == wanted {
        Ok(())
    } else {
        Err(ScriptKind::Word)
    }
}
