//! Numbers, bytes and names as words, each read only where it is written just as it is printed.

ghost use Rattle.std.specs.Prelude.{◌≡◌, ◌≤◌, length, IfSome};
ghost use Rattle.std.specs.Str.{bytes_eq};
ghost use Rattle.hex.specs.Hex.{encode_lower};
ghost use Rattle.vm_report.specs.Reading.{Reads, number_told, count_told, long_told, bytes_told, flags_told, address_told, small_told, code_told, input_told};

use itoa::Buffer;
use v4l_const::FourCc;
use vm_local::{SMALL_LIMIT, Small};
use vm_script::number_of;
use vm_wire::input_name;

/// How many digits a number has at most.
const DIGIT_LIMIT: usize = 20;

/// How many hexadecimal digits the longest bytes have.
const HEX_LIMIT: usize = 2 * SMALL_LIMIT;

/// The number up to a limit that this word is printed of.
fn number_in(word: &[u8], limit: u64) -> Option<u64>
    ensures number { result ≡ number_told limit word.now }
    ensures limit { IfSome result (λ n. n ≤ limit) }
{
    let number = number_of(word, DIGIT_LIMIT, limit)?;
    if Buffer::new().format(number).as_bytes() == word {
        Some(number)
    } else {
        // It has zeros in front.
        None
    }
}

/// The number of 32 bits that this word is printed of.
pub fn count_in(word: &[u8]) -> Option<u32>
    ensures { result ≡ count_told word.now }
{
    let number = number_in(word, u64::from(u32::MAX))?;
    Some(number as u32)
}

/// The number of 64 bits that this word is printed of.
pub fn long_in(word: &[u8]) -> Option<u64>
    ensures { result ≡ long_told word.now }
{
    number_in(word, u64::MAX)
}

/// Whether the word is printed of these bytes.
fn is_printed(bytes: &[u8], word: &[u8]) -> bool
    requires { length bytes.now ≤ 256 }
    ensures { result ≡ bytes_eq (encode_lower bytes.now) word.now }
{
    let mut digits = [0; HEX_LIMIT];
    let end = 2 * bytes.len();
    hex::encode_to_slice(bytes, &mut digits[..end]).unwrap();
    &digits[..end] == word
}

/// Reads just as many bytes as there is room for, of lower-case hexadecimal digits. Whether the
/// word is printed of such.
fn read_bytes(word: &[u8], bytes: &mut [u8]) -> bool
    requires { length bytes.old ≤ 256 }
    ensures { Reads (bytes_told (length bytes.old) word.now) result bytes.new }
{
    let Ok(()) = hex::decode_to_slice(word, bytes) else {
        return false;
    };
    is_printed(&*bytes, word)
}

/// The flags that this word is printed of: 8 hexadecimal digits.
pub fn flags_in(word: &[u8]) -> Option<u32>
    ensures { result ≡ flags_told word.now }
{
    let mut bytes = [0; 4];
    if read_bytes(word, &mut bytes) {
        Some(u32::from_be_bytes(bytes))
    } else {
        None
    }
}

/// The address that this word is printed of: 16 hexadecimal digits.
pub fn address_in(word: &[u8]) -> Option<u64>
    ensures { result ≡ address_told word.now }
{
    let mut bytes = [0; 8];
    if read_bytes(word, &mut bytes) {
        Some(u64::from_be_bytes(bytes))
    } else {
        None
    }
}

/// The digest that this word is printed of: 64 hexadecimal digits.
pub fn digest_in(word: &[u8]) -> Option<[u8; 32]>
    ensures { result ≡ bytes_told 32 word.now }
{
    let mut bytes = [0; 32];
    if read_bytes(word, &mut bytes) {
        Some(bytes)
    } else {
        None
    }
}

/// The bytes of one read that this word is printed of: at most 256.
pub fn small_in(word: &[u8]) -> Option<Small>
    ensures { result ≡ small_told word.now }
{
    let size = word.len() / 2;
    if size > SMALL_LIMIT {
        return None;
    }
    let mut bytes = [0; SMALL_LIMIT];
    if read_bytes(word, &mut bytes[..size]) {
        Small::new(&bytes[..size])
    } else {
        None
    }
}

/// The format's code that this word is printed of: four visible bytes.
pub fn code_in(word: &[u8]) -> Option<FourCc>
    ensures { result ≡ code_told word.now }
{
    let code = vm_script::code_of(word).ok()?;
    Some(FourCc(code))
}

/// The input whose name this word is.
pub fn input_in(word: &[u8]) -> Option<u32>
    ensures { result ≡ input_told word.now }
{
    if input_name(0).as_bytes() == word {
        Some(0)
    } else if input_name(1).as_bytes() == word {
        Some(1)
    } else if input_name(2).as_bytes() == word {
        Some(2)
    } else if input_name(3).as_bytes() == word {
        Some(3)
    } else {
        None
    }
}
