//! Bytes, numbers and words that are added to a text.

ghost use Rattle.std.specs.Prelude.{◌≡◌, ◌≤◌, ◌∷◌, ◌++◌, OnOk, length};
ghost use Rattle.std.specs.Fmt.{decimal};
ghost use Rattle.hex.specs.Hex.{IsBytes, encode_lower};
ghost use Rattle.vm_report.specs.Text.{flags_text, address_text, code_text};

use itoa::Buffer;
use v4l_const::FourCc;
use vm_local::SMALL_LIMIT;
use vm_mem::Memory;

/// How many hexadecimal digits the longest bytes have.
const DIGITS: usize = 2 * SMALL_LIMIT;

/// Adds bytes to a text.
///
/// # Errors
/// `Memory` where there is none for them.
pub fn push(text: &mut Vec<u8>, bytes: &[u8]) -> Result<(), Memory>
    ensures { OnOk result (text.new.items ≡ text.old.items ++ bytes.now) }
{
    text.extend_from_slice(bytes)?;
    Ok(())
}

/// Adds a number to a text, in decimal digits.
///
/// # Errors
/// `Memory` where there is none for them.
pub fn push_number(text: &mut Vec<u8>, number: u32) -> Result<(), Memory>
    ensures { OnOk result (text.new.items ≡ text.old.items ++ decimal number) }
{
    push(text, Buffer::new().format(number).as_bytes())
}

/// Adds a space and a word.
pub fn push_word(text: &mut Vec<u8>, word: &[u8]) -> Result<(), Memory>
    ensures { OnOk result (text.new.items ≡ text.old.items ++ 32 ∷ word.now) }
{
    push(text, b" ")?;
    push(text, word)
}

/// Adds a space and a number.
pub fn push_decimal(text: &mut Vec<u8>, number: u32) -> Result<(), Memory>
    ensures { OnOk result (text.new.items ≡ text.old.items ++ 32 ∷ decimal number) }
{
    push(text, b" ")?;
    push_number(text, number)
}

/// Adds a space and bytes in hexadecimal digits.
pub fn push_hex(text: &mut Vec<u8>, bytes: &[u8]) -> Result<(), Memory>
    requires { length bytes.now ≤ 256 }
    ensures text { OnOk result (text.new.items ≡ text.old.items ++ 32 ∷ encode_lower bytes.now) }
    ensures fits { IsBytes bytes.now }
{
    let mut digits = [0; DIGITS];
    let end = 2 * bytes.len();
    hex::encode_to_slice(bytes, &mut digits[..end]).unwrap();
    push_word(text, &digits[..end])
}

/// Adds a space and flags.
#[tactic(auto, unfolding(crate::specs::Text::flags_text))]
pub fn push_flags(text: &mut Vec<u8>, flags: u32) -> Result<(), Memory>
    ensures { OnOk result (text.new.items ≡ text.old.items ++ 32 ∷ flags_text flags) }
{
    push_hex(text, &flags.to_be_bytes())
}

/// Adds a space and an address.
#[tactic(auto, unfolding(crate::specs::Text::address_text))]
pub fn push_address(text: &mut Vec<u8>, address: u64) -> Result<(), Memory>
    ensures { OnOk result (text.new.items ≡ text.old.items ++ 32 ∷ address_text address) }
{
    push_hex(text, &address.to_be_bytes())
}

/// Adds a space and the letters of a format's code.
#[tactic(auto, unfolding(crate::specs::Text::code_text))]
pub fn push_code(text: &mut Vec<u8>, code: FourCc) -> Result<(), Memory>
    ensures { OnOk result (text.new.items ≡ text.old.items ++ 32 ∷ code_text code) }
{
    push_word(text, &code.0.to_le_bytes())
}

/// Adds a space and a timestamp in microseconds.
pub fn push_timestamp(text: &mut Vec<u8>, timestamp: u64) -> Result<(), Memory>
    ensures { OnOk result (text.new.items ≡ text.old.items ++ 32 ∷ decimal timestamp) }
{
    push_word(text, Buffer::new().format(timestamp).as_bytes())
}
