//! Numbers as words.

ghost use Rattle.std.specs.Prelude.{◌≡◌, ◌≤◌, ◌^◌, ◌+◌, ◌*◌, ◌-◌, ◌&&◌, nat_le, IfSome, Some, None, if◌then◌else◌};
ghost use Rattle.vm_script.specs.Words.{is_digit, number_in};

/// A number with a digit behind it: `None` where the byte is no digit, or the number would be above
/// the limit.
fn with_digit(number: u64, digit: u8, limit: u64) -> Option<u64>
    ensures { result ≡ (if is_digit digit && nat_le (10 * number + (digit - 48)) limit then Some
        (10 * number + (digit - 48)) else None) }
{
    if !digit.is_ascii_digit() {
        return None;
    }
    let next = u128::from(number) * 10 + u128::from(digit - b'0');
    if next > u128::from(limit) {
        return None;
    }
    Some(next as u64)
}

/// The number that a word of 1 to `most` decimal digits writes. `None` for any other word, and
/// above `limit`. Leading zeros are digits like others.
///
/// Source: own.
#[tactic(auto, using(crate::proofs::NumberLemmas::digits_step, crate::proofs::NumberLemmas::number_by_digits))]
pub fn number_of(word: &[u8], most: usize, limit: u64) -> Option<u64>
    ensures number { result ≡ number_in most limit word.now }
    ensures limit { IfSome result (λ n. n ≤ limit) }
{
    if word.is_empty() || word.len() > most {
        return None;
    }
    let mut number = 0;
    for &digit in word {
        number = with_digit(number, digit, limit)?;
    }
    Some(number)
}
