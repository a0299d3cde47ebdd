ghost use Rattle.std.specs.Prelude.{◌≡◌, ◌≤◌, ◌<◌, length};
ghost use Rattle.vm_local.specs.Text.{small_of};

use std::marker::Model;

/// How many bytes one read or write carries at most.
pub const SMALL_LIMIT: usize = 256;

/// The bytes of one read or write: the first `len` of `bytes`, at most 256. Zeros stand behind
/// them. Contracts see them as the list of those bytes.
///
/// Source: own.
#[derive(Clone, Copy, Debug, PartialEq, Eq)]
pub struct Small {
    pub len: u16,
    pub bytes: [u8; 256],
}

impl Model for Small {
    ghost use Rattle.std.specs.Prelude.{◌≡◌, ℕ, ◌-◌, ◌≤◌, ◌++◌, List, length, take, replicate};
    ghost use Rattle.std.proofs.Common.{arith, length-take-le, ap, sym, ◌∙◌};

    ghost Value = { List ℕ };

    ghost view = { λ s. take s.len s.bytes };

    ghost invariant = { λ s. (s.len ≤ 256) × (length s.bytes ≡ 256) ×
        (s.bytes ≡ take s.len s.bytes ++ replicate (256 - s.len) 0) };

    ghost inverse = { λ xs. record {
      len = length xs;
      bytes = xs ++
          replicate (256 - length xs) 0;
    } };

    ghost inverse_ok = { λ s h i. record {
      len = length-take-le s.len s.bytes (omega (arith, h.0, h.1)) i;
      bytes = (ap (λ k. take s.len s.bytes ++ replicate (256 - k) 0)
          (length-take-le s.len s.bytes (omega (arith, h.0, h.1))) ∙ sym h.2) i;
    } };
}

impl Small {
    /// Just these bytes, or None exactly where there are more than 256.
    pub fn new(bytes: &[u8]) -> Option<Small>
        ensures { result ≡ small_of bytes.now }
    {
        if bytes.len() > SMALL_LIMIT {
            return None;
        }
        let mut padded = [0; SMALL_LIMIT];
        padded[..bytes.len()].copy_from_slice(bytes);
        Some(Small {
            len: bytes.len() as u16,
            bytes: padded,
        })
    }

    /// The bytes.
    pub fn as_bytes(&self) -> &[u8]
        ensures bytes { result.now ≡ self.now }
        ensures at_most_256 { length self.now ≤ 256 }
    {
        &self.bytes[..self.len as usize]
    }
}
