ghost use Rattle.std.specs.Prelude.{◌≡◌, ◌≤◌, ◌<◌, length};
ghost use Rattle.std.specs.Str.{bytes_eq};
ghost use Rattle.vm_local.specs.Text.{name_of};

use std::marker::Model;

/// How many bytes a name has at most.
pub const NAME_LIMIT: usize = 8;

/// The name by which a script's line speaks of a handle, a mapping or user memory: the first `len`
/// of `bytes`, 1 to 8. Zeros stand behind them. Contracts see a name as the list of its bytes.
///
/// Source: own.
#[derive(Clone, Copy, Debug, PartialEq, Eq)]
pub struct Name {
    pub len: u8,
    pub bytes: [u8; 8],
}

impl Model for Name {
    ghost use Rattle.std.specs.Prelude.{◌≡◌, ℕ, ◌-◌, ◌≤◌, ◌++◌, List, length, take, replicate};
    ghost use Rattle.std.proofs.Common.{arith, length-take-le, ap, sym, ◌∙◌};

    ghost Value = { List ℕ };

    ghost view = { λ n. take n.len n.bytes };

    ghost invariant = { λ n. (1 ≤ n.len) × (n.len ≤ 8) × (length n.bytes ≡ 8) ×
        (n.bytes ≡ take n.len n.bytes ++ replicate (8 - n.len) 0) };

    ghost inverse = { λ xs. record { len = length xs; bytes = xs ++ replicate (8 - length xs) 0 } };

    ghost inverse_ok = { λ n h i. record {
      len = length-take-le n.len n.bytes (omega (arith, h.1, h.2)) i;
      bytes = (ap (λ k. take n.len n.bytes ++ replicate (8 - k) 0)
          (length-take-le n.len n.bytes (omega (arith, h.1, h.2))) ∙ sym h.3) i;
    } };
}

impl Name {
    /// The name with these bytes, or None exactly where there are none or more than 8.
    pub fn new(bytes: &[u8]) -> Option<Name>
        ensures { result ≡ name_of bytes.now }
    {
        if bytes.is_empty() || bytes.len() > NAME_LIMIT {
            return None;
        }
        let mut padded = [0; NAME_LIMIT];
        padded[..bytes.len()].copy_from_slice(bytes);
        Some(Name {
            len: bytes.len() as u8,
            bytes: padded,
        })
    }

    /// The name's bytes.
    pub fn as_bytes(&self) -> &[u8]
        ensures bytes { result.now ≡ self.now }
        ensures one_or_more { 1 ≤ length self.now }
        ensures eight_or_less { length self.now ≤ 8 }
    {
        &self.bytes[..self.len as usize]
    }

    /// Whether it is the same as another.
    pub fn is(&self, other: &Name) -> bool
        ensures { result ≡ bytes_eq self.now other.now }
    {
        self.as_bytes() == other.as_bytes()
    }
}
