ghost use Rattle.std.specs.Prelude.{◌≡◌, ◌≤◌, length, replicate};

use std::marker::Model;

/// How many bytes a payload has at most.
pub const PAYLOAD_LIMIT: usize = 208;

/// The bytes that an IOCTL carries, the same number in its command and in its reply: the first
/// `len` of `bytes`, at most 208. Zeros stand behind them. Contracts see a payload as the list of
/// its bytes.
///
/// Source: own, after the payloads of the VIRTIO 1.4 draft's media device.
#[derive(Clone, Copy, Debug, PartialEq, Eq)]
pub struct Payload {
    pub len: u16,
    pub bytes: [u8; 208],
}

impl Model for Payload {
    ghost use Rattle.std.specs.Prelude.{◌≡◌, ℕ, ◌-◌, ◌≤◌, ◌++◌, List, length, take, replicate};
    ghost use Rattle.std.proofs.Common.{arith, length-take-le, ap, sym, ◌∙◌};

    ghost Value = { List ℕ };

    ghost view = { λ p. take p.len p.bytes };

    ghost invariant = { λ p. (p.len ≤ 208) × (length p.bytes ≡ 208) ×
        (p.bytes ≡ take p.len p.bytes ++ replicate (208 - p.len) 0) };

    ghost inverse = { λ xs. record {
      len = length xs;
      bytes = xs ++
          replicate (208 - length xs) 0;
    } };

    ghost inverse_ok = { λ p h i. record {
      len = length-take-le p.len p.bytes (omega (arith, h.0, h.1)) i;
      bytes = (ap (λ k. take p.len p.bytes ++ replicate (208 - k) 0)
          (length-take-le p.len p.bytes (omega (arith, h.0, h.1))) ∙ sym h.2) i;
    } };
}

impl Payload {
    /// The payload of these bytes, which are at most 208.
    pub fn new(bytes: &[u8]) -> Payload
        requires { length bytes.now ≤ 208 }
        ensures { result ≡ bytes.now }
    {
        let mut padded = [0; PAYLOAD_LIMIT];
        padded[..bytes.len()].copy_from_slice(bytes);
        Payload {
            len: bytes.len() as u16,
            bytes: padded,
        }
    }

    /// The payload of so many zeros, at most 208.
    pub fn zeros(len: usize) -> Payload
        requires { len ≤ 208 }
        ensures { result ≡ replicate len 0 }
    {
        Payload::new(&[0; PAYLOAD_LIMIT][..len])
    }

    /// Its bytes.
    pub fn as_bytes(&self) -> &[u8]
        ensures bytes { result.now ≡ self.now }
        ensures at_most_208 { length self.now ≤ 208 }
    {
        &self.bytes[..self.len as usize]
    }
}
