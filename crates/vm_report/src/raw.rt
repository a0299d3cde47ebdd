//! Raw lines, read back from their words.

ghost use Rattle.std.specs.Prelude.{◌≡◌, [], ◌∷◌, map};
ghost use Rattle.vm_report.specs.Printed.{kind_in, bytes_chain_in, raw_in};

use vm_script::{RawChain, between_of, bytes_of};

const RAW: &[u8] = b"raw";

const CHAIN: &[u8] = b"chain";

const BYTES: &[u8] = b"bytes";

const LOOP: &[u8] = b"loop";

const OUTSIDE: &[u8] = b"outside";

const ORDER: &[u8] = b"order";

const ZERO: &[u8] = b"zero";

const ADDR: &[u8] = b"addr";

const INDIRECT: &[u8] = b"indirect";

/// How much room for a reply a raw line makes at most, in bytes.
const ROOM_LIMIT: u32 = 4096;

/// The chain of this kind.
#[tactic(auto, using(crate::proofs::WordLemmas::same_either))]
fn kind_of(word: &[u8]) -> Option<RawChain>
    ensures { result ≡ kind_in word.now }
{
    if word == LOOP {
        Some(RawChain::Loop)
    } else if word == OUTSIDE {
        Some(RawChain::Outside)
    } else if word == ORDER {
        Some(RawChain::Order)
    } else if word == ZERO {
        Some(RawChain::Zero)
    } else if word == ADDR {
        Some(RawChain::Addr)
    } else if word == INDIRECT {
        Some(RawChain::Indirect)
    } else {
        None
    }
}

/// The chain of these bytes and this room.
fn bytes_chain(hex: &[u8], room: &[u8]) -> Option<RawChain>
    ensures { result ≡ bytes_chain_in hex.now room.now }
{
    let bytes = bytes_of(hex).ok()?;
    let room = between_of(room, 0, ROOM_LIMIT).ok()?;
    Some(RawChain::Bytes { bytes, room })
}

/// `raw chain KIND`
fn named_chain(raw: &[u8], chain: &[u8], kind: &[u8]) -> Option<RawChain>
    ensures { result ≡ raw_in (raw.now ∷ chain.now ∷ kind.now ∷ []) }
{
    if raw == RAW && chain == CHAIN {
        kind_of(kind)
    } else {
        None
    }
}

/// `raw bytes HEX ROOM`
fn told_chain(raw: &[u8], bytes: &[u8], hex: &[u8], room: &[u8]) -> Option<RawChain>
    ensures { result ≡ raw_in (raw.now ∷ bytes.now ∷ hex.now ∷ room.now ∷ []) }
{
    if raw == RAW && bytes == BYTES {
        bytes_chain(hex, room)
    } else {
        None
    }
}

/// The chain that the words of a raw line post: `raw chain KIND` or `raw bytes HEX ROOM`.
pub fn raw_in(words: &[&[u8]]) -> Option<RawChain>
    ensures { result ≡ raw_in (map (λ word. word.now) words.now) }
{
    match words {
        [raw, chain, kind] => named_chain(raw, chain, kind),
        [raw, bytes, hex, room] => told_chain(raw, bytes, hex, room),
        _ => None,
    }
}
