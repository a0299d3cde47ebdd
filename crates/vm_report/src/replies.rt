//! Replies, read back from their words.

ghost use Rattle.std.specs.Prelude.{◌≡◌, map, [], ◌∷◌};
ghost use Rattle.vm_report.specs.Reading.{errno_told, refusal_told, format_told, frame_told, event_told, told, reply_told};

use crate::tells::{Tells, tells_of};
use crate::words::{
    address_in, code_in, count_in, digest_in, flags_in, input_in, long_in, small_in,
};
use v4l_const::Errno;
use v4l_format::Fmt;
use vm_local::{Call, Reply};

const OK: &[u8] = b"ok";

const ERR: &[u8] = b"err";

/// The error of this number and this name.
fn errno_in(number: &[u8], name: &[u8]) -> Option<Errno>
    ensures { result ≡ errno_told number.now name.now }
{
    let errno = Errno::of(count_in(number)?)?;
    if errno.name().as_bytes() == name {
        Some(errno)
    } else {
        None
    }
}

/// The error that these words refuse with: `err NUMBER NAME`.
pub fn refusal_in(words: &[&[u8]]) -> Option<Errno>
    ensures { result ≡ refusal_told (map (λ word. word.now) words.now) }
{
    match words {
        [err, number, name] if *err == ERR => errno_in(number, name),
        _ => None,
    }
}

/// A format with the bytes of its first line and of the whole picture.
fn format_in(code: &[u8], width: &[u8], height: &[u8], line: &[u8], size: &[u8]) -> Option<Reply>
    ensures { result ≡ format_told code.now width.now height.now line.now size.now }
{
    let code = code_in(code)?;
    let width = count_in(width)?;
    let height = count_in(height)?;
    let line = count_in(line)?;
    let size = count_in(size)?;
    Some(Reply::Format {
        f: Fmt {
            code,
            width,
            height,
        },
        line,
        size,
    })
}

/// A finished buffer.
fn frame_in(index: &[u8], used: &[u8], seq: &[u8], ts: &[u8], flags: &[u8]) -> Option<Reply>
    ensures { result ≡ frame_told index.now used.now seq.now ts.now flags.now }
{
    Some(Reply::Frame {
        index: count_in(index)?,
        used: count_in(used)?,
        seq: count_in(seq)?,
        ts: long_in(ts)?,
        flags: flags_in(flags)?,
    })
}

/// An event.
fn event_in(kind: &[u8], frame: &[u8], pending: &[u8], seq: &[u8]) -> Option<Reply>
    ensures { result ≡ event_told kind.now frame.now pending.now seq.now }
{
    Some(Reply::Event {
        kind: count_in(kind)?,
        frame: count_in(frame)?,
        pending: count_in(pending)?,
        seq: count_in(seq)?,
    })
}

/// The reply of this kind that one word tells.
fn one_in(tells: Tells, word: &[u8]) -> Option<Reply>
    ensures { result ≡ told tells (word.now ∷ []) }
{
    match tells {
        Tells::Code => Some(Reply::Code(code_in(word)?)),
        Tells::InputName => Some(Reply::InputName(input_in(word)?)),
        Tells::InputIs => Some(Reply::InputIs(count_in(word)?)),
        Tells::Count => Some(Reply::Count(count_in(word)?)),
        Tells::Pages => Some(Reply::Pages(count_in(word)?)),
        Tells::Bytes => Some(Reply::Bytes(small_in(word)?)),
        Tells::Digest => Some(Reply::Digest(digest_in(word)?)),
        _ => None,
    }
}

/// The reply of this kind that two words tell.
fn two_in(tells: Tells, first: &[u8], second: &[u8]) -> Option<Reply>
    ensures { result ≡ told tells (first.now ∷ second.now ∷ []) }
{
    match tells {
        Tells::Caps => Some(Reply::Caps {
            all: flags_in(first)?,
            device: flags_in(second)?,
        }),
        Tells::Buf => Some(Reply::Buf {
            length: count_in(first)?,
            flags: flags_in(second)?,
        }),
        Tells::Mapping => Some(Reply::Mapped {
            addr: address_in(first)?,
            length: count_in(second)?,
        }),
        _ => None,
    }
}

/// The reply of this kind that no word tells.
fn none_in(tells: Tells) -> Option<Reply>
    ensures { result ≡ told tells [] }
{
    match tells {
        Tells::Nothing => Some(Reply::Done),
        _ => None,
    }
}

/// The reply of this kind that four words tell.
fn four_in(tells: Tells, a: &[u8], b: &[u8], c: &[u8], d: &[u8]) -> Option<Reply>
    ensures { result ≡ told tells (a.now ∷ b.now ∷ c.now ∷ d.now ∷ []) }
{
    match tells {
        Tells::Event => event_in(a, b, c, d),
        _ => None,
    }
}

/// The reply of this kind that five words tell.
fn five_in(tells: Tells, a: &[u8], b: &[u8], c: &[u8], d: &[u8], e: &[u8]) -> Option<Reply>
    ensures { result ≡ told tells (a.now ∷ b.now ∷ c.now ∷ d.now ∷ e.now ∷ []) }
{
    match tells {
        Tells::Format => format_in(a, b, c, d, e),
        Tells::Frame => frame_in(a, b, c, d, e),
        _ => None,
    }
}

/// The reply that the words behind an `ok` tell.
fn told_in(tells: Tells, words: &[&[u8]]) -> Option<Reply>
    ensures { result ≡ told tells (map (λ word. word.now) words.now) }
{
    match words {
        [] => none_in(tells),
        [a] => one_in(tells, a),
        [a, b] => two_in(tells, a, b),
        [a, b, c, d] => four_in(tells, a, b, c, d),
        [a, b, c, d, e] => five_in(tells, a, b, c, d, e),
        _ => None,
    }
}

/// The reply of this call that these words are printed of.
pub fn reply_in(call: &Call, words: &[&[u8]]) -> Option<Reply>
    ensures { result ≡ reply_told call.now (map (λ word. word.now) words.now) }
{
    let (first, rest) = words.split_first()?;
    if *first == OK {
        told_in(tells_of(call), rest)
    } else {
        Some(Reply::Refused(refusal_in(words)?))
    }
}
