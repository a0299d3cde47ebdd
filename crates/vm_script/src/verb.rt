ghost use Rattle.std.specs.Prelude.{◌≡◌};
ghost use Rattle.vm_script.specs.Verbs.{verb_of, word_of};

/// The words that statements begin with.
///
/// Source: own; most are the names of Linux V4L2's calls.
#[derive(Clone, Copy, Debug, PartialEq, Eq)]
pub enum Verb {
    Open,
    Close,
    QueryCap,
    EnumFmt,
    GFmt,
    TryFmt,
    SFmt,
    EnumInput,
    GInput,
    SInput,
    ReqBufs,
    QueryBuf,
    UAlloc,
    QBuf,
    StreamOn,
    StreamOff,
    DqBuf,
    Mmap,
    Munmap,
    Read,
    Hash,
    Write,
    Fill,
    Subscribe,
    Unsubscribe,
    DqEvent,
}

const VERBS: [Verb; 26] = [
    Verb::Open,
    Verb::Close,
    Verb::QueryCap,
    Verb::EnumFmt,
    Verb::GFmt,
    Verb::TryFmt,
    Verb::SFmt,
    Verb::EnumInput,
    Verb::GInput,
    Verb::SInput,
    Verb::ReqBufs,
    Verb::QueryBuf,
    Verb::UAlloc,
    Verb::QBuf,
    Verb::StreamOn,
    Verb::StreamOff,
    Verb::DqBuf,
    Verb::Mmap,
    Verb::Munmap,
    Verb::Read,
    Verb::Hash,
    Verb::Write,
    Verb::Fill,
    Verb::Subscribe,
    Verb::Unsubscribe,
    Verb::DqEvent,
];

/// The word of a verb.
fn word_of(verb: Verb) -> &'static [u8]
    ensures { result.now ≡ word_of verb }
{
    match verb {
        Verb::Open => b"open",
        Verb::Close => b"close",
        Verb::QueryCap => b"querycap",
        Verb::EnumFmt => b"enumfmt",
        Verb::GFmt => b"gfmt",
        Verb::TryFmt => b"tryfmt",
        Verb::SFmt => b"sfmt",
        Verb::EnumInput => b"enuminput",
        Verb::GInput => b"ginput",
        Verb::SInput => b"sinput",
        Verb::ReqBufs => b"reqbufs",
        Verb::QueryBuf => b"querybuf",
        Verb::UAlloc => b"ualloc",
        Verb::QBuf => b"qbuf",
        Verb::StreamOn => b"streamon",
        Verb::StreamOff => b"streamoff",
        Verb::DqBuf => b"dqbuf",
        Verb::Mmap => b"mmap",
        Verb::Munmap => b"munmap",
        Verb::Read => b"read",
        Verb::Hash => b"hash",
        Verb::Write => b"write",
        Verb::Fill => b"fill",
        Verb::Subscribe => b"subscribe",
        Verb::Unsubscribe => b"unsubscribe",
        Verb::DqEvent => b"dqevent",
    }
}

/// The verb that a word is.
pub fn verb_of(word: &[u8]) -> Option<Verb>
    ensures { result ≡ verb_of word.now }
{
    VERBS.iter().copied().find(|verb| word_of(*verb) == word)
}
