ghost use Rattle.std.specs.Prelude.{◌≡◌};
ghost use Rattle.vm_report.specs.Reading.{tells};

use vm_local::Call;

/// What a call tells where it isn't refused.
#[derive(Clone, Copy, Debug, PartialEq, Eq)]
pub enum Tells {
    Nothing,
    /// What the device can do.
    Caps,
    /// A format's code.
    Code,
    /// A format with its sizes.
    Format,
    InputName,
    InputIs,
    /// How many buffers were made.
    Count,
    /// A buffer's length and flags.
    Buf,
    /// How many pages user memory has.
    Pages,
    /// A finished buffer.
    Frame,
    /// Where a mapping stands.
    Mapping,
    /// The bytes that were read.
    Bytes,
    /// The SHA-256 of bytes.
    Digest,
    Event,
}

/// What this call tells where it isn't refused.
pub fn tells_of(call: &Call) -> Tells
    ensures { result ≡ tells call.now }
{
    match call {
        Call::OpenHandle { .. } => Tells::Nothing,
        Call::CloseHandle => Tells::Nothing,
        Call::QueryCap => Tells::Caps,
        Call::EnumFmt { .. } => Tells::Code,
        Call::GFmt { .. } => Tells::Format,
        Call::TryFmt { .. } => Tells::Format,
        Call::SFmt { .. } => Tells::Format,
        Call::EnumInput { .. } => Tells::InputName,
        Call::GInput => Tells::InputIs,
        Call::SInput { .. } => Tells::InputIs,
        Call::ReqBufs { .. } => Tells::Count,
        Call::QueryBuf { .. } => Tells::Buf,
        Call::UAlloc { .. } => Tells::Pages,
        Call::QBuf { .. } => Tells::Nothing,
        Call::StreamOn { .. } => Tells::Nothing,
        Call::StreamOff { .. } => Tells::Nothing,
        Call::DqBuf { .. } => Tells::Frame,
        Call::Mmap { .. } => Tells::Mapping,
        Call::Munmap { .. } => Tells::Nothing,
        Call::Peek { .. } => Tells::Bytes,
        Call::Hash { .. } => Tells::Digest,
        Call::Poke { .. } => Tells::Nothing,
        Call::Fill { .. } => Tells::Nothing,
        Call::Subscribe { .. } => Tells::Nothing,
        Call::Unsubscribe { .. } => Tells::Nothing,
        Call::DqEvent => Tells::Event,
    }
}
