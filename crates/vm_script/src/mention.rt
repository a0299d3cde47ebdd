//! The names of memory in calls.

ghost use Rattle.std.specs.Prelude.{◌≡◌};
ghost use Rattle.vm_script.specs.Memory.{mention, mention_check};

use crate::ScriptKind;
use crate::names::Names;
use vm_local::{Call, Name};

/// The name of memory in a call, of a mapping or of user memory.
#[derive(Clone, Copy, Debug)]
pub enum Mention {
    /// There is none.
    Nothing,
    /// The call declares it.
    Declares(Name),
    /// The call wants one that is declared.
    Wants(Name),
}

/// What a call says of memory by a name.
pub fn mention_of(call: &Call) -> Mention
    ensures { result ≡ mention call.now }
{
    match call {
        Call::UAlloc { u, .. } => Mention::Declares(*u),
        Call::Mmap { m, .. } => Mention::Declares(*m),
        Call::QBuf { user: Some(u), .. } => Mention::Wants(*u),
        Call::Munmap { m } => Mention::Wants(*m),
        Call::Peek { m, .. } => Mention::Wants(*m),
        Call::Hash { m } => Mention::Wants(*m),
        Call::Poke { m, .. } => Mention::Wants(*m),
        Call::Fill { m, .. } => Mention::Wants(*m),
        _ => Mention::Nothing,
    }
}

/// Judges a name of memory by those that are declared before it in its handle.
///
/// # Errors
/// `OpenTwice` where it declares one of them, `NotDeclared` where it wants one that isn't among
/// them.
pub fn check_mention(mention: &Mention, names: &Names) -> Result<(), ScriptKind>
    ensures { result ≡ mention_check mention.now names.now }
{
    match mention {
        Mention::Nothing => Ok(()),
        Mention::Declares(name) => match names.place_of(name) {
            None => Ok(()),
            Some(_place) => Err(ScriptKind::OpenTwice),
        },
        Mention::Wants(name) => match names.place_of(name) {
            None => Err(ScriptKind::NotDeclared),
            Some(_place) => Ok(()),
        },
    }
}
