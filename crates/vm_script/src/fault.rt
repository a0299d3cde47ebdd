ghost use Rattle.std.specs.Prelude.{◌≡◌};
ghost use Rattle.vm_script.specs.declared.fault.ScriptError.TheVariants.{Fault};

use thiserror::Error;
use vm_mem::Memory;

/// What is wrong with a script's line.
#[derive(Clone, Copy, Debug, PartialEq, Eq)]
pub enum ScriptKind {
    /// The first word is unknown, the number of words fits no form, or a word isn't of its form.
    Word,
    /// A word in a name's place is no name.
    Name,
    /// A word in a number's place is no number in range.
    Number,
    /// There are more than 16 processes.
    TooManyProcesses,
    /// There are more than 1,024 statements in a process.
    TooManyLines,
    /// The name was declared before.
    OpenTwice,
    /// The name was not declared before.
    NotDeclared,
    /// The raw line makes a chain that is well formed.
    WellFormedRaw,
    /// The line isn't one that is built.
    NotBuilt,
}

/// The first faulty line of a script, and what is wrong with it.
#[derive(Clone, Copy, Debug, PartialEq, Eq)]
pub struct ScriptFault {
    /// The line's number, from 1.
    pub line: u32,
    pub kind: ScriptKind,
}

/// Why bytes could not be read as a script.
#[derive(Clone, Copy, Debug, PartialEq, Eq, Error)]
pub enum ScriptError {
    #[error("a line of the script is faulty")]
    Fault(ScriptFault),
    #[error("out of memory")]
    Memory,
}

impl From<Memory> for ScriptError {
    ghost use Rattle.std.specs.Prelude.{◌≡◌};
    ghost use Rattle.vm_script.specs.declared.fault.ScriptError.TheVariants.{Memory as Lacking};

    ghost from_gives = { λ memory e. e ≡ Lacking };

    fn from(_memory: Memory) -> ScriptError {
        ScriptError::Memory
    }
}

/// The fault of the line of this number.
pub fn faulty(number: u32, kind: ScriptKind) -> ScriptError
    ensures { result ≡ Fault (record { line = number; kind = kind }) }
{
    ScriptError::Fault(ScriptFault { line: number, kind })
}
