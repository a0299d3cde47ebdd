//! The reader of scripts.

ghost use Rattle.std.specs.Prelude.{◌≡◌, ◌-◌, ◌^◌, ◌<◌, length};
ghost use Rattle.vm_script.specs.Words.{is_comment};
ghost use Rattle.vm_script.specs.Grammar.{with_line, script_of};
ghost use Rattle.vm_script.specs.Reading.{Gives, Becomes};

use crate::drafts::ScriptDraft;
use crate::words::words_in;
use crate::{Script, ScriptError};
use std::alloc::Global;

const NEWLINE: u8 = b'\n';

const COMMENT: u8 = b'#';

/// Whether the line begins with a number sign.
fn is_comment(line: &[u8]) -> bool
    ensures { result ≡ is_comment line.now }
{
    line.first() == Some(&COMMENT)
}

/// Adds a line to the script, unless it has no words or is a comment.
///
/// # Errors
/// `Fault` where the line is faulty, first of all where it isn't built; `Memory` where there is
/// none for it.
fn read_line(
    alloc: Global,
    script: &mut ScriptDraft,
    number: u32,
    line: &[u8],
) -> Result<(), ScriptError>
    ensures { Becomes (with_line script.old number line.now) script.new result }
{
    if is_comment(line) {
        return Ok(());
    }
    let words = words_in(alloc, line)?;
    if words.is_empty() {
        return Ok(());
    }
    script.add(alloc, number, &words)
}

/// Reads a script from its bytes.
///
/// Source: own.
///
/// # Errors
/// `Fault` with the first faulty line, `Memory` where there is none for the lines before it.
pub fn read_script(alloc: Global, bytes: &[u8]) -> Result<Script, ScriptError>
    requires { length bytes.now < 2 ^ 32 - 1 }
    ensures { Gives (script_of bytes.now) result }
{
    let mut script = ScriptDraft::new(alloc);
    let mut number = 0;
    for line in bytes.split(|byte| *byte == NEWLINE) {
        number += 1;
        read_line(alloc, &mut script, number, line)?;
    }
    Ok(script.finish()?)
}
