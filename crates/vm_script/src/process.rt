//! The lines of a process.

ghost use Rattle.std.specs.Prelude.{◌≡◌, map};
ghost use Rattle.std.specs.List.{join_with_byte};
ghost use Rattle.vm_script.specs.Grammar.{with_asked, with_words, at_line};
ghost use Rattle.vm_script.specs.Reading.{Becomes};

use crate::ScriptError;
use crate::draft::Draft;
use crate::fault::faulty;
use crate::statement::{Statement, statement_of};
use crate::words::echo_of;
use std::alloc::Global;

/// Adds the line of a statement to the process. After an error the process is as it was.
///
/// # Errors
/// `Fault` where the line is faulty, `Memory` where there is none for it.
fn add_statement(
    alloc: Global,
    process: &mut Draft,
    number: u32,
    words: &[&[u8]],
    statement: Statement,
) -> Result<(), ScriptError>
    ensures { Becomes (at_line number (with_asked process.old number
        (join_with_byte 32 (map (λ word. word.now) words.now)) statement)) process.new result }
{
    match process.handle_of(&statement) {
        Ok(h) => {
            let echo = echo_of(alloc, words)?;
            process.add(alloc, number, echo, statement, h)?;
            Ok(())
        }
        Err(kind) => Err(faulty(number, kind)),
    }
}

/// Adds the line of a statement's words to the process. After an error the process is as it was.
///
/// # Errors
/// `Fault` where the line is faulty, `Memory` where there is none for it.
pub fn add_words(
    alloc: Global,
    process: &mut Draft,
    number: u32,
    words: &[&[u8]],
) -> Result<(), ScriptError>
    ensures { Becomes (at_line number (with_words process.old number
        (map (λ word. word.now) words.now))) process.new result }
{
    match statement_of(words) {
        Ok(statement) => add_statement(alloc, process, number, words, statement),
        Err(kind) => Err(faulty(number, kind)),
    }
}
