//! Judges the words of the command line.

ghost use Rattle.std.specs.Prelude.{◌≡◌, IfSome, map};
ghost use Rattle.std.specs.String.{string_bytes};
ghost use Rattle.std.specs.Option.{option_map};
ghost use Rattle.vm_script.specs.Words.{number_in};
ghost use Rattle.vm_words.specs.declared.command.Command.TheVariants.{Bulk};
ghost use Rattle.vm_words.specs.Command.{command_alone, command_in, command_with, positive};
ghost use Rattle.vm_words.specs.Command.{IsServed};

use crate::command::{Command, Task};
use vm_script::number_of;

/// The command that counts what a script has.
const CHECK: &[u8] = b"check";

/// The command that runs a script under a seed's schedule.
const STEP: &[u8] = b"step";

/// The command that runs a script that is made.
const BULK: &[u8] = b"bulk";

/// How many processes a bulk run has at most.
const BULK_LIMIT: u64 = 16;

/// How many digits a number of the command line has at most.
const DIGIT_LIMIT: usize = 20;

/// What `bulk` asks for with this number.
fn bulk_with(number: &[u8]) -> Option<Command>
    ensures command { result ≡ option_map (λ n. Bulk n) (positive (number_in 20 16 number.now)) }
    ensures served { IfSome result IsServed }
{
    match number_of(number, DIGIT_LIMIT, BULK_LIMIT) {
        None | Some(0) => None,
        Some(n) => Some(Command::Bulk { n: n as u32 }),
    }
}

/// What a command asks for with a number behind it.
pub fn command_with(command: &[u8], number: &[u8]) -> Option<Command>
    ensures command { result ≡ command_with command.now number.now }
    ensures served { IfSome result IsServed }
{
    if command == STEP {
        return match number_of(number, DIGIT_LIMIT, u64::MAX) {
            None => None,
            Some(seed) => Some(Command::OnScript(Task::Run { seed })),
        };
    }
    if command == BULK {
        return bulk_with(number);
    }
    None
}

/// What a command asks for with nothing behind it.
pub fn command_alone(command: &[u8]) -> Option<Command>
    ensures command { result ≡ command_alone command.now }
    ensures served { IfSome result IsServed }
{
    if command == CHECK {
        return Some(Command::OnScript(Task::Check));
    }
    None
}

/// What the words ask for. `None` exactly where they are none of the command lines that are served.
pub fn command_in(words: &[String]) -> Option<Command>
    ensures { result ≡ command_in (map string_bytes words.now) }
{
    match words {
        [command] => command_alone(command.as_bytes()),
        [command, number] => command_with(command.as_bytes(), number.as_bytes()),
        _ => None,
    }
}
