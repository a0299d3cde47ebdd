//! Reads words that were judged, with `clap`.

ghost use Rattle.std.specs.Prelude.{◌≡◌, ℕ, List, Some, false, map, option_map};
ghost use Rattle.std.specs.Prelude.{IfOk, IfErr, IsErr, IsSome, IfSome};
ghost use Rattle.std.specs.String.{string_bytes};
ghost use Rattle.clap.specs.Words.{app_of, kind_of, subcommand_rows_of};
ghost use Rattle.clap.specs.declared.builder.command.Command.TheViews.{out-Command};
ghost use Rattle.vm_words.specs.Command.{command_in, IsServed};
ghost use Rattle.vm_words.specs.Program.{numbered, program, words_told};

use crate::command::Command;
use crate::judge::{command_alone, command_in, command_with};
use clap::error::ErrorKind;
use clap::{Arg, ArgMatches, Command as Program, Error};
use std::alloc::Global;
use vm_mem::Memory;

/// The id of the value behind a subcommand.
const NUMBER: &str = "NUMBER";

/// A subcommand with a number behind it.
fn numbered<'a>(alloc: Global, name: &'a str) -> Result<Program<'a>, Error>
    ensures shape { IfOk result (λ told. app_of told ≡ numbered name.entry.now) }
    ensures local { IfOk result (λ told. (out-Command told).has_globals ≡ false) }
    ensures err { IfErr result (λ e. kind_of e ≡ ErrorKind.OutOfMemory) }
{
    let number = Arg::new(alloc, NUMBER);
    let bare = Program::new(alloc, name);
    let told = bare.arg(number)?;
    Ok(told)
}

/// The program, with its subcommands.
fn program<'a>(alloc: Global) -> Result<Program<'a>, Error>
    ensures shape { IfOk result (λ told. app_of told ≡ program) }
    ensures err { IfErr result (λ e. kind_of e ≡ ErrorKind.OutOfMemory) }
{
    let check = Program::new(alloc, "check");
    let step = numbered(alloc, "step")?;
    let bulk = numbered(alloc, "bulk")?;
    let bare = Program::new(alloc, "vmedia");
    let vmedia = bare.no_binary_name(true);
    let one = vmedia.subcommand(check)?;
    let two = one.subcommand(step)?;
    let three = two.subcommand(bulk)?;
    Ok(three)
}

/// The matches of words that were judged: they tell just these words.
///
/// # Errors
/// `OutOfMemory` alone.
fn matches<'a>(alloc: Global, words: &'a [String]) -> Result<ArgMatches<'a>, Error>
    requires { IsSome (command_in (map string_bytes words.now)) }
    ensures ok { IfOk result (λ m. option_map words_told (subcommand_rows_of m)
        ≡ Some (map string_bytes words.entry.now)) }
    ensures err { IfErr result (λ e. kind_of e ≡ ErrorKind.OutOfMemory) }
{
    let told = program(alloc)?;
    told.try_get_matches_from(words)
}

/// What matches ask for.
fn command_told<'a>(matches: &ArgMatches<'a>) -> Option<Command>
    ensures command { (words : List (List ℕ)) →
        option_map words_told (subcommand_rows_of matches.now) ≡ Some words →
        result ≡ command_in words }
    ensures served { IfSome result IsServed }
{
    let (name, line) = matches.subcommand()?;
    match line.get_str(NUMBER) {
        None => command_alone(name.as_bytes()),
        Some(number) => command_with(name.as_bytes(), number.as_bytes()),
    }
}

/// What the words of the command line ask for: `None` exactly where they are none of the command
/// lines that are served. They are judged first, which takes no memory.
///
/// Source: own.
///
/// # Errors
/// `Memory` where there is none to read words that are served.
pub fn command_of(alloc: Global, words: &[String]) -> Result<Option<Command>, Memory>
    ensures command { IfOk result (λ command. command ≡ command_in (map string_bytes words.now)) }
    ensures served { IfOk result (λ command. IfSome command IsServed) }
    ensures memory { IsErr result → IsSome (command_in (map string_bytes words.now)) }
{
    if command_in(words).is_none() {
        return Ok(None);
    }
    match matches(alloc, words) {
        Ok(matches) => Ok(command_told(&matches)),
        Err(_wanting) => Err(Memory),
    }
}
