// Scripts by their texts, and with raw lines, which no text has.

ghost use Rattle.std.specs.Prelude.{◌≡◌, ◌<◌, ◌^◌, ◌++◌, ◌∷◌, [], true, Ok, IfOk, OnOk};
ghost use Rattle.vm_guest.specs.Raw.{IsFitRaw};
ghost use Rattle.vm_realm.specs.Sound.{IsRefused, IsRunnable, NamesNone};
ghost use Rattle.vm_script.specs.declared.line.Line.{Line as LineOf};
ghost use Rattle.vm_script.specs.declared.line.LineKind.TheVariants.{Raw};
ghost use Rattle.vm_wire.specs.Wire.{judged};
ghost use Rattle.vm_wire.specs.declared.command.Command.{Command};

use std::alloc::Global;
use std::test::Fail;
use vm_script::{Echo, Line, LineKind, Process, RawChain, Script, read_script};
use vm_wire::{Command, decode_command};

// More bytes than a text of these tests has, and more lines than a process.
const BYTES: usize = 4096;

const LINES: usize = 100;

// Fails the test where something doesn't hold.
pub(super) fn check(holds: bool, what: &'static str) -> Result<(), &'static str>
    ensures { OnOk result (holds ≡ true) }
{
    if holds { Ok(()) } else { Err(what) }
}

// The script of a text.
pub(super) fn script_of(alloc: Global, text: &[u8]) -> Result<Script, Fail>
    ensures { IfOk result IsRunnable }
{
    check(text.len() < BYTES, "too many bytes")?;
    let script = read_script(alloc, text)?;
    Ok(script)
}

// Whether bytes spell no command, or one for a session that no script opens.
fn names_none(read: &[u8], room: u32) -> bool
    ensures { result ≡ true → (c : Command) → judged read.now room ≡ Ok c → NamesNone c }
{
    match decode_command(read, room) {
        Err(_) => true,
        Ok(Command::CloseSession { session }) => session >= 16384,
        Ok(_) => false,
    }
}

// Whether a raw chain is refused, whatever was opened.
fn is_refused(chain: &RawChain) -> bool
    ensures fit { result ≡ true → IsFitRaw chain.now }
    ensures refused { result ≡ true → IsRefused chain.now }
{
    match chain {
        RawChain::Bytes { bytes, room } => {
            let read = bytes.as_bytes();
            let fits = !read.is_empty() && read.len() <= 256 && *room <= 4096;
            fits && (*room < 8 || names_none(read, *room))
        }
        _ => true,
    }
}

// One more line, which is a raw one.
fn push_raw(alloc: Global, lines: &mut Vec<Line>, chain: &RawChain) -> Result<(), Fail>
    ensures { OnOk result ((l : LineOf) × (l.what ≡ Raw chain.now) × (l.number < 2 ^ 32) ×
        (lines.new.items ≡ lines.old.items ++ l ∷ [])) }
{
    lines.push(Line {
        number: 1000,
        echo: Echo::new(alloc, b"")?,
        what: LineKind::Raw(*chain),
    })?;
    Ok(())
}

// The script with one more line of its last process, which is a raw one.
pub(super) fn with_raw(alloc: Global, script: Script, chain: &RawChain) -> Result<Script, Fail>
    requires { IsRunnable script }
    ensures { IfOk result IsRunnable }
{
    check(is_refused(chain), "it may be taken")?;
    let Script {
        model,
        mut processes,
    } = script;
    let Some(last) = processes.pop() else {
        return Err("no process".into());
    };
    let Process { handles, mut lines } = last;
    check(lines.len() < LINES, "too many lines")?;
    push_raw(alloc, &mut lines, chain)?;
    processes.push(Process { handles, lines })?;
    Ok(Script { model, processes })
}
