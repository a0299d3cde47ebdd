//! Counts a script, and runs one that is made.

ghost use Rattle.std.specs.Prelude.{◌≡◌, ◌≤◌, ℕ, Ok, IfOk, length};
ghost use Rattle.vm_script.specs.Grammar.{script_of};
ghost use Rattle.vm_script.specs.Reading.{IsReadScript};
ghost use Rattle.vm_script.specs.Script.{ScriptLines};
ghost use Rattle.vm_bulk.specs.Bulk.{bulk_text};
ghost use Rattle.vm_report.specs.Logs.{Logs as Told};
ghost use Rattle.vm_report.specs.Printed.{IsPrinted};
ghost use Rattle.vmedia.specs.Run.{Failures, IsRun, failures};
ghost use Rattle.vmedia.specs.Bulk.{check_line, bulk_line, IsCounted, IsBulk};

use crate::count::{count_frames, count_statements};
use crate::run::run;
use crate::text::{push, push_digest, push_number};
use sha2::{Digest, Sha256};
use std::alloc::Global;
use vm_bulk::{bulk_scripts_are_read, make_script};
use vm_io::Engine;
use vm_mem::Memory;
use vm_report::{Logs, LogsError, logs_of};
use vm_script::{Script, ScriptError, read_script};

/// The line that tells how many processes and statements a script has.
///
/// # Errors
/// `Memory` where there is none for the line.
pub fn check(alloc: Global, script: &Script) -> Result<Vec<u8>, Memory>
    ensures { IfOk result (λ text. IsCounted script.now text.items) }
{
    let mut text = Vec::new(alloc);
    push(&mut text, b"ok ")?;
    push_number(&mut text, script.processes.len() as u64)?;
    push(&mut text, b" ")?;
    push_number(&mut text, count_statements(script)?)?;
    push(&mut text, b"\n")?;
    Ok(text)
}

/// The script of so many processes, which is made and read: no line of it is faulty.
///
/// # Errors
/// `Memory` where there is none for it.
fn made_script(alloc: Global, n: u32) -> Result<Script, Memory>
    requires some { 1 ≤ n }
    requires few { n ≤ 16 }
    ensures made { IfOk result (λ script. script_of (bulk_text n) ≡ Ok script) }
    ensures read { IfOk result (λ script. IsReadScript script) }
{
    bulk_scripts_are_read();
    let bytes = make_script(alloc, n)?;
    match read_script(alloc, &bytes) {
        Ok(script) => Ok(script),
        Err(ScriptError::Fault(_fault)) => unreachable!(),
        Err(ScriptError::Memory) => Err(Memory),
    }
}

/// The logs of a run, read back from its text.
///
/// # Errors
/// `Memory` where there is none for them.
fn logs_told(alloc: Global, text: &[u8]) -> Result<Logs, Memory>
    requires { (logs : Told) × IsPrinted text.now logs }
    ensures { IfOk result (λ logs. IsPrinted text.now logs) }
{
    match logs_of(alloc, text) {
        Ok(logs) => Ok(logs),
        Err(LogsError::NotPrinted) => unreachable!(),
        Err(LogsError::Memory) => Err(Memory),
    }
}

/// The line that tells of a bulk run.
///
/// # Errors
/// `Memory` where there is none for the line.
fn bulk_line(
    alloc: Global,
    n: u32,
    lines: u64,
    frames: u64,
    digest: &[u8; 32],
) -> Result<Vec<u8>, Memory>
    ensures { IfOk result (λ text. text.items ≡ bulk_line n lines frames digest.now) }
{
    let mut text = Vec::new(alloc);
    push(&mut text, b"bulk ")?;
    push_number(&mut text, u64::from(n))?;
    push(&mut text, b" lines ")?;
    push_number(&mut text, lines)?;
    push(&mut text, b" frames ")?;
    push_number(&mut text, frames)?;
    push(&mut text, b" digest ")?;
    push_digest(&mut text, digest)?;
    push(&mut text, b"\n")?;
    Ok(text)
}

/// Makes the script of so many processes, runs it under the seed of that number, and gives the line
/// that tells of it.
///
/// # Errors
/// `Memory` where there is none for the script, for the run or for the line.
pub fn bulk<E: Engine>(alloc: Global, n: u32, engine: &mut E) -> Result<Vec<u8>, Memory>
    requires some { 1 ≤ n }
    requires few { n ≤ 16 }
    ensures { IfOk result (λ text. IsBulk n
        (failures (E.faults engine.old) (E.faults engine.new)) text.items) }
{
    let script = made_script(alloc, n)?;
    let lines = count_statements(&script)?;
    let printed = run(alloc, script, u64::from(n), engine)?;
    let logs = logs_told(alloc, &printed)?;
    let frames = count_frames(&logs.handles)?;
    let digest = Sha256::digest(&printed);
    bulk_line(alloc, n, lines, frames, &digest)
}
