//! What a process begins with.

ghost use Rattle.std.specs.Prelude.{◌≡◌, ◌<◌, ◌^◌, ℕ, IfOk, length, map, slice_index_or};
ghost use Rattle.vm_script.specs.Lines.{lines_of};
ghost use Rattle.vm_guest.specs.Asking.{statements_of};
ghost use Rattle.vm_guest.specs.Caller.{counted};
ghost use Rattle.vm_guest.specs.Orderly.{IsFitProcess, fresh_at, table_for};
ghost use Rattle.vm_guest.specs.Process.{handle_in};

use crate::asked::Statement;
use crate::raw::table_for;
use crate::table::Table;
use std::alloc::Global;
use v4l_const::Model;
use vm_handle::Handle;
use vm_mem::Memory;
use vm_script::{Line, LineKind, Process};

// Counts a line at the handle that it is on.
fn count_line(counts: &mut Vec<u32>, what: &LineKind)
    requires { (h : ℕ) → h < length counts.old.items →
        slice_index_or counts.old.items h 0 < 2 ^ 31 }
    ensures { counts.new.items ≡ counted counts.old.items what.now }
{
    if let LineKind::OnHandle { h, .. } = *what {
        let at = h as usize;
        if at < counts.len() {
            counts[at] += 1;
        }
    }
}

// How many of the lines are on each of so many handles.
fn count_lines(alloc: Global, lines: &[Line], handles: usize) -> Result<Vec<u32>, Memory>
    requires { length lines.now < 2 ^ 30 }
    ensures count { IfOk result (λ v. length v.items ≡ handles) }
    ensures lines { IfOk result (λ v. (h : ℕ) → h < handles →
        slice_index_or v.items h 0 ≡ length (lines_of h lines.now)) }
{
    let mut counts = vec![in alloc; 0; handles].map_err(|_| Memory)?;
    for line in lines {
        count_line(&mut counts, &line.what);
    }
    Ok(counts)
}

/// A handle of this model for each name, with room for the lines on it.
///
/// # Errors
/// `Memory` where there is none for the room.
pub fn make_handles(alloc: Global, model: Model, process: &Process) -> Result<Vec<Handle>, Memory>
    requires { IsFitProcess process.now }
    ensures count { IfOk result (λ v. length v.items ≡ length process.now.handles) }
    ensures fresh { IfOk result (λ v. (h : ℕ) → h < length v.items →
        handle_in v.items h ≡ fresh_at model process.now h) }
{
    let counts = count_lines(alloc, &process.lines, process.handles.len())?;
    let mut handles = Vec::new(alloc);
    for lines in &counts {
        handles
            .push(Handle::make(alloc, model, *lines)?)
            .map_err(|_| Memory)?;
    }
    Ok(handles)
}

/// The lines without their words.
///
/// # Errors
/// `Memory` where there is none for them.
pub fn make_statements(alloc: Global, lines: &[Line]) -> Result<Vec<Statement>, Memory>
    ensures { IfOk result (λ v. v.items ≡ statements_of lines.now) }
{
    let mut statements = Vec::new(alloc);
    statements.reserve(lines.len()).map_err(|_| Memory)?;
    for line in lines {
        statements.push_reserved(Statement {
            line: line.number,
            what: line.what,
        });
    }
    Ok(statements)
}

/// The tables of the lines' chains.
///
/// # Errors
/// `Memory` where there is none for them.
pub fn make_tables(alloc: Global, number: u16, lines: &[Line]) -> Result<Vec<Table>, Memory>
    ensures { IfOk result (λ v. v.items ≡ map (λ l. table_for number l.what) lines.now) }
{
    let mut tables = Vec::new(alloc);
    tables.reserve(lines.len()).map_err(|_| Memory)?;
    for line in lines {
        tables.push_reserved(table_for(alloc, number, &line.what)?);
    }
    Ok(tables)
}
