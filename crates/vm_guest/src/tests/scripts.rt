// Scripts made by hand. Each process has one handle.

ghost use Rattle.std.specs.Prelude.{◌≡◌, ◌+◌, ◌≤◌, All, IfOk, OnOk, length};
ghost use Rattle.vm_guest.specs.Orderly.{IsFitKind, IsFitProcess, IsFitScript};

use super::rig::check;
use std::alloc::Global;
use std::test::Fail;
use v4l_const::Model;
use vm_local::{Call, Name};
use vm_script::{Echo, Line, LineKind, Process, Script};

// More lines than a process of these tests has.
const LINES: usize = 100;

// One more line, with a call on the handle.
fn add(alloc: Global, lines: &mut Vec<Line>, number: u32, call: &Call) -> Result<(), Fail>
    requires fit { All (λ l. IsFitKind 1 l.what) lines.old.items }
    ensures fit { All (λ l. IsFitKind 1 l.what) lines.new.items }
    ensures more { OnOk result (length lines.new.items ≡ length lines.old.items + 1) }
{
    if let Call::Peek { len, .. } = call {
        check(*len <= 256, "it reads too much")?;
    }
    lines.push(Line {
        number,
        echo: Echo::new(alloc, b"")?,
        what: LineKind::OnHandle { h: 0, call: *call },
    })?;
    Ok(())
}

// A process with these calls on its handle, in lines that are numbered from 1 on.
fn process(alloc: Global, calls: &[Call]) -> Result<Process, Fail>
    ensures { IfOk result IsFitProcess }
{
    check(!calls.is_empty() && calls.len() <= LINES, "too many lines")?;
    let mut lines = Vec::new(alloc);
    let mut number = 0;
    'calls: for call in calls {
        check(number < 100, "too many lines")?;
        number += 1;
        add(alloc, &mut lines, number, call)?;
    }
    check(!lines.is_empty() && lines.len() <= LINES, "too many lines")?;
    let mut handles = Vec::with_capacity(alloc, 1)?;
    handles.push_reserved(Name::new(b"a").ok_or("no name")?);
    Ok(Process { handles, lines })
}

// Two processes of a camera, with these calls.
pub(super) fn two(alloc: Global, first: &[Call], second: &[Call]) -> Result<Script, Fail>
    ensures fit { IfOk result IsFitScript }
    ensures some { IfOk result (λ s. length s.processes ≡ 2) }
{
    let mut processes = Vec::with_capacity(alloc, 2)?;
    processes.push_reserved(process(alloc, first)?);
    processes.push_reserved(process(alloc, second)?);
    Ok(Script {
        model: Model::Capture,
        processes,
    })
}
