//! The texts of runs, read back: each gives the logs that its run left.

ghost use Rattle.std.specs.Prelude.{◌<◌, ◌-◌, ◌^◌, length};

use crate::run::run_world;
use crate::top_tests::rows::{
    AFTER_CLOSE, BUILT, CAPTURE, CONVERT, CONVERTER_INPUTS, DEADLOCK, EVENTS, ORPHAN, REFUSALS,
    REQBUFS, STATES, TWO_PROCESSES, USER,
};
use std::alloc::Global;
use std::test::Fail;
use vm_bulk::make_script;
use vm_handle::Handle;
use vm_io::SureEngine;
use vm_local::Name;
use vm_report::{HandleLog, Logs, logs_of};
use vm_script::read_script;
use vm_split::SplitLink;
use vm_world::World;

/// A script with every kind of line on two handles, a comment and a blank line.
const SEVERAL: &[u8] =
    b"# three handles\n\nopen a\n\topen  b \r\nclose a\nclose a\nopen c9\n# more\nclose c9\nclose b\nclose b";

/// Whether a log is that of a handle with this name, of this process.
fn is_log_of(told: &HandleLog, number: u32, name: &Name, handle: &Handle) -> bool {
    told.process == number
        && told.name.is(name)
        && told.session == handle.session()
        && told.entries.as_slice() == handle.log()
}

/// Whether the first logs are those of a process's handles.
fn begin_with(told: &[HandleLog], number: u32, names: &[Name], handles: &[Handle]) -> bool {
    if told.len() < handles.len() || names.len() != handles.len() {
        return false;
    }
    for ((log, name), handle) in told.iter().zip(names).zip(handles) {
        if !is_log_of(log, number, name, handle) {
            return false;
        }
    }
    true
}

/// Whether logs are those that a run left: each handle's, process by process, and the journal.
fn are_left(logs: &Logs, world: &World<SplitLink>) -> bool {
    let mut rest = logs.handles.as_slice();
    let mut number: u32 = 0;
    for process in &world.script().processes {
        let Some(handles) = world.guest().handles(number) else {
            return false;
        };
        if !begin_with(rest, number, &process.handles, handles) {
            return false;
        }
        rest = rest.get(handles.len()..).unwrap_or(&[]);
        number = number.wrapping_add(1);
    }
    rest.is_empty()
        && logs.raws.is_empty()
        && logs.journal.as_slice() == world.host().region().journal()
}

/// What a run leaves, and its text.
#[derive(Drop)]
pub(crate) struct Ran {
    pub world: World<SplitLink>,
    text: Vec<u8>,
}

/// Runs a script under a seed, over the rings that the program has.
pub(crate) fn run_over_rings(alloc: Global, bytes: &[u8], seed: u64) -> Result<Ran, Fail>
    requires { length bytes.now < 2 ^ 32 - 1 }
{
    let script = read_script(alloc, bytes)?;
    let link = SplitLink::new(alloc, 64, 16)?;
    let mut world = World::new(alloc, script, link)?;
    let text = run_world(alloc, &mut world, seed, &mut SureEngine::new())?;
    Ok(Ran { world, text })
}

/// Whether the text of a script's run gives the logs that the run left.
fn tells_its_run(alloc: Global, bytes: &[u8], seed: u64) -> Result<bool, Fail>
    requires { length bytes.now < 2 ^ 32 - 1 }
{
    let ran = run_over_rings(alloc, bytes, seed)?;
    let logs = logs_of(alloc, &ran.text)?;
    Ok(are_left(&logs, &ran.world))
}

/// The same under several seeds.
fn tells_its_runs(alloc: Global, bytes: &[u8]) -> Result<bool, Fail>
    requires { length bytes.now < 2 ^ 32 - 1 }
{
    for seed in [0, 1, 63, u64::MAX] {
        if !tells_its_run(alloc, bytes, seed)? {
            return Ok(false);
        }
    }
    Ok(true)
}

#[test]
fn texts_give_the_logs_of_their_runs(rt: HostRuntime) -> Result<(), Fail> {
    let scripts: [&[u8]; 15] = [
        b"",
        SEVERAL,
        CAPTURE,
        REQBUFS,
        STATES,
        DEADLOCK,
        AFTER_CLOSE,
        TWO_PROCESSES,
        ORPHAN,
        CONVERT,
        USER,
        EVENTS,
        BUILT,
        CONVERTER_INPUTS,
        REFUSALS,
    ];
    for script in scripts {
        assert_eq!(rt; tells_its_runs(rt.alloc(), script)?, true);
    }
    Ok(())
}

#[test]
fn a_bulk_run_gives_its_logs(rt: HostRuntime) -> Result<(), Fail> {
    let script = make_script(rt.alloc(), 16)?;
    // No script is longer.
    assert!(rt; script.len() <= 4_194_304);
    assert_eq!(rt; tells_its_run(rt.alloc(), &script, 0)?, true);
    Ok(())
}
