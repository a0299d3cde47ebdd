//! Runs a script on the whole machine.

ghost use Rattle.std.specs.Prelude.{◌≡◌, List, ℕ, Ok, IfOk};
ghost use Rattle.vm_script.specs.Reading.{IsReadScript};
ghost use Rattle.vm_script.specs.Script.{ScriptLines};
ghost use Rattle.vm_realm.specs.World.{IsOpening};
ghost use Rattle.vmedia.specs.Run.{IsRun, failures};

use std::alloc::Global;
use vm_io::Engine;
use vm_link::Link;
use vm_mem::Memory;
use vm_output::text_of_run;
use vm_sched::run_schedule;
use vm_script::Script;
use vm_split::SplitLink;
use vm_world::World;

/// How many descriptors the queue of commands has.
const COMMAND_QUEUE: u16 = 64;

/// How many descriptors the queue of events has.
const EVENT_QUEUE: u16 = 16;

/// Runs a world under a seed's schedule, and gives the text.
///
/// # Errors
/// `Memory` where there is none for the run or for the text.
pub fn run_world<L: Link, E: Engine>(
    alloc: Global,
    world: &mut World<L>,
    seed: u64,
    engine: &mut E,
) -> Result<Vec<u8>, Memory>
    requires opening { (script : ScriptLines) × IsReadScript script × IsOpening script world.old }
    ensures runs { (script : ScriptLines) → IsOpening script world.old →
        IfOk result (λ text. IsRun seed
        (failures (E.faults engine.old) (E.faults engine.new)) script text.items) }
{
    run_schedule(alloc, world, seed, engine)?;
    text_of_run(
        alloc,
        world.script(),
        world.guest(),
        world.host().region().journal(),
    )
}

/// The text of a script's run under a seed's schedule.
///
/// # Errors
/// `Memory` where the run's memory or the text's can't be had.
pub fn run<E: Engine>(
    alloc: Global,
    script: Script,
    seed: u64,
    engine: &mut E,
) -> Result<Vec<u8>, Memory>
    requires { IsReadScript script }
    ensures { IfOk result (λ text. IsRun seed
        (failures (E.faults engine.old) (E.faults engine.new)) script text.items) }
{
    let link = SplitLink::new(alloc, COMMAND_QUEUE, EVENT_QUEUE)?;
    let mut world = World::new(alloc, script, link)?;
    run_world(alloc, &mut world, seed, engine)
}
