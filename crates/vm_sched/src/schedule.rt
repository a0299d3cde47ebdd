ghost use Rattle.std.specs.Prelude.{◌≡◌, ◌≤◌, ◌<◌, OnOk};
ghost use Rattle.vm_realm.specs.Schedule.{next_state, place_chosen, IsScheduled};
ghost use Rattle.vm_sched.specs.Hands.{FailsWithin, HasNoneOut};

use crate::doing::do_step;
use crate::hands::Hands;
use std::alloc::Global;
use vm_io::Engine;
use vm_link::Link;
use vm_mem::Memory;
use vm_world::World;

/// The generator's factor. Source: own choice of Knuth's MMIX constants.
const FACTOR: u64 = 6364136223846793005;
/// The generator's summand.
const SUMMAND: u64 = 1442695040888963407;
/// How many of a state's low bits a choice leaves out.
const LOW_BITS: u32 = 33;

// The generator's next state.
fn next_state(state: u64) -> u64
    ensures { result ≡ next_state state }
{
    state.wrapping_mul(FACTOR).wrapping_add(SUMMAND)
}

// The place that a state chooses among `count`.
fn place_chosen(state: u64, count: usize) -> usize
    requires { 0 < count }
    ensures chosen { result ≡ place_chosen state count }
    ensures within { result < count }
{
    ((state >> LOW_BITS) % count as u64) as usize
}

/// Does steps of a world of which nothing is out, as the seed's schedule chooses them, until every
/// line is answered. Each job is done when it is to come back, by one run of the engine; where that
/// fails, its frame does. What is still on its way at the end is dropped.
///
/// # Errors
/// `Memory` where there is none to keep what is out. The world has then made some steps of the
/// schedule.
///
/// Source: own.
pub fn run_schedule<L: Link, E: Engine>(
    alloc: Global,
    world: &mut World<L>,
    seed: u64,
    engine: &mut E,
) -> Result<(), Memory>
    requires { HasNoneOut world.old }
    ensures scheduled { OnOk result (IsScheduled world.old seed world.new) }
    ensures fails { OnOk result
        (FailsWithin world.old world.new (E.faults engine.old) (E.faults engine.new)) }
    ensures count { E.faults engine.old ≤ E.faults engine.new }
    ensures script { world.new.script ≡ world.old.script }
{
    let mut hands = Hands::new(alloc, world.guest().process_count())?;
    let mut state = seed;
    while !world.is_done() {
        state = next_state(state);
        let place = place_chosen(state, world.enabled_len());
        let step = world.enabled_at(place).unwrap();
        do_step(world, &mut hands, engine, step)?;
    }
    Ok(())
}
