//! One step of the world, with the work that it hands out or takes back.

ghost use Rattle.std.specs.Prelude.{◌≡◌, ◌≤◌, true, false, OnOk};
ghost use Rattle.vm_realm.specs.Enabled.{is_enabled};
ghost use Rattle.vm_realm.specs.Sound.{IsSound};
ghost use Rattle.vm_realm.specs.Steps.{hands_over};
ghost use Rattle.vm_realm.specs.declared.step.Step.TheVariants.{Begin, Finish, GiveBack, Lease};
ghost use Rattle.vm_sched.specs.Hands.{FailsWithin, Goes, HasAll};

use crate::hands::Hands;
use vm_handle::Leased;
use vm_io::Engine;
use vm_link::Link;
use vm_mem::Memory;
use vm_work::{OpenGate, work};
use vm_world::{Step, World};

// A job of a session goes out, into the hands.
fn begin<L: Link>(world: &mut World<L>, hands: &mut Hands, session: u32) -> Result<(), Memory>
    requires may { is_enabled world.old (Begin session) ≡ true }
    requires sound { IsSound world.old }
    requires all { HasAll hands.old world.old }
    ensures goes { OnOk result (Goes (Begin session) hands.old world.old hands.new world.new) }
    ensures script { world.new.script ≡ world.old.script }
{
    let job = world.begin_job(session).unwrap();
    hands.put_job(job)
}

// The job of a number is done, and goes back.
fn finish<L: Link, E: Engine>(world: &mut World<L>, hands: &mut Hands, engine: &mut E, number: u64)
    requires may { is_enabled world.old (Finish number) ≡ true }
    requires sound { IsSound world.old }
    requires all { HasAll hands.old world.old }
    ensures goes { Goes (Finish number) hands.old world.old hands.new world.new }
    ensures fails { FailsWithin world.old world.new (E.faults engine.old) (E.faults engine.new) }
    ensures count { E.faults engine.old ≤ E.faults engine.new }
    ensures script { world.new.script ≡ world.old.script }
{
    let job = hands.take_job(number).unwrap();
    let done = work(job, engine, &OpenGate);
    let taken = world.finish_job(done);
    taken.unwrap();
}

// A process's line is refused, or its memory goes out, into the hands.
fn lend<L: Link>(world: &mut World<L>, hands: &mut Hands, p: u32)
    requires may { is_enabled world.old (Lease p) ≡ true }
    requires all { HasAll hands.old world.old }
    ensures goes { Goes (Lease p) hands.old world.old hands.new world.new }
    ensures script { world.new.script ≡ world.old.script }
{
    match world.lease(p) {
        Leased::Out(lease) => hands.put_lease(p, lease),
        Leased::Answered | Leased::Idle => {}
    }
}

// A process's line is done on its memory, which goes back.
fn give_back<L: Link>(world: &mut World<L>, hands: &mut Hands, p: u32)
    requires may { is_enabled world.old (GiveBack p) ≡ true }
    requires all { HasAll hands.old world.old }
    ensures goes { Goes (GiveBack p) hands.old world.old hands.new world.new }
    ensures script { world.new.script ≡ world.old.script }
{
    let mut lease = hands.take_lease(p).unwrap();
    lease.apply();
    let taken = world.give_back(p, lease);
    taken.unwrap();
}

// A step that hands nothing over.
fn plain<L: Link>(world: &mut World<L>, hands: &Hands, step: Step)
    requires may { is_enabled world.old step ≡ true }
    requires none { hands_over step ≡ false }
    requires all { HasAll hands.now world.old }
    ensures goes { Goes step hands.now world.old hands.now world.new }
    ensures script { world.new.script ≡ world.old.script }
{
    world.step(step);
}

/// Does a step that may come next: what it hands out is in hand from then on, and what it takes
/// back is done before.
///
/// # Errors
/// `Memory` where there is none to keep a job that went out.
pub fn do_step<L: Link, E: Engine>(
    world: &mut World<L>,
    hands: &mut Hands,
    engine: &mut E,
    step: Step,
) -> Result<(), Memory>
    requires may { is_enabled world.old step ≡ true }
    requires sound { IsSound world.old }
    requires all { HasAll hands.old world.old }
    ensures goes { OnOk result (Goes step hands.old world.old hands.new world.new) }
    ensures fails { OnOk result
        (FailsWithin world.old world.new (E.faults engine.old) (E.faults engine.new)) }
    ensures count { E.faults engine.old ≤ E.faults engine.new }
    ensures script { world.new.script ≡ world.old.script }
{
    match step {
        Step::Begin(session) => return begin(world, hands, session),
        Step::Finish(number) => finish(world, hands, engine, number),
        Step::Lease(p) => lend(world, hands, p),
        Step::GiveBack(p) => give_back(world, hands, p),
        Step::Issue(_)
        | Step::Execute
        | Step::Resume(_)
        | Step::Announce
        | Step::Collect
        | Step::Pump => {
            plain(world, hands, step);
        }
    }
    Ok(())
}
