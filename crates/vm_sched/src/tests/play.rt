// A world that is played step by step.

ghost use Rattle.std.specs.Prelude.{◌≡◌, true, IfOk};
ghost use Rattle.vm_realm.specs.Enabled.{is_enabled};
ghost use Rattle.vm_realm.specs.Sound.{IsRunnable};
ghost use Rattle.vm_sched.specs.Hands.{HasNoneOut};

use super::scripts::check;
use crate::doing::do_step;
use crate::hands::Hands;
use std::alloc::Global;
use std::marker::Model;
use std::test::Fail;
use vm_io::SureEngine;
use vm_link::PlainLink;
use vm_local::{Entry, Reply};
use vm_script::Script;
use vm_world::{Step, World};

// The world of a script, and what is out of it.
#[derive(Drop)]
pub(super) struct Play {
    world: World<PlainLink>,
    hands: Hands,
    engine: SureEngine,
}

impl Model for Play {
    ghost use Rattle.vm_realm.specs.World.{WorldState};
    ghost use Rattle.vm_sched.specs.Hands.{HasAll};

    ghost Value = { WorldState };

    ghost view = { λ p. p.world };

    ghost invariant = { λ p. HasAll p.hands p.world };
}

// The world of a script before its first line.
pub(super) fn world_of(alloc: Global, script: Script) -> Result<World<PlainLink>, Fail>
    requires { IsRunnable script }
    ensures { IfOk result HasNoneOut }
{
    let link = PlainLink::new(alloc, 64, 16)?;
    Ok(World::new(alloc, script, link)?)
}

// Whether a step may come next.
fn may_come(world: &World<PlainLink>, step: Step) -> bool
    ensures { result ≡ true → is_enabled world.now step ≡ true }
{
    for k in 0..world.enabled_len() {
        if let Some(next) = world.enabled_at(k) {
            if next == step {
                return true;
            }
        }
    }
    false
}

// The log of a process's first handle.
pub(super) fn log_of(world: &World<PlainLink>, p: u32) -> &[Entry] {
    match world.guest().handle(p, 0) {
        Some(handle) => handle.log(),
        None => &[],
    }
}

// What an entry tells: a call, a frame that is good or bad, or a buffer or an event that the driver
// has.
fn letter(entry: &Entry) -> u8 {
    match entry {
        Entry::Called { .. } => b'c',
        Entry::Finish => b'f',
        Entry::Bad => b'b',
        Entry::Give => b'g',
    }
}

impl Play {
    pub(super) fn new(alloc: Global, script: Script) -> Result<Play, Fail>
        requires { IsRunnable script }
    {
        let world = world_of(alloc, script)?;
        let hands = Hands::new(alloc, world.guest().process_count())?;
        Ok(Play {
            world,
            hands,
            engine: SureEngine::new(),
        })
    }

    // Does a step, which may come next.
    fn step(self, step: Step) -> Result<Play, Fail> {
        let Play {
            mut world,
            mut hands,
            mut engine,
        } = self;
        let _done = world.is_done();
        check(may_come(&world, step), "the step may not come next")?;
        do_step(&mut world, &mut hands, &mut engine, step)?;
        Ok(Play {
            world,
            hands,
            engine,
        })
    }

    // Does steps one after the other, each of which may come next in its turn.
    pub(super) fn steps(self, steps: &[Step]) -> Result<Play, Fail> {
        let mut play = self;
        for step in steps {
            play = play.step(*step)?;
        }
        Ok(play)
    }

    // The process's next calls, one after the other: each goes to the device, and its reply is
    // logged.
    pub(super) fn calls(self, p: u32, count: u32) -> Result<Play, Fail> {
        let mut play = self;
        for _call in 0..count {
            play = play.steps(&[Step::Issue(p), Step::Execute, Step::Collect])?;
        }
        Ok(play)
    }

    // Whether the log of a process's handle has just these entries, by their letters.
    pub(super) fn tells(&self, p: u32, letters: &[u8]) -> bool {
        let log = log_of(&self.world, p);
        if log.len() != letters.len() {
            return false;
        }
        for (entry, told) in log.iter().zip(letters) {
            if letter(entry) != *told {
                return false;
            }
        }
        true
    }

    // The reply that the log of a process's handle ends with.
    pub(super) fn last_reply(&self, p: u32) -> Option<Reply> {
        match log_of(&self.world, p) {
            [.., Entry::Called { reply, .. }] => Some(*reply),
            _ => None,
        }
    }

    // The world.
    pub(super) fn world(&self) -> &World<PlainLink> {
        &self.world
    }
}
