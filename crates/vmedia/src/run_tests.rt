ghost use Rattle.std.specs.Prelude.{◌<◌, ◌-◌, ◌^◌, length};

use crate::run::run_world;
use crate::top_tests::rows::CAPTURE;
use std::alloc::Global;
use std::test::Fail;
use vm_chain::Chain;
use vm_io::SureEngine;
use vm_link::{Finished, Link, Parcel, PlainLink, QueueId, Taken};
use vm_script::read_script;
use vm_world::World;

/// How many chains went over each queue.
#[derive(Clone, Copy, Debug, PartialEq, Eq)]
struct Count {
    commands: u32,
    events: u32,
}

/// None so far.
const NONE: Count = Count {
    commands: 0,
    events: 0,
};

impl Count {
    /// One more went over a queue.
    fn add(&mut self, q: QueueId) {
        match q {
            QueueId::Command => self.commands = self.commands.saturating_add(1),
            QueueId::Event => self.events = self.events.saturating_add(1),
        }
    }
}

/// A link that counts what goes over it.
#[derive(Drop)]
struct Counting<L: Link> {
    link: L,
    posted: Count,
    taken: Count,
    finished: Count,
    collected: Count,
}

impl<L: Link> Link for Counting<L> {
    ghost queues = { λ c. L.queues c.link };

    fn free(&self, q: QueueId) -> u16 {
        self.link.free(q)
    }

    fn untaken(&self, q: QueueId) -> u16 {
        self.link.untaken(q)
    }

    fn uncollected(&self, q: QueueId) -> u16 {
        self.link.uncollected(q)
    }

    fn post(&mut self, q: QueueId, parcel: Parcel) {
        self.posted.add(q);
        self.link.post(q, parcel);
    }

    fn take(&mut self, q: QueueId, chain: &mut Chain) -> Option<Taken> {
        let taken = self.link.take(q, chain)?;
        self.taken.add(q);
        Some(taken)
    }

    fn finish(&mut self, q: QueueId, done: Finished) {
        self.finished.add(q);
        self.link.finish(q, done);
    }

    fn collect(&mut self, q: QueueId) -> Option<Finished> {
        let done = self.link.collect(q)?;
        self.collected.add(q);
        Some(done)
    }
}

// How many chains were posted, taken, finished and collected in the run of a script.
fn crossings_of(alloc: Global, bytes: &[u8]) -> Result<[Count; 4], Fail>
    requires { length bytes.now < 2 ^ 32 - 1 }
{
    let script = read_script(alloc, bytes)?;
    let link = Counting {
        link: PlainLink::new(alloc, 64, 16)?,
        posted: NONE,
        taken: NONE,
        finished: NONE,
        collected: NONE,
    };
    let mut world = World::new(alloc, script, link)?;
    run_world(alloc, &mut world, 7, &mut SureEngine::new())?;
    let link = world.link();
    Ok([link.posted, link.taken, link.finished, link.collected])
}

#[test]
fn what_no_handle_answers_by_itself_crosses(rt: HostRuntime) -> Result<(), Fail> {
    // A script, how many of its calls cross, and how many events come.
    let scripts: [(&[u8], u32, u32); 7] = [
        (b"", 0, 0),
        (b"open a\nclose a\n", 2, 0),
        (b"open a\nclose a\nclose a\n", 2, 0),
        (b"open a\nopen b\nclose b\nopen c\nclose a\nclose b\n", 5, 0),
        (
            b"open a\nsfmt a cap ABCD 641 1\ntryfmt a cap NV12 17 481\ntryfmt a cap RGB3 0 4294967295\ngfmt a cap\n",
            5,
            0,
        ),
        (
            b"open a\ngfmt a out\nsinput a 4\nclose a\nginput a\nquerycap a\n",
            4,
            0,
        ),
        // All but the four that take a buffer and the four that read it. Each of seven frames sends
        // its event and its buffer.
        (CAPTURE, 23, 14),
    ];
    for (bytes, commands, events) in scripts {
        let each = Count { commands, events };
        // Behind the chains for events that are posted first, each is posted again.
        let posted = Count {
            commands,
            events: 16 + events,
        };
        assert_eq!(rt;
            crossings_of(rt.alloc(), bytes)?,
            [posted, each, each, each]
        );
    }
    Ok(())
}
