ghost use Rattle.std.specs.Prelude.{◌≡◌, ◌≤◌, length, IfOk};
ghost use Rattle.vm_link.specs.Queue.{queue_at, free_count};

use super::*;
use std::alloc::Global;
use std::test::Fail;
use vm_chain::{Chain, ChainFault, ChainKind, Desc, INDIRECT, NEXT, WRITE};
use vm_mem::Page;

fn desc(addr: u64, len: u32, flags: u16, next: u16) -> Desc {
    Desc {
        addr,
        len,
        flags,
        next,
    }
}

// A parcel with this table, over the pages 16 and 17.
fn parcel(alloc: Global, who: u16, table: &[Desc]) -> Result<Parcel, Fail>
    ensures { IfOk result (λ p. (p.table ≡ table.now) × (length p.pages ≡ 2)) }
{
    let mut pages = Vec::with_capacity(alloc, 2)?;
    pages.push_reserved(Page::make_zero(alloc, 16)?);
    pages.push_reserved(Page::make_zero(alloc, 17)?);
    let mut own_table = Vec::new(alloc);
    own_table.extend_from_slice(table)?;
    Ok(Parcel {
        who,
        table: own_table,
        pages,
        held: Vec::new(alloc),
    })
}

// The parcel on its way back, with `used` bytes written.
fn done(taken: Taken, used: u32) -> Finished
    ensures { result.head ≡ taken.head }
{
    Finished {
        head: taken.head,
        used,
        parcel: taken.parcel,
    }
}

// How many descriptors are free, and how many parcels are untaken and uncollected.
fn counts(link: &PlainLink, q: QueueId) -> (u16, u16, u16) {
    (link.free(q), link.untaken(q), link.uncollected(q))
}

const COMMAND_PAGE: u64 = 16 * 4096;

const REPLY_PAGE: u64 = 17 * 4096;

// A command of 8 bytes and room for its reply, as a driver posts them.
const ORDINARY: [Desc; 2] = [
    Desc {
        addr: COMMAND_PAGE,
        len: 8,
        flags: NEXT,
        next: 1,
    },
    Desc {
        addr: REPLY_PAGE,
        len: 304,
        flags: WRITE,
        next: 0,
    },
];

#[test]
fn a_taken_table_is_walked(rt: HostRuntime) -> Result<(), Fail> {
    let [command, reply] = ORDINARY;
    let around = desc(COMMAND_PAGE, 8, NEXT, 0);
    let outside = desc(COMMAND_PAGE, 8, NEXT, 65535);
    let behind = desc(REPLY_PAGE, 64, WRITE | NEXT, 1);
    let read_last = desc(COMMAND_PAGE, 8, 0, 0);
    let empty = desc(COMMAND_PAGE, 0, 0, 0);
    let nowhere = desc(0xffff_ffff_ffff_f000, 8, 0, 0);
    let indirect = desc(COMMAND_PAGE, 16, INDIRECT, 0);
    // The two descriptors, the limit, the fault with its index, and how many descriptors were
    // walked.
    let rows: [(Desc, Desc, u16, Option<(ChainKind, u16)>, usize); 9] = [
        (command, reply, 64, None, 2),
        (command, reply, 2, None, 2),
        (command, reply, 1, Some((ChainKind::TooLong, 1)), 0),
        (command, around, 64, Some((ChainKind::TooLong, 0)), 0),
        (outside, reply, 64, Some((ChainKind::NextOutside, 65535)), 0),
        (
            behind,
            read_last,
            64,
            Some((ChainKind::WriteBeforeRead, 1)),
            0,
        ),
        (empty, reply, 64, Some((ChainKind::ZeroLen, 0)), 0),
        (nowhere, reply, 64, Some((ChainKind::AddrOutside, 0)), 0),
        (indirect, reply, 64, Some((ChainKind::Indirect, 0)), 0),
    ];
    for (first, second, limit, want, walked) in rows {
        let mut link = PlainLink::new(rt.alloc(), 64, 16)?;
        let mut chain = Chain::room(rt.alloc(), limit)?;
        link.post(QueueId::Command, parcel(rt.alloc(), 7, &[first, second])?);
        let taken = link.take(QueueId::Command, &mut chain).ok_or("none waits")?;
        let fault = want.map(|(kind, at)| ChainFault { kind, at });
        assert_eq!(rt; taken.fault, fault);
        assert_eq!(rt; taken.parcel.who, 7);
        assert_eq!(rt; chain.descs().len(), walked);
        assert_eq!(rt; chain.limit(), limit);
    }
    Ok(())
}

// What is seen of two parcels that cross a queue and come back in the other order.
#[derive(Clone, Copy, Debug, PartialEq, Eq)]
struct Trip {
    // The counts when both are posted, taken, finished, and collected.
    counts: [(u16, u16, u16); 4],
    // Who took part, in the order of taking and of collecting.
    taken: [u16; 2],
    collected: [u16; 2],
    used: [u32; 2],
    // Whether the heads differ, and come back with their parcels.
    heads_differ: bool,
    heads_stay: bool,
}

// Sends the parcels of the processes 7 and 3 over the queue.
fn send_two(alloc: Global, link: &mut PlainLink, q: QueueId) -> Result<Trip, Fail>
    requires { 4 ≤ free_count (queue_at q link.old) }
{
    let mut chain = Chain::room(alloc, 64)?;
    link.post(q, parcel(alloc, 7, &ORDINARY)?);
    link.post(q, parcel(alloc, 3, &[desc(COMMAND_PAGE, 8, 0, 0)])?);
    let posted = counts(link, q);
    let first = link.take(q, &mut chain).ok_or("none waits")?;
    let second = link.take(q, &mut chain).ok_or("none waits")?;
    let taken = counts(link, q);
    let heads = [first.head, second.head];
    let owners = [first.parcel.who, second.parcel.who];
    link.finish(q, done(second, 8));
    link.finish(q, done(first, 16));
    let finished = counts(link, q);
    let early = link.collect(q).ok_or("none is done")?;
    let late = link.collect(q).ok_or("none is done")?;
    Ok(Trip {
        counts: [posted, taken, finished, counts(link, q)],
        taken: owners,
        collected: [early.parcel.who, late.parcel.who],
        used: [early.used, late.used],
        heads_differ: heads[0] != heads[1],
        heads_stay: heads == [late.head, early.head],
    })
}

#[test]
fn parcels_come_back_as_they_are_finished(rt: HostRuntime) -> Result<(), Fail> {
    let rows = [
        (QueueId::Command, 64, QueueId::Event, 16),
        (QueueId::Event, 16, QueueId::Command, 64),
    ];
    for (q, size, other, other_size) in rows {
        let mut link = PlainLink::new(rt.alloc(), 64, 16)?;
        let mut chain = Chain::room(rt.alloc(), 64)?;
        assert!(rt; link.take(q, &mut chain).is_none());
        assert!(rt; link.collect(q).is_none());
        let seen = send_two(rt.alloc(), &mut link, q)?;
        let want = Trip {
            counts: [
                (size - 3, 2, 0),
                (size - 3, 0, 0),
                (size - 3, 0, 2),
                (size, 0, 0),
            ],
            taken: [7, 3],
            collected: [3, 7],
            used: [8, 16],
            heads_differ: true,
            heads_stay: true,
        };
        assert_eq!(rt; seen, want);
        assert_eq!(rt; counts(&link, other), (other_size, 0, 0));
    }
    Ok(())
}
