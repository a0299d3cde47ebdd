ghost use Rattle.std.specs.Prelude.{◌≡◌, length};

use super::*;
use std::alloc::Global;
use std::test::Fail;
use vm_chain::{Chain, Desc, NEXT, WRITE};
use vm_link::{Finished, Link, Parcel, QueueId};
use vm_mem::Page;

const COMMAND_PAGE: u64 = 16 * 4096;

const REPLY_PAGE: u64 = 17 * 4096;

fn desc(addr: u64, len: u32, flags: u16, next: u16) -> Desc {
    Desc {
        addr,
        len,
        flags,
        next,
    }
}

// A command of 8 bytes and room for its reply, as a driver posts them.
fn ordinary() -> [Desc; 2] {
    [
        desc(COMMAND_PAGE, 8, NEXT, 1),
        desc(REPLY_PAGE, 304, WRITE, 0),
    ]
}

// A parcel with this table, over the pages 16 and 17.
fn parcel(alloc: Global, who: u16, table: &[Desc]) -> Result<Parcel, Fail> {
    let mut pages = Vec::with_capacity(alloc, 2)?;
    pages.push_reserved(Page::make_zero(alloc, 16)?);
    pages.push_reserved(Page::make_zero(alloc, 17)?);
    let mut own_table = Vec::new(alloc);
    own_table.extend_from_slice(table)?;
    Ok(Parcel {
        who,
        table: own_table,
        pages,
        held: Vec::new(alloc),
    })
}

// Posts a parcel, where it may be posted.
fn post(link: &mut SplitLink, q: QueueId, parcel: Parcel) -> Result<(), Fail> {
    let count = parcel.table.len();
    if count == 0 || count > 4 || parcel.pages.len() > 4 || usize::from(link.free(q)) < count {
        return Err(Fail::from("no place for the parcel"));
    }
    link.post(q, parcel);
    Ok(())
}

// Posts a parcel with this table.
fn post_table(
    alloc: Global,
    link: &mut SplitLink,
    q: QueueId,
    who: u16,
    table: &[Desc],
) -> Result<(), Fail> {
    let parcel = parcel(alloc, who, table)?;
    post(link, q, parcel)
}

// Takes the first parcel, and gives it back at once.
fn serve(link: &mut SplitLink, q: QueueId, chain: &mut Chain, used: u32) -> Result<(), Fail> {
    let Some(taken) = link.take(q, chain) else {
        return Err(Fail::from("none waits"));
    };
    let done = Finished {
        head: taken.head,
        used,
        parcel: taken.parcel,
    };
    link.finish(q, done);
    Ok(())
}

// Collects the first chain that is done, and tells who posted it.
fn collect_from(link: &mut SplitLink, q: QueueId) -> Result<u16, Fail> {
    let done = link.collect(q).ok_or("none is done")?;
    Ok(done.parcel.who)
}

// How many descriptors are free, and how many parcels are untaken and uncollected.
fn counts(link: &SplitLink, q: QueueId) -> (u16, u16, u16) {
    (link.free(q), link.untaken(q), link.uncollected(q))
}

// The bytes of a queue's page.
fn page_of(link: &SplitLink, q: QueueId) -> &[u8]
    ensures { length result.now ≡ 4096 }
{
    link.ring(q)
}

// A link of the sizes that the program has.
fn new_link(alloc: Global) -> Result<SplitLink, Fail> {
    Ok(SplitLink::new(alloc, 64, 16)?)
}

#[test]
fn the_first_command_lies_on_the_ring(rt: HostRuntime) -> Result<(), Fail> {
    let mut link = new_link(rt.alloc())?;
    post_table(rt.alloc(), &mut link, QueueId::Command, 0, &ordinary())?;
    let ring = page_of(&link, QueueId::Command);
    let first = [0, 0, 1, 0, 0, 0, 0, 0, 8, 0, 0, 0, 1, 0, 1, 0];
    let second = [0, 0x10, 1, 0, 0, 0, 0, 0, 0x30, 1, 0, 0, 2, 0, 0, 0];
    assert_eq!(rt; &ring[..16], first.as_slice());
    assert_eq!(rt; &ring[16..32], second.as_slice());
    assert!(rt; ring[32..1024].iter().all(|byte| *byte == 0));
    assert_eq!(rt; &ring[1024..1030], [0, 0, 1, 0, 0, 0].as_slice());
    assert!(rt; ring[1030..].iter().all(|byte| *byte == 0));
    let other = page_of(&link, QueueId::Event);
    assert!(rt; other.iter().all(|byte| *byte == 0));
    Ok(())
}

// What a queue of four descriptors holds after the run below, worked by hand: the descriptors, the
// available ring with its five posted heads 0, 2, 2, 0 and again 2, and the used ring with the
// three chains that came back.
const AFTER_THE_RUN: [u8; 118] = [
    // The first descriptor of the chain of three. The others are the ring's 1 and 3.
    0, 0, 1, 0, 0, 0, 0, 0, 8, 0, 0, 0, 1, 0, 1, 0, //
    0, 0x10, 1, 0, 0, 0, 0, 0, 0x10, 0, 0, 0, 3, 0, 3, 0, //
    // The last chain, whose `next` lies outside its table.
    8, 0, 1, 0, 0, 0, 0, 0, 4, 0, 0, 0, 0, 0, 0xff, 0xff, //
    0, 0x11, 1, 0, 0, 0, 0, 0, 0x20, 0, 0, 0, 2, 0, 0, 0, //
    // The available ring: its flags, its index, four heads and the number of the last event, and
    // two bytes up to a place that is a multiple of 4.
    0, 0, 5, 0, 2, 0, 2, 0, 2, 0, 0, 0, 0, 0, 0, 0, //
    // The used ring: its flags, its index, four entries and the number of the last event.
    0, 0, 3, 0, //
    2, 0, 0, 0, 8, 0, 0, 0, //
    0, 0, 0, 0, 0x30, 1, 0, 0, //
    2, 0, 0, 0, 1, 0, 0, 0, //
    0, 0, 0, 0, 0, 0, 0, 0, //
    0, 0,
];

// Takes the first two parcels, and gives them back in the other order.
fn serve_two(link: &mut SplitLink, q: QueueId, chain: &mut Chain) -> Result<(), Fail> {
    let first = link.take(q, chain).ok_or("none waits")?;
    let second = link.take(q, chain).ok_or("none waits")?;
    let early = Finished {
        head: second.head,
        used: 8,
        parcel: second.parcel,
    };
    link.finish(q, early);
    let late = Finished {
        head: first.head,
        used: 304,
        parcel: first.parcel,
    };
    link.finish(q, late);
    Ok(())
}

// The run: who posted what was collected, in order.
fn run(alloc: Global, link: &mut SplitLink, q: QueueId) -> Result<[u16; 3], Fail> {
    let mut chain = Chain::room(alloc, 64)?;
    let single = [desc(COMMAND_PAGE, 8, 0, 0)];
    let triple = [
        desc(COMMAND_PAGE, 8, NEXT, 1),
        desc(REPLY_PAGE, 16, NEXT | WRITE, 2),
        desc(REPLY_PAGE + 256, 32, WRITE, 0),
    ];
    let outside = [desc(COMMAND_PAGE + 8, 4, 0, 5)];
    post_table(alloc, link, q, 1, &ordinary())?;
    post_table(alloc, link, q, 2, &single)?;
    serve_two(link, q, &mut chain)?;
    let first = collect_from(link, q)?;
    post_table(alloc, link, q, 3, &single)?;
    let second = collect_from(link, q)?;
    post_table(alloc, link, q, 4, &triple)?;
    serve(link, q, &mut chain, 1)?;
    let third = collect_from(link, q)?;
    post_table(alloc, link, q, 5, &outside)?;
    Ok([first, second, third])
}

// Whether a page begins with these bytes and has zeros behind them.
fn holds(page: &[u8], bytes: &[u8]) -> bool {
    page.starts_with(bytes) && page.iter().skip(bytes.len()).all(|byte| *byte == 0)
}

#[test]
fn a_run_leaves_these_bytes(rt: HostRuntime) -> Result<(), Fail> {
    let mut link = SplitLink::new(rt.alloc(), 4, 1)?;
    let owners = run(rt.alloc(), &mut link, QueueId::Command)?;
    assert_eq!(rt; owners, [2, 1, 3]);
    assert_eq!(rt; counts(&link, QueueId::Command), (0, 2, 0));
    let ring = page_of(&link, QueueId::Command);
    assert!(rt; holds(ring, AFTER_THE_RUN.as_slice()));
    Ok(())
}

// Whether a parcel is the one that was posted.
fn is_as_posted(parcel: &Parcel, who: u16) -> bool {
    let [command, reply] = ordinary();
    parcel.who == who
        && parcel.table.len() == 2
        && parcel.table[0] == command
        && parcel.table[1] == reply
        && parcel.pages.len() == 2
        && parcel.pages[0].number == 16
        && parcel.pages[1].number == 17
        && parcel.held.is_empty()
}

// Sends a parcel round a queue of `size` descriptors, which is empty then.
fn go_round(
    link: &mut SplitLink,
    q: QueueId,
    size: u16,
    chain: &mut Chain,
    parcel: Parcel,
    used: u32,
) -> Result<Parcel, Fail> {
    let who = parcel.who;
    post(link, q, parcel)?;
    serve(link, q, chain, used)?;
    let back = link.collect(q).ok_or("none is done")?;
    if back.used != used || !is_as_posted(&back.parcel, who) {
        return Err(Fail::from("another parcel came back"));
    }
    if counts(link, q) != (size, 0, 0) {
        return Err(Fail::from("the queue isn't empty"));
    }
    Ok(back.parcel)
}

fn go_rounds(alloc: Global, q: QueueId, size: u16) -> Result<(), Fail> {
    let mut link = new_link(alloc)?;
    let mut chain = Chain::room(alloc, 64)?;
    let mut travelling = parcel(alloc, 0, &ordinary())?;
    for number in 0..70_000_u32 {
        travelling.who = (number % 65_536) as u16;
        travelling = go_round(&mut link, q, size, &mut chain, travelling, number)?;
    }
    Ok(())
}

#[test]
fn parcels_come_back_though_the_index_wraps(rt: HostRuntime) -> Result<(), Fail> {
    go_rounds(rt.alloc(), QueueId::Command, 64)?;
    go_rounds(rt.alloc(), QueueId::Event, 16)
}
