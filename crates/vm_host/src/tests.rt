ghost use Rattle.std.specs.Prelude.{◌≤◌, length};

mod capture;
mod entries;
mod rig;

use super::*;
use std::alloc::Global;
use std::test::Fail;
use v4l_const::Model;
use vm_chain::{Desc, INDIRECT, NEXT, WRITE};
use vm_link::{Finished, Link, Parcel, PlainLink, QueueId, Turn};
use vm_mem::{Page, Store};

// The addresses of the page that a command stands in, and of the page for its reply.
const COMMAND: u64 = 0x10000;

const REPLY: u64 = 0x11000;

// In a reply's room the bytes that are not written stay.
const STAYS: u32 = 0xeeee_eeee;

fn desc(addr: u64, len: u32, flags: u16, next: u16) -> Desc {
    Desc {
        addr,
        len,
        flags,
        next,
    }
}

// A chain of two: so many bytes of the command's page are read, and so many of the reply's page may
// be written.
fn chain(len: u32, room: u32) -> [Desc; 2] {
    [desc(COMMAND, len, NEXT, 1), desc(REPLY, room, WRITE, 0)]
}

// Numbers of four bytes each.
fn bytes_of(numbers: [u32; 10]) -> [u8; 40] {
    let mut bytes = [0; 40];
    for (place, number) in numbers.iter().enumerate() {
        bytes[4 * place..4 * place + 4].copy_from_slice(&number.to_le_bytes());
    }
    bytes
}

// The bytes of six numbers.
fn reply_bytes(reply: [u32; 6]) -> [u8; 24] {
    let [a, b, c, d, e, f] = reply;
    let mut bytes = [0; 24];
    bytes.copy_from_slice(&bytes_of([a, b, c, d, e, f, 0, 0, 0, 0])[..24]);
    bytes
}

// The reply that is a status alone: an errno, or 0.
fn status(number: u32) -> [u32; 6] {
    [number, 0, STAYS, STAYS, STAYS, STAYS]
}

// The reply that tells the session that is opened.
fn opened(session: u32) -> [u32; 6] {
    [0, 0, session, 0, STAYS, STAYS]
}

// A page's first bytes.
fn front(page: &Page) -> [u8; 24] {
    let mut bytes = [0; 24];
    bytes.copy_from_slice(&page.as_slice()[..24]);
    bytes
}

// Sends a chain to a new device over a link of its own, and gives it as the device sends it back.
fn send(alloc: Global, descs: &[Desc], numbers: [u32; 10]) -> Result<Finished, Fail>
    requires some { 1 ≤ length descs.now }
    requires few { length descs.now ≤ 4 }
{
    let mut command = Page::make_zero(alloc, COMMAND / 4096)?;
    command.copy_in(0, &bytes_of(numbers));
    let mut reply = Page::make_zero(alloc, REPLY / 4096)?;
    reply.copy_in(0, &bytes_of([STAYS; 10]));
    let mut table = Vec::new(alloc);
    table.extend_from_slice(descs)?;
    let mut pages = Vec::new(alloc);
    pages.push(command)?;
    pages.push(reply)?;
    let mut link = PlainLink::new(alloc, 64, 16)?;
    link.post(
        QueueId::Command,
        Parcel {
            who: 0,
            table,
            pages,
            held: Vec::with_capacity(alloc, 64)?,
        },
    );
    let mut host = Host::new(alloc, Model::Capture, 64)?;
    host.execute(&mut link);
    Ok(link.collect(QueueId::Command).ok_or("no reply")?)
}

// The same, of which it gives the used length and the first bytes of the reply's page.
fn answer(alloc: Global, descs: &[Desc], numbers: [u32; 10]) -> Result<(u32, [u8; 24]), Fail>
    requires some { 1 ≤ length descs.now }
    requires few { length descs.now ≤ 4 }
{
    let done = send(alloc, descs, numbers)?;
    let reply = done.parcel.pages.get(1).ok_or("no page")?;
    Ok((done.used, front(reply)))
}

#[test]
fn commands_are_judged(rt: HostRuntime) -> Result<(), Fail> {
    // The command's numbers, how many bytes of them are sent, the room for the reply; the used
    // length and the reply.
    let rows = [
        ([1, 0, 0, 0, 0, 0, 0, 0, 0, 0], 8, 64, 16, opened(0)),
        ([1, 7, 0, 0, 0, 0, 0, 0, 0, 0], 40, 16, 16, opened(0)),
        ([1, 0, 0, 0, 0, 0, 0, 0, 0, 0], 7, 64, 8, status(22)),
        ([1, 0, 0, 0, 0, 0, 0, 0, 0, 0], 8, 15, 8, status(90)),
        ([1, 0, 0, 0, 0, 0, 0, 0, 0, 0], 8, 7, 0, [STAYS; 6]),
        ([9, 0, 0, 0, 0, 0, 0, 0, 0, 0], 40, 64, 8, status(95)),
        ([2, 0, 5, 0, 0, 0, 0, 0, 0, 0], 15, 64, 8, status(22)),
        ([2, 0, 5, 0, 0, 0, 0, 0, 0, 0], 16, 64, 8, status(9)),
        ([3, 0, 0, 17, 0, 0, 0, 0, 0, 0], 40, 64, 8, status(25)),
        ([3, 0, 0, 39, 2, 0, 0, 0, 0, 0], 19, 64, 8, status(22)),
        ([3, 0, 0, 39, 2, 0, 0, 0, 0, 0], 20, 11, 8, status(90)),
        ([3, 0, 0, 39, 2, 0, 0, 0, 0, 0], 20, 64, 8, status(9)),
        ([4, 0, 0, 1, 0, 0, 0, 0, 0, 0], 24, 64, 8, status(9)),
        ([5, 0, 4096, 0, 0, 0, 0, 0, 0, 0], 16, 64, 8, status(22)),
    ];
    for (numbers, len, room, used, reply) in rows {
        let answer = answer(rt.alloc(), &chain(len, room), numbers)?;
        assert_eq!(rt; answer, (used, reply_bytes(reply)));
    }
    Ok(())
}

#[test]
fn faulty_chains_go_back_empty(rt: HostRuntime) -> Result<(), Fail> {
    let open = [1, 0, 0, 0, 0, 0, 0, 0, 0, 0];
    let nowhere = 0xffff_ffff_ffff_f000;
    let reply = desc(REPLY, 64, WRITE, 0);
    let faulty = [
        // Each is the other's next.
        (desc(COMMAND, 8, NEXT, 1), desc(COMMAND, 8, NEXT, 0)),
        // The next is outside the table.
        (desc(COMMAND, 8, NEXT, 65535), reply),
        // A readable descriptor behind a writable one.
        (desc(REPLY, 64, NEXT | WRITE, 1), desc(COMMAND, 8, 0, 0)),
        // No bytes, an address where no page is, a table of descriptors.
        (desc(COMMAND, 0, NEXT, 1), reply),
        (desc(nowhere, 8, NEXT, 1), reply),
        (desc(COMMAND, 16, NEXT | INDIRECT, 1), reply),
    ];
    for (first, second) in faulty {
        let answer = answer(rt.alloc(), &[first, second], open)?;
        assert_eq!(rt; answer, (0, reply_bytes([STAYS; 6])));
    }
    Ok(())
}

#[test]
fn nothing_is_to_be_done_at_first(rt: HostRuntime) -> Result<(), Fail> {
    let mut host = Host::new(rt.alloc(), Model::Capture, 4)?;
    let mut link = PlainLink::new(rt.alloc(), 64, 16)?;
    assert_eq!(rt; host.execute(&mut link), Turn::Idle);
    assert_eq!(rt; host.resume(&mut link, 0), Turn::Idle);
    assert_eq!(rt; host.announce(&mut link), Turn::Idle);
    assert!(rt; host.begin(0).is_none());
    assert_eq!(rt; (host.opened(), host.has_unsent()), (0, false));
    assert_eq!(rt; (host.can_begin(0), host.can_resume(0)), (false, false));
    assert_eq!(rt; (host.ready_len(), host.resumable_len()), (0, 0));
    assert!(rt; host.resumable_at(0).is_none());
    assert!(rt; host.jobs_out().is_empty());
    assert!(rt; host.waiting().is_empty());
    assert!(rt; host.region().journal().is_empty());
    assert_eq!(rt; link.untaken(QueueId::Command), 0);
    Ok(())
}
