// The device's end of a plain link, by hand: a chain that waits comes back with what it is given.

ghost use Rattle.std.specs.Prelude.{◌≡◌, ◌≤◌, ◌++◌, ◌∷◌, [], ℕ, IfOk, OnOk, length, slice_index_or, take};
ghost use Rattle.vm_guest.specs.ByHand.{BringsOne, Replies, with_reply, came_back};
ghost use Rattle.vm_guest.specs.Chain.{IsEventChain, IsHome, with_front, no_page};
ghost use Rattle.vm_link.specs.Queue.{queue_at, with_queue};
ghost use Rattle.vm_pump.specs.Pump.{session_of};
ghost use Rattle.vm_wire.specs.Event.{SpellsEvent};
ghost use Rattle.vm_wire.specs.Wire.{response_bytes};

use super::rig::check;
use crate::chain::make_chain;
use std::alloc::Global;
use std::test::Fail;
use v4l_layout::EventRec;
use vm_chain::{Chain, Desc, WRITE};
use vm_link::{Finished, Link, Parcel, PlainLink, QueueId};
use vm_mem::{Page, Store};
use vm_wire::{EventMsg, Response, encode_event, encode_response};

// The page of event chain 0.
const EVENT_PAGE: u64 = 64;

// The chain that waits first on a queue, which has so many descriptors, comes back as this parcel.
pub(super) fn send_back(
    alloc: Global,
    link: &mut PlainLink,
    q: QueueId,
    count: usize,
    parcel: Parcel,
    used: u32,
) -> Result<(), Fail>
    ensures { OnOk result ((head : ℕ) × (link.new ≡
        with_queue q (came_back (queue_at q link.old) head used parcel count) link.old)) }
{
    let mut chain = Chain::room(alloc, 64)?;
    let taken = link.take(q, &mut chain).ok_or("no chain waits")?;
    check(taken.parcel.table.len() == count, "another chain")?;
    link.finish(
        q,
        Finished {
            head: taken.head,
            used,
            parcel,
        },
    );
    Ok(())
}

// The message that a frame of a session began.
fn happened(session: u32) -> EventMsg
    ensures { session_of result ≡ session }
{
    EventMsg::Happened {
        session,
        event: EventRec {
            kind: 4,
            u: [0; 64],
            pending: 0,
            sequence: 0,
            seconds: 0,
            nanos: 0,
            id: 0,
        },
    }
}

// An event chain with a message.
fn event_parcel(alloc: Global, msg: &EventMsg) -> Result<Parcel, Fail>
    ensures chain { IfOk result (λ p. IsEventChain 0 [] p) }
    ensures brings { IfOk result (λ p. SpellsEvent
        (take 608 (slice_index_or p.pages 0 no_page).bytes) msg.now) }
{
    let mut bytes = [0; 608];
    encode_event(msg, &mut bytes);
    let mut page = Page::make_zero(alloc, EVENT_PAGE)?;
    page.copy_in(0, &bytes);
    let mut table = Vec::with_capacity(alloc, 1)?;
    table.push_reserved(Desc {
        addr: EVENT_PAGE * 4096,
        len: 608,
        flags: WRITE,
        next: 0,
    });
    let mut pages = Vec::with_capacity(alloc, 1)?;
    pages.push_reserved(page);
    Ok(Parcel {
        who: 0,
        table,
        pages,
        held: Vec::with_capacity(alloc, 1)?,
    })
}

// An event of a session comes back in the chain that waits first, where none else did.
pub(super) fn announce(alloc: Global, link: &mut PlainLink, session: u32) -> Result<(), Fail>
    ensures one { OnOk result (BringsOne session link.new.event.done) }
    ensures commands { OnOk result (link.new.command ≡ link.old.command) }
{
    check(link.uncollected(QueueId::Event) == 0, "an event is there")?;
    let parcel = event_parcel(alloc, &happened(session))?;
    send_back(alloc, link, QueueId::Event, 1, parcel, 608)
}

// Puts bytes at the front of a page.
fn put_front(page: &mut Page, bytes: &[u8])
    requires { length bytes.now ≤ 4096 }
    ensures { page.new ≡ with_front page.old bytes.now }
{
    let _size = page.size();
    page.copy_in(0, bytes);
}

// Puts bytes at the front of the page for a process's reply.
fn put_reply(chain: &mut Parcel, bytes: &[u8])
    requires chain { (p : ℕ) × IsHome p chain.old }
    requires fits { length bytes.now ≤ 4096 }
    ensures { chain.new ≡ with_reply chain.old bytes.now }
{
    put_front(&mut chain.pages[1], bytes);
}

// The chain of a process with a reply.
fn reply_parcel(alloc: Global, p: u16, response: &Response) -> Result<Parcel, Fail>
    requires few { length (response_bytes response.now) ≤ 304 }
    ensures chain { IfOk result (λ chain. IsHome p chain) }
    ensures tells { IfOk result (λ chain. take (length (response_bytes response.now))
        (slice_index_or chain.pages 1 no_page).bytes ≡ response_bytes response.now) }
{
    let mut bytes = [0; 304];
    encode_response(response, &mut bytes);
    let mut chain = make_chain(alloc, p)?;
    put_reply(&mut chain, &bytes);
    Ok(chain)
}

// A process's command is answered so, where no other reply is there.
pub(super) fn answer(
    alloc: Global,
    link: &mut PlainLink,
    p: u16,
    response: &Response,
    len: u32,
) -> Result<(), Fail>
    requires count { len ≡ length (response_bytes response.now) }
    requires few { len ≤ 304 }
    ensures one { OnOk result (Replies p response.now link.new.command.done) }
    ensures events { OnOk result (link.new.event ≡ link.old.event) }
{
    check(link.uncollected(QueueId::Command) == 0, "a reply is there")?;
    let parcel = reply_parcel(alloc, p, response)?;
    send_back(alloc, link, QueueId::Command, 2, parcel, len)
}
