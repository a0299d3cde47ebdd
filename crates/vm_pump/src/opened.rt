ghost use Rattle.std.specs.Prelude.{◌≡◌, ◌≤◌, [], length, take, vec_capacity};
ghost use Rattle.vm_mem.specs.Lists.{first_of};
ghost use Rattle.vm_wire.specs.Event.{SpellsEvent};
ghost use Rattle.vm_wire.specs.declared.event.EventMsg.{EventMsg};
ghost use Rattle.vm_pump.specs.Pump.{session_of, delivery_of, event_bytes_in, BringsEvent};

use vm_frame::Held;
use vm_link::{Finished, Parcel};
use vm_mem::Page;
use vm_wire::{Delivery, EventMsg, decode_event};

// The first bytes of a page, as many as were written.
fn written(page: &Page, used: u32) -> &[u8]
    ensures { result.now ≡ take used page.now.bytes }
{
    let bytes = page.as_slice();
    &bytes[..(used as usize).min(bytes.len())]
}

// The session that a message is for.
fn session_of(msg: &EventMsg) -> u32
    ensures { result ≡ session_of msg.now }
{
    match msg {
        EventMsg::Dequeued { session, .. } | EventMsg::Happened { session, .. } => *session,
    }
}

// The one memory that came along, if one did.
fn take_held(held: &mut Vec<Held>) -> Option<Held>
    requires { length held.old.items ≤ 1 }
    ensures first { result ≡ first_of held.old.items }
    ensures none { held.new.items ≡ [] }
    ensures room { vec_capacity held.new ≡ vec_capacity held.old }
{
    held.pop()
}

// The message that a chain brought.
fn message_in(done: &Finished) -> EventMsg
    requires page { length done.now.parcel.pages ≡ 1 }
    requires brings { BringsEvent done.now }
    ensures { (msg : EventMsg) → SpellsEvent (event_bytes_in done.now) msg → result ≡ msg }
{
    decode_event(written(&done.parcel.pages[0], done.used)).unwrap()
}

/// Takes the event out of a chain that the device finished, and gives the chain, which can be
/// posted again with its room for memories.
///
/// The chain has one page, in which the device wrote a message, and at most one memory came along.
///
/// Source: own, after the events of the VIRTIO 1.4 draft's media device.
pub fn open_event(done: Finished) -> (Parcel, Delivery)
    requires page { length done.parcel.pages ≡ 1 }
    requires brings { BringsEvent done }
    requires held { length done.parcel.held ≤ 1 }
    ensures chain { result.0 ≡ record done.parcel { held = [] } }
    ensures event { (msg : EventMsg) → SpellsEvent (event_bytes_in done) msg →
        result.1 ≡ delivery_of msg done.parcel.held }
{
    let msg = message_in(&done);
    let Finished { mut parcel, .. } = done;
    let held = take_held(&mut parcel.held);
    let session = session_of(&msg);
    (parcel, Delivery { session, msg, held })
}
