ghost use Rattle.std.specs.Prelude.{◌≡◌, ◌≤◌, IfOk, length};
ghost use Rattle.vm_pump.specs.Pump.{BringsEvent};

use crate::{Pump, open_event};
use std::alloc::Global;
use std::test::Fail;
use v4l_layout::{BufferRec, EventRec};
use vm_frame::{Frame, Held, Mem};
use vm_link::{Finished, Parcel};
use vm_mem::{Page, Store};
use vm_wire::{Delivery, EventMsg, encode_event};

// The message that the device is done with the buffer of this index.
fn dequeued(session: u32, index: u32) -> EventMsg {
    EventMsg::Dequeued {
        session,
        buffer: BufferRec {
            index,
            kind: 1,
            bytesused: 256,
            flags: 0x2000,
            field: 1,
            seconds: 0,
            micros: 40_000,
            timecode: [0; 16],
            sequence: 1,
            memory: 1,
            m: 0,
            length: 256,
            reserved2: 0,
            request_fd: 0,
        },
    }
}

// The message that a frame began.
fn happened(session: u32, frame: u8) -> EventMsg {
    let mut u = [0; 64];
    u[0] = frame;
    EventMsg::Happened {
        session,
        event: EventRec {
            kind: 4,
            u,
            pending: 0,
            sequence: 0,
            seconds: 0,
            nanos: 0,
            id: 0,
        },
    }
}

// The chain of number 3 as it comes back with a message, and maybe a memory.
fn chain_with(alloc: Global, msg: &EventMsg, held: Option<Held>) -> Result<Finished, Fail>
    ensures page { IfOk result (λ f. length f.parcel.pages ≡ 1) }
    ensures brings { IfOk result (λ f. BringsEvent f) }
    ensures held { IfOk result (λ f. length f.parcel.held ≤ 1) }
{
    let mut bytes = [0; 608];
    encode_event(msg, &mut bytes);
    let mut page = Page::make_zero(alloc, 67)?;
    page.copy_in(0, &bytes);
    let mut pages = Vec::new(alloc);
    pages.push(page)?;
    let mut memories = Vec::new(alloc);
    if let Some(held) = held {
        memories.push(held)?;
    }
    let parcel = Parcel {
        who: 3,
        table: Vec::new(alloc),
        pages,
        held: memories,
    };
    Ok(Finished {
        head: 0,
        used: 608,
        parcel,
    })
}

// What is told of an event: its session, its message, and how long the memory is that came along.
fn told(delivery: Option<Delivery>) -> Option<(u32, EventMsg, Option<u32>)> {
    let Delivery { session, msg, held } = delivery?;
    let size = match held {
        Some(held) => Some(held.mem.size()),
        None => None,
    };
    Some((session, msg, size))
}

#[test]
fn an_event_is_taken_out_of_its_chain(rt: HostRuntime) -> Result<(), Fail> {
    let msg = dequeued(7, 2);
    let held = Held {
        queue: 1,
        index: 2,
        mem: Mem::OfFrame(Frame::make_zero(rt.alloc(), 5, 256)?),
    };
    let (parcel, delivery) = open_event(chain_with(rt.alloc(), &msg, Some(held))?);
    assert_eq!(rt; told(Some(delivery)), Some((7, msg, Some(256))));
    assert_eq!(rt;
        (parcel.who, parcel.pages.len(), parcel.held.len()),
        (3, 1, 0)
    );
    let msg = happened(9, 1);
    let (parcel, delivery) = open_event(chain_with(rt.alloc(), &msg, None)?);
    assert_eq!(rt; told(Some(delivery)), Some((9, msg, None)));
    assert_eq!(rt;
        (parcel.who, parcel.pages.len(), parcel.held.len()),
        (3, 1, 0)
    );
    Ok(())
}

fn delivery(session: u32, index: u32) -> Delivery {
    Delivery {
        session,
        msg: dequeued(session, index),
        held: None,
    }
}

#[test]
fn held_events_leave_in_order_for_each_session(rt: HostRuntime) -> Result<(), Fail> {
    let mut pump = Pump::new(rt.alloc(), 2)?;
    assert_eq!(rt; told(pump.release(1)), None);
    pump.hold(delivery(1, 0));
    pump.hold(delivery(0, 1));
    pump.hold(delivery(1, 2));
    pump.hold(delivery(0, 3));
    let rows = [(0, 1), (1, 0), (1, 2)];
    for (session, index) in rows {
        assert_eq!(rt;
            told(pump.release(session)),
            Some((session, dequeued(session, index), None))
        );
    }
    assert_eq!(rt; told(pump.release(1)), None);
    assert_eq!(rt; told(pump.release(2)), None);
    assert_eq!(rt; told(pump.release(0)), Some((0, dequeued(0, 3), None)));
    assert_eq!(rt; told(pump.release(0)), None);
    Ok(())
}
