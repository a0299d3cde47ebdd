ghost use Rattle.std.specs.Prelude.{◌≡◌, ◌≤◌, ◌++◌, length, take, drop, replicate, Some, IfOk, IfErr};
ghost use Rattle.v4l_layout.specs.Records.{buffer_size, buffer_fields, buffer_bytes, event_size as event_record_size, event_fields, event_bytes as event_record_bytes};
ghost use Rattle.v4l_layout.specs.Layout.{IsLaid};
ghost use Rattle.vm_wire.specs.Event.{event_bytes, event_size, IsEvent, SpellsEvent, event_fault};
ghost use Rattle.vm_wire.specs.declared.event.EventMsg.{EventMsg};
ghost use Rattle.vm_wire.specs.declared.event.EventFault.{EventFault};

use v4l_layout::{
    BUFFER_SIZE, BufferRec, EventRec, Short, read_buffer, read_event, write_buffer, write_event,
};
use vm_num::{le32, put32};

/// A message that the device sends by itself: its number, the session that it is for, and a record.
///
/// Source: own, after the events of the VIRTIO 1.4 draft's media device.
#[derive(Clone, Copy, Debug, PartialEq, Eq)]
pub enum EventMsg {
    /// The device is done with this buffer. 608 bytes, the last 512 being its planes, which aren't
    /// used.
    Dequeued { session: u32, buffer: BufferRec },
    /// This event has happened. 144 bytes.
    Happened { session: u32, event: EventRec },
}

/// Why bytes are no message.
#[derive(Clone, Copy, Debug, PartialEq, Eq)]
pub enum EventFault {
    /// There are fewer bytes than a number has, or than the message of this number.
    Short,
    /// The number is no message's.
    UnknownKind,
}

/// The number of a message of a buffer.
pub const DEQUEUED: u32 = 1;
/// The number of a message of an event.
pub const HAPPENED: u32 = 2;

/// The size of a message of a buffer, in bytes.
pub const DEQUEUED_SIZE: usize = 608;
/// The size of a message of an event, in bytes.
pub const HAPPENED_SIZE: usize = 144;

impl From<Short> for EventFault {
    ghost use Rattle.vm_wire.specs.declared.event.EventFault.TheVariants.{Short as TooShort};

    ghost from_gives = { λ short fault. fault ≡ TooShort };

    fn from(_short: Short) -> EventFault {
        EventFault::Short
    }
}

/// Writes a message at the front of `out`, which has room for it, and answers how many bytes it
/// took. What stands behind stays.
pub fn encode_event(e: &EventMsg, out: &mut [u8]) -> usize
    requires { event_size e.now ≤ length out.old }
    ensures bytes { out.new ≡ event_bytes e.now ++ drop (event_size e.now) out.old }
    ensures count { result ≡ event_size e.now }
    ensures fits { IsEvent e.now }
    ensures reads_back { SpellsEvent out.new e.now }
{
    match *e {
        EventMsg::Dequeued { session, buffer } => {
            put32(out, 0, DEQUEUED);
            put32(out, 4, session);
            put_buffer(out, buffer);
            put_planes(out);
            DEQUEUED_SIZE
        }
        EventMsg::Happened { session, event } => {
            put32(out, 0, HAPPENED);
            put32(out, 4, session);
            put_event(out, event);
            HAPPENED_SIZE
        }
    }
}

/// Writes a buffer's record behind the session.
fn put_buffer(out: &mut [u8], buffer: BufferRec)
    requires { 96 ≤ length out.old }
    ensures laid { IsLaid buffer_size 0 (buffer_fields buffer) }
    ensures bytes { out.new ≡ take 8 out.old ++ (buffer_bytes buffer ++ drop 96 out.old) }
{
    write_buffer(&buffer, &mut out[8..]).unwrap();
}

/// Writes an event's record behind the session.
fn put_event(out: &mut [u8], event: EventRec)
    requires { 144 ≤ length out.old }
    ensures laid { IsLaid event_record_size 0 (event_fields event) }
    ensures bytes { out.new ≡ take 8 out.old ++ (event_record_bytes event ++ drop 144 out.old) }
{
    write_event(&event, &mut out[8..]).unwrap();
}

/// Writes the planes behind a buffer's record.
fn put_planes(out: &mut [u8])
    requires { 608 ≤ length out.old }
    ensures { out.new ≡ take 96 out.old ++ (replicate 512 0 ++ drop 608 out.old) }
{
    out[8 + BUFFER_SIZE..DEQUEUED_SIZE].fill(0);
}

/// Reads a message. Bytes behind it are ignored, and so are those between the fields of its record
/// and in its planes.
///
/// # Errors
/// `UnknownKind` exactly where there are four bytes and their number is no message's; `Short`
/// exactly where there are fewer than four bytes, or fewer than the message of this number has.
pub fn decode_event(b: &[u8]) -> Result<EventMsg, EventFault>
    ensures ok { IfOk result (λ e. SpellsEvent b.now e) }
    ensures only { (e : EventMsg) → SpellsEvent b.now e → result ≡ Ok e }
    ensures fault { IfErr result (λ f. event_fault b.now ≡ Some f) }
    ensures fault_only { (f : EventFault) → event_fault b.now ≡ Some f → result ≡ Err f }
{
    if b.len() < 4 {
        return Err(EventFault::Short);
    }
    match le32(b, 0) {
        DEQUEUED if b.len() < DEQUEUED_SIZE => Err(EventFault::Short),
        DEQUEUED => Ok(EventMsg::Dequeued {
            session: le32(b, 4),
            buffer: read_buffer(&b[8..])?,
        }),
        HAPPENED if b.len() < HAPPENED_SIZE => Err(EventFault::Short),
        HAPPENED => Ok(EventMsg::Happened {
            session: le32(b, 4),
            event: read_event(&b[8..])?,
        }),
        _ => Err(EventFault::UnknownKind),
    }
}
