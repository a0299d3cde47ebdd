//! What is done with a chain that was taken: what it asks is read out of its bytes, and what goes
//! back is written in.
ghost use Rattle.std.specs.Prelude.{ℕ, ◌≡◌, ◌≤◌, ◌<◌, ◌+◌, ◌*◌, ◌^◌, ◌++◌, false, Option, if◌then◌else◌, None, Some, Ok, IfOk, length, slice_get, vec_len, vec_capacity};
ghost use Rattle.std.specs.List.{flat_map};
ghost use Rattle.std.specs.Option.{option_to_list};
ghost use Rattle.vm_carrier.specs.Carrier.{StayInPages, Fits, readable_of};
ghost use Rattle.vm_chain.specs.Chain.{writable_bytes};
ghost use Rattle.vm_chain.specs.Walk.{visits};
ghost use Rattle.vm_frame.specs.declared.mem.Held.{Held as HeldMemory};
ghost use Rattle.vm_wire.specs.Wire.{command_bytes, MayFollow};
ghost use Rattle.vm_wire.specs.declared.command.Command.{Command};
ghost use Rattle.vm_wire.specs.Event.{IsEvent};
ghost use Rattle.vm_wire.specs.declared.event.EventMsg.{EventMsg};
ghost use Rattle.vm_device.specs.Perform.{FitsCall, HasPlaceFor, EachMadeFew, must_wait};
ghost use Rattle.vm_device.specs.Stream.{Sends};
ghost use Rattle.vm_wire.specs.Message.{errno_of_fault};
ghost use Rattle.vm_host.specs.Chains.{HasRoomFor, asked_by, behind, chain_in, named_session, sent_reply, sent_event};
ghost use Rattle.vm_host.specs.Keeps.{CanGoOn};
ghost use Rattle.vm_host.specs.Steps.{Completes, GoesOn, Served};

use v4l_const::Errno;
use vm_carrier::{gather, spread};
use vm_chain::{Chain, ChainFault, Desc};
use vm_device::Device;
use vm_frame::Held;
use vm_link::Parcel;
use vm_mem::Page;
use vm_wire::{
    CmdFault, Command, EventMsg, Response, WIRE_ROOM, decode_command, encode_event, encode_response,
};

/// How many descriptors of a chain are visited at most.
pub(crate) const CHAIN_LIMIT: u16 = 64;

/// How many bytes a chain has to have room for before anything is written.
const STATUS_LEN: u32 = 8;

/// The room of an event, in bytes: none is longer.
const EVENT_ROOM: usize = 608;

/// What becomes of a chain that is served.
pub(crate) enum Fate {
    /// It goes back, with so many bytes written.
    Returns { used: u32 },
    /// Its call waits until the session is quiet.
    Waits { session: u32 },
}

// ---- commands

/// The errno by which a malformed command is refused.
fn errno_of(fault: CmdFault) -> Errno
    ensures { result ≡ errno_of_fault fault }
{
    match fault {
        CmdFault::Short => Errno::Einval,
        CmdFault::UnknownCmd => Errno::Eopnotsupp,
        CmdFault::UnknownIoctl => Errno::Enotty,
        CmdFault::Room => Errno::Emsgsize,
    }
}

/// How many bytes a command has, those of a payload included.
fn command_len(command: &Command) -> usize
    ensures { result ≡ length (command_bytes command.now) }
{
    match command {
        Command::OpenSession => 8,
        Command::CloseSession { .. } | Command::Unmap { .. } => 16,
        Command::Ioctl { payload, .. } => 16 + payload.as_bytes().len(),
        Command::Map { .. } => 24,
    }
}

/// The session that a command names.
fn named_session(command: &Command) -> Option<u32>
    ensures { result ≡ named_session command.now }
{
    match *command {
        Command::CloseSession { session }
        | Command::Ioctl { session, .. }
        | Command::Map { session, .. } => Some(session),
        Command::OpenSession | Command::Unmap { .. } => None,
    }
}

/// The session that a command has to wait for, if it has to.
fn awaited_session(device: &Device, command: &Command) -> Option<u32>
    requires { FitsCall command.now }
    ensures { result ≡ (if must_wait device.now command.now then named_session command.now else
        None) }
{
    if device.must_wait(command) {
        named_session(command)
    } else {
        None
    }
}

/// Reads what a chain asks, of which so many bytes may be written. The bytes of the chain stand in
/// `bytes` then, for which there is room.
fn read_command(
    descs: &[Desc],
    writable: u32,
    pages: &[Page],
    bytes: &mut Vec<u8>,
) -> Result<Command, CmdFault>
    requires few { length descs.now ≤ 64 }
    requires writable { writable ≡ writable_bytes descs.now }
    requires room { 262144 ≤ vec_capacity bytes.old }
    ensures asked { result ≡ asked_by descs.now pages.now }
    ensures bytes { bytes.new.items ≡ readable_of descs.now pages.now }
    ensures payload { IfOk result FitsCall }
    ensures size { IfOk result (λ c. length (command_bytes c) ≤ length bytes.new.items) }
    ensures entries { IfOk result (λ c. MayFollow c (behind c descs.now pages.now)) }
    ensures room { vec_capacity bytes.old ≤ vec_capacity bytes.new }
{
    gather(descs, pages, bytes);
    decode_command(bytes, writable)
}

/// Writes a reply to the front of what may be written of a chain, and tells how many bytes it has.
fn write_reply(descs: &[Desc], parcel: &mut Parcel, response: Response) -> u32
    requires { StayInPages descs.now }
    ensures { record { used = result; parcel = parcel.new } ≡
        sent_reply parcel.old descs.now response parcel.old.held }
{
    let mut reply = [0; WIRE_ROOM];
    let len = encode_response(&response, &mut reply);
    spread(descs, &mut parcel.pages, &reply[..len]);
    len as u32
}

/// Does a chain's command, which needn't wait, with what stands behind it in the chain's bytes and
/// with the chain's memories, writes its reply, and tells how many bytes that has.
fn complete(
    device: &mut Device,
    descs: &[Desc],
    command: Command,
    bytes: &[u8],
    parcel: &mut Parcel,
) -> u32
    requires stay { StayInPages descs.now }
    requires bytes { bytes.now ≡ readable_of descs.now parcel.old.pages }
    requires size { length (command_bytes command) ≤ length bytes.now }
    requires place { HasPlaceFor device.old command }
    requires payload { FitsCall command }
    requires entries { MayFollow command (behind command descs.now parcel.old.pages) }
    requires waits { must_wait device.old command ≡ false }
    requires frames { EachMadeFew device.old }
    requires held { HasRoomFor parcel.old command }
    ensures { Completes device.old parcel.old descs.now command
        (record { used = result; parcel = parcel.new }) device.new }
{
    let response = device.perform(command, &bytes[command_len(&command)..], &mut parcel.held);
    write_reply(descs, parcel, response)
}

/// Does what a chain without a fault asks, unless its call has to wait. A chain with fewer than 8
/// bytes to write asks nothing.
fn answer(device: &mut Device, chain: &Chain, bytes: &mut Vec<u8>, parcel: &mut Parcel) -> Fate
    requires fits { Fits 64 chain.now.descs }
    requires room { 262144 ≤ vec_capacity bytes.old }
    requires place { IfOk (asked_by chain.now.descs parcel.old.pages) (HasPlaceFor device.old) }
    requires frames { EachMadeFew device.old }
    requires held { IfOk (asked_by chain.now.descs parcel.old.pages) (HasRoomFor parcel.old) }
    ensures served { Served None chain.now.descs parcel.old device.old result
        parcel.new device.new }
    ensures room { vec_capacity bytes.old ≤ vec_capacity bytes.new }
{
    let writable = chain.writable();
    if writable < STATUS_LEN {
        return Fate::Returns { used: 0 };
    }
    let descs = chain.descs();
    let used = match read_command(descs, writable, &parcel.pages, bytes) {
        Ok(command) => match awaited_session(device, &command) {
            Some(session) => return Fate::Waits { session },
            None => complete(device, descs, command, bytes, parcel),
        },
        Err(fault) => write_reply(descs, parcel, Response::Refused(errno_of(fault).number())),
    };
    Fate::Returns { used }
}

/// Does what a chain asks, unless it has a fault or its call has to wait.
pub(crate) fn serve(
    device: &mut Device,
    chain: &Chain,
    fault: Option<ChainFault>,
    bytes: &mut Vec<u8>,
    parcel: &mut Parcel,
) -> Fate
    requires fits { fault ≡ None → Fits 64 chain.now.descs }
    requires room { 262144 ≤ vec_capacity bytes.old }
    requires place { fault ≡ None → IfOk (asked_by chain.now.descs parcel.old.pages)
        (HasPlaceFor device.old) }
    requires frames { EachMadeFew device.old }
    requires held { fault ≡ None →
        IfOk (asked_by chain.now.descs parcel.old.pages) (HasRoomFor parcel.old) }
    ensures served { Served fault chain.now.descs parcel.old device.old result
        parcel.new device.new }
    ensures room { vec_capacity bytes.old ≤ vec_capacity bytes.new }
{
    match fault {
        Some(_) => Fate::Returns { used: 0 },
        None => answer(device, chain, bytes, parcel),
    }
}

// ---- calls that waited

/// The descriptor at a place of a table.
fn desc_at(table: &[Desc], at: u16) -> Option<Desc>
    ensures { result ≡ slice_get table.now at }
{
    table.get(usize::from(at)).copied()
}

/// Lists the descriptors that a walk of a table comes to from a place on, as many as `most` at
/// most, behind the others.
fn follow(table: &[Desc], at: u16, most: u16, descs: &mut Vec<Desc>)
    requires { length descs.old.items + most ≤ vec_capacity descs.old }
    ensures descs { descs.new.items ≡ descs.old.items ++
        flat_map (λ v. option_to_list v.desc) (visits table.now most at) }
    ensures room { vec_capacity descs.new ≡ vec_capacity descs.old }
{
    if most == 0 {
        return;
    }
    let Some(desc) = desc_at(table, at) else {
        return;
    };
    descs.push_reserved(desc);
    if let Some(next) = desc.following() {
        follow(table, next, most - 1, descs);
    }
}

/// How many bytes of these descriptors may be written.
fn writable_in(descs: &[Desc]) -> u32
    requires { writable_bytes descs.now < 2 ^ 32 }
    ensures { result ≡ writable_bytes descs.now }
{
    descs
        .iter()
        .filter(|desc| desc.is_writable())
        .map(|desc| desc.len)
        .sum()
}

/// Does the command of a chain with these descriptors, whose call waited, and tells how many bytes
/// its reply has.
fn complete_waited(
    device: &mut Device,
    descs: &[Desc],
    bytes: &mut Vec<u8>,
    parcel: &mut Parcel,
) -> u32
    requires chain { chain_in parcel.old ≡ Ok descs.now }
    requires waited { CanGoOn device.old parcel.old }
    requires frames { EachMadeFew device.old }
    requires room { 262144 ≤ vec_capacity bytes.old }
    ensures completes { GoesOn device.old parcel.old
        (record { used = result; parcel = parcel.new }) device.new }
    ensures room { vec_capacity bytes.old ≤ vec_capacity bytes.new }
{
    let writable = writable_in(descs);
    let command = read_command(descs, writable, &parcel.pages, bytes).unwrap();
    complete(device, descs, command, bytes, parcel)
}

/// Does the command of a call that waited, and tells how many bytes its reply has. The chain was
/// walked without a fault when it was taken, so that its descriptors are listed without trying them
/// again.
pub(crate) fn go_on(
    device: &mut Device,
    descs: &mut Vec<Desc>,
    bytes: &mut Vec<u8>,
    parcel: &mut Parcel,
) -> u32
    requires waited { CanGoOn device.old parcel.old }
    requires frames { EachMadeFew device.old }
    requires room { 262144 ≤ vec_capacity bytes.old }
    requires descs_room { 65 ≤ vec_capacity descs.old }
    ensures completes { GoesOn device.old parcel.old
        (record { used = result; parcel = parcel.new }) device.new }
    ensures room { vec_capacity bytes.old ≤ vec_capacity bytes.new }
    ensures descs_room { vec_capacity descs.new ≡ vec_capacity descs.old }
{
    descs.clear();
    follow(&parcel.table, 0, CHAIN_LIMIT + 1, descs);
    complete_waited(device, descs.as_slice(), bytes, parcel)
}

// ---- events

/// Puts a memory behind others, if there is one.
fn put_memory(held: &mut Vec<Held>, memory: Option<Held>)
    requires { vec_len held.old + 1 ≤ vec_capacity held.old }
    ensures memories { held.new.items ≡ held.old.items ++ option_to_list memory }
    ensures room { vec_capacity held.new ≡ vec_capacity held.old }
{
    if let Some(memory) = memory {
        held.push_reserved(memory);
    }
}

/// Writes an event to the front of what may be written of a chain, puts its memory behind those of
/// the chain, and tells how many bytes it has.
fn write_event(descs: &[Desc], parcel: &mut Parcel, msg: EventMsg, memory: Option<Held>) -> u32
    requires stay { StayInPages descs.now }
    requires held { length parcel.old.held + 1 ≤ parcel.old.room }
    ensures sent { record { used = result; parcel = parcel.new } ≡
        sent_event parcel.old descs.now msg memory }
    ensures fits { IsEvent msg }
{
    let mut bytes = [0; EVENT_ROOM];
    let len = encode_event(&msg, &mut bytes);
    spread(descs, &mut parcel.pages, &bytes[..len]);
    put_memory(&mut parcel.held, memory);
    len as u32
}

/// Sends the oldest event that is unsent with a chain, and tells how many bytes it has.
pub(crate) fn tell(device: &mut Device, descs: &[Desc], parcel: &mut Parcel) -> u32
    requires unsent { 0 < length device.old.unsent }
    requires stay { StayInPages descs.now }
    requires held { length parcel.old.held + 1 ≤ parcel.old.room }
    ensures { (msg : EventMsg) × (memory : Option HeldMemory) ×
        Sends device.old device.old.unsent (Some (msg, memory)) device.new
        × (record { used = result; parcel = parcel.new } ≡
        sent_event parcel.old descs.now msg memory) × IsEvent msg }
{
    let (msg, memory) = device.next_event().unwrap();
    write_event(descs, parcel, msg, memory)
}
