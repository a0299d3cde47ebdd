//! The chains that the driver posts: of each process two descriptors, for a command and for its
//! reply, each in a page of its own; and sixteen chains for events.

ghost use Rattle.std.specs.Prelude.{◌≡◌, ◌≤◌, ◌<◌, ℕ, [], IfOk, length, replicate};
ghost use Rattle.vm_guest.specs.Chain.{IsOwn, IsHome, IsEventChain, with_front, with_bytes, with_len, chain_table, chain_pages, command_page, reply_page, command_start, reply_start, reply_bytes};

use crate::table::Table;
use std::alloc::Global;
use std::mem;
use vm_chain::{Desc, NEXT, WRITE};
use vm_link::{Finished, Parcel};
use vm_mem::{Memory, PAGE_SIZE, Page, Store};
use vm_wire::WIRE_ROOM;

/// The page for the commands of process 0; that of each further process is two pages on.
const COMMAND_PAGE: u64 = 16;

/// The page for the replies to process 0.
const REPLY_PAGE: u64 = 17;

/// How many bytes a reply has room for.
const REPLY_ROOM: u32 = WIRE_ROOM as u32;

/// How many memories may go along with a command or its reply.
const HELD_ROOM: usize = 64;

/// How many event chains there are.
///
/// Source: own, after the VIRTIO 1.4 draft, "Media Device".
pub const EVENT_CHAINS: u32 = 16;

/// The page of event chain 0; each further one has the next.
const EVENT_PAGE: u64 = 64;

/// How many bytes an event has room for.
const EVENT_ROOM: u32 = 608;

// The page for a process's commands.
fn command_page(process: u16) -> u64
    ensures { result ≡ command_page process }
{
    COMMAND_PAGE + 2 * u64::from(process)
}

// The page for the replies to a process.
fn reply_page(process: u16) -> u64
    ensures { result ≡ reply_page process }
{
    REPLY_PAGE + 2 * u64::from(process)
}

/// The address of a process's commands.
pub fn command_start(process: u16) -> u64
    ensures { result ≡ command_start process }
{
    command_page(process) * u64::from(PAGE_SIZE)
}

/// The address of the replies to a process.
pub fn reply_start(process: u16) -> u64
    ensures { result ≡ reply_start process }
{
    reply_page(process) * u64::from(PAGE_SIZE)
}

// The two descriptors: the command is read, and then the reply is written.
fn make_table(alloc: Global, process: u16) -> Result<Vec<Desc>, Memory>
    ensures { IfOk result (λ table. table.items ≡ chain_table process 0) }
{
    let mut table = Vec::with_capacity(alloc, 2)?;
    table.push_reserved(Desc {
        addr: command_start(process),
        len: 0,
        flags: NEXT,
        next: 1,
    });
    table.push_reserved(Desc {
        addr: reply_start(process),
        len: REPLY_ROOM,
        flags: WRITE,
        next: 0,
    });
    Ok(table)
}

// The two pages, of zeros.
fn make_pages(alloc: Global, process: u16) -> Result<Vec<Page>, Memory>
    ensures { IfOk result (λ pages. pages.items ≡
        chain_pages process (replicate 4096 0) (replicate 4096 0)) }
{
    let mut pages = Vec::with_capacity(alloc, 2)?;
    pages.push_reserved(Page::make_zero(alloc, command_page(process))?);
    pages.push_reserved(Page::make_zero(alloc, reply_page(process))?);
    Ok(pages)
}

/// The chain of a process, with no command in it.
///
/// # Errors
/// `Memory` where there is none for the descriptors, the pages, or the room for memories.
pub fn make_chain(alloc: Global, process: u16) -> Result<Parcel, Memory>
    ensures { IfOk result (λ chain. IsHome process chain) }
{
    Ok(Parcel {
        who: process,
        table: make_table(alloc, process)?,
        pages: make_pages(alloc, process)?,
        held: Vec::with_capacity(alloc, HELD_ROOM)?,
    })
}

/// Event chain `k`, which is below 16: one descriptor of 608 bytes, in a page of its own, with room
/// for one memory.
///
/// # Errors
/// `Memory` where there is none for the descriptor, the page, or the room.
///
/// Source: own, after the events of the VIRTIO 1.4 draft's media device.
pub fn event_chain(alloc: Global, k: u32) -> Result<Parcel, Memory>
    requires { k < 16 }
    ensures { IfOk result (λ chain. IsEventChain k [] chain) }
{
    let number = EVENT_PAGE + u64::from(k);
    let mut table = Vec::with_capacity(alloc, 1)?;
    table.push_reserved(Desc {
        addr: number * u64::from(PAGE_SIZE),
        len: EVENT_ROOM,
        flags: WRITE,
        next: 0,
    });
    let mut pages = Vec::with_capacity(alloc, 1)?;
    pages.push_reserved(Page::make_zero(alloc, number)?);
    Ok(Parcel {
        who: k as u16,
        table,
        pages,
        held: Vec::with_capacity(alloc, 1)?,
    })
}

// Puts bytes at the front of a page.
fn put_front(page: &mut Page, bytes: &[u8])
    requires { length bytes.now ≤ 4096 }
    ensures { page.new ≡ with_front page.old bytes.now }
{
    let _size = page.size();
    page.copy_in(0, bytes);
}

/// Puts bytes at the front of a chain's first page.
pub fn put_bytes(chain: &mut Parcel, bytes: &[u8])
    requires chain { (p : ℕ) × IsOwn p chain.old }
    requires fits { length bytes.now ≤ 4096 }
    ensures { chain.new ≡ with_bytes chain.old bytes.now }
{
    put_front(&mut chain.pages[0], bytes);
}

/// Sets how many bytes a chain's first descriptor has.
pub fn put_len(chain: &mut Parcel, len: u32)
    requires chain { (p : ℕ) × IsOwn p chain.old }
    ensures { chain.new ≡ with_len chain.old len }
{
    chain.table[0].len = len;
}

/// The chain with another table, which has the chain's own from then on.
pub fn exchange(chain: Parcel, table: &mut Table) -> Parcel
    ensures chain { result ≡ record chain { table = table.old } }
    ensures table { table.new ≡ chain.table }
{
    let Parcel {
        who,
        table: own,
        pages,
        held,
    } = chain;
    Parcel {
        who,
        table: mem::replace(&mut table.descs, own),
        pages,
        held,
    }
}

/// The reply that came back in a chain of two pages.
pub fn reply_in(done: &Finished) -> &[u8]
    requires pages { length done.now.parcel.pages ≡ 2 }
    ensures { result.now ≡ reply_bytes done.now }
{
    let bytes = done.parcel.pages[1].as_slice();
    &bytes[..(done.used as usize).min(bytes.len())]
}
