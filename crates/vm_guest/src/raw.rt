//! Raw lines: chains that are posted as they are.

ghost use Rattle.std.specs.Prelude.{◌≡◌, ◌≤◌, ◌≢◌, ◌∷◌, [], IfOk, length};
ghost use Rattle.vm_guest.specs.Chain.{desc};
ghost use Rattle.vm_guest.specs.Raw.{raw_table, raw_bytes, bytes_table, errno_told};
ghost use Rattle.vm_guest.specs.Orderly.{table_for};

use crate::chain::{command_start, reply_start};
use crate::table::Table;
use std::alloc::Global;
use v4l_const::Errno;
use vm_chain::{Desc, INDIRECT, NEXT, WRITE};
use vm_mem::Memory;
use vm_num::le32;
use vm_script::{LineKind, RawChain};

/// How many bytes the device may read of a chain that has none of its own.
const READ: u32 = 8;

/// An address where no page is.
const NOWHERE: u64 = 0xffff_ffff_ffff_f000;

// A table of one descriptor.
fn one(alloc: Global, first: Desc) -> Result<Table, Memory>
    ensures { IfOk result (λ table. table ≡ first ∷ []) }
{
    let mut descs = Vec::with_capacity(alloc, 1)?;
    descs.push_reserved(first);
    Ok(Table { descs })
}

// A table of two descriptors.
fn two(alloc: Global, first: Desc, second: Desc) -> Result<Table, Memory>
    ensures { IfOk result (λ table. table ≡ first ∷ second ∷ []) }
{
    let mut descs = Vec::with_capacity(alloc, 2)?;
    descs.push_reserved(first);
    descs.push_reserved(second);
    Ok(Table { descs })
}

// A descriptor of so many bytes.
fn desc(addr: u64, len: u32, flags: u16, next: u16) -> Desc
    ensures { result ≡ desc addr len flags next }
{
    Desc {
        addr,
        len,
        flags,
        next,
    }
}

// Bytes to be read, and room for a reply, if there is any.
fn bytes_table(alloc: Global, process: u16, len: u32, room: u32) -> Result<Table, Memory>
    ensures { IfOk result (λ table. table ≡ bytes_table process len room) }
{
    let command = command_start(process);
    if room == 0 {
        return one(alloc, desc(command, len, 0, 0));
    }
    let reply = desc(reply_start(process), room, WRITE, 0);
    two(alloc, desc(command, len, NEXT, 1), reply)
}

/// The table of a raw line of a process.
///
/// # Errors
/// `Memory` where there is none for the descriptors.
pub fn raw_table(alloc: Global, process: u16, chain: &RawChain) -> Result<Table, Memory>
    ensures { IfOk result (λ table. table ≡ raw_table process chain.now) }
{
    let command = command_start(process);
    match chain {
        RawChain::Loop => {
            let first = desc(command, READ, NEXT, 1);
            two(alloc, first, desc(command, READ, NEXT, 0))
        }
        RawChain::Outside => one(alloc, desc(command, READ, NEXT, u16::MAX)),
        RawChain::Order => {
            let reply = desc(reply_start(process), 64, WRITE | NEXT, 1);
            two(alloc, reply, desc(command, READ, 0, 0))
        }
        RawChain::Zero => one(alloc, desc(command, 0, 0, 0)),
        RawChain::Addr => one(alloc, desc(NOWHERE, READ, 0, 0)),
        RawChain::Indirect => one(alloc, desc(command, 16, INDIRECT, 0)),
        RawChain::Bytes { bytes, room } => {
            bytes_table(alloc, process, bytes.as_bytes().len() as u32, *room)
        }
    }
}

/// The table that a line's chain has in place of its process's own; a call has none.
///
/// # Errors
/// `Memory` where there is none for the descriptors.
pub fn table_for(alloc: Global, process: u16, what: &LineKind) -> Result<Table, Memory>
    ensures { IfOk result (λ table. table ≡ table_for process what.now) }
{
    match what {
        LineKind::OnHandle { .. } => Ok(Table {
            descs: Vec::new(alloc),
        }),
        LineKind::Raw(chain) => raw_table(alloc, process, chain),
    }
}

/// The bytes that stand at the front of a raw line's command page.
pub fn raw_bytes(chain: &RawChain) -> &[u8]
    ensures { result.now ≡ raw_bytes chain.now }
{
    match chain {
        RawChain::Bytes { bytes, .. } => bytes.as_bytes(),
        _ => &[],
    }
}

/// The errno that the bytes of a reply tell: EIO where there are none, else the refusal's.
pub fn errno_told(reply: &[u8]) -> Option<Errno>
    requires { length reply.now ≢ 0 → 8 ≤ length reply.now }
    ensures { result ≡ errno_told reply.now }
{
    if reply.is_empty() {
        return Some(Errno::Eio);
    }
    Errno::of(le32(reply, 0))
}
