//! What a command that queues a buffer brings with it.
ghost use Rattle.std.specs.Prelude.{◌≡◌, ◌%◌, true, false, length, vec_len, vec_capacity, Ok, Err, OnOk, OnErr, IfErr};
ghost use Rattle.v4l_const.specs.declared.errno.Errno.TheVariants.{Efault};
ghost use Rattle.vm_frame.specs.Mem.{mem_bytes};
ghost use Rattle.vm_wire.specs.Wire.{brings_entries};
ghost use Rattle.vm_wire.specs.Payload.{HasItsLength};
ghost use Rattle.vm_session.specs.Buffers.{ComesWith};
ghost use Rattle.vm_session.specs.Rows.{Comes};
ghost use Rattle.vm_device.specs.Brought.{is_named, is_told, keeps_length, loaded, brought, comes_with};

use v4l_const::{Errno, IoctlCode, MEMORY_MMAP, MEMORY_USERPTR};
use v4l_layout::BufferRec;
use vm_frame::{Held, MAX_ENTRIES, Mem, User};
use vm_mem::Store;
use vm_session::Session;
use vm_sg::{load, total_in};
use vm_wire::{Payload, buffer_in};

/// How many bytes a scatter entry takes on the wire.
const ENTRY_SIZE: usize = 16;

/// Gives a user's memory the entries that stand behind a QBUF, where they are what its record
/// tells.
fn load_user(user: &mut User, asked: &BufferRec, behind: &[u8]) -> Result<(), Errno>
    requires whole { asked.now.memory ≡ MEMORY_USERPTR → length behind.now % 16 ≡ 0 }
    ensures ok { OnOk result (is_told asked.now behind.now (Mem.OfUser user.old) ≡ true) }
    ensures loaded { OnOk result (Mem.OfUser user.new ≡ loaded behind.now (Mem.OfUser user.old)) }
    ensures size { OnOk result (length (mem_bytes (Mem.OfUser user.new)) ≡ asked.now.length) }
    ensures errno { IfErr result (λ e. e ≡ Efault) }
    ensures err { OnErr result (is_told asked.now behind.now (Mem.OfUser user.old) ≡ false) }
    ensures kept { OnErr result (user.new ≡ user.old) }
{
    // All is judged before the entries are replaced.
    if asked.memory != MEMORY_USERPTR
        || behind.len() / ENTRY_SIZE > MAX_ENTRIES
        || total_in(behind) != u64::from(asked.length)
    {
        return Err(Errno::Efault);
    }
    match load(user, behind) {
        Ok(()) => Ok(()),
        Err(_) => Err(Errno::Efault),
    }
}

/// Sees to it that a memory is what the record of a QBUF tells, and gives a user's memory the
/// entries that stand behind the QBUF.
fn load_memory(mem: &mut Mem, asked: &BufferRec, behind: &[u8]) -> Result<(), Errno>
    requires whole { asked.now.memory ≡ MEMORY_USERPTR → length behind.now % 16 ≡ 0 }
    ensures ok { OnOk result (is_told asked.now behind.now mem.old ≡ true) }
    ensures loaded { OnOk result (mem.new ≡ loaded behind.now mem.old) }
    ensures size { OnOk result (length (mem_bytes mem.new) ≡ asked.now.length) }
    ensures errno { IfErr result (λ e. e ≡ Efault) }
    ensures err { OnErr result (is_told asked.now behind.now mem.old ≡ false) }
    ensures kept { OnErr result (mem.new ≡ mem.old) }
{
    match mem {
        Mem::OfFrame(frame) => {
            if asked.memory == MEMORY_MMAP && frame.size() == asked.length {
                Ok(())
            } else {
                Err(Errno::Efault)
            }
        }
        Mem::OfUser(user) => load_user(user, asked, behind),
    }
}

/// Whether a memory is for the buffer that a record names.
fn is_named(asked: &BufferRec, memory: &Held) -> bool
    ensures { result ≡ is_named asked.now memory.now }
{
    memory.queue == asked.kind && memory.index == asked.index
}

/// Whether the buffer that a record names isn't a frame of another length.
fn keeps_length(session: &Session, asked: &BufferRec) -> bool
    ensures { result ≡ keeps_length session.now asked.now }
{
    match session.frame_length(asked.kind, asked.index) {
        Some(length) => length == asked.length,
        None => true,
    }
}

/// Sees to it that a QBUF brings just one memory, which is the one that its record tells. The
/// memory is as it came on the wire from then on.
///
/// # Errors
/// `EFAULT` where it brings another number of them, or one of another type, index, kind or length,
/// or where the entries of a user's memory are too many, have a fault or name another number of
/// bytes, or where the buffer has a frame of another length. What is held stays as it was.
fn bring(
    session: &Session,
    asked: &BufferRec,
    behind: &[u8],
    held: &mut Vec<Held>,
) -> Result<(), Errno>
    requires whole { asked.now.memory ≡ MEMORY_USERPTR → length behind.now % 16 ≡ 0 }
    ensures ok { OnOk result (brought session.now asked.now behind.now held.old.items ≡
        Ok held.new.items) }
    ensures comes { OnOk result (ComesWith session.now asked.now held.new.items) }
    ensures err { IfErr result (λ e. brought session.now asked.now behind.now held.old.items ≡
        Err e) }
    ensures kept { OnErr result (held.new.items ≡ held.old.items) }
    ensures count { vec_len held.new ≡ vec_len held.old }
    ensures capacity { vec_capacity held.new ≡ vec_capacity held.old }
{
    if held.len() != 1 || !is_named(asked, &held[0]) || !keeps_length(session, asked) {
        return Err(Errno::Efault);
    }
    load_memory(&mut held[0].mem, asked, behind)
}

/// The same of a call, which comes with the memories of its chain as they are where it is no QBUF.
pub(crate) fn come(
    session: &Session,
    code: IoctlCode,
    payload: &Payload,
    behind: &[u8],
    held: &mut Vec<Held>,
) -> Result<(), Errno>
    requires payload { HasItsLength code payload.now }
    requires entries { brings_entries code payload.now ≡ true → length behind.now % 16 ≡ 0 }
    ensures ok { OnOk result (comes_with session.now code payload.now behind.now held.old.items ≡
        Ok held.new.items) }
    ensures comes { OnOk result (Comes session.now code payload.now held.new.items) }
    ensures err { IfErr result
        (λ e. comes_with session.now code payload.now behind.now held.old.items ≡ Err e) }
    ensures kept { OnErr result (held.new.items ≡ held.old.items) }
    ensures count { vec_len held.new ≡ vec_len held.old }
    ensures capacity { vec_capacity held.new ≡ vec_capacity held.old }
{
    match code {
        IoctlCode::QBuf => bring(session, &buffer_in(payload), behind, held),
        _ => Ok(()),
    }
}
