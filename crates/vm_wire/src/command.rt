ghost use Rattle.std.specs.Prelude.{◌≡◌, ◌≤◌, ◌%◌, ◌==◌, ◌&&◌, ◌++◌, not, length, drop, IfOk, IfErr};
ghost use Rattle.v4l_const.specs.IoctlCode.{ioctl_of};
ghost use Rattle.vm_wire.specs.Payload.{HasItsLength};
ghost use Rattle.vm_wire.specs.Wire.{command_bytes, Spells, command_fault, judged, judged_by, ioctl_fault, ioctl_at, number_at, brings_entries, flags_of, le, pad};
ghost use Rattle.vm_wire.specs.declared.command.Command.{Command};
ghost use Rattle.vm_wire.specs.declared.command.Command.TheVariants.{Map};
ghost use Rattle.vm_wire.specs.declared.command.CmdFault.{CmdFault};

use crate::Payload;
use v4l_const::{IoctlCode, MEMORY_USERPTR};
use vm_num::{le32, le64, put32, put64};

/// A command of the driver: its number, a pad, and then its fields. Numbers and pads have four
/// bytes and addresses eight, little-endian.
///
/// Source: own, after the sessions of the VIRTIO 1.4 draft's media device.
#[derive(Clone, Copy, Debug, PartialEq, Eq)]
pub enum Command {
    /// Opens a session. 8 bytes.
    OpenSession,
    /// Closes the session of this id. 16 bytes, the last four a pad.
    CloseSession {
        session: u32,
    },
    /// Makes a call of the session, with its payload. 16 bytes and the payload. Behind a `QBUF` of
    /// a user's memory stand the entries of its scatter list, of 16 bytes each.
    Ioctl {
        session: u32,
        code: IoctlCode,
        payload: Payload,
    },
    /// Maps the session's buffer at this offset. 24 bytes, the last four a pad.
    Map {
        session: u32,
        writable: bool,
        offset: u32,
    },
    /// Takes the mapping at this address away. 16 bytes.
    Unmap {
        addr: u64,
    },
}

/// Why bytes are no command.
#[derive(Clone, Copy, Debug, PartialEq, Eq)]
pub enum CmdFault {
    /// There are fewer bytes than the command's fields take, or no whole scatter entries behind it.
    Short,
    /// The number is no command's.
    UnknownCmd,
    /// The code is no call's that is sent.
    UnknownIoctl,
    /// The reply has less room than it needs.
    Room,
}

/// The number of the command that opens a session.
pub const OPEN: u32 = 1;
/// The number of the command that closes one.
pub const CLOSE: u32 = 2;
/// The number of the command that makes a call.
pub const IOCTL: u32 = 3;
/// The number of the command that maps a buffer.
pub const MMAP: u32 = 4;
/// The number of the command that takes a mapping away.
pub const MUNMAP: u32 = 5;

/// The room of a command and of its reply, in bytes: none is longer.
///
/// Source: own.
pub const WIRE_ROOM: usize = 304;

/// Writes a command at the front of `out`, which has room for it, and answers how many bytes it
/// took. What stands behind stays.
pub fn encode_command(c: &Command, out: &mut [u8]) -> usize
    requires { length (command_bytes c.now) ≤ length out.old }
    ensures bytes { out.new ≡ command_bytes c.now ++ drop (length (command_bytes c.now)) out.old }
    ensures count { result ≡ length (command_bytes c.now) }
{
    match *c {
        Command::OpenSession => {
            put_head(out, OPEN);
            8
        }
        Command::CloseSession { session } => {
            put_head(out, CLOSE);
            put32(out, 8, session);
            put32(out, 12, 0);
            16
        }
        Command::Ioctl {
            session,
            code,
            payload,
        } => {
            let bytes = payload.as_bytes();
            put_head(out, IOCTL);
            put32(out, 8, session);
            put32(out, 12, code.number());
            out[16..16 + bytes.len()].copy_from_slice(bytes);
            16 + bytes.len()
        }
        Command::Map {
            session,
            writable,
            offset,
        } => put_map(out, session, writable, offset),
        Command::Unmap { addr } => {
            put_head(out, MUNMAP);
            put64(out, 8, addr);
            16
        }
    }
}

/// Writes the number of a command, or the status of a reply, and a pad.
pub(crate) fn put_head(out: &mut [u8], number: u32)
    requires { 8 ≤ length out.old }
    ensures { out.new ≡ le number ++ pad ++ drop 8 out.old }
{
    put32(out, 0, number);
    put32(out, 4, 0);
}

/// Writes the command that maps a buffer, and answers how many bytes it took.
fn put_map(out: &mut [u8], session: u32, writable: bool, offset: u32) -> usize
    requires { 24 ≤ length out.old }
    ensures bytes { out.new ≡ command_bytes (Map session writable offset) ++ drop 24 out.old }
    ensures count { result ≡ 24 }
{
    put_head(out, MMAP);
    put32(out, 8, session);
    put32(out, 12, mapping_flags(writable));
    put32(out, 16, offset);
    put32(out, 20, 0);
    24
}

/// The flags of a mapping, whose lowest bit says that it may be written.
fn mapping_flags(writable: bool) -> u32
    ensures { result ≡ flags_of writable }
{
    u32::from(writable)
}

/// Reads a command whose reply has `writable` bytes of room. The content of pads is ignored, and so
/// are bytes behind the command, but for scatter entries behind a `QBUF` of a user's memory, which
/// have to be whole.
///
/// # Errors
/// The first of the faults that applies: too few bytes for a number, an unknown number, too few
/// bytes for the command's fields, an unknown code, too few bytes for the payload or a part of a
/// scatter entry, too little room for the reply.
pub fn decode_command(b: &[u8], writable: u32) -> Result<Command, CmdFault>
    ensures exact { result ≡ judged b.now writable }
    ensures ok { IfOk result (λ c. Spells b.now writable c) }
    ensures only { (c : Command) → Spells b.now writable c → result ≡ Ok c }
    ensures fault { IfErr result (λ f. command_fault b.now writable ≡ Some f) }
    ensures fault_only { (f : CmdFault) → command_fault b.now writable ≡ Some f → result ≡ Err f }
{
    if b.len() < 8 {
        return Err(CmdFault::Short);
    }
    match le32(b, 0) {
        OPEN if writable < 16 => Err(CmdFault::Room),
        OPEN => Ok(Command::OpenSession),
        CLOSE | IOCTL | MUNMAP if b.len() < 16 => Err(CmdFault::Short),
        MMAP if b.len() < 24 => Err(CmdFault::Short),
        IOCTL => decode_ioctl(b, writable),
        CLOSE | MUNMAP if writable < 8 => Err(CmdFault::Room),
        MMAP if writable < 24 => Err(CmdFault::Room),
        CLOSE => Ok(Command::CloseSession {
            session: le32(b, 8),
        }),
        MMAP => Ok(Command::Map {
            session: le32(b, 8),
            writable: le32(b, 12) % 2 == 1,
            offset: le32(b, 16),
        }),
        MUNMAP => Ok(Command::Unmap { addr: le64(b, 8) }),
        _ => Err(CmdFault::UnknownCmd),
    }
}

/// Reads the call of an `IOCTL` whose session and code are there.
fn decode_ioctl(b: &[u8], writable: u32) -> Result<Command, CmdFault>
    requires { 16 ≤ length b.now }
    ensures { result ≡ judged_by (ioctl_fault (ioctl_of (number_at 12 b.now)) b.now writable)
        (ioctl_at (ioctl_of (number_at 12 b.now)) b.now) }
{
    let Some(code) = IoctlCode::of(le32(b, 12)) else {
        return Err(CmdFault::UnknownIoctl);
    };
    let size = code.payload_size();
    let end = 16 + size as usize;
    if b.len() < end || is_cut(code, &b[16..end], b.len() - end) {
        return Err(CmdFault::Short);
    }
    if writable < 8 + size {
        return Err(CmdFault::Room);
    }
    Ok(Command::Ioctl {
        session: le32(b, 8),
        code,
        payload: Payload::new(&b[16..end]),
    })
}

/// Whether the call brings scatter entries and so many bytes behind it aren't whole ones.
fn is_cut(code: IoctlCode, payload: &[u8], behind: usize) -> bool
    requires { HasItsLength code payload.now }
    ensures { result ≡ (brings_entries code payload.now && not (behind % 16 == 0)) }
{
    code == IoctlCode::QBuf && le32(payload, 60) == MEMORY_USERPTR && behind % 16 != 0
}
