// Raw lines beside a capture.

ghost use Rattle.std.specs.Prelude.{IfOk};
ghost use Rattle.vm_sched.specs.Hands.{HasNoneOut};

use super::play::{log_of, world_of};
use super::scripts::{script_of, with_raw};
use crate::run_schedule;
use std::alloc::Global;
use std::test::Fail;
use v4l_const::{Errno, FourCc};
use v4l_format::Fmt;
use vm_io::SureEngine;
use vm_link::PlainLink;
use vm_local::{Entry, Reply, Small};
use vm_script::RawChain;
use vm_world::World;

// A capture of four pictures in one process, and one more process.
const CAPTURE: &[u8] = b"\
open a\n\
sfmt a cap GREY 16 16\n\
sinput a 1\n\
reqbufs a cap mmap 4\n\
mmap a m0 cap 0\n\
mmap a m1 cap 1\n\
mmap a m2 cap 2\n\
mmap a m3 cap 3\n\
qbuf a cap 0\n\
qbuf a cap 1\n\
qbuf a cap 2\n\
qbuf a cap 3\n\
streamon a cap\n\
dqbuf a cap\n\
read a m0 0 8\n\
qbuf a cap 0\n\
dqbuf a cap\n\
read a m1 0 8\n\
qbuf a cap 1\n\
dqbuf a cap\n\
read a m2 0 8\n\
qbuf a cap 2\n\
dqbuf a cap\n\
read a m3 0 8\n\
qbuf a cap 3\n\
streamoff a cap\n\
munmap a m0\n\
munmap a m1\n\
munmap a m2\n\
munmap a m3\n\
close a\n\
proc\n\
";

// The raw lines, each with its errno.
fn raw_lines(alloc: Global) -> Result<Vec<(RawChain, Errno)>, Fail> {
    let mut lines = Vec::new(alloc);
    for chain in [
        RawChain::Loop,
        RawChain::Outside,
        RawChain::Order,
        RawChain::Zero,
        RawChain::Addr,
        RawChain::Indirect,
    ] {
        lines.push((chain, Errno::Eio))?;
    }
    // An open without room for a status, half a word, no command, an unknown request, the close of
    // a session that isn't there, and an open without room for its reply.
    let rows: [(&[u8], u32, Errno); 6] = [
        (&[1, 0, 0, 0, 0, 0, 0, 0], 7, Errno::Eio),
        (&[1, 0, 0], 64, Errno::Einval),
        (&[9, 0, 0, 0, 0, 0, 0, 0], 64, Errno::Eopnotsupp),
        (
            &[3, 0, 0, 0, 0, 0, 0, 0, 0, 0, 0, 0, 17, 0, 0, 0],
            64,
            Errno::Enotty,
        ),
        (
            &[2, 0, 0, 0, 0, 0, 0, 0, 0, 64, 0, 0, 0, 0, 0, 0],
            64,
            Errno::Ebadf,
        ),
        (&[1, 0, 0, 0, 0, 0, 0, 0], 8, Errno::Emsgsize),
    ];
    for (read, room, errno) in rows {
        let bytes = Small::new(read).ok_or("too many bytes")?;
        lines.push((RawChain::Bytes { bytes, room }, errno))?;
    }
    Ok(lines)
}

// The world of the capture, with these lines in the other process.
fn world_with(alloc: Global, raws: &[(RawChain, Errno)]) -> Result<World<PlainLink>, Fail>
    ensures { IfOk result HasNoneOut }
{
    let mut script = script_of(alloc, CAPTURE)?;
    'raws: for (chain, _errno) in raws {
        script = with_raw(alloc, script, chain)?;
    }
    world_of(alloc, script)
}

// The bytes that are read of the picture with this number.
fn told_of(number: u8) -> Result<Reply, Fail> {
    let mut bytes = [0, 1, 2, 3, 4, 5, 6, 7];
    for byte in &mut bytes {
        *byte = number.saturating_add(*byte);
    }
    Ok(Reply::Bytes(Small::new(&bytes).ok_or("too many bytes")?))
}

// What the capture is answered up to its first picture.
fn first_replies(alloc: Global) -> Result<Vec<Reply>, Fail> {
    let code = FourCc(u32::from_le_bytes(*b"GREY"));
    let f = Fmt {
        code,
        width: 16,
        height: 16,
    };
    let mut replies = Vec::new(alloc);
    replies.push(Reply::Done)?;
    replies.push(Reply::Format {
        f,
        line: 16,
        size: 256,
    })?;
    replies.push(Reply::InputIs(1))?;
    replies.push(Reply::Count(4))?;
    for addr in [0, 4096, 8192, 12288] {
        replies.push(Reply::Mapped { addr, length: 256 })?;
    }
    for _call in 0..5 {
        replies.push(Reply::Done)?;
    }
    Ok(replies)
}

// What the capture is answered.
fn capture_replies(alloc: Global) -> Result<Vec<Reply>, Fail> {
    let mut replies = first_replies(alloc)?;
    for number in 0..4 {
        replies.push(Reply::Frame {
            index: u32::from(number),
            used: 256,
            seq: u32::from(number),
            ts: 40000 * u64::from(number),
            flags: 0x2001,
        })?;
        replies.push(told_of(number)?)?;
        replies.push(Reply::Done)?;
    }
    for _call in 0..6 {
        replies.push(Reply::Done)?;
    }
    Ok(replies)
}

// The replies of a log, in order.
fn replies_of(alloc: Global, log: &[Entry]) -> Result<Vec<Reply>, Fail> {
    let mut replies = Vec::new(alloc);
    for entry in log {
        if let Entry::Called { reply, .. } = entry {
            replies.push(*reply)?;
        }
    }
    Ok(replies)
}

// What raw lines with these errnos are answered, in order.
fn are_answered(world: &World<PlainLink>, raws: &[(RawChain, Errno)]) -> bool {
    let mut k: u32 = 0;
    for (_chain, errno) in raws {
        if world.guest().raw_answer(1, k) != Some(*errno) {
            return false;
        }
        k = k.saturating_add(1);
    }
    true
}

#[test]
fn raw_lines_leave_a_capture_as_it_is(rt: HostRuntime) -> Result<(), Fail> {
    let raws = raw_lines(rt.alloc())?;
    let wanted = capture_replies(rt.alloc())?;
    for seed in 0..16 {
        let mut world = world_with(rt.alloc(), raws.as_slice())?;
        run_schedule(rt.alloc(), &mut world, seed, &mut SureEngine::new())?;
        let replies = replies_of(rt.alloc(), log_of(&world, 0))?;
        assert_eq!(rt; replies.as_slice(), wanted.as_slice());
        assert!(rt; are_answered(&world, raws.as_slice()));
    }
    Ok(())
}
