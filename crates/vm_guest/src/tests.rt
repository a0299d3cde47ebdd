//! Raw lines by their kind, the chains for events, and the lines that take events first.

mod device;
mod order;
mod rig;
mod scripts;

use crate::asked::{begins_with_events, ends_with_events, is_leased};
use crate::chain::event_chain;
use crate::raw::{errno_told, raw_table};
use std::test::Fail;
use v4l_const::Errno;
use vm_chain::{Chain, ChainFault, ChainKind, Desc, WRITE, walk};
use vm_local::{Call, Name};
use vm_script::{LineKind, RawChain};

#[test]
fn a_raw_chain_has_the_fault_of_its_kind(rt: HostRuntime) -> Result<(), Fail> {
    for (line, kind, at) in [
        (RawChain::Loop, ChainKind::TooLong, 0),
        (RawChain::Outside, ChainKind::NextOutside, 65535),
        (RawChain::Order, ChainKind::WriteBeforeRead, 1),
        (RawChain::Zero, ChainKind::ZeroLen, 0),
        (RawChain::Addr, ChainKind::AddrOutside, 0),
        (RawChain::Indirect, ChainKind::Indirect, 0),
    ] {
        let table = raw_table(rt.alloc(), 3, &line)?;
        let mut chain = Chain::room(rt.alloc(), 64)?;
        // The pages of process 3.
        let fault = walk(table.descs.as_slice(), 0, 64, &[22, 23], &mut chain).err();
        assert_eq!(rt; fault, Some(ChainFault { kind, at }));
    }
    Ok(())
}

#[test]
fn a_raw_line_is_answered_by_its_reply(rt: HostRuntime) -> Result<(), Fail> {
    assert_eq!(rt; errno_told(&[]), Some(Errno::Eio));
    for (status, errno) in [
        (9, Some(Errno::Ebadf)),
        (22, Some(Errno::Einval)),
        (25, Some(Errno::Enotty)),
        (90, Some(Errno::Emsgsize)),
        (95, Some(Errno::Eopnotsupp)),
        (0, None),
    ] {
        assert_eq!(rt; errno_told(&[status, 0, 0, 0, 0, 0, 0, 0]), errno);
    }
    Ok(())
}

#[test]
fn an_event_chain_has_one_page_to_be_written_to(rt: HostRuntime) -> Result<(), Fail> {
    for (k, number) in [(0, 64), (15, 79)] {
        let chain = event_chain(rt.alloc(), k)?;
        let desc = Desc {
            addr: number * 4096,
            len: 608,
            flags: WRITE,
            next: 0,
        };
        assert_eq!(rt; chain.who, k as u16);
        assert_eq!(rt; chain.table.as_slice(), [desc].as_slice());
        assert_eq!(rt; chain.pages[0].number, number);
        assert!(rt; chain.held.is_empty());
    }
    Ok(())
}

// Whether a line is begun by a lease, and whether every finished event is taken before it is begun,
// and before its reply is logged.
fn taking(what: &LineKind) -> (bool, bool, bool) {
    (
        is_leased(what),
        begins_with_events(what),
        ends_with_events(what),
    )
}

#[test]
fn some_lines_take_events_first(rt: HostRuntime) -> Result<(), Fail> {
    let m = Name::new(b"m").ok_or("no name")?;
    for (call, takes) in [
        (Call::OpenHandle { nonblock: true }, (false, false, false)),
        (Call::CloseHandle, (false, false, true)),
        (Call::QueryCap, (false, false, false)),
        (Call::ReqBufs { t: 1, m: 1, n: 0 }, (false, false, true)),
        (Call::StreamOn { t: 1 }, (false, false, false)),
        (Call::StreamOff { t: 9 }, (false, false, true)),
        (Call::DqBuf { t: 9 }, (false, true, false)),
        (Call::Munmap { m }, (false, false, false)),
        (Call::Hash { m }, (true, false, false)),
        (Call::Fill { m, seed: 1 }, (true, false, false)),
        (Call::DqEvent, (false, true, false)),
    ] {
        assert_eq!(rt; taking(&LineKind::OnHandle { h: 0, call }), takes);
    }
    // A raw line takes none, whatever it has.
    assert_eq!(rt;
        taking(&LineKind::Raw(RawChain::Loop)),
        (false, false, false)
    );
    Ok(())
}
