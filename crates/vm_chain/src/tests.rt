use super::*;
use std::test::Fail;

const COMMAND_PAGE: u64 = 16 * 4096;

const REPLY_PAGE: u64 = 17 * 4096;

const HOMES: [u64; 2] = [16, 17];

fn desc(addr: u64, len: u32, flags: u16, next: u16) -> Desc {
    Desc {
        addr,
        len,
        flags,
        next,
    }
}

#[test]
fn malformed_chains_are_refused(rt: HostRuntime) -> Result<(), Fail> {
    let loops = [
        desc(COMMAND_PAGE, 8, NEXT, 1),
        desc(COMMAND_PAGE, 8, NEXT, 0),
    ];
    let outside = [desc(COMMAND_PAGE, 8, NEXT, 65535)];
    let order = [
        desc(REPLY_PAGE, 64, WRITE | NEXT, 1),
        desc(COMMAND_PAGE, 8, 0, 0),
    ];
    let zero = [desc(COMMAND_PAGE, 0, 0, 0)];
    let addr = [desc(0xffff_ffff_ffff_f000, 8, 0, 0)];
    let indirect = [desc(COMMAND_PAGE, 16, INDIRECT, 0)];
    let tables: [(&[Desc], ChainKind, u16); 6] = [
        (&loops, ChainKind::TooLong, 0),
        (&outside, ChainKind::NextOutside, 65535),
        (&order, ChainKind::WriteBeforeRead, 1),
        (&zero, ChainKind::ZeroLen, 0),
        (&addr, ChainKind::AddrOutside, 0),
        (&indirect, ChainKind::Indirect, 0),
    ];
    for (table, kind, at) in tables {
        let mut chain = Chain::room(rt.alloc(), 64)?;
        let answer = walk(table, 0, 64, &HOMES, &mut chain);
        assert_eq!(rt; answer, Err(ChainFault { kind, at }));
        assert!(rt; chain.descs().is_empty());
        assert_eq!(rt; chain.limit(), 64);
    }
    Ok(())
}

#[test]
fn a_command_chain_is_walked(rt: HostRuntime) -> Result<(), Fail> {
    let command = desc(COMMAND_PAGE, 8, NEXT, 2);
    let reply = desc(REPLY_PAGE, 304, WRITE, 0);
    let table = [command, command, reply];
    let mut chain = Chain::room(rt.alloc(), 64)?;
    assert_eq!(rt; walk(&table, 0, 2, &HOMES, &mut chain), Ok(()));
    assert_eq!(rt; chain.descs(), [command, reply].as_slice());
    assert_eq!(rt; chain.readable(), 8);
    assert_eq!(rt; chain.writable(), 304);
    // The limit is exact: one less is too few.
    let too_long = ChainFault {
        kind: ChainKind::TooLong,
        at: 2,
    };
    assert_eq!(rt; walk(&table, 0, 1, &HOMES, &mut chain), Err(too_long));
    Ok(())
}
