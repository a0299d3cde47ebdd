//! Texts that are printed of logs. The first and the third were worked outside, the others by hand.

ghost use Rattle.std.specs.Prelude.{◌≡◌, [], ◌∷◌, map};

use crate::{HandleText, LogsText, RawText, print};
use std::test::Fail;
use v4l_const::Errno;
use vm_local::{Call, Entry, Name, Reply};
use vm_region::RegionEntry;
use vm_script::{Echo, RawChain};

/// The SHA-256 of nothing.
const NOTHING: [u8; 32] = [
    0xe3, 0xb0, 0xc4, 0x42, 0x98, 0xfc, 0x1c, 0x14, 0x9a, 0xfb, 0xf4, 0xc8, 0x99, 0x6f, 0xb9, 0x24,
    0x27, 0xae, 0x41, 0xe4, 0x64, 0x9b, 0x93, 0x4c, 0xa4, 0x95, 0x99, 0x1b, 0x78, 0x52, 0xb8, 0x55,
];

/// That of what crosses for an `open` and a `close`.
const OPEN_CLOSE: [u8; 32] = [
    0x98, 0x9f, 0xe5, 0x55, 0xf0, 0x34, 0x6a, 0x6e, 0x44, 0x70, 0x5d, 0x83, 0x65, 0x2b, 0xdf, 0x0d,
    0x95, 0x5c, 0xaa, 0x2e, 0xde, 0xb1, 0xa6, 0x15, 0xd8, 0x2b, 0x93, 0xd7, 0xc7, 0xa0, 0x08, 0x51,
];

/// Two ranges, of which one is mapped twice.
const JOURNAL: [RegionEntry; 5] = [
    RegionEntry::Map {
        addr: 0,
        pages: 225,
        count: 1,
    },
    RegionEntry::Map {
        addr: 0x00e1_0000,
        pages: 1,
        count: 1,
    },
    RegionEntry::Map {
        addr: 0x00e1_0000,
        pages: 1,
        count: 2,
    },
    RegionEntry::Drop { addr: 0, count: 0 },
    RegionEntry::Drop {
        addr: 0x00e1_0000,
        count: 1,
    },
];

/// A handle that is opened and closed.
const CLOSED: [Entry; 2] = [
    Entry::Called {
        line: 1,
        call: Call::OpenHandle { nonblock: false },
        reply: Reply::Done,
    },
    Entry::Called {
        line: 2,
        call: Call::CloseHandle,
        reply: Reply::Done,
    },
];

/// A refusal, and each step.
const STEPS: [Entry; 4] = [
    Entry::Called {
        line: 3,
        call: Call::OpenHandle { nonblock: false },
        reply: Reply::Refused(Errno::Enomem),
    },
    Entry::Finish,
    Entry::Bad,
    Entry::Give,
];

#[test]
fn no_logs_are_printed(rt: HostRuntime) -> Result<(), Fail> {
    let logs = LogsText {
        handles: &[],
        raws: &[],
        journal: &[],
        wire: &NOTHING,
    };
    let text = print(rt.alloc(), &logs)?;
    let want: &[u8] =
        b"region\nwire e3b0c44298fc1c149afbf4c8996fb92427ae41e4649b934ca495991b7852b855\n";
    assert_eq!(rt; text.as_slice(), want);
    Ok(())
}

#[test]
fn a_journal_is_printed(rt: HostRuntime) -> Result<(), Fail> {
    let logs = LogsText {
        handles: &[],
        raws: &[],
        journal: &JOURNAL,
        wire: &NOTHING,
    };
    let text = print(rt.alloc(), &logs)?;
    let want: &[u8] =
        b"region\nmap 0000000000000000 225 1\nmap 0000000000e10000 1 1\nmap 0000000000e10000 1 2\ndrop 0000000000000000 0\ndrop 0000000000e10000 1\nwire e3b0c44298fc1c149afbf4c8996fb92427ae41e4649b934ca495991b7852b855\n";
    assert_eq!(rt; text.as_slice(), want);
    Ok(())
}

/// The words of two lines.
#[derive(Drop)]
struct Two {
    first: Echo,
    second: Echo,
}

/// These words, in order.
fn both(words: &Two) -> [&Echo; 2]
    ensures { map (λ e. e.now) result ≡ words.now.first ∷ words.now.second ∷ [] }
{
    [&words.first, &words.second]
}

#[test]
fn a_handle_is_printed(rt: HostRuntime) -> Result<(), Fail> {
    let first = Echo::new(rt.alloc(), b"open a")?;
    let second = Echo::new(rt.alloc(), b"close a")?;
    let words = Two { first, second };
    let name = Name::new(b"a").unwrap();
    let handle = HandleText {
        process: 0,
        name: &name,
        session: Some(0),
        entries: &CLOSED,
        echoes: &both(&words),
    };
    let logs = LogsText {
        handles: &[handle],
        raws: &[],
        journal: &[],
        wire: &OPEN_CLOSE,
    };
    let text = print(rt.alloc(), &logs)?;
    let want: &[u8] =
        b"handle 0 a 0\n1 open a = ok\n2 close a = ok\nregion\nwire 989fe555f0346a6e44705d83652bdf0d955caa2edeb1a615d82b93d7c7a00851\n";
    assert_eq!(rt; text.as_slice(), want);
    Ok(())
}

/// The raw line of another process.
fn other_line<'a>(chain: &'a RawChain, echo: &'a Echo) -> RawText<'a>
    ensures process { result.process ≡ 1 }
    ensures chain { result.chain.now ≡ chain.now }
    ensures echo { result.echo.now ≡ echo.now }
{
    RawText {
        process: 1,
        line: 4,
        chain,
        errno: Errno::Eio,
        echo,
    }
}

#[test]
fn processes_are_printed_in_order(rt: HostRuntime) -> Result<(), Fail> {
    let first = Echo::new(rt.alloc(), b"raw chain loop")?;
    let second = Echo::new(rt.alloc(), b"raw chain zero")?;
    let third = Echo::new(rt.alloc(), b"open b2")?;
    let name = Name::new(b"b2").unwrap();
    let handle = HandleText {
        process: 1,
        name: &name,
        session: None,
        entries: &STEPS,
        echoes: &[&third],
    };
    let looped = RawText {
        process: 0,
        line: 1,
        chain: &RawChain::Loop,
        errno: Errno::Eio,
        echo: &first,
    };
    let chain = RawChain::Zero;
    let logs = LogsText {
        handles: &[handle],
        raws: &[looped, other_line(&chain, &second)],
        journal: &[],
        wire: &NOTHING,
    };
    let text = print(rt.alloc(), &logs)?;
    let want: &[u8] =
        b"raws 0\n1 raw chain loop = err 5 EIO\nhandle 1 b2 -\n3 open b2 = err 12 ENOMEM\n+ finish\n+ bad\n+ give\nraws 1\n4 raw chain zero = err 5 EIO\nregion\nwire e3b0c44298fc1c149afbf4c8996fb92427ae41e4649b934ca495991b7852b855\n";
    assert_eq!(rt; text.as_slice(), want);
    Ok(())
}
