ghost use Rattle.std.specs.Prelude.{◌≤◌};

use crate::{
    Engine, Failed, MemSink, MemSource, ReadError, ScriptedEngine, StdSink, StdSource, SureEngine,
    WriteFault, read_all, write_all,
};
use std::alloc::Global;
use std::io::{self, Cursor, Read, Write};
use std::test::Fail;

static TEXT: [u8; 7] = *b"open a\n";

/// The seven bytes come one at a time, and the eighth call finds the end of input.
#[test]
fn reads_up_to_the_call_that_fails(rt: HostRuntime) -> Result<(), Fail> {
    for (call, rest) in [
        (1, "open a\n"),
        (2, "pen a\n"),
        (3, "en a\n"),
        (4, "n a\n"),
        (5, " a\n"),
        (6, "a\n"),
        (7, "\n"),
        (8, ""),
    ] {
        let mut src = MemSource::new(TEXT.to_vec(rt.alloc())?, 1, vec![in rt.alloc(); call]?);
        let fault = read_all(rt.alloc(), &mut src, 7);
        assert_eq!(rt; fault.err(), Some(ReadError::ReadFault), "call {call}");
        let bytes = read_all(rt.alloc(), &mut src, 7)?;
        assert_eq!(rt; bytes.as_slice(), rest.as_bytes(), "call {call}");
    }
    let mut src = MemSource::new(TEXT.to_vec(rt.alloc())?, 1, vec![in rt.alloc(); 9]?);
    assert_eq!(rt;
        read_all(rt.alloc(), &mut src, 7)?.as_slice(),
        TEXT.as_slice()
    );
    Ok(())
}

/// How many bytes `read_all` gives of a source that has `size` left.
fn read_count(alloc: Global, size: usize, piece: usize, limit: usize) -> Result<usize, ReadError>
    requires { 1 ≤ piece }
{
    let bytes = vec![in alloc; 7; size]?;
    let mut src = MemSource::new(bytes, piece, Vec::new(alloc));
    Ok(read_all(alloc, &mut src, limit)?.len())
}

#[test]
fn reads_as_many_bytes_as_the_limit(rt: HostRuntime) {
    for (size, limit, want) in [
        (0, 0, Ok(0)),
        (1, 0, Err(ReadError::TooLong)),
        (7, 7, Ok(7)),
        (8, 7, Err(ReadError::TooLong)),
        (4096, 4096, Ok(4096)),
        (4097, 4096, Err(ReadError::TooLong)),
        (9000, 9000, Ok(9000)),
        (9000, 8999, Err(ReadError::TooLong)),
    ] {
        assert_eq!(rt;
            read_count(rt.alloc(), size, 1, limit),
            want,
            "{size} of {limit}"
        );
        assert_eq!(rt;
            read_count(rt.alloc(), size, 5000, limit),
            want,
            "{size} of {limit}"
        );
    }
}

/// Seven bytes go out in pieces of three, where the sink doesn't fail and has the room.
#[test]
fn writes_up_to_the_call_that_fails(rt: HostRuntime) -> Result<(), Fail> {
    for (call, room, want, held) in [
        (1, 7, Err(WriteFault), ""),
        (2, 7, Err(WriteFault), "ope"),
        (3, 7, Err(WriteFault), "open a"),
        (4, 7, Ok(()), "open a\n"),
        (4, 9, Ok(()), "open a\n"),
        (4, 5, Err(WriteFault), "open "),
        (4, 0, Err(WriteFault), ""),
    ] {
        let room = vec![in rt.alloc(); 0; room]?;
        let mut sink = MemSink::new(room, 3, vec![in rt.alloc(); call]?);
        assert_eq!(rt; write_all(&mut sink, &TEXT), want, "call {call}");
        assert_eq!(rt; sink.held(), held.as_bytes(), "call {call}");
    }
    Ok(())
}

#[test]
fn engines_fail_at_the_calls_in_their_list(rt: HostRuntime) -> Result<(), Fail> {
    let mut scripted = ScriptedEngine::new([4, 2].to_vec(rt.alloc())?);
    let mut sure = SureEngine::new();
    for want in [Ok(()), Err(Failed), Ok(()), Err(Failed), Ok(())] {
        assert_eq!(rt; scripted.try_run(), want);
        assert_eq!(rt; sure.try_run(), Ok(()));
    }
    Ok(())
}

/// A stream that always fails.
#[derive(Drop)]
struct Broken;

impl Read for Broken {
    fn read(&mut self, _buf: &mut [u8]) -> io::Result<usize> {
        Err(io::Error::other("broken"))
    }
}

impl Write for Broken {
    fn write(&mut self, _buf: &[u8]) -> io::Result<usize> {
        Err(io::Error::other("broken"))
    }

    fn flush(&mut self) -> io::Result<()> {
        Ok(())
    }
}

#[test]
fn adapts_the_readers_and_writers_of_std(rt: HostRuntime) -> Result<(), Fail> {
    let mut src = StdSource::new(Cursor::new(TEXT));
    assert_eq!(rt;
        read_all(rt.alloc(), &mut src, 7)?.as_slice(),
        TEXT.as_slice()
    );
    let mut src = StdSource::new(TEXT.as_slice());
    assert_eq!(rt;
        read_all(rt.alloc(), &mut src, 6).err(),
        Some(ReadError::TooLong)
    );
    let mut src = StdSource::new(Broken);
    assert_eq!(rt;
        read_all(rt.alloc(), &mut src, 7).err(),
        Some(ReadError::ReadFault)
    );

    let mut written = Vec::new(rt.alloc());
    assert_eq!(rt; write_all(&mut StdSink::new(&mut written), &TEXT), Ok(()));
    assert_eq!(rt; written.as_slice(), TEXT.as_slice());
    let mut room = [0u8; 3];
    assert_eq!(rt;
        write_all(&mut StdSink::new(room.as_mut_slice()), &TEXT),
        Err(WriteFault)
    );
    assert_eq!(rt; room.as_slice(), &TEXT[..3]);
    assert_eq!(rt;
        write_all(&mut StdSink::new(Broken), &TEXT),
        Err(WriteFault)
    );
    Ok(())
}
