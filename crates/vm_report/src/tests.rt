use crate::{LogsError, logs_of};
use std::alloc::{AllocError, Global};
use std::test::Fail;
use vm_local::{Call, Entry, Name, Reply};

/// `open a` and `close a`.
const TEXT: &[u8] =
    b"handle 0 a 0\n1 open a = ok\n2 close a = ok\nregion\nwire 989fe555f0346a6e44705d83652bdf0d955caa2edeb1a615d82b93d7c7a00851\n";

const WIRE: [u8; 32] = [
    0x98, 0x9f, 0xe5, 0x55, 0xf0, 0x34, 0x6a, 0x6e, 0x44, 0x70, 0x5d, 0x83, 0x65, 0x2b, 0xdf, 0x0d,
    0x95, 0x5c, 0xaa, 0x2e, 0xde, 0xb1, 0xa6, 0x15, 0xd8, 0x2b, 0x93, 0xd7, 0xc7, 0xa0, 0x08, 0x51,
];

/// Whether a text of these lines and a digest is printed. `None` where memory ran out.
fn is_printed(alloc: Global, lines: &[u8]) -> Result<Option<bool>, AllocError> {
    let mut text = Vec::new(alloc);
    text.extend_from_slice(lines)?;
    text.extend_from_slice(
        b"wire 989fe555f0346a6e44705d83652bdf0d955caa2edeb1a615d82b93d7c7a00851\n",
    )?;
    match logs_of(alloc, &text) {
        Ok(_logs) => Ok(Some(true)),
        Err(LogsError::NotPrinted) => Ok(Some(false)),
        Err(LogsError::Memory) => Ok(None),
    }
}

#[test]
fn a_text_gives_its_logs(rt: HostRuntime) -> Result<(), Fail> {
    let Ok(logs) = logs_of(rt.alloc(), TEXT) else {
        assert_eq!(rt; true, false);
        return Ok(());
    };
    assert_eq!(rt;
        (logs.handles.len(), logs.raws.len(), logs.journal.len()),
        (1, 0, 0)
    );
    assert_eq!(rt; logs.wire, WIRE);
    let Some(handle) = logs.handles.first() else {
        return Ok(());
    };
    assert_eq!(rt; (handle.process, handle.session), (0, Some(0)));
    assert_eq!(rt; handle.name.is(&Name::new(b"a").unwrap()), true);
    let calls = [
        (1, Call::OpenHandle { nonblock: false }),
        (2, Call::CloseHandle),
    ];
    assert_eq!(rt; handle.entries.len(), 2);
    for ((line, call), entry) in calls.into_iter().zip(handle.entries.iter()) {
        let reply = Reply::Done;
        assert_eq!(rt; *entry, Entry::Called { line, call, reply });
    }
    Ok(())
}

#[test]
fn tells_what_is_printed(rt: HostRuntime) -> Result<(), Fail> {
    let rows: [(&[u8], bool); 22] = [
        (b"region\n", true),
        (b"handle 0 a -\n1 open a = err 12 ENOMEM\nregion\n", true),
        (
            b"handle 0 a 0\n1 open a = ok\n+ finish\n+ give\nregion\nmap 0000000000000000 225 1\ndrop 0000000000000000 0\n",
            true,
        ),
        (
            b"handle 1 b 0\nraws 1\n3 raw chain loop = err 5 EIO\nhandle 2 c 1\nregion\n",
            true,
        ),
        (b"raws 0\n1 raw bytes 0A 8 = err 22 EINVAL\nregion\n", true),
        (
            b"handle 0 a 0\n2 sfmt a cap ABCD 641 1 = ok GREY 640 16 640 10240\nregion\n",
            true,
        ),
        (
            b"handle 0 a 0\n2 tryfmt a cap ==== 1 1 = ok GREY 16 16 16 256\nregion\n",
            true,
        ),
        (
            b"handle 0 a 0\n2 querycap a = ok 84000001 04000001\nregion\n",
            true,
        ),
        (b"handle 0 a 0\n1 open a = ok 5\nregion\n", false),
        (b"handle 0 a 0\n1 open  a = ok\nregion\n", false),
        (b"handle 0 a 0\n01 open a = ok\nregion\n", false),
        (b"handle 0 a 0\n1 open b = ok\nregion\n", false),
        (b"handle 0 a 0\n1 open a = err 5 EINVAL\nregion\n", false),
        (
            b"handle 0 a 0\n2 querycap a = ok 2214592513 67108865\nregion\n",
            false,
        ),
        (
            b"handle 0 a 0\n2 querycap a = ok 8400000A 04000001\nregion\n",
            false,
        ),
        (b"handle 0 a 0\n+ done\nregion\n", false),
        (b"handle 16 a 0\nregion\n", false),
        (b"handle 1 a 0\nhandle 0 b 1\nregion\n", false),
        (b"raws 0\nregion\n", false),
        (
            b"raws 0\n1 raw chain loop = err 5 EIO\nhandle 0 a 0\nregion\n",
            false,
        ),
        (b"map 0000000000000000 1 1\nregion\n", false),
        (b"region", false),
    ];
    for (lines, printed) in rows {
        assert_eq!(rt; is_printed(rt.alloc(), lines)?, Some(printed));
    }
    assert_eq!(rt;
        logs_of(rt.alloc(), b"x").err(),
        Some(LogsError::NotPrinted)
    );
    Ok(())
}
