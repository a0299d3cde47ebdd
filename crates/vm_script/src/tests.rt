ghost use Rattle.std.specs.Prelude.{◌≤◌};

use crate::{LineKind, ScriptError, ScriptFault, ScriptKind, number_of, read_script};
use std::alloc::{AllocError, Global};
use std::test::Fail;
use v4l_const::{FourCc, Model as DeviceModel};
use vm_local::Call;

/// The first fault of a script. `None` where there is none, or where memory ran out.
fn fault_in(alloc: Global, script: &[u8]) -> Option<ScriptFault> {
    if script.len() > 100_000 {
        return None;
    }
    match read_script(alloc, script) {
        Err(ScriptError::Fault(fault)) => Some(fault),
        Err(ScriptError::Memory) => None,
        Ok(_script) => None,
    }
}

/// The first fault behind a line `open a`.
fn fault_behind_open(alloc: Global, line: &[u8]) -> Result<Option<ScriptFault>, AllocError> {
    let mut script = Vec::new(alloc);
    script.extend_from_slice(b"open a\n")?;
    script.extend_from_slice(line)?;
    Ok(fault_in(alloc, &script))
}

#[test]
fn tells_the_first_faulty_line(rt: HostRuntime) -> Result<(), Fail> {
    let scripts: [(&[u8], u32, ScriptKind); 16] = [
        (b"open a\nsfm", 2, ScriptKind::Word),
        (b"open 9x\n", 1, ScriptKind::Name),
        (b"open a\nsinput a x\n", 2, ScriptKind::Number),
        (b"open a\nopen a\n", 2, ScriptKind::OpenTwice),
        (b"open a\nclose a\nopen a\n", 3, ScriptKind::OpenTwice),
        (b"open a\nclose b\n", 2, ScriptKind::NotDeclared),
        (b"close a\nopen a\n", 1, ScriptKind::NotDeclared),
        (b"raw bytes 0100000000000000 16\n", 1, ScriptKind::NotBuilt),
        (b"proc\nproc\nproc x\n", 3, ScriptKind::Word),
        (b"# open a\nclose a\nopen 9x", 2, ScriptKind::NotDeclared),
        (b"\n\r\n \t\n\nopen A", 5, ScriptKind::Name),
        (b" # open a\n", 1, ScriptKind::Word),
        (b"open a#\n", 1, ScriptKind::Name),
        (b"open a # b\n", 1, ScriptKind::Word),
        (b"open abcdefghi", 1, ScriptKind::Name),
        (
            b"open a1b2c3d4\nopen a1b2c3d\nclose a1b2c3",
            3,
            ScriptKind::NotDeclared,
        ),
    ];
    for (script, line, kind) in scripts {
        let fault = fault_in(rt.alloc(), script);
        assert_eq!(rt; fault, Some(ScriptFault { line, kind }));
    }
    Ok(())
}

#[test]
fn tells_the_first_fault_of_a_line(rt: HostRuntime) -> Result<(), Fail> {
    let lines: [(&[u8], ScriptKind); 54] = [
        (b"Open b", ScriptKind::Word),
        (b"opens b", ScriptKind::Word),
        (b"ope b", ScriptKind::Word),
        (b"open", ScriptKind::Word),
        (b"open b c d", ScriptKind::Word),
        (b"close", ScriptKind::Word),
        (b"close a b", ScriptKind::Word),
        (b"querycap a 0", ScriptKind::Word),
        (b"ginput a 0", ScriptKind::Word),
        (b"gfmt a", ScriptKind::Word),
        (b"gfmt a cap 0", ScriptKind::Word),
        (b"enumfmt a cap", ScriptKind::Word),
        (b"enumfmt a cap 0 0", ScriptKind::Word),
        (b"tryfmt a cap GREY 1", ScriptKind::Word),
        (b"sfmt a cap GREY 1 1 1", ScriptKind::Word),
        (b"enuminput a", ScriptKind::Word),
        (b"sinput a 0 0", ScriptKind::Word),
        (b"tryfmt a cap GRE 1 1", ScriptKind::Word),
        (b"tryfmt a cap GREYS 1 1", ScriptKind::Word),
        (b"tryfmt a cap GRE\x7f 1 1", ScriptKind::Word),
        (b"sfmt a cap GR\x0bY 1 1", ScriptKind::Word),
        (b"sfmt a cap GR Y 1 1", ScriptKind::Word),
        (b"sfmt a cap GRE\xc3 1 1", ScriptKind::Word),
        (b"open 1b", ScriptKind::Name),
        (b"open bC", ScriptKind::Name),
        (b"open b_c", ScriptKind::Name),
        (b"close A", ScriptKind::Name),
        (b"querycap 9", ScriptKind::Name),
        (b"ginput abcdefghi", ScriptKind::Name),
        (b"sinput a 4294967296", ScriptKind::Number),
        (b"sinput a 9999999999", ScriptKind::Number),
        (b"sinput a 00000000001", ScriptKind::Number),
        (b"sinput a -1", ScriptKind::Number),
        (b"sinput a +1", ScriptKind::Number),
        (b"sinput a 1x", ScriptKind::Number),
        (b"enuminput a 0x1", ScriptKind::Number),
        (b"enuminput a cap", ScriptKind::Number),
        (b"gfmt a capt", ScriptKind::Number),
        (b"gfmt a Cap", ScriptKind::Number),
        (b"gfmt a in", ScriptKind::Number),
        (b"enumfmt a cap x", ScriptKind::Number),
        (b"tryfmt a cap GREY 1 x", ScriptKind::Number),
        (b"gfmt 9x", ScriptKind::Word),
        (b"sfm 9x x", ScriptKind::Word),
        (b"enumfmt A x y", ScriptKind::Name),
        (b"sfmt 9 x GRE x x", ScriptKind::Name),
        (b"sfmt a x GRE x x", ScriptKind::Number),
        (b"sfmt a cap GRE x x", ScriptKind::Word),
        (b"sfmt a cap GREY x 1", ScriptKind::Number),
        (b"tryfmt b cap GREY 1 x", ScriptKind::Number),
        (b"tryfmt b cap GRE 1 1", ScriptKind::Word),
        (b"sinput b x", ScriptKind::Number),
        (b"sinput b 0", ScriptKind::NotDeclared),
        (b"open a", ScriptKind::OpenTwice),
    ];
    for (line, kind) in lines {
        let fault = fault_behind_open(rt.alloc(), line)?;
        assert_eq!(rt; fault, Some(ScriptFault { line: 2, kind }));
    }
    Ok(())
}

/// Lines that aren't built, whatever the grammar says of their words.
#[test]
fn tells_first_what_is_not_built(rt: HostRuntime) -> Result<(), Fail> {
    let lines: [&[u8]; 6] = [
        b"raw",
        b"raw chain loop",
        b"raw chain x",
        b"raw bytes 0100000000000000 16",
        b"raw bytes 0 4097",
        b"\traw a b c d e f g h i",
    ];
    for line in lines {
        let fault = fault_behind_open(rt.alloc(), line)?;
        let kind = ScriptKind::NotBuilt;
        assert_eq!(rt; fault, Some(ScriptFault { line: 2, kind }));
    }
    Ok(())
}

#[test]
fn tells_a_device_line_out_of_its_place(rt: HostRuntime) -> Result<(), Fail> {
    let scripts: [(&[u8], u32); 14] = [
        (b"device", 1),
        (b"device x", 1),
        (b"device Capture", 1),
        (b"device capture convert", 1),
        (b"device convert x", 1),
        (b"devices capture", 1),
        (b"Device capture", 1),
        (b"# a\n\n \ndevice captur", 4),
        (b"device capture\ndevice capture", 2),
        (b"device convert\n\ndevice x", 3),
        (b"open a\ndevice capture", 2),
        (b"proc\ndevice convert", 2),
        (b"open a\nproc\ndevice", 3),
        (b"queue 64", 1),
    ];
    for (script, line) in scripts {
        let kind = ScriptKind::Word;
        assert_eq!(rt;
            fault_in(rt.alloc(), script),
            Some(ScriptFault { line, kind })
        );
    }
    Ok(())
}

/// The model of a script, and how many handles and lines each of its first processes has.
fn shape_of(alloc: Global, script: &[u8]) -> Option<(DeviceModel, usize, [(usize, usize); 3])> {
    if script.len() > 100_000 {
        return None;
    }
    let script = read_script(alloc, script).ok()?;
    let mut shape = [(0, 0); 3];
    for (row, process) in shape.iter_mut().zip(&script.processes) {
        *row = (process.handles.len(), process.lines.len());
    }
    Some((script.model, script.processes.len(), shape))
}

#[test]
fn reads_the_model_and_the_processes(rt: HostRuntime) -> Result<(), Fail> {
    let capture = DeviceModel::Capture;
    let convert = DeviceModel::Convert;
    let scripts: [(&[u8], DeviceModel, usize, [(usize, usize); 3]); 10] = [
        (b"", capture, 1, [(0, 0), (0, 0), (0, 0)]),
        (b"# device convert", capture, 1, [(0, 0), (0, 0), (0, 0)]),
        (b"device capture", capture, 1, [(0, 0), (0, 0), (0, 0)]),
        (
            b"\n#\n\tdevice  convert\r",
            convert,
            1,
            [(0, 0), (0, 0), (0, 0)],
        ),
        (
            b"device convert\nopen a",
            convert,
            1,
            [(1, 1), (0, 0), (0, 0)],
        ),
        (b"proc", capture, 2, [(0, 0), (0, 0), (0, 0)]),
        (
            b"device convert\nproc\nopen a\n proc ",
            convert,
            3,
            [(0, 0), (1, 1), (0, 0)],
        ),
        (
            b"open a\nclose a\nproc\nopen a\n",
            capture,
            2,
            [(1, 2), (1, 1), (0, 0)],
        ),
        (
            b"open a\nualloc a m 1 0\nproc\nopen b\nopen a\nualloc a m 1 0",
            capture,
            2,
            [(1, 2), (2, 3), (0, 0)],
        ),
        (
            b"open a\nproc\nproc\nopen a",
            capture,
            3,
            [(1, 1), (0, 0), (1, 1)],
        ),
    ];
    for (script, model, processes, shape) in scripts {
        assert_eq!(rt;
            shape_of(rt.alloc(), script),
            Some((model, processes, shape))
        );
    }
    Ok(())
}

/// Names belong to their process.
#[test]
fn tells_names_of_another_process(rt: HostRuntime) -> Result<(), Fail> {
    let scripts: [(&[u8], u32, ScriptKind); 4] = [
        (b"open a\nproc\nclose a", 3, ScriptKind::NotDeclared),
        (
            b"open a\nualloc a m 1 0\nproc\nopen a\nhash a m",
            5,
            ScriptKind::NotDeclared,
        ),
        (b"proc\nopen a\nopen a", 3, ScriptKind::OpenTwice),
        (
            b"open a\nproc\nopen a\nmmap a m cap 0\nualloc a m 1 0",
            5,
            ScriptKind::OpenTwice,
        ),
    ];
    for (script, line, kind) in scripts {
        assert_eq!(rt;
            fault_in(rt.alloc(), script),
            Some(ScriptFault { line, kind })
        );
    }
    Ok(())
}

/// So many `proc` lines, with lines between them that are skipped.
fn processes(alloc: Global, count: usize) -> Result<Vec<u8>, AllocError>
    requires { count ≤ 100 }
{
    let mut script = Vec::new(alloc);
    script.extend_from_slice(b"device convert\n")?;
    for _ in 0..count {
        script.extend_from_slice(b"open a\n\nproc\n")?;
    }
    Ok(script)
}

#[test]
fn takes_so_many_processes(rt: HostRuntime) -> Result<(), Fail> {
    let most = processes(rt.alloc(), 15)?;
    assert_eq!(rt; fault_in(rt.alloc(), &most), None);
    let lines: [(&[u8], ScriptKind); 4] = [
        (b"proc", ScriptKind::TooManyProcesses),
        (b"proc x", ScriptKind::Word),
        (b"device capture", ScriptKind::Word),
        (b"raw", ScriptKind::NotBuilt),
    ];
    for (line, kind) in lines {
        let mut script = processes(rt.alloc(), 15)?;
        script.extend_from_slice(line)?;
        let fault = fault_in(rt.alloc(), &script);
        assert_eq!(rt; fault, Some(ScriptFault { line: 47, kind }));
    }
    Ok(())
}

/// 1,024 statements, with lines between them that are skipped.
fn full_script(alloc: Global) -> Result<Vec<u8>, AllocError> {
    let mut script = Vec::new(alloc);
    script.extend_from_slice(b"# a full process\nopen a\n\n")?;
    for _ in 0..1023 {
        script.extend_from_slice(b"close a\n")?;
    }
    Ok(script)
}

#[test]
fn takes_so_many_statements(rt: HostRuntime) -> Result<(), Fail> {
    let full = full_script(rt.alloc())?;
    assert_eq!(rt; fault_in(rt.alloc(), &full), None);
    let lines: [(&[u8], ScriptKind); 8] = [
        (b"close a", ScriptKind::TooManyLines),
        (b"open a", ScriptKind::TooManyLines),
        (b"open b", ScriptKind::TooManyLines),
        (b"close b", ScriptKind::TooManyLines),
        (b"sinput a x", ScriptKind::Number),
        (b"open 9x", ScriptKind::Name),
        (b"sfm", ScriptKind::Word),
        (b"proc x", ScriptKind::Word),
    ];
    for (line, kind) in lines {
        let mut script = full_script(rt.alloc())?;
        script.extend_from_slice(line)?;
        let fault = fault_in(rt.alloc(), &script);
        assert_eq!(rt; fault, Some(ScriptFault { line: 1027, kind }));
    }
    Ok(())
}

#[test]
fn counts_the_statements_of_each_process(rt: HostRuntime) -> Result<(), Fail> {
    let mut script = full_script(rt.alloc())?;
    script.extend_from_slice(b"proc\nopen a\nclose a")?;
    assert_eq!(rt; fault_in(rt.alloc(), &script), None);
    Ok(())
}

/// What the last line of a script asks.
fn last_line(alloc: Global, script: &[u8]) -> Option<LineKind> {
    if script.len() > 100_000 {
        return None;
    }
    let script = read_script(alloc, script).ok()?;
    let line = script.processes.last()?.lines.last()?;
    Some(line.what)
}

#[test]
fn reads_the_call_of_a_line(rt: HostRuntime) -> Result<(), Fail> {
    let grey = FourCc(0x5945_5247);
    let lines: [(&[u8], Call); 17] = [
        (b"open a", Call::OpenHandle { nonblock: false }),
        (b"open a\nclose a", Call::CloseHandle),
        (b"open a\nquerycap a", Call::QueryCap),
        (b"open a\nenumfmt a cap 3", Call::EnumFmt { t: 1, i: 3 }),
        (b"open a\nenumfmt a 9 0", Call::EnumFmt { t: 9, i: 0 }),
        (b"open a\ngfmt a cap", Call::GFmt { t: 1 }),
        (b"open a\ngfmt a out", Call::GFmt { t: 2 }),
        (b"open a\ngfmt a 0000000002", Call::GFmt { t: 2 }),
        (
            b"open a\ntryfmt a cap GREY 640 480",
            Call::TryFmt {
                t: 1,
                f: grey,
                w: 640,
                h: 480,
            },
        ),
        (
            b"open a\nsfmt a out !~AB 0 4294967295",
            Call::SFmt {
                t: 2,
                f: FourCc(0x4241_7e21),
                w: 0,
                h: 4_294_967_295,
            },
        ),
        (
            b"open a\nsfmt a 4294967295 GREY 16 016",
            Call::SFmt {
                t: 4_294_967_295,
                f: grey,
                w: 16,
                h: 16,
            },
        ),
        (b"open a\nenuminput a 0", Call::EnumInput { i: 0 }),
        (b"open a\nenuminput a 10", Call::EnumInput { i: 10 }),
        (b"open a\nginput a", Call::GInput),
        (b"open a\nsinput a 007", Call::SInput { i: 7 }),
        (
            b"open a\nsinput a 4294967295",
            Call::SInput { i: 4_294_967_295 },
        ),
        (b"open abcdefgh\nsinput abcdefgh 1", Call::SInput { i: 1 }),
    ];
    for (bytes, call) in lines {
        let want = LineKind::OnHandle { h: 0, call };
        assert_eq!(rt; last_line(rt.alloc(), bytes), Some(want));
    }
    Ok(())
}

#[test]
fn reads_handles_and_lines(rt: HostRuntime) -> Result<(), Fail> {
    let bytes =
        b"# two handles\nopen a\n\n \t\r\n\tgfmt\ta  cap \r\nopen b2\n#open c\nclose b2\nclose a";
    let script = read_script(rt.alloc(), bytes)?;
    assert_eq!(rt; script.processes.len(), 1);
    for process in &script.processes {
        assert_eq!(rt; process.handles.len(), 2);
        let wants: [(u32, &[u8], u32); 5] = [
            (2, b"open a", 0),
            (5, b"gfmt a cap", 0),
            (6, b"open b2", 1),
            (8, b"close b2", 1),
            (9, b"close a", 0),
        ];
        assert_eq!(rt; process.lines.len(), 5);
        for (line, (number, echo, handle)) in process.lines.iter().zip(&wants) {
            assert_eq!(rt; line.number, *number);
            assert_eq!(rt; line.echo.as_bytes(), *echo);
            let on = match line.what {
                LineKind::OnHandle { h, call: _ } => Some(h),
                LineKind::Raw(_chain) => None,
            };
            assert_eq!(rt; on, Some(*handle));
        }
    }
    Ok(())
}

#[test]
fn reads_numbers(rt: HostRuntime) -> Result<(), Fail> {
    let most = u64::MAX;
    let words: [(&[u8], usize, u64, Option<u64>); 12] = [
        (b"0", 10, 0, Some(0)),
        (b"1", 10, 0, None),
        (b"", 10, 9, None),
        (b"007", 3, 7, Some(7)),
        (b"007", 2, 7, None),
        (b"64", 2, 64, Some(64)),
        (b"65", 2, 64, None),
        (b"6:", 2, 100, None),
        (b"/6", 2, 100, None),
        (b"18446744073709551615", 20, most, Some(most)),
        (b"18446744073709551616", 20, most, None),
        (b"99999999999999999999", 20, most, None),
    ];
    for (word, digits, limit, number) in words {
        assert_eq!(rt; number_of(word, digits, limit), number);
    }
    Ok(())
}
