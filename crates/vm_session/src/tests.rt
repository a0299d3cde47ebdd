// Each call with good words and with each refusal. Numbers and texts are worked by hand from the
// tables of the interface and of the formats.

ghost use Rattle.std.specs.Prelude.{◌≡◌, length};

use crate::Session;
use std::alloc::Global;
use std::test::Fail;
use v4l_const::{Errno, FourCc, IoctlCode, Model};
use v4l_layout::{
    Capability, FmtDesc, FormatRec, InputRec, padded, read_capability, read_fmtdesc, read_format,
    read_input,
};
use vm_frame::Held;
use vm_wire::{
    Payload, fmt_desc_request, fmtdesc_payload, format_payload, format_request,
    format_type_request, input_payload, input_request, number_payload, reqbufs_payload,
    reqbufs_request,
};

mod buffers;
mod queueing;
mod streaming;
mod subscriptions;

const CAP: u32 = 1;

const OUT: u32 = 2;

const GREY: FourCc = FourCc(0x5945_5247);

const YUYV: FourCc = FourCc(0x5659_5559);

const NV12: FourCc = FourCc(0x3231_564e);

const RGB3: FourCc = FourCc(0x3342_4752);

// The letters ABCD.
const UNKNOWN: FourCc = FourCc(0x4443_4241);

// A session with what it gives back.
#[derive(Drop)]
struct Opened {
    alloc: Global,
    session: Session,
    held: Vec<Held>,
}

fn open_session(alloc: Global, model: Model, id: u32) -> Result<Opened, Fail> {
    Ok(Opened {
        alloc,
        session: Session::new(alloc, model, id)?,
        held: Vec::with_capacity(alloc, 128)?,
    })
}

// Calls the session, where the call's conditions are met; EIO, which no call answers, says that
// they aren't.
fn call(opened: &mut Opened, code: IoctlCode, payload: &mut Payload) -> Result<(), Errno>
    ensures { length payload.new ≡ length payload.old }
{
    let sized = payload.as_bytes().len() == code.payload_size() as usize;
    let roomy = opened.held.capacity() - opened.held.len() >= 64;
    if opened.session.made > 1000 || !sized || !roomy || code == IoctlCode::QBuf {
        return Err(Errno::Eio);
    }
    if opened.session.stops(code, payload) && !opened.session.is_quiet() {
        return Err(Errno::Eio);
    }
    opened.session.ioctl(code, payload, &mut opened.held)
}

// What a record tells of a format: code, width, height, bytes of a row, bytes of a picture.
type Told = Result<(FourCc, u32, u32, u32, u32), Errno>;

fn told(t: u32, record: FormatRec) -> (FourCc, u32, u32, u32, u32) {
    let plain = record.kind == t && record.field == 1;
    let code = if plain { record.pixelformat } else { 0 };
    (
        FourCc(code),
        record.width,
        record.height,
        record.bytesperline,
        record.sizeimage,
    )
}

fn gfmt(session: &mut Opened, t: u32) -> Told {
    let mut payload = format_payload(&format_type_request(t));
    call(session, IoctlCode::GFmt, &mut payload)?;
    Ok(told(t, read_format(payload.as_bytes()).unwrap()))
}

fn tryfmt(session: &mut Opened, t: u32, f: FourCc, w: u32, h: u32) -> Told {
    let mut payload = format_payload(&format_request(t, f, w, h));
    call(session, IoctlCode::TryFmt, &mut payload)?;
    Ok(told(t, read_format(payload.as_bytes()).unwrap()))
}

fn sfmt(session: &mut Opened, t: u32, f: FourCc, w: u32, h: u32) -> Told {
    let mut payload = format_payload(&format_request(t, f, w, h));
    call(session, IoctlCode::SFmt, &mut payload)?;
    Ok(told(t, read_format(payload.as_bytes()).unwrap()))
}

fn enumfmt(session: &mut Opened, t: u32, i: u32) -> Result<FmtDesc, Errno> {
    let mut payload = fmtdesc_payload(&fmt_desc_request(t, i));
    call(session, IoctlCode::EnumFmt, &mut payload)?;
    Ok(read_fmtdesc(payload.as_bytes()).unwrap())
}

fn enuminput(session: &mut Opened, i: u32) -> Result<InputRec, Errno> {
    let mut payload = input_payload(&input_request(i));
    call(session, IoctlCode::EnumInput, &mut payload)?;
    Ok(read_input(payload.as_bytes()).unwrap())
}

// The payload that answers G_INPUT.
fn ginput(session: &mut Opened) -> Result<Payload, Errno> {
    let mut payload = number_payload(0);
    call(session, IoctlCode::GInput, &mut payload)?;
    Ok(payload)
}

// The payload that answers S_INPUT.
fn sinput(session: &mut Opened, i: u32) -> Result<Payload, Errno> {
    let mut payload = number_payload(i);
    call(session, IoctlCode::SInput, &mut payload)?;
    Ok(payload)
}

// The payload that answers REQBUFS.
fn reqbufs(session: &mut Opened, t: u32, memory: u32, count: u32) -> Result<Payload, Errno> {
    let mut payload = reqbufs_payload(&reqbufs_request(t, memory, count));
    call(session, IoctlCode::ReqBufs, &mut payload)?;
    Ok(payload)
}

// So many buffers of this type and memory kind were made; 0x13 says what the queues can do.
fn made(count: u8, t: u8, memory: u8) -> Result<Payload, Errno> {
    let bytes = [
        count, 0, 0, 0, t, 0, 0, 0, memory, 0, 0, 0, 0x13, 0, 0, 0, 0, 0, 0, 0,
    ];
    Ok(Payload::new(&bytes))
}

#[test]
fn the_device_is_told(rt: HostRuntime) -> Result<(), Fail> {
    let mut session = open_session(rt.alloc(), Model::Capture, 0)?;
    let mut payload = Payload::zeros(104);
    assert_eq!(rt;
        call(&mut session, IoctlCode::QueryCap, &mut payload),
        Ok(())
    );
    let want = Capability {
        driver: *b"vmedia\0\0\0\0\0\0\0\0\0\0",
        card: *b"vmedia capture\0\0\0\0\0\0\0\0\0\0\0\0\0\0\0\0\0\0",
        bus_info: *b"platform:vmedia\0\0\0\0\0\0\0\0\0\0\0\0\0\0\0\0\0",
        version: 0x0001_0000,
        capabilities: 0x8400_0001,
        device_caps: 0x0400_0001,
    };
    assert_eq!(rt; read_capability(payload.as_bytes()), Ok(want));
    Ok(())
}

#[test]
fn formats_are_told_tried_and_set(rt: HostRuntime) -> Result<(), Fail> {
    let mut session = open_session(rt.alloc(), Model::Capture, 7)?;
    let first = Ok((GREY, 64, 48, 64, 3072));
    assert_eq!(rt; gfmt(&mut session, CAP), first);
    let tried = [
        (CAP, NV12, 17, 481, Ok((NV12, 16, 480, 16, 11520))),
        (CAP, RGB3, 0, 4_294_967_295, Ok((RGB3, 16, 480, 48, 23040))),
        (OUT, RGB3, 64, 48, Err(Errno::Einval)),
    ];
    for (t, f, w, h, want) in tried {
        assert_eq!(rt; tryfmt(&mut session, t, f, w, h), want);
        // Trying sets nothing.
        assert_eq!(rt; gfmt(&mut session, CAP), first);
    }
    let grey = Ok((GREY, 640, 16, 640, 10240));
    assert_eq!(rt; sfmt(&mut session, CAP, UNKNOWN, 641, 1), grey);
    assert_eq!(rt; gfmt(&mut session, CAP), grey);
    for t in [0, OUT, 3, 4_294_967_295] {
        assert_eq!(rt; sfmt(&mut session, t, YUYV, 64, 48), Err(Errno::Einval));
        assert_eq!(rt; gfmt(&mut session, t), Err(Errno::Einval));
    }
    // A refused call sets nothing.
    assert_eq!(rt; gfmt(&mut session, CAP), grey);
    Ok(())
}

#[test]
fn a_source_gives_its_size_to_the_pictures(rt: HostRuntime) -> Result<(), Fail> {
    let mut session = open_session(rt.alloc(), Model::Convert, 0)?;
    assert_eq!(rt;
        sfmt(&mut session, CAP, RGB3, 64, 48),
        Ok((RGB3, 64, 48, 192, 9216))
    );
    assert_eq!(rt;
        sfmt(&mut session, OUT, YUYV, 320, 240),
        Ok((YUYV, 320, 240, 640, 153_600))
    );
    assert_eq!(rt; gfmt(&mut session, OUT), Ok((YUYV, 320, 240, 640, 153_600)));
    assert_eq!(rt; gfmt(&mut session, CAP), Ok((RGB3, 320, 240, 960, 230_400)));
    assert_eq!(rt;
        tryfmt(&mut session, OUT, GREY, 16, 16),
        Ok((GREY, 16, 16, 16, 256))
    );
    // Whatever size is asked of the pictures.
    assert_eq!(rt;
        tryfmt(&mut session, CAP, GREY, 16, 16),
        Ok((GREY, 320, 240, 320, 76_800))
    );
    assert_eq!(rt;
        sfmt(&mut session, CAP, NV12, 16, 16),
        Ok((NV12, 320, 240, 320, 115_200))
    );
    assert_eq!(rt; gfmt(&mut session, CAP), Ok((NV12, 320, 240, 320, 115_200)));
    Ok(())
}

#[test]
fn formats_are_listed(rt: HostRuntime) -> Result<(), Fail> {
    let mut session = open_session(rt.alloc(), Model::Capture, 0)?;
    let letters = ["GREY", "YUYV", "UYVY", "NV12", "YU12", "RGB3"];
    let codes = [
        0x5945_5247,
        0x5659_5559,
        0x5956_5955,
        0x3231_564e,
        0x3231_5559,
        0x3342_4752,
    ];
    for i in 0..6 {
        let want = FmtDesc {
            index: i as u32,
            kind: CAP,
            flags: 0,
            description: padded(letters[i]),
            pixelformat: codes[i],
        };
        assert_eq!(rt; enumfmt(&mut session, CAP, i as u32), Ok(want));
    }
    for (t, i) in [(CAP, 6), (CAP, 4_294_967_295), (OUT, 0), (0, 0)] {
        assert_eq!(rt; enumfmt(&mut session, t, i), Err(Errno::Einval));
    }
    Ok(())
}

#[test]
fn inputs_are_listed_and_chosen(rt: HostRuntime) -> Result<(), Fail> {
    let mut session = open_session(rt.alloc(), Model::Capture, 0)?;
    for (i, name) in [(0, "bars"), (1, "ramp"), (2, "checker"), (3, "count")] {
        let want = InputRec {
            index: i,
            name: padded(name),
            kind: 2,
        };
        assert_eq!(rt; enuminput(&mut session, i), Ok(want));
    }
    assert_eq!(rt; enuminput(&mut session, 4), Err(Errno::Einval));
    assert_eq!(rt; ginput(&mut session), Ok(Payload::new(&[0, 0, 0, 0])));
    assert_eq!(rt; sinput(&mut session, 3), Ok(Payload::new(&[3, 0, 0, 0])));
    assert_eq!(rt; ginput(&mut session), Ok(Payload::new(&[3, 0, 0, 0])));
    for i in [4, 259, 4_294_967_295] {
        assert_eq!(rt; sinput(&mut session, i), Err(Errno::Einval));
        // A refused call chooses nothing.
        assert_eq!(rt; ginput(&mut session), Ok(Payload::new(&[3, 0, 0, 0])));
    }
    let mut converter = open_session(rt.alloc(), Model::Convert, 0)?;
    for i in [0, 4] {
        assert_eq!(rt; enuminput(&mut converter, i), Err(Errno::Enotty));
        assert_eq!(rt; sinput(&mut converter, i), Err(Errno::Enotty));
    }
    assert_eq!(rt; ginput(&mut converter), Err(Errno::Enotty));
    Ok(())
}

#[test]
fn bytes_are_read_at_their_offsets(rt: HostRuntime) -> Result<(), Fail> {
    let mut session = open_session(rt.alloc(), Model::Capture, 0)?;
    // Type 1, 641 by 1, "ABCD"; the bytes that no field has are ignored.
    let mut bytes = [0xee; 208];
    bytes[..20].copy_from_slice(&[
        1, 0, 0, 0, 9, 9, 9, 9, 0x81, 2, 0, 0, 1, 0, 0, 0, 65, 66, 67, 68,
    ]);
    let mut payload = Payload::new(&bytes);
    assert_eq!(rt; call(&mut session, IoctlCode::SFmt, &mut payload), Ok(()));
    // 640 by 16, "GREY", field 1, 640 bytes a row, 10240 a picture.
    let mut want = [0; 208];
    want[..20].copy_from_slice(&[
        1, 0, 0, 0, 0, 0, 0, 0, 128, 2, 0, 0, 16, 0, 0, 0, 71, 82, 69, 89,
    ]);
    want[20..32].copy_from_slice(&[1, 0, 0, 0, 128, 2, 0, 0, 0, 40, 0, 0]);
    assert_eq!(rt; payload, Payload::new(&want));
    // A refused call leaves the payload as it was.
    let mut number = number_payload(4);
    assert_eq!(rt;
        call(&mut session, IoctlCode::SInput, &mut number),
        Err(Errno::Einval)
    );
    assert_eq!(rt; number, number_payload(4));
    Ok(())
}
