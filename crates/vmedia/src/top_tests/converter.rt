// Frames of a converter, as scripts run them and as an engine that fails leaves them.

use super::{SURE, answer_by, answer_of, has_line};
use std::alloc::{AllocError, Global};
use std::test::Fail;
use vm_io::ScriptedEngine;

// The script that converts a picture of 32 by 18 pixels, whose bytes count by sevens.
fn script_of(alloc: Global, from: &[u8], to: &[u8]) -> Result<Vec<u8>, AllocError> {
    let mut script = Vec::new(alloc);
    script.extend_from_slice(b"device convert\nopen a\nsfmt a out ")?;
    script.extend_from_slice(from)?;
    script.extend_from_slice(b" 32 18\nsfmt a cap ")?;
    script.extend_from_slice(to)?;
    script.extend_from_slice(b" 32 18\nreqbufs a out mmap 1\nreqbufs a cap mmap 1\n")?;
    script.extend_from_slice(b"mmap a s out 0\nmmap a d cap 0\nfill a s 93\n")?;
    script.extend_from_slice(b"qbuf a out 0\nqbuf a cap 0\nstreamon a out\nstreamon a cap\n")?;
    script.extend_from_slice(b"dqbuf a cap\nhash a d\n")?;
    Ok(script)
}

// The line that tells the digest of the picture.
fn hash_line(alloc: Global, digest: &[u8]) -> Result<Vec<u8>, AllocError> {
    let mut line = Vec::new(alloc);
    line.extend_from_slice(b"15 hash a d = ok ")?;
    line.extend_from_slice(digest)?;
    Ok(line)
}

#[test]
fn converts_each_format_to_each(rt: HostRuntime) -> Result<(), Fail> {
    // Two formats and the digest of the second one's picture, each worked out pixel by pixel from
    // the formulas, apart from this program.
    let rows: [(&[u8], &[u8], &[u8]); 36] = [
        (
            b"GREY",
            b"GREY",
            b"070c1ddb3b4c261accbc628fa34e362c63ad26cfd17d74959f76cd9a56625900",
        ),
        (
            b"GREY",
            b"YUYV",
            b"d6c19c87bbc07024fbf1db46e3dd91ca45411fad5f50450e8007b408969ae161",
        ),
        (
            b"GREY",
            b"UYVY",
            b"0677706a28561366ac13eb0a6dd09dfced1f71d56a04c5a6b0534de02f0e8f8d",
        ),
        (
            b"GREY",
            b"NV12",
            b"223578e2cdafe4497245c61e493e5b6c23f530c488bfbbeecf070763be6f0004",
        ),
        (
            b"GREY",
            b"YU12",
            b"223578e2cdafe4497245c61e493e5b6c23f530c488bfbbeecf070763be6f0004",
        ),
        (
            b"GREY",
            b"RGB3",
            b"3a0e8a225043345d2c28e83089dc3e139143ea9677762dd56ad5f0deee7e9345",
        ),
        (
            b"YUYV",
            b"GREY",
            b"55f8b212e8a5afd0d208e03b6d57b7649576e1327fa14ebab0abe4d938cc72d2",
        ),
        (
            b"YUYV",
            b"YUYV",
            b"99db516adfa0bd98c12b5a6521807c598913e3031a1da86c4854d3d242750e11",
        ),
        (
            b"YUYV",
            b"UYVY",
            b"78b615c36a03466c304dc8170684676fe64a2027ac089e0bd19d18bdd21690f4",
        ),
        (
            b"YUYV",
            b"NV12",
            b"043fdaf397bb254faf626f81eaa69a422678b29262f4541974feab8420e96b5a",
        ),
        (
            b"YUYV",
            b"YU12",
            b"02a5f9405e44a717abc8209d5092d21c40cc3633658d9079c5eb2932ac31dc4b",
        ),
        (
            b"YUYV",
            b"RGB3",
            b"b5709c7dde1c16a7b1b30fd47b47120bf3f98b21fa096a286c794a1455e3bbfb",
        ),
        (
            b"UYVY",
            b"GREY",
            b"45ecb54a1c7ac57bae91de043634a04228472efee11daa7cd039917cf94fe331",
        ),
        (
            b"UYVY",
            b"YUYV",
            b"78b615c36a03466c304dc8170684676fe64a2027ac089e0bd19d18bdd21690f4",
        ),
        (
            b"UYVY",
            b"UYVY",
            b"99db516adfa0bd98c12b5a6521807c598913e3031a1da86c4854d3d242750e11",
        ),
        (
            b"UYVY",
            b"NV12",
            b"6a9127516788a364549c7068026df75e5597330fecd1487d7fb77d37c7eb6f21",
        ),
        (
            b"UYVY",
            b"YU12",
            b"3410c060e486d881b6717a83c8e1c7dd5be05ab963322c5c9ba1400f8ac7d1a9",
        ),
        (
            b"UYVY",
            b"RGB3",
            b"6a2987f9974fa95714ec277f00e8b5d816c9447295fbacbf884d410d727e7b35",
        ),
        (
            b"NV12",
            b"GREY",
            b"070c1ddb3b4c261accbc628fa34e362c63ad26cfd17d74959f76cd9a56625900",
        ),
        (
            b"NV12",
            b"YUYV",
            b"2bd339851ac208f6c14da7252d35bb6fca03a0b7b6ccae2f36751a7131b2ca35",
        ),
        (
            b"NV12",
            b"UYVY",
            b"7d58015162a70ac59115ea28f8429471fa699697e2e53cafc545415bac88ec24",
        ),
        (
            b"NV12",
            b"NV12",
            b"92e35aca49e74586df897ee3b4c962cbe78f558922e731729c2ad9e29867d88b",
        ),
        (
            b"NV12",
            b"YU12",
            b"a7e34d7f9e0c6db5f3000914c368f71ab77db5d71d3dd34dd4f86d80131e6e3d",
        ),
        (
            b"NV12",
            b"RGB3",
            b"7c4d0424dda05fa5d9dd6365cc72f1a6763070e2b377a054b24a4ecf36c73aab",
        ),
        (
            b"YU12",
            b"GREY",
            b"070c1ddb3b4c261accbc628fa34e362c63ad26cfd17d74959f76cd9a56625900",
        ),
        (
            b"YU12",
            b"YUYV",
            b"ed2a9ac5de4e14f204842fe4774cf4a3fa1153d01dd3dfa45adb84a6269c8c86",
        ),
        (
            b"YU12",
            b"UYVY",
            b"b64acbf79cbe3473b5c070cb26086e284a9db2c31a6208e82997139256b9f41e",
        ),
        (
            b"YU12",
            b"NV12",
            b"b8509ea1933eb1badb8a4842c6781461356ca416c4a06c9c0144d8cd25f81294",
        ),
        (
            b"YU12",
            b"YU12",
            b"92e35aca49e74586df897ee3b4c962cbe78f558922e731729c2ad9e29867d88b",
        ),
        (
            b"YU12",
            b"RGB3",
            b"86979b1a784a90b64732bb02b0336f8748b43fff31a9ba9a09a5da084ff10336",
        ),
        (
            b"RGB3",
            b"GREY",
            b"50e72f93321c38dc913eff97a854e5b760d276ed099eedd487b70e7403f9269e",
        ),
        (
            b"RGB3",
            b"YUYV",
            b"3f8c45cba7471c8e76661b58917be7a6d0354c2799866361d9d636f466b59a7b",
        ),
        (
            b"RGB3",
            b"UYVY",
            b"c91097e5252d046ac3e1268872444c65255a561dc91e84838b46f623896b8ac5",
        ),
        (
            b"RGB3",
            b"NV12",
            b"252e1fe1eb96ad7390170cf5a1a69112b57bc880ed5feabe553f172c06b148ed",
        ),
        (
            b"RGB3",
            b"YU12",
            b"3825ce323d542d366902b953322c14420f3bf255740af8e9a528fea46f0e245b",
        ),
        (
            b"RGB3",
            b"RGB3",
            b"bc34f3c54a3c9a78364aede0b1315d34cc6d9810f4790ceefcdd88f3278bc5f7",
        ),
    ];
    for (from, to, digest) in rows {
        let script = script_of(rt.alloc(), from, to)?;
        let told = answer_of(rt.alloc(), &["step", "0"], &script, &SURE)?;
        assert_eq!(rt; told.status, 0);
        let line = hash_line(rt.alloc(), digest)?;
        assert!(rt; has_line(told.sink.held(), &line));
    }
    Ok(())
}

// A converter whose queues have two buffers each, the first ones of which are filled.
const TWO_FRAMES: &[u8] = b"\
device convert\n\
open a\n\
sfmt a out GREY 16 16\n\
sfmt a cap YUYV 16 16\n\
reqbufs a out mmap 2\n\
reqbufs a cap mmap 2\n\
mmap a s out 0\n\
mmap a d cap 0\n\
mmap a e cap 1\n\
fill a s 0\n\
fill a d 9\n\
qbuf a out 0 ts 5\n\
qbuf a cap 0\n\
qbuf a out 1 ts 6\n\
qbuf a cap 1\n\
streamon a out\n\
streamon a cap\n\
dqbuf a cap\n\
dqbuf a out\n\
querybuf a out 0\n\
read a d 0 4\n\
dqbuf a cap\n\
dqbuf a out\n\
read a e 0 4\n\
qbuf a out 0 ts 7\n\
querybuf a out 0\n\
";

#[test]
fn tells_both_buffers_of_a_frame_that_fails(rt: HostRuntime) -> Result<(), Fail> {
    // The calls at which the engine fails, and what the lines behind the first of a frame's two
    // buffers tell. A bad frame leaves the bytes as they were.
    let rows: [(&[u64], [&[u8]; 8]); 2] = [
        (
            &[1],
            [
                b"18 dqbuf a cap = ok 0 0 0 5 00004041",
                b"19 dqbuf a out = ok 0 256 0 5 00004041",
                b"20 querybuf a out 0 = ok 256 00004041",
                b"21 read a d 0 4 = ok 0910171e",
                b"22 dqbuf a cap = ok 1 512 1 6 00004001",
                b"23 dqbuf a out = ok 1 256 1 6 00004000",
                b"24 read a e 0 4 = ok 00800080",
                b"26 querybuf a out 0 = ok 256 00004003",
            ],
        ),
        (
            &[2],
            [
                b"18 dqbuf a cap = ok 0 512 0 5 00004001",
                b"19 dqbuf a out = ok 0 256 0 5 00004001",
                b"20 querybuf a out 0 = ok 256 00004001",
                b"21 read a d 0 4 = ok 00800780",
                b"22 dqbuf a cap = ok 1 0 1 6 00004041",
                b"23 dqbuf a out = ok 1 256 1 6 00004040",
                b"24 read a e 0 4 = ok 00000000",
                b"26 querybuf a out 0 = ok 256 00004003",
            ],
        ),
    ];
    for (fails, lines) in rows {
        let mut engine = ScriptedEngine::new(Vec::from_slice(rt.alloc(), fails)?);
        let told = answer_by(rt.alloc(), &["step", "7"], TWO_FRAMES, &SURE, &mut engine)?;
        assert_eq!(rt; told.status, 0);
        for line in lines {
            assert!(rt; has_line(told.sink.held(), line));
        }
    }
    Ok(())
}
