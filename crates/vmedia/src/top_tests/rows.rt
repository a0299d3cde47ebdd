// Scripts with the texts of their runs under a seed, each worked out apart from this program.

use super::{SURE, answer_of};
use std::test::Fail;

// A camera that takes four pictures into mappings.
pub(crate) const CAPTURE: &[u8] = b"\
open a\n\
sfmt a cap GREY 16 16\n\
sinput a 1\n\
reqbufs a cap mmap 4\n\
mmap a m0 cap 0\n\
mmap a m1 cap 1\n\
mmap a m2 cap 2\n\
mmap a m3 cap 3\n\
qbuf a cap 0\n\
qbuf a cap 1\n\
qbuf a cap 2\n\
qbuf a cap 3\n\
streamon a cap\n\
dqbuf a cap\n\
read a m0 0 8\n\
qbuf a cap 0\n\
dqbuf a cap\n\
read a m1 0 8\n\
qbuf a cap 1\n\
dqbuf a cap\n\
read a m2 0 8\n\
qbuf a cap 2\n\
dqbuf a cap\n\
read a m3 0 8\n\
qbuf a cap 3\n\
streamoff a cap\n\
munmap a m0\n\
munmap a m1\n\
munmap a m2\n\
munmap a m3\n\
close a\n\
";

const CAPTURE_TEXT: &[u8] = b"\
handle 0 a 0\n\
1 open a = ok\n\
2 sfmt a cap GREY 16 16 = ok GREY 16 16 16 256\n\
3 sinput a 1 = ok 1\n\
4 reqbufs a cap mmap 4 = ok 4\n\
5 mmap a m0 cap 0 = ok 0000000000000000 256\n\
6 mmap a m1 cap 1 = ok 0000000000001000 256\n\
7 mmap a m2 cap 2 = ok 0000000000002000 256\n\
8 mmap a m3 cap 3 = ok 0000000000003000 256\n\
9 qbuf a cap 0 = ok\n\
10 qbuf a cap 1 = ok\n\
11 qbuf a cap 2 = ok\n\
12 qbuf a cap 3 = ok\n\
13 streamon a cap = ok\n\
+ finish\n\
+ give\n\
+ give\n\
14 dqbuf a cap = ok 0 256 0 0 00002001\n\
15 read a m0 0 8 = ok 0001020304050607\n\
+ finish\n\
+ give\n\
16 qbuf a cap 0 = ok\n\
+ give\n\
+ finish\n\
+ give\n\
+ give\n\
+ finish\n\
+ give\n\
+ give\n\
17 dqbuf a cap = ok 1 256 1 40000 00002001\n\
18 read a m1 0 8 = ok 0102030405060708\n\
19 qbuf a cap 1 = ok\n\
+ finish\n\
+ give\n\
+ give\n\
20 dqbuf a cap = ok 2 256 2 80000 00002001\n\
21 read a m2 0 8 = ok 0203040506070809\n\
22 qbuf a cap 2 = ok\n\
+ finish\n\
+ give\n\
23 dqbuf a cap = ok 3 256 3 120000 00002001\n\
24 read a m3 0 8 = ok 030405060708090a\n\
+ give\n\
25 qbuf a cap 3 = ok\n\
+ finish\n\
+ give\n\
+ give\n\
26 streamoff a cap = ok\n\
27 munmap a m0 = ok\n\
28 munmap a m1 = ok\n\
29 munmap a m2 = ok\n\
30 munmap a m3 = ok\n\
31 close a = ok\n\
region\n\
map 0000000000000000 1 1\n\
map 0000000000001000 1 1\n\
map 0000000000002000 1 1\n\
map 0000000000003000 1 1\n\
drop 0000000000000000 0\n\
drop 0000000000001000 0\n\
drop 0000000000002000 0\n\
drop 0000000000003000 0\n\
wire 5eac197205b0bacac5bcee83975f4793c34f34ceffcc03b4c47745d7068a7df1\n\
";

const CAPTURE_TEXT_LAST: &[u8] = b"\
handle 0 a 0\n\
1 open a = ok\n\
2 sfmt a cap GREY 16 16 = ok GREY 16 16 16 256\n\
3 sinput a 1 = ok 1\n\
4 reqbufs a cap mmap 4 = ok 4\n\
5 mmap a m0 cap 0 = ok 0000000000000000 256\n\
6 mmap a m1 cap 1 = ok 0000000000001000 256\n\
7 mmap a m2 cap 2 = ok 0000000000002000 256\n\
8 mmap a m3 cap 3 = ok 0000000000003000 256\n\
9 qbuf a cap 0 = ok\n\
10 qbuf a cap 1 = ok\n\
11 qbuf a cap 2 = ok\n\
12 qbuf a cap 3 = ok\n\
13 streamon a cap = ok\n\
+ finish\n\
+ give\n\
+ give\n\
14 dqbuf a cap = ok 0 256 0 0 00002001\n\
15 read a m0 0 8 = ok 0001020304050607\n\
16 qbuf a cap 0 = ok\n\
+ finish\n\
+ give\n\
+ give\n\
+ finish\n\
+ give\n\
+ give\n\
17 dqbuf a cap = ok 1 256 1 40000 00002001\n\
+ finish\n\
+ give\n\
18 read a m1 0 8 = ok 0102030405060708\n\
19 qbuf a cap 1 = ok\n\
+ give\n\
+ finish\n\
+ give\n\
+ give\n\
20 dqbuf a cap = ok 2 256 2 80000 00002001\n\
21 read a m2 0 8 = ok 0203040506070809\n\
+ finish\n\
+ give\n\
+ give\n\
22 qbuf a cap 2 = ok\n\
23 dqbuf a cap = ok 3 256 3 120000 00002001\n\
24 read a m3 0 8 = ok 030405060708090a\n\
25 qbuf a cap 3 = ok\n\
+ finish\n\
+ give\n\
+ give\n\
+ finish\n\
+ give\n\
+ give\n\
26 streamoff a cap = ok\n\
27 munmap a m0 = ok\n\
28 munmap a m1 = ok\n\
29 munmap a m2 = ok\n\
30 munmap a m3 = ok\n\
31 close a = ok\n\
region\n\
map 0000000000000000 1 1\n\
map 0000000000001000 1 1\n\
map 0000000000002000 1 1\n\
map 0000000000003000 1 1\n\
drop 0000000000000000 0\n\
drop 0000000000001000 0\n\
drop 0000000000002000 0\n\
drop 0000000000003000 0\n\
wire 5eac197205b0bacac5bcee83975f4793c34f34ceffcc03b4c47745d7068a7df1\n\
";

// Requests for buffers that are refused, and made again.
pub(crate) const REQBUFS: &[u8] = b"\
open a\n\
reqbufs a cap mmap 40\n\
qbuf a cap 0\n\
streamon a cap\n\
reqbufs a cap mmap 1\n\
reqbufs a cap mmap 0\n\
dqbuf a cap\n\
";

const REQBUFS_TEXT: &[u8] = b"\
handle 0 a 0\n\
1 open a = ok\n\
2 reqbufs a cap mmap 40 = ok 32\n\
3 qbuf a cap 0 = ok\n\
4 streamon a cap = ok\n\
5 reqbufs a cap mmap 1 = err 16 EBUSY\n\
+ finish\n\
+ give\n\
+ give\n\
6 reqbufs a cap mmap 0 = ok 0\n\
7 dqbuf a cap = err 22 EINVAL\n\
region\n\
wire 917ebf64b407678013f229cca7eeb9645e25789897b66bcd79f18e8f8223e726\n\
";

// Calls that are out of turn for a buffer.
pub(crate) const STATES: &[u8] = b"\
open a\n\
reqbufs a cap mmap 2\n\
qbuf a cap 0\n\
querybuf a cap 0\n\
qbuf a cap 0\n\
qbuf a cap 1\n\
streamon a cap\n\
dqbuf a cap\n\
qbuf a cap 1\n\
";

const STATES_TEXT: &[u8] = b"\
handle 0 a 0\n\
1 open a = ok\n\
2 reqbufs a cap mmap 2 = ok 2\n\
3 qbuf a cap 0 = ok\n\
4 querybuf a cap 0 = ok 3072 00002002\n\
5 qbuf a cap 0 = err 22 EINVAL\n\
6 qbuf a cap 1 = ok\n\
7 streamon a cap = ok\n\
+ finish\n\
+ give\n\
+ give\n\
8 dqbuf a cap = ok 0 3072 0 0 00002000\n\
9 qbuf a cap 1 = err 22 EINVAL\n\
region\n\
wire 19e1ea3fa4040ff40974bfe5477bbb975010241bbe4d18b2d31eee6ef17b2fb3\n\
";

// Calls that would wait for ever, and ones that do not block.
pub(crate) const DEADLOCK: &[u8] = b"\
open a\n\
reqbufs a cap mmap 1\n\
streamon a cap\n\
dqbuf a cap\n\
streamoff a cap\n\
dqbuf a cap\n\
open b nonblock\n\
reqbufs b cap mmap 1\n\
streamon b cap\n\
dqbuf b cap\n\
";

const DEADLOCK_TEXT: &[u8] = b"\
handle 0 a 0\n\
1 open a = ok\n\
2 reqbufs a cap mmap 1 = ok 1\n\
3 streamon a cap = ok\n\
4 dqbuf a cap = err 35 EDEADLK\n\
5 streamoff a cap = ok\n\
6 dqbuf a cap = err 22 EINVAL\n\
handle 0 b 1\n\
7 open b nonblock = ok\n\
8 reqbufs b cap mmap 1 = ok 1\n\
9 streamon b cap = ok\n\
10 dqbuf b cap = err 11 EAGAIN\n\
region\n\
wire 61ab4c69850d5a88e6431682d66619d74824003cfa4a8fd27e54da4ea132e556\n\
";

// Calls on a handle that was closed and opened no more.
pub(crate) const AFTER_CLOSE: &[u8] = b"\
open a\n\
sfmt a cap GREY 16 16\n\
sinput a 1\n\
reqbufs a cap mmap 1\n\
mmap a m cap 0\n\
qbuf a cap 0\n\
streamon a cap\n\
dqbuf a cap\n\
close a\n\
read a m 0 4\n\
hash a m\n\
gfmt a cap\n\
munmap a m\n\
hash a m\n\
munmap a m\n\
";

const AFTER_CLOSE_TEXT: &[u8] = b"\
handle 0 a 0\n\
1 open a = ok\n\
2 sfmt a cap GREY 16 16 = ok GREY 16 16 16 256\n\
3 sinput a 1 = ok 1\n\
4 reqbufs a cap mmap 1 = ok 1\n\
5 mmap a m cap 0 = ok 0000000000000000 256\n\
6 qbuf a cap 0 = ok\n\
7 streamon a cap = ok\n\
+ finish\n\
+ give\n\
+ give\n\
8 dqbuf a cap = ok 0 256 0 0 00002001\n\
9 close a = ok\n\
10 read a m 0 4 = ok 00010203\n\
11 hash a m = ok c89eae33baf69a060168aa35db7d6c02f96d36c661626bd6764a56280d9efae4\n\
12 gfmt a cap = err 9 EBADF\n\
13 munmap a m = ok\n\
14 hash a m = err 14 EFAULT\n\
15 munmap a m = err 22 EINVAL\n\
region\n\
map 0000000000000000 1 1\n\
drop 0000000000000000 0\n\
wire 2631c1cfd8f3de95139accd9f598fc6184556f98960bd07aa52932feb22064bf\n\
";

// Two processes, whose mappings lie apart.
pub(crate) const TWO_PROCESSES: &[u8] = b"\
open a\n\
reqbufs a cap mmap 1\n\
mmap a m cap 0\n\
mmap a n cap 0\n\
munmap a m\n\
proc\n\
open b\n\
reqbufs b cap mmap 1\n\
mmap b k cap 0\n\
";

const TWO_PROCESSES_TEXT: &[u8] = b"\
handle 0 a 1\n\
1 open a = ok\n\
2 reqbufs a cap mmap 1 = ok 1\n\
3 mmap a m cap 0 = ok 0000000000000000 3072\n\
4 mmap a n cap 0 = ok 0000000000000000 3072\n\
5 munmap a m = ok\n\
handle 1 b 0\n\
7 open b = ok\n\
8 reqbufs b cap mmap 1 = ok 1\n\
9 mmap b k cap 0 = ok 0000000000001000 3072\n\
region\n\
map 0000000000000000 1 1\n\
map 0000000000001000 1 1\n\
map 0000000000000000 1 2\n\
drop 0000000000000000 1\n\
wire 155a8b158fec3c82113009c3d44a9d3ae10f1135e03d2db11bdd5d0cac41f54a\n\
";

const TWO_PROCESSES_TEXT_7: &[u8] = b"\
handle 0 a 0\n\
1 open a = ok\n\
2 reqbufs a cap mmap 1 = ok 1\n\
3 mmap a m cap 0 = ok 0000000000000000 3072\n\
4 mmap a n cap 0 = ok 0000000000000000 3072\n\
5 munmap a m = ok\n\
handle 1 b 1\n\
7 open b = ok\n\
8 reqbufs b cap mmap 1 = ok 1\n\
9 mmap b k cap 0 = ok 0000000000001000 3072\n\
region\n\
map 0000000000000000 1 1\n\
map 0000000000001000 1 1\n\
map 0000000000000000 1 2\n\
drop 0000000000000000 1\n\
wire 4fc13a8f6caedb9a8c718b0d888ce91482d2e903431b3c52b530d3ee00f61c63\n\
";

// A mapping that outlives its buffer.
pub(crate) const ORPHAN: &[u8] = b"\
open a\n\
reqbufs a cap mmap 1\n\
mmap a m cap 0\n\
write a m 0 aa55\n\
reqbufs a cap mmap 1\n\
mmap a n cap 0\n\
read a m 0 2\n\
read a n 0 2\n\
munmap a m\n\
";

const ORPHAN_TEXT: &[u8] = b"\
handle 0 a 0\n\
1 open a = ok\n\
2 reqbufs a cap mmap 1 = ok 1\n\
3 mmap a m cap 0 = ok 0000000000000000 3072\n\
4 write a m 0 aa55 = ok\n\
5 reqbufs a cap mmap 1 = ok 1\n\
6 mmap a n cap 0 = ok 0000000000001000 3072\n\
7 read a m 0 2 = ok aa55\n\
8 read a n 0 2 = ok 0000\n\
9 munmap a m = ok\n\
region\n\
map 0000000000000000 1 1\n\
map 0000000000001000 1 1\n\
drop 0000000000000000 0\n\
wire baf35db4ad02dd75e1ab92a3f0eea83230497bc4721e38fcd6f93c5255aad25c\n\
";

// A converter that makes one picture.
pub(crate) const CONVERT: &[u8] = b"\
device convert\n\
open a\n\
sfmt a out GREY 16 16\n\
sfmt a cap YUYV 99 99\n\
reqbufs a out mmap 1\n\
reqbufs a cap mmap 1\n\
mmap a s out 0\n\
mmap a d cap 0\n\
fill a s 0\n\
qbuf a out 0 ts 5\n\
qbuf a cap 0\n\
streamon a out\n\
streamon a cap\n\
dqbuf a cap\n\
read a d 0 8\n\
dqbuf a out\n\
";

const CONVERT_TEXT: &[u8] = b"\
handle 0 a 0\n\
2 open a = ok\n\
3 sfmt a out GREY 16 16 = ok GREY 16 16 16 256\n\
4 sfmt a cap YUYV 99 99 = ok YUYV 16 16 32 512\n\
5 reqbufs a out mmap 1 = ok 1\n\
6 reqbufs a cap mmap 1 = ok 1\n\
7 mmap a s out 0 = ok 0000000000000000 256\n\
8 mmap a d cap 0 = ok 0000000000001000 512\n\
9 fill a s 0 = ok\n\
10 qbuf a out 0 ts 5 = ok\n\
11 qbuf a cap 0 = ok\n\
12 streamon a out = ok\n\
13 streamon a cap = ok\n\
+ finish\n\
+ give\n\
+ give\n\
14 dqbuf a cap = ok 0 512 0 5 00004001\n\
15 read a d 0 8 = ok 008007800e801580\n\
16 dqbuf a out = ok 0 256 0 5 00004001\n\
region\n\
map 0000000000000000 1 1\n\
map 0000000000001000 1 1\n\
wire 0f17fa3e1b83883df49bbcd5a83fd571ea34974533d60185a1937259b1b295ed\n\
";

// Buffers of a user's memory.
pub(crate) const USER: &[u8] = b"\
open a\n\
sfmt a cap GREY 16 16\n\
sinput a 1\n\
reqbufs a cap userptr 1\n\
ualloc a u 256 4095\n\
qbuf a cap 0 user u\n\
streamon a cap\n\
dqbuf a cap\n\
read a u 0 8\n\
ualloc a v 255 0\n\
qbuf a cap 0 user v\n\
";

const USER_TEXT: &[u8] = b"\
handle 0 a 0\n\
1 open a = ok\n\
2 sfmt a cap GREY 16 16 = ok GREY 16 16 16 256\n\
3 sinput a 1 = ok 1\n\
4 reqbufs a cap userptr 1 = ok 1\n\
5 ualloc a u 256 4095 = ok 2\n\
6 qbuf a cap 0 user u = ok\n\
7 streamon a cap = ok\n\
+ finish\n\
+ give\n\
+ give\n\
8 dqbuf a cap = ok 0 256 0 0 00002000\n\
9 read a u 0 8 = ok 0001020304050607\n\
10 ualloc a v 255 0 = ok 1\n\
11 qbuf a cap 0 user v = err 22 EINVAL\n\
region\n\
wire 4ff71339397568e865c1199dc6e2b27a309c014f19c6a45184ed2ee61842c6b9\n\
";

// Events of a frame.
pub(crate) const EVENTS: &[u8] = b"\
open a\n\
subscribe a 3\n\
subscribe a 4\n\
reqbufs a cap mmap 1\n\
qbuf a cap 0\n\
streamon a cap\n\
dqbuf a cap\n\
dqevent a\n\
dqevent a\n\
subscribe a 0\n\
unsubscribe a 3\n\
unsubscribe a 0\n\
";

const EVENTS_TEXT: &[u8] = b"\
handle 0 a 0\n\
1 open a = ok\n\
2 subscribe a 3 = err 22 EINVAL\n\
3 subscribe a 4 = ok\n\
4 reqbufs a cap mmap 1 = ok 1\n\
5 qbuf a cap 0 = ok\n\
6 streamon a cap = ok\n\
+ finish\n\
+ give\n\
+ give\n\
7 dqbuf a cap = ok 0 3072 0 0 00002000\n\
8 dqevent a = ok 4 0 0 0\n\
9 dqevent a = err 2 ENOENT\n\
10 subscribe a 0 = err 22 EINVAL\n\
11 unsubscribe a 3 = err 22 EINVAL\n\
12 unsubscribe a 0 = ok\n\
region\n\
wire dd29f8e13b0425fe1ea7eabab83b8849accb7e8d31411703200dee693f3edd8e\n\
";

// What the camera is, offers and shows.
pub(crate) const BUILT: &[u8] = b"\
open a\n\
querycap a\n\
enumfmt a cap 5\n\
enumfmt a cap 6\n\
enuminput a 3\n\
enuminput a 4\n\
gfmt a cap\n\
gfmt a out\n\
ginput a\n\
sinput a 3\n\
ginput a\n\
close a\n\
ginput a\n\
";

const BUILT_TEXT: &[u8] = b"\
handle 0 a 0\n\
1 open a = ok\n\
2 querycap a = ok 84000001 04000001\n\
3 enumfmt a cap 5 = ok RGB3\n\
4 enumfmt a cap 6 = err 22 EINVAL\n\
5 enuminput a 3 = ok count\n\
6 enuminput a 4 = err 22 EINVAL\n\
7 gfmt a cap = ok GREY 64 48 64 3072\n\
8 gfmt a out = err 22 EINVAL\n\
9 ginput a = ok 0\n\
10 sinput a 3 = ok 3\n\
11 ginput a = ok 3\n\
12 close a = ok\n\
13 ginput a = err 9 EBADF\n\
region\n\
wire 2dfa5a41c51afe9aed2f7c84e01e33abb3da86033a1b017eed456fdb37788b70\n\
";

// A converter has no inputs.
pub(crate) const CONVERTER_INPUTS: &[u8] = b"\
device convert\n\
open a\n\
ginput a\n\
sinput a 0\n\
enuminput a 0\n\
subscribe a 4\n\
querycap a\n\
";

const CONVERTER_INPUTS_TEXT: &[u8] = b"\
handle 0 a 0\n\
2 open a = ok\n\
3 ginput a = err 25 ENOTTY\n\
4 sinput a 0 = err 25 ENOTTY\n\
5 enuminput a 0 = err 25 ENOTTY\n\
6 subscribe a 4 = err 22 EINVAL\n\
7 querycap a = ok 84008000 04008000\n\
region\n\
wire d8187a14f2dd59494d275147ce9a4508b9886789c4abd3425306a1bdeb47c1ec\n\
";

// Calls that are refused.
pub(crate) const REFUSALS: &[u8] = b"\
open a\n\
reqbufs a cap mmap 1\n\
mmap a r cap 0 ro\n\
write a r 0 00\n\
read a r 3071 2\n\
qbuf a cap 0\n\
hash a r\n\
sfmt a cap GREY 16 16\n\
querycap a\n\
enumfmt a cap 5\n\
enumfmt a cap 6\n\
enuminput a 3\n\
";

const REFUSALS_TEXT: &[u8] = b"\
handle 0 a 0\n\
1 open a = ok\n\
2 reqbufs a cap mmap 1 = ok 1\n\
3 mmap a r cap 0 ro = ok 0000000000000000 3072\n\
4 write a r 0 00 = err 13 EACCES\n\
5 read a r 3071 2 = err 14 EFAULT\n\
6 qbuf a cap 0 = ok\n\
7 hash a r = err 16 EBUSY\n\
8 sfmt a cap GREY 16 16 = err 16 EBUSY\n\
9 querycap a = ok 84000001 04000001\n\
10 enumfmt a cap 5 = ok RGB3\n\
11 enumfmt a cap 6 = err 22 EINVAL\n\
12 enuminput a 3 = ok count\n\
region\n\
map 0000000000000000 1 1\n\
wire bfc75647cd5759f99502b8c0cc08d25321f79ecb2ad9477e61b714944a202283\n\
";

#[test]
fn tells_the_texts_that_were_worked_out(rt: HostRuntime) -> Result<(), Fail> {
    let rows: [(&str, &[u8], &[u8]); 17] = [
        ("0", CAPTURE, CAPTURE_TEXT),
        ("18446744073709551615", CAPTURE, CAPTURE_TEXT_LAST),
        ("0", REQBUFS, REQBUFS_TEXT),
        ("0", STATES, STATES_TEXT),
        ("0", DEADLOCK, DEADLOCK_TEXT),
        ("0", AFTER_CLOSE, AFTER_CLOSE_TEXT),
        ("0", TWO_PROCESSES, TWO_PROCESSES_TEXT),
        ("7", TWO_PROCESSES, TWO_PROCESSES_TEXT_7),
        ("0", ORPHAN, ORPHAN_TEXT),
        ("0", CONVERT, CONVERT_TEXT),
        ("7", CONVERT, CONVERT_TEXT),
        ("0", USER, USER_TEXT),
        ("0", EVENTS, EVENTS_TEXT),
        ("0", BUILT, BUILT_TEXT),
        ("63", BUILT, BUILT_TEXT),
        ("0", CONVERTER_INPUTS, CONVERTER_INPUTS_TEXT),
        ("0", REFUSALS, REFUSALS_TEXT),
    ];
    for (seed, script, text) in rows {
        let told = answer_of(rt.alloc(), &["step", seed], script, &SURE)?;
        assert_eq!(rt; told.sink.held(), text);
        assert_eq!(rt; told.status, 0);
    }
    Ok(())
}
