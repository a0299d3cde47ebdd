//! Texts of runs that were worked outside.

/// Of a camera that takes four pictures into mappings.
pub const CAPTURE: &[u8] = b"\
handle 0 a 0\n\
1 open a = ok\n\
2 sfmt a cap GREY 16 16 = ok GREY 16 16 16 256\n\
3 sinput a 1 = ok 1\n\
4 reqbufs a cap mmap 4 = ok 4\n\
5 mmap a m0 cap 0 = ok 0000000000000000 256\n\
6 mmap a m1 cap 1 = ok 0000000000001000 256\n\
7 mmap a m2 cap 2 = ok 0000000000002000 256\n\
8 mmap a m3 cap 3 = ok 0000000000003000 256\n\
9 qbuf a cap 0 = ok\n\
10 qbuf a cap 1 = ok\n\
11 qbuf a cap 2 = ok\n\
12 qbuf a cap 3 = ok\n\
13 streamon a cap = ok\n\
+ finish\n\
+ give\n\
+ give\n\
14 dqbuf a cap = ok 0 256 0 0 00002001\n\
15 read a m0 0 8 = ok 0001020304050607\n\
+ finish\n\
+ give\n\
16 qbuf a cap 0 = ok\n\
+ give\n\
+ finish\n\
+ give\n\
+ give\n\
+ finish\n\
+ give\n\
+ give\n\
17 dqbuf a cap = ok 1 256 1 40000 00002001\n\
18 read a m1 0 8 = ok 0102030405060708\n\
19 qbuf a cap 1 = ok\n\
+ finish\n\
+ give\n\
+ give\n\
20 dqbuf a cap = ok 2 256 2 80000 00002001\n\
21 read a m2 0 8 = ok 0203040506070809\n\
22 qbuf a cap 2 = ok\n\
+ finish\n\
+ give\n\
23 dqbuf a cap = ok 3 256 3 120000 00002001\n\
24 read a m3 0 8 = ok 030405060708090a\n\
+ give\n\
25 qbuf a cap 3 = ok\n\
+ finish\n\
+ give\n\
+ give\n\
26 streamoff a cap = ok\n\
27 munmap a m0 = ok\n\
28 munmap a m1 = ok\n\
29 munmap a m2 = ok\n\
30 munmap a m3 = ok\n\
31 close a = ok\n\
region\n\
map 0000000000000000 1 1\n\
map 0000000000001000 1 1\n\
map 0000000000002000 1 1\n\
map 0000000000003000 1 1\n\
drop 0000000000000000 0\n\
drop 0000000000001000 0\n\
drop 0000000000002000 0\n\
drop 0000000000003000 0\n\
wire 5eac197205b0bacac5bcee83975f4793c34f34ceffcc03b4c47745d7068a7df1\n\
";

/// Of two handles that dequeue where nothing is queued, one of them without waiting.
pub const DEADLOCK: &[u8] = b"\
handle 0 a 0\n\
1 open a = ok\n\
2 reqbufs a cap mmap 1 = ok 1\n\
3 streamon a cap = ok\n\
4 dqbuf a cap = err 35 EDEADLK\n\
5 streamoff a cap = ok\n\
6 dqbuf a cap = err 22 EINVAL\n\
handle 0 b 1\n\
7 open b nonblock = ok\n\
8 reqbufs b cap mmap 1 = ok 1\n\
9 streamon b cap = ok\n\
10 dqbuf b cap = err 11 EAGAIN\n\
region\n\
wire 61ab4c69850d5a88e6431682d66619d74824003cfa4a8fd27e54da4ea132e556\n\
";

/// Of two processes, and of a range that is mapped twice.
pub const TWO_PROCESSES: &[u8] = b"\
handle 0 a 1\n\
1 open a = ok\n\
2 reqbufs a cap mmap 1 = ok 1\n\
3 mmap a m cap 0 = ok 0000000000000000 3072\n\
4 mmap a n cap 0 = ok 0000000000000000 3072\n\
5 munmap a m = ok\n\
handle 1 b 0\n\
7 open b = ok\n\
8 reqbufs b cap mmap 1 = ok 1\n\
9 mmap b k cap 0 = ok 0000000000001000 3072\n\
region\n\
map 0000000000000000 1 1\n\
map 0000000000001000 1 1\n\
map 0000000000000000 1 2\n\
drop 0000000000000000 1\n\
wire 155a8b158fec3c82113009c3d44a9d3ae10f1135e03d2db11bdd5d0cac41f54a\n\
";

/// Of a mapping that is older than the buffers.
pub const ORPHAN: &[u8] = b"\
handle 0 a 0\n\
1 open a = ok\n\
2 reqbufs a cap mmap 1 = ok 1\n\
3 mmap a m cap 0 = ok 0000000000000000 3072\n\
4 write a m 0 aa55 = ok\n\
5 reqbufs a cap mmap 1 = ok 1\n\
6 mmap a n cap 0 = ok 0000000000001000 3072\n\
7 read a m 0 2 = ok aa55\n\
8 read a n 0 2 = ok 0000\n\
9 munmap a m = ok\n\
region\n\
map 0000000000000000 1 1\n\
map 0000000000001000 1 1\n\
drop 0000000000000000 0\n\
wire baf35db4ad02dd75e1ab92a3f0eea83230497bc4721e38fcd6f93c5255aad25c\n\
";

/// Of a converter.
pub const CONVERT: &[u8] = b"\
handle 0 a 0\n\
2 open a = ok\n\
3 sfmt a out GREY 16 16 = ok GREY 16 16 16 256\n\
4 sfmt a cap YUYV 99 99 = ok YUYV 16 16 32 512\n\
5 reqbufs a out mmap 1 = ok 1\n\
6 reqbufs a cap mmap 1 = ok 1\n\
7 mmap a s out 0 = ok 0000000000000000 256\n\
8 mmap a d cap 0 = ok 0000000000001000 512\n\
9 fill a s 0 = ok\n\
10 qbuf a out 0 ts 5 = ok\n\
11 qbuf a cap 0 = ok\n\
12 streamon a out = ok\n\
13 streamon a cap = ok\n\
+ finish\n\
+ give\n\
+ give\n\
14 dqbuf a cap = ok 0 512 0 5 00004001\n\
15 read a d 0 8 = ok 008007800e801580\n\
16 dqbuf a out = ok 0 256 0 5 00004001\n\
region\n\
map 0000000000000000 1 1\n\
map 0000000000001000 1 1\n\
wire 0f17fa3e1b83883df49bbcd5a83fd571ea34974533d60185a1937259b1b295ed\n\
";

/// Of a picture in the process's own memory.
pub const USER: &[u8] = b"\
handle 0 a 0\n\
1 open a = ok\n\
2 sfmt a cap GREY 16 16 = ok GREY 16 16 16 256\n\
3 sinput a 1 = ok 1\n\
4 reqbufs a cap userptr 1 = ok 1\n\
5 ualloc a u 256 4095 = ok 2\n\
6 qbuf a cap 0 user u = ok\n\
7 streamon a cap = ok\n\
+ finish\n\
+ give\n\
+ give\n\
8 dqbuf a cap = ok 0 256 0 0 00002000\n\
9 read a u 0 8 = ok 0001020304050607\n\
10 ualloc a v 255 0 = ok 1\n\
11 qbuf a cap 0 user v = err 22 EINVAL\n\
region\n\
wire 4ff71339397568e865c1199dc6e2b27a309c014f19c6a45184ed2ee61842c6b9\n\
";

/// Of calls that are refused.
pub const REFUSALS: &[u8] = b"\
handle 0 a 0\n\
1 open a = ok\n\
2 reqbufs a cap mmap 1 = ok 1\n\
3 mmap a r cap 0 ro = ok 0000000000000000 3072\n\
4 write a r 0 00 = err 13 EACCES\n\
5 read a r 3071 2 = err 14 EFAULT\n\
6 qbuf a cap 0 = ok\n\
7 hash a r = err 16 EBUSY\n\
8 sfmt a cap GREY 16 16 = err 16 EBUSY\n\
9 querycap a = ok 84000001 04000001\n\
10 enumfmt a cap 5 = ok RGB3\n\
11 enumfmt a cap 6 = err 22 EINVAL\n\
12 enuminput a 3 = ok count\n\
region\n\
map 0000000000000000 1 1\n\
wire bfc75647cd5759f99502b8c0cc08d25321f79ecb2ad9477e61b714944a202283\n\
";
