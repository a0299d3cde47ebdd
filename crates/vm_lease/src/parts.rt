//! What calls do on a memory's bytes, part by part.

ghost use Rattle.std.specs.Prelude.{◌≡◌, ◌+◌, ◌≤◌, ◌++◌, length, take, drop};
ghost use Rattle.sha2.specs.Sha256.{sha256};
ghost use Rattle.vm_frame.specs.Mem.{mem_bytes, mem_rest};
ghost use Rattle.vm_local.specs.declared.reply.Reply.TheVariants.{Bytes};
ghost use Rattle.vm_mem.specs.Seeded.{seeded};

use sha2::{Digest, Sha256};
use vm_frame::Mem;
use vm_local::{Reply, SMALL_LIMIT, Small};
use vm_mem::Store;

/// How many bytes are hashed or filled at a time: a multiple of 256, after which the bytes of a
/// seed begin again.
const PART: usize = 4096;

/// The reply that tells `len` bytes from `off` on; at most 256.
pub fn read(mem: &Mem, off: u32, len: u32) -> Reply
    requires within { off + len ≤ length (mem_bytes mem.now) }
    requires small { len ≤ 256 }
    ensures { result ≡ Bytes (take len (drop off (mem_bytes mem.now))) }
{
    let mut bytes = [0; SMALL_LIMIT];
    let told = &mut bytes[..len as usize];
    mem.copy_out(off, told);
    Reply::Bytes(Small::new(told).unwrap())
}

/// Writes bytes from `off` on.
pub fn write(mem: &mut Mem, off: u32, bytes: &[u8])
    requires { off + length bytes.now ≤ length (mem_bytes mem.old) }
    ensures bytes { mem_bytes mem.new ≡ take off (mem_bytes mem.old) ++
        (bytes.now ++ drop (off + length bytes.now) (mem_bytes mem.old)) }
    ensures rest { mem_rest mem.new ≡ mem_rest mem.old }
{
    mem.copy_in(off, bytes);
}

/// The SHA-256 of all bytes.
pub fn digest(mem: &Mem) -> [u8; 32]
    ensures { result ≡ sha256 (mem_bytes mem.now) }
{
    let size = mem.size();
    let mut hasher = Sha256::new();
    let mut part = [0; PART];
    let mut at = 0;
    while at < size {
        let len = (size - at).min(PART as u32);
        let bytes = &mut part[..len as usize];
        mem.copy_out(at, bytes);
        hasher.update(bytes);
        at += len;
    }
    hasher.finalize()
}

// Sets byte `i` of a part to `7 * i + seed` modulo 256, for each `i`.
fn fill_part(part: &mut [u8], seed: u8)
    requires { length part.old ≤ 4096 }
    ensures { part.new ≡ seeded seed (length part.old) }
{
    for i in 0..part.len() {
        part[i] = ((7 * i + usize::from(seed)) % 256) as u8;
    }
}

/// Sets byte `i` to `7 * i + seed` modulo 256, for each `i`.
pub fn fill(mem: &mut Mem, seed: u8)
    ensures bytes { mem_bytes mem.new ≡ seeded seed (length (mem_bytes mem.old)) }
    ensures rest { mem_rest mem.new ≡ mem_rest mem.old }
{
    let mut part = [0; PART];
    fill_part(&mut part, seed);
    let size = mem.size();
    for k in 0..size.div_ceil(PART as u32) {
        let at = k * PART as u32;
        let len = (size - at).min(PART as u32);
        mem.copy_in(at, &part[..len as usize]);
    }
}
