ghost use Rattle.std.specs.Prelude.{◌≡◌, ◌+◌, ◌≤◌, ◌++◌, ◌-◌, length, take, drop, replicate, IfOk};
ghost use Rattle.std.specs.Vec.{vec_len};
ghost use Rattle.vm_mem.specs.Seeded.{seeded};

use std::alloc::Global;
use std::marker::Model;
use vm_mem::{Memory, Store};

/// How many bytes a memory has at most: the longest user memory, which is longer than any picture.
pub const MEMORY_LIMIT: u32 = 925_696;

/// The bytes of one memory.
#[derive(Drop)]
pub struct Bytes {
    kept: Vec<u8>,
}

impl Model for Bytes {
    ghost use Rattle.std.specs.Prelude.{ℕ, ◌≤◌, List, length};

    ghost Value = { List ℕ };

    ghost view = { λ b. b.kept.items };

    ghost invariant = { λ b. length b.kept.items ≤ 925696 };
}

impl Bytes {
    /// `count` bytes of 0.
    pub fn zeroed(alloc: Global, count: u32) -> Result<Bytes, Memory>
        requires { count ≤ 925696 }
        ensures { IfOk result (λ b. b ≡ replicate count 0) }
    {
        let kept = vec![in alloc; 0; count as usize]?;
        Ok(Bytes { kept })
    }

    /// How many they are.
    pub fn len(&self) -> u32
        ensures value { result ≡ length self.now }
        ensures most { result ≤ 925696 }
    {
        self.kept.len() as u32
    }

    /// All of them.
    pub fn as_slice(&self) -> &[u8]
        ensures value { result.now ≡ self.now }
        ensures most { length result.now ≤ 925696 }
    {
        self.kept.as_slice()
    }

    /// Sets the bytes from `at` on to these.
    pub fn write(&mut self, at: u32, bytes: &[u8])
        requires { at + length bytes.now ≤ length self.old }
        ensures { self.new ≡ take at self.old ++
            (bytes.now ++ drop (at + length bytes.now) self.old) }
    {
        let start = at as usize;
        self.kept[start..start + bytes.len()].copy_from_slice(bytes);
    }

    /// Sets all bytes: byte `i` is `7 * i + seed` modulo 256.
    pub fn fill(&mut self, seed: u8)
        ensures { self.new ≡ seeded seed (length self.old) }
    {
        fill(&mut self.kept, seed);
    }

    /// A copy of these bytes, with zeros behind them where they are fewer than `count`.
    pub fn padded(alloc: Global, bytes: &[u8], count: u32) -> Result<Bytes, Memory>
        requires most { length bytes.now ≤ 925696 }
        requires count { count ≤ 925696 }
        ensures { IfOk result (λ b. b ≡ bytes.now ++ replicate (count - length bytes.now) 0) }
    {
        let mut copy = Bytes::zeroed(alloc, count.max(bytes.len() as u32))?;
        copy.write(0, bytes);
        Ok(copy)
    }

    /// Puts these bytes in the place of as many at the front. Where they are more than all, they
    /// stand alone.
    pub fn set_front(&mut self, front: Vec<u8>)
        requires { vec_len front ≤ 925696 }
        ensures { self.new ≡ front.items ++ drop (length front.items) self.old }
    {
        if front.len() < self.kept.len() {
            self.write(0, &front);
        } else {
            self.kept = front;
        }
    }
}

impl Store for Bytes {
    ghost Rest = { Unit {0} };

    ghost bytes_of = { λ b. b };

    ghost rest_of = { λ _. tt };

    fn size(&self) -> u32 {
        self.len()
    }

    fn get(&self, i: u32) -> u8 {
        self.kept[i as usize]
    }

    fn set(&mut self, i: u32, b: u8) {
        self.kept[i as usize] = b;
    }
}

/// Sets all bytes: byte `i` is `7 * i + seed` modulo 256.
fn fill(bytes: &mut [u8], seed: u8)
    requires { length bytes.old ≤ 925696 }
    ensures { bytes.new ≡ seeded seed (length bytes.old) }
{
    for i in 0..bytes.len() {
        bytes[i] = ((7 * i + usize::from(seed)) % 256) as u8;
    }
}
