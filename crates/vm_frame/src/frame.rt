ghost use Rattle.std.specs.Prelude.{◌≡◌, ◌+◌, ◌<◌, ◌≤◌, ◌↔◌, ◌++◌, List, ℕ, length, take, drop, replicate, slice_index, slice_set, IsTrue, IsErr, IfOk, OnOk, OnErr};
ghost use Rattle.vm_mem.specs.Seeded.{seeded};

use std::alloc::Global;
use std::marker::Model;
use vm_mem::{Memory, Store};

/// A run of bytes that ends past a frame's end.
///
/// Source: own.
#[derive(Clone, Copy, Debug, PartialEq, Eq)]
pub struct Range;

/// The memory of one buffer, with the tag that names it.
///
/// Source: own.
#[derive(Drop)]
pub struct Frame {
    tag: u64,
    bytes: Vec<u8>,
}

impl Model for Frame {
    ghost use Rattle.std.specs.Prelude.{length, ◌<◌, ◌^◌};
    ghost use Rattle.vm_frame.specs.Frame.{TaggedBytes};

    ghost Value = { TaggedBytes };

    ghost view = { λ f. record { tag = f.tag; bytes = f.bytes.items } };

    ghost invariant = { λ f. length f.bytes.items < 2 ^ 32 };
}

impl Frame {
    /// A frame of `len` zeros, or want of memory.
    pub fn make_zero(alloc: Global, tag: u64, len: u32) -> Result<Frame, Memory>
        ensures { IfOk result (λ frame. frame ≡ record { tag = tag; bytes = replicate len 0 }) }
    {
        let bytes = vec![in alloc; 0; len as usize]?;
        Ok(Frame { tag, bytes })
    }

    /// The number that names the frame.
    pub fn tag(&self) -> u64
        ensures { result ≡ self.now.tag }
    {
        self.tag
    }

    /// Fills `out` with the bytes from `at` on. `Range` is answered where they end past the frame's
    /// size.
    pub fn read(&self, at: u32, out: &mut [u8]) -> Result<(), Range>
        ensures range { IsErr result ↔ (length self.now.bytes < at + length out.old) }
        ensures ok { OnOk result (out.new ≡ take (length out.old) (drop at self.now.bytes)) }
        ensures err { OnErr result (out.new ≡ out.old) }
    {
        if !self.holds(at, out.len()) {
            return Err(Range);
        }
        self.copy_out(at, out);
        Ok(())
    }

    /// Sets the bytes from `at` on to `bytes`, and no others. `Range` is answered where they end
    /// past the frame's size.
    pub fn write(&mut self, at: u32, bytes: &[u8]) -> Result<(), Range>
        ensures range { IsErr result ↔ (length self.old.bytes < at + length bytes.now) }
        ensures ok { OnOk result (self.new ≡ record self.old {
          bytes = take at self.old.bytes ++
              (bytes.now ++ drop (at + length bytes.now) self.old.bytes);
        }) }
        ensures err { OnErr result (self.new ≡ self.old) }
    {
        if !self.holds(at, bytes.len()) {
            return Err(Range);
        }
        self.copy_in(at, bytes);
        Ok(())
    }

    /// Sets byte i to (7 · i + `seed`) modulo 256, for each i.
    pub fn fill(&mut self, seed: u8)
        ensures value { self.new ≡ record self.old { bytes = seeded seed (length self.old.bytes) } }
        ensures size { length self.new.bytes ≡ length self.old.bytes }
    {
        let mut value = seed;
        for byte in self.bytes.iter_mut() {
            *byte = value;
            value = value.wrapping_add(7);
        }
    }

    /// Whether `count` bytes from `at` on lie in the frame.
    fn holds(&self, at: u32, count: usize) -> bool
        ensures { IsTrue result ↔ (at + count ≤ length self.now.bytes) }
    {
        let size = self.bytes.len();
        count <= size && at as usize <= size - count
    }
}

impl Store for Frame {
    ghost Rest = { ℕ };

    ghost bytes_of = { λ frame. frame.bytes };

    ghost rest_of = { λ frame. frame.tag };

    fn size(&self) -> u32 {
        self.bytes.len() as u32
    }

    fn get(&self, i: u32) -> u8 {
        self.bytes[i as usize]
    }

    fn set(&mut self, i: u32, b: u8) {
        self.bytes[i as usize] = b;
    }

    fn copy_out(&self, at: u32, into: &mut [u8]) {
        let start = at as usize;
        into.copy_from_slice(&self.bytes[start..start + into.len()]);
    }

    fn copy_in(&mut self, at: u32, from: &[u8]) {
        let start = at as usize;
        self.bytes[start..start + from.len()].copy_from_slice(from);
    }
}
