ghost use Rattle.std.specs.Prelude.{◌≡◌, ◌+◌, ◌<◌, ◌≤◌, ◌++◌, List, ℕ, length, take, drop, replicate, slice_index, slice_set, IfOk};

use crate::Memory;
use std::alloc::Global;
use std::marker::Model;

/// The bytes of a page: 4096 of them.
#[derive(Drop)]
pub struct PageBytes {
    items: Vec<u8>,
}

impl Model for PageBytes {
    ghost Value = { List ℕ };

    ghost view = { λ p. p.items.items };

    ghost invariant = { λ p. length p.items.items ≡ 4096 };
}

impl PageBytes {
    /// All zero.
    pub fn make_zero(alloc: Global) -> Result<PageBytes, Memory>
        ensures { IfOk result (λ p. p ≡ replicate 4096 0) }
    {
        let items = vec![in alloc; 0; 4096]?;
        Ok(PageBytes { items })
    }

    pub fn as_slice(&self) -> &[u8]
        ensures value { result.now ≡ self.now }
        ensures size { length result.now ≡ 4096 }
    {
        self.items.as_slice()
    }

    pub fn set(&mut self, at: usize, b: u8)
        requires { at < length self.old }
        ensures { self.new ≡ slice_set self.old at b }
    {
        self.items[at] = b;
    }

    pub fn copy_in(&mut self, at: usize, from: &[u8])
        requires { at + length from.now ≤ length self.old }
        ensures { self.new ≡ take at self.old ++
            (from.now ++ drop (at + length from.now) self.old) }
    {
        self.items[at..at + from.len()].copy_from_slice(from);
    }
}
