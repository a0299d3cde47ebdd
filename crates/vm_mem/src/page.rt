ghost use Rattle.std.specs.Prelude.{◌≡◌, ◌+◌, ◌<◌, ◌≤◌, ◌++◌, List, ℕ, length, take, drop, replicate, slice_index, slice_set, IfOk};
ghost use Rattle.vm_mem.specs.Page.{lies_in_page};

use crate::page_bytes::PageBytes;
use crate::{Memory, Store};
use std::alloc::Global;

/// The bytes of a page of a guest's memory.
///
/// Source: own.
pub const PAGE_SIZE: u32 = 4096;

/// A page of a guest's memory: its number and its 4096 bytes.
///
/// Source: own.
#[derive(Drop)]
pub struct Page {
    /// The address of the first byte over 4096.
    pub number: u64,
    pub(crate) bytes: PageBytes,
}

impl Page {
    /// A page of zeros, or want of memory.
    pub fn make_zero(alloc: Global, number: u64) -> Result<Page, Memory>
        ensures { IfOk result (λ page. page ≡
            record { number = number; bytes = replicate 4096 0 }) }
    {
        let bytes = PageBytes::make_zero(alloc)?;
        Ok(Page { number, bytes })
    }

    /// The bytes in order.
    pub fn as_slice(&self) -> &[u8]
        ensures value { result.now ≡ self.now.bytes }
        ensures size { length result.now ≡ 4096 }
    {
        self.bytes.as_slice()
    }
}

impl Store for Page {
    ghost Rest = { ℕ };

    ghost bytes_of = { λ page. page.bytes };

    ghost rest_of = { λ page. page.number };

    fn size(&self) -> u32
        ensures value { result ≡ length self.now.bytes }
        ensures page { result ≡ 4096 }
    {
        let _bytes = self.as_slice();
        PAGE_SIZE
    }

    fn get(&self, i: u32) -> u8 {
        self.as_slice()[i as usize]
    }

    fn set(&mut self, i: u32, b: u8) {
        self.bytes.set(i as usize, b);
    }

    fn copy_out(&self, at: u32, into: &mut [u8]) {
        let start = at as usize;
        into.copy_from_slice(&self.as_slice()[start..start + into.len()]);
    }

    fn copy_in(&mut self, at: u32, from: &[u8]) {
        self.bytes.copy_in(at as usize, from);
    }
}

/// Whether the `len` bytes from the address `start` on lie in the page with this number: they begin
/// in it, and don't go past its end.
///
/// Source: own.
pub fn lies_in_page(start: u64, len: u32, number: u64) -> bool
    ensures { result ≡ lies_in_page start len number }
{
    let page_size = u64::from(PAGE_SIZE);
    number == start / page_size && start % page_size + u64::from(len) <= page_size
}
