ghost use Rattle.std.specs.Prelude.{◌≡◌, ◌<◌, ◌%◌, IfOk, length, replicate, slice_index, slice_index_or, slice_set};
ghost use Rattle.vm_split.specs.Ring.{contents_of, desc_bytes, desc_of, entry_bytes, entry_of, given_back, no_entry, offered, IsRingSize};

use crate::entry::UsedEntry;
use crate::places::{available_at, used_at};
use std::alloc::Global;
use std::marker::Model;
use vm_chain::Desc;
use vm_mem::{Memory, Page, Store};
use vm_num::{le16, le32, put16, put32, put64};

/// The place of an index in its ring.
const INDEX_AT: u32 = 2;

/// The place of the first entry in its ring.
const ENTRIES_AT: u32 = 4;

/// The page of a queue's descriptors and rings.
///
/// Source: VIRTIO 1.3, 2.7 "Split Virtqueues".
#[derive(Drop)]
pub struct Ring {
    size: u16,
    page: Page,
}

impl Model for Ring {
    ghost use Rattle.std.specs.Prelude.{◌≡◌, length};
    ghost use Rattle.vm_split.specs.Ring.{RingState, contents_of, IsRingSize};

    ghost Value = { RingState };

    ghost view = { λ r. record {
      size = r.size;
      bytes = r.page.bytes;
      contents = contents_of r.size r.page.bytes;
    } };

    ghost invariant = { λ r. IsRingSize r.size × (length r.page.bytes ≡ 4096) };
}

impl Ring {
    /// Rings of zeros for `size` descriptors in the page with this number, or want of memory.
    pub fn new(alloc: Global, size: u16, number: u64) -> Result<Ring, Memory>
        requires { IsRingSize size }
        ensures { IfOk result (λ r. r ≡ record {
          size = size;
          bytes = replicate 4096 0;
          contents = contents_of size (replicate 4096 0);
        }) }
    {
        let page = Page::make_zero(alloc, number)?;
        Ok(Ring { size, page })
    }

    /// How many descriptors there are.
    pub fn size(&self) -> u16
        ensures { result ≡ self.now.size }
    {
        self.size
    }

    /// The page's bytes.
    pub fn bytes(&self) -> &[u8]
        ensures value { result.now ≡ self.now.bytes }
        ensures contents { self.now.contents ≡ contents_of self.now.size self.now.bytes }
        ensures page { length result.now ≡ 4096 }
    {
        self.page.as_slice()
    }

    /// The available ring's index.
    pub fn available_index(&self) -> u16
        ensures { result ≡ self.now.contents.available_index }
    {
        let at = available_at(self.size) + INDEX_AT;
        le16(self.page.as_slice(), at as usize)
    }

    pub fn set_available_index(&mut self, index: u16)
        ensures contents { self.new.contents
            ≡ record self.old.contents { available_index = index } }
        ensures size { self.new.size ≡ self.old.size }
    {
        let at = available_at(self.size) + INDEX_AT;
        self.page.copy_in(at, &index.to_le_bytes());
    }

    /// The head in the available ring's entry with this number.
    pub fn available_head(&self, number: u16) -> u16
        ensures { result ≡ slice_index self.now.contents.available (number % self.now.size) }
    {
        let place = u32::from(number % self.size);
        let at = available_at(self.size) + ENTRIES_AT + 2 * place;
        le16(self.page.as_slice(), at as usize)
    }

    pub fn set_available_head(&mut self, number: u16, head: u16)
        ensures contents { self.new.contents
            ≡ record self.old.contents {
              available =
                  slice_set self.old.contents.available (number % self.old.size) head;
            } }
        ensures size { self.new.size ≡ self.old.size }
    {
        let place = u32::from(number % self.size);
        let at = available_at(self.size) + ENTRIES_AT + 2 * place;
        self.page.copy_in(at, &head.to_le_bytes());
    }

    /// Makes a chain available: the next entry names its head, and the index rises by one, modulo
    /// 65,536.
    pub fn offer(&mut self, head: u16)
        ensures contents { self.new.contents ≡ offered self.old.size head self.old.contents }
        ensures size { self.new.size ≡ self.old.size }
    {
        let index = self.available_index();
        self.set_available_head(index, head);
        self.set_available_index(index.wrapping_add(1));
    }

    /// The used ring's index.
    pub fn used_index(&self) -> u16
        ensures { result ≡ self.now.contents.used_index }
    {
        let at = used_at(self.size) + INDEX_AT;
        le16(self.page.as_slice(), at as usize)
    }

    pub fn set_used_index(&mut self, index: u16)
        ensures contents { self.new.contents ≡ record self.old.contents { used_index = index } }
        ensures size { self.new.size ≡ self.old.size }
    {
        let at = used_at(self.size) + INDEX_AT;
        self.page.copy_in(at, &index.to_le_bytes());
    }

    /// The used ring's entry with this number.
    pub fn used_entry(&self, number: u16) -> UsedEntry
        ensures { result ≡ slice_index_or self.now.contents.used (number % self.now.size) no_entry }
    {
        let place = u32::from(number % self.size);
        let at = (used_at(self.size) + ENTRIES_AT + 8 * place) as usize;
        let bytes = self.page.as_slice();
        UsedEntry {
            id: le32(bytes, at),
            len: le32(bytes, at + 4),
        }
    }

    pub fn set_used_entry(&mut self, number: u16, entry: UsedEntry)
        ensures contents { self.new.contents
            ≡ record self.old.contents {
              used =
                  slice_set self.old.contents.used (number % self.old.size) entry;
            } }
        ensures size { self.new.size ≡ self.old.size }
    {
        let place = u32::from(number % self.size);
        let at = used_at(self.size) + ENTRIES_AT + 8 * place;
        self.page.copy_in(at, &entry_bytes(entry));
    }

    /// Gives a chain back: the next used entry names it, and the index rises by one, modulo 65,536.
    pub fn give_back(&mut self, entry: UsedEntry)
        ensures contents { self.new.contents ≡ given_back self.old.size entry self.old.contents }
        ensures size { self.new.size ≡ self.old.size }
    {
        let index = self.used_index();
        self.set_used_entry(index, entry);
        self.set_used_index(index.wrapping_add(1));
    }

    pub fn set_desc(&mut self, place: u16, desc: Desc)
        requires { place < self.old.size }
        ensures contents { self.new.contents
            ≡ record self.old.contents { table = slice_set self.old.contents.table place desc } }
        ensures size { self.new.size ≡ self.old.size }
    {
        self.page.copy_in(16 * u32::from(place), &desc_bytes(desc));
    }
}

/// A used entry's bytes.
fn entry_bytes(entry: UsedEntry) -> [u8; 8]
    ensures bytes { result ≡ entry_bytes entry }
    ensures reads { entry_of result ≡ entry }
{
    let mut bytes = [0; 8];
    put32(&mut bytes, 0, entry.id);
    put32(&mut bytes, 4, entry.len);
    bytes
}

/// A descriptor's bytes.
fn desc_bytes(desc: Desc) -> [u8; 16]
    ensures bytes { result ≡ desc_bytes desc }
    ensures reads { desc_of result ≡ desc }
{
    let mut bytes = [0; 16];
    put64(&mut bytes, 0, desc.addr);
    put32(&mut bytes, 8, desc.len);
    put16(&mut bytes, 12, desc.flags);
    put16(&mut bytes, 14, desc.next);
    bytes
}
