ghost use Rattle.std.specs.Prelude.{◌≡◌, ◌+◌, ◌<◌, ◌≤◌, ◌++◌, List, ℕ, length, take, drop, map, slice_index, slice_set};
ghost use Rattle.vm_frame.specs.Scatter.{scatter_bytes};
ghost use Rattle.vm_frame.specs.User.{IsSound, Places};

use crate::SgEntry;
use crate::gather::{gather, scatter, total_of};
use std::marker::Model;
use vm_mem::{Page, Store};

/// As many entries as a user's memory has room for: those that a command page holds behind a
/// command that queues a buffer.
///
/// Source: own.
pub const MAX_ENTRIES: usize = 249;

/// As many pages as a user's memory may have.
///
/// Source: own.
pub const MAX_PAGES: usize = 227;

/// A user's memory: pages of a guest, and the entries that name its bytes in them. The entries have
/// no fault on the pages, and the vector of entries has room for `MAX_ENTRIES`.
///
/// Source: own, after the Linux V4L2 interface, `V4L2_MEMORY_USERPTR`.
#[derive(Drop)]
pub struct User {
    pub entries: Vec<SgEntry>,
    pub pages: Vec<Page>,
}

impl Model for User {
    ghost use Rattle.std.specs.Prelude.{vec_capacity, ◌≤◌};
    ghost use Rattle.vm_frame.specs.User.{ScatteredPages, IsSound};

    ghost Value = { ScatteredPages };

    ghost view = { λ u. record { entries = u.entries.items; pages = u.pages.items } };

    ghost invariant = { λ u. IsSound u.entries.items u.pages.items ×
        (249 ≤ vec_capacity u.entries) };
}

impl Store for User {
    ghost Rest = { Places };

    ghost bytes_of = { λ user. scatter_bytes user.entries user.pages };

    ghost rest_of = { λ user. record {
      entries = user.entries;
      numbers = map (λ page. page.number) user.pages;
    } };

    fn size(&self) -> u32 {
        total_of(self.entries.as_slice(), self.pages.as_slice())
    }

    fn get(&self, i: u32) -> u8 {
        let mut byte = [0];
        self.copy_out(i, &mut byte);
        byte[0]
    }

    fn set(&mut self, i: u32, b: u8) {
        self.copy_in(i, &[b]);
    }

    fn copy_out(&self, at: u32, into: &mut [u8]) {
        gather(self.entries.as_slice(), self.pages.as_slice(), at, into);
    }

    fn copy_in(&mut self, at: u32, from: &[u8]) {
        scatter(self.entries.as_slice(), self.pages.as_mut_slice(), at, from);
    }
}
