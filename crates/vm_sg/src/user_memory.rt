ghost use Rattle.std.specs.Prelude.{◌≡◌, ◌+◌, ◌*◌, ◌<◌, ◌≤◌, map, vec_capacity, IfOk};
ghost use Rattle.vm_sg.specs.UserMemory.{user_memory, user_entries, user_pages, page_count, number_of, entry_of};

use std::alloc::Global;
use vm_frame::{MAX_ENTRIES, SgEntry, User};
use vm_mem::{Memory, PAGE_SIZE, Page};
use vm_num::pages_of;

/// The number of the first page that a script's user memory may have.
///
/// Source: own.
const FIRST_PAGE: u64 = 0x10_0000;

/// How many page numbers each line of a script has: as many pages as the largest memory needs.
///
/// Source: own.
const PAGES_OF_A_LINE: u64 = 227;

/// The user memory of `len` bytes that the line numbered `line` makes, of zeros, with its first
/// byte at `off` in a page. Its pages are the line's own and run backwards, and each of them has
/// one entry, in the memory's order.
///
/// # Errors
/// `Memory` where there is no memory for it.
///
/// Source: own.
pub fn of_user(alloc: Global, line: u32, len: u32, off: u32) -> Result<User, Memory>
    requires some { 1 ≤ len }
    requires small { len ≤ 925696 }
    requires in_a_page { off ≤ 4095 }
    ensures { IfOk result (λ user. user ≡ user_memory line len off) }
{
    let count = pages_of(len + off);
    let pages = zero_pages(alloc, line, count)?;
    let entries = entries_of(alloc, line, len, off)?;
    Ok(User { entries, pages })
}

fn zero_pages(alloc: Global, line: u32, count: u32) -> Result<Vec<Page>, Memory>
    requires { count ≤ 227 }
    ensures { IfOk result (λ pages. pages.items ≡ user_pages line count) }
{
    let mut pages = Vec::new(alloc);
    for i in 0..count {
        pages.push(Page::make_zero(alloc, number_of(line, count, i))?)?;
    }
    Ok(pages)
}

fn entries_of(alloc: Global, line: u32, len: u32, off: u32) -> Result<Vec<SgEntry>, Memory>
    requires small { len ≤ 925696 }
    requires in_a_page { off ≤ 4095 }
    ensures items { IfOk result (λ entries. entries.items ≡ user_entries line len off) }
    ensures room { IfOk result (λ entries. 249 ≤ vec_capacity entries) }
{
    let mut entries = Vec::with_capacity(alloc, MAX_ENTRIES)?;
    for i in 0..pages_of(len + off) {
        entries.push_reserved(entry_of(line, len, off, i));
    }
    Ok(entries)
}

/// The number of the `i`-th of so many pages of a line.
fn number_of(line: u32, count: u32, i: u32) -> u64
    requires { i < count }
    ensures { result ≡ number_of line count i }
{
    FIRST_PAGE + PAGES_OF_A_LINE * u64::from(line) + u64::from(count - 1 - i)
}

/// The entry of the `i`-th page.
fn entry_of(line: u32, len: u32, off: u32, i: u32) -> SgEntry
    requires small { len ≤ 925696 }
    requires in_a_page { off ≤ 4095 }
    requires there { i < page_count len off }
    ensures { result ≡ entry_of line len off i }
{
    let count = pages_of(len + off);
    let place = if i == 0 { off } else { 0 };
    let rest = (len + off).saturating_sub(PAGE_SIZE * i + place);
    SgEntry {
        start: u64::from(PAGE_SIZE) * number_of(line, count, i) + u64::from(place),
        len: rest.min(PAGE_SIZE - place),
    }
}
