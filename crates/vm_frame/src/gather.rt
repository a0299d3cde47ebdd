//! Copies of runs of bytes that lie scattered over pages, entry by entry.
ghost use Rattle.std.specs.Prelude.{◌≡◌, ◌≢◌, ◌+◌, ◌-◌, ◌^◌, ◌<◌, ◌≤◌, ◌++◌, ℕ, length, take, drop, map, min, All, sum_by};
ghost use Rattle.vm_mem.specs.Page.{page_number, place_in_page};
ghost use Rattle.vm_frame.specs.Scatter.{page_bytes, entry_bytes, scatter_bytes};
ghost use Rattle.vm_frame.specs.User.{IsSound};

use crate::SgEntry;
use crate::page_parts::{read_page, write_page};
use vm_mem::{PAGE_SIZE, Page};

/// How many bytes the entries name.
pub fn total_of(entries: &[SgEntry], pages: &[Page]) -> u32
    requires { IsSound entries.now pages.now }
    ensures { result ≡ length (scatter_bytes entries.now pages.now) }
{
    sum_of_lens(entries)
}

fn sum_of_lens(entries: &[SgEntry]) -> u32
    requires { sum_by (λ e. e.len) entries.now < 2 ^ 32 }
    ensures { result ≡ sum_by (λ e. e.len) entries.now }
{
    entries.iter().map(|entry| entry.len).sum()
}

/// Where the bytes from `at` on begin: in the entry in this place, behind so many bytes of those
/// that it and the entries behind it name. An entry lies in one page, so as many entries as there
/// are whole pages before `at` end before it: of them only the lengths are added up.
fn begin_of(entries: &[SgEntry], pages: &[Page], at: u32) -> (usize, u32)
    requires { IsSound entries.now pages.now }
    ensures place { result.0 ≤ length entries.now }
    ensures before { sum_by (λ e. e.len) (take result.0 entries.now) + result.1 ≡ at }
{
    let near = entries.len().min((at / PAGE_SIZE) as usize);
    let mut ahead = at - sum_of_lens(&entries[..near]);
    'entries: for i in near..entries.len() {
        if ahead < entries[i].len {
            return (i, ahead);
        }
        ahead -= entries[i].len;
    }
    (entries.len(), ahead)
}

/// Fills `into` with the bytes from `at` on of those that the entries name.
pub fn gather(entries: &[SgEntry], pages: &[Page], at: u32, into: &mut [u8])
    requires sound { IsSound entries.now pages.now }
    requires within { at + length into.old ≤ length (scatter_bytes entries.now pages.now) }
    ensures { into.new ≡ take (length into.old) (drop at (scatter_bytes entries.now pages.now)) }
{
    // How many bytes of the entries that are left come before the next one that is wanted.
    let (first, mut ahead) = begin_of(entries, pages, at);
    let mut filled = 0;
    'entries: for i in first..entries.len() {
        if filled == into.len() {
            return;
        }
        let entry = entries[i];
        let skip = ahead.min(entry.len);
        filled += read_entry(entry, pages, skip, &mut into[filled..]);
        ahead -= skip;
    }
}

/// Sets the bytes from `at` on of those that the entries name to those of `from`, and no others.
pub fn scatter(entries: &[SgEntry], pages: &mut [Page], at: u32, from: &[u8])
    requires sound { IsSound entries.now pages.old }
    requires within { at + length from.now ≤ length (scatter_bytes entries.now pages.old) }
    ensures sound { IsSound entries.now pages.new }
    ensures bytes { scatter_bytes entries.now pages.new ≡
        take at (scatter_bytes entries.now pages.old) ++
        (from.now ++ drop (at + length from.now) (scatter_bytes entries.now pages.old)) }
    ensures numbers { map (λ page. page.number) pages.new ≡ map (λ page. page.number) pages.old }
{
    // How many bytes of the entries that are left come before the next one that is to be set.
    let (first, mut ahead) = begin_of(entries, pages, at);
    let mut written = 0;
    'entries: for i in first..entries.len() {
        if written == from.len() {
            return;
        }
        let entry = entries[i];
        let skip = ahead.min(entry.len);
        written += write_entry(entry, pages, skip, &from[written..]);
        ahead -= skip;
    }
}

/// Fills the front of `into` with an entry's bytes behind its first `skip`, as far as they and
/// `into` go. Answers how many.
fn read_entry(entry: SgEntry, pages: &[Page], skip: u32, into: &mut [u8]) -> usize
    requires fits { place_in_page entry.start + entry.len ≤
        length (page_bytes pages.now (page_number entry.start)) }
    requires within { skip ≤ entry.len }
    ensures count { result ≡ min (entry.len - skip) (length into.old) }
    ensures read { into.new ≡ take result (drop skip (entry_bytes pages.now entry)) ++
        drop result into.old }
{
    let count = ((entry.len - skip) as usize).min(into.len());
    let page_size = u64::from(PAGE_SIZE);
    let place = (entry.start % page_size) as usize + skip as usize;
    read_page(pages, entry.start / page_size, place, &mut into[..count]);
    count
}

/// Sets an entry's bytes behind its first `skip` to those of `from`, as far as they and `from` go.
/// Answers how many.
fn write_entry(entry: SgEntry, pages: &mut [Page], skip: u32, from: &[u8]) -> usize
    requires whole { All (λ page. length page.bytes ≡ 4096) pages.old }
    requires fits { place_in_page entry.start + entry.len ≤
        length (page_bytes pages.old (page_number entry.start)) }
    requires in_a_page { place_in_page entry.start + entry.len ≤ 4096 }
    requires within { skip ≤ entry.len }
    ensures count { result ≡ min (entry.len - skip) (length from.now) }
    ensures here { page_bytes pages.new (page_number entry.start) ≡
        take (place_in_page entry.start + skip) (page_bytes pages.old (page_number entry.start)) ++
        (take result from.now ++ drop (place_in_page entry.start + skip + result)
        (page_bytes pages.old (page_number entry.start))) }
    ensures others { (other : ℕ) → other ≢ page_number entry.start →
        page_bytes pages.new other ≡ page_bytes pages.old other }
    ensures numbers { map (λ page. page.number) pages.new ≡ map (λ page. page.number) pages.old }
    ensures whole { All (λ page. length page.bytes ≡ 4096) pages.new }
{
    let count = ((entry.len - skip) as usize).min(from.len());
    let page_size = u64::from(PAGE_SIZE);
    let place = (entry.start % page_size) as usize + skip as usize;
    write_page(pages, entry.start / page_size, place, &from[..count]);
    count
}
