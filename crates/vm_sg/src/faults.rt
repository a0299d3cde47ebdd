ghost use Rattle.std.specs.Prelude.{◌≡◌, ◌+◌, ◌^◌, ◌<◌, ℕ, Some, None, map, nat_lt, sum_by, length, OnOk, IfErr};
ghost use Rattle.std.specs.List.{list_any};
ghost use Rattle.vm_mem.specs.Page.{lies_in_page};
ghost use Rattle.vm_frame.specs.Scatter.{scatter_fault, entry_fault, meets};

use vm_frame::{SgEntry, SgFault};
use vm_mem::{Page, lies_in_page};

/// How many bytes the entries name, each counted as often as it is named.
///
/// Source: own.
pub fn total(entries: &[SgEntry]) -> u64
    requires { length entries.now < 2 ^ 32 }
    ensures { result ≡ sum_by (λ e. e.len) entries.now }
{
    let mut bytes = 0;
    for entry in entries {
        bytes += u64::from(entry.len);
    }
    bytes
}

/// Looks for what is wrong with the entries on these pages.
///
/// # Errors
/// The fault of the first entry that has one: `ZeroLen` where it has no bytes; else `Outside` where
/// they don't lie in one of the pages; else `Twice` where an earlier entry names one of them.
///
/// Source: own.
pub fn check(entries: &[SgEntry], pages: &[Page]) -> Result<(), SgFault>
    ensures ok { OnOk result (scatter_fault entries.now pages.now ≡ None) }
    ensures err { IfErr result (λ fault. scatter_fault entries.now pages.now ≡ Some fault) }
{
    for (place, entry) in entries.iter().enumerate() {
        check_entry(*entry, &entries[..place], pages)?;
    }
    Ok(())
}

/// Looks for what is wrong with an entry behind `earlier` ones.
fn check_entry(entry: SgEntry, earlier: &[SgEntry], pages: &[Page]) -> Result<(), SgFault>
    ensures ok { OnOk result (entry_fault (map (λ page. page.number) pages.now) earlier.now entry ≡
        None) }
    ensures err { IfErr result (λ fault. entry_fault
        (map (λ page. page.number) pages.now) earlier.now entry ≡ Some fault) }
{
    if entry.len == 0 {
        return Err(SgFault::ZeroLen);
    }
    if !lies_in_one(entry, pages) {
        return Err(SgFault::Outside);
    }
    if meets_one(entry, earlier) {
        return Err(SgFault::Twice);
    }
    Ok(())
}

/// Whether an entry's bytes lie in one of these pages.
fn lies_in_one(entry: SgEntry, pages: &[Page]) -> bool
    ensures { result ≡ list_any (lies_in_page entry.start entry.len)
        (map (λ page. page.number) pages.now) }
{
    for page in pages {
        if lies_in_page(entry.start, entry.len, page.number) {
            return true;
        }
    }
    false
}

/// Whether an entry has an address in common with one of these.
fn meets_one(entry: SgEntry, earlier: &[SgEntry]) -> bool
    ensures { result ≡ list_any (meets entry) earlier.now }
{
    earlier.iter().any(|other| meets(entry, *other))
}

/// Whether two entries have an address in common.
fn meets(e: SgEntry, f: SgEntry) -> bool
    ensures { result ≡ meets e f }
{
    begins_before_the_end(e.start, f) && begins_before_the_end(f.start, e)
}

/// Whether an address stands before the end of an entry, which may be the end of all addresses.
fn begins_before_the_end(start: u64, e: SgEntry) -> bool
    ensures { result ≡ nat_lt start (e.start + e.len) }
{
    start < e.start || start - e.start < u64::from(e.len)
}
