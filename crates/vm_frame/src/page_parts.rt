//! Copies of parts of one page among several.
ghost use Rattle.std.specs.Prelude.{◌≡◌, ◌≢◌, ◌+◌, ◌==◌, ◌≤◌, ◌++◌, ℕ, not, length, take, drop, map, find, take_while, All};
ghost use Rattle.std.specs.Option.{option_copied};
ghost use Rattle.vm_frame.specs.Scatter.{page_bytes};

use vm_mem::{Page, Store};

/// Fills `into` with the bytes from `at` on in the page with this number.
pub fn read_page(pages: &[Page], number: u64, at: usize, into: &mut [u8])
    requires { at + length into.old ≤ length (page_bytes pages.now number) }
    ensures { into.new ≡ take (length into.old) (drop at (page_bytes pages.now number)) }
{
    if let Some(page) = page_at(pages, number) {
        let bytes = page.as_slice();
        into.copy_from_slice(&bytes[at..at + into.len()]);
    }
}

/// Sets the bytes from `at` on in the page with this number to those of `from`, and no others.
pub fn write_page(pages: &mut [Page], number: u64, at: usize, from: &[u8])
    requires whole { All (λ page. length page.bytes ≡ 4096) pages.old }
    requires within { at + length from.now ≤ length (page_bytes pages.old number) }
    requires in_a_page { at ≤ 4096 }
    ensures here { page_bytes pages.new number ≡ take at (page_bytes pages.old number) ++
        (from.now ++ drop (at + length from.now) (page_bytes pages.old number)) }
    ensures others { (other : ℕ) → other ≢ number →
        page_bytes pages.new other ≡ page_bytes pages.old other }
    ensures numbers { map (λ page. page.number) pages.new ≡ map (λ page. page.number) pages.old }
    ensures whole { All (λ page. length page.bytes ≡ 4096) pages.new }
{
    let place = place_of(pages, number);
    if place < pages.len() {
        pages[place].copy_in(at as u32, from);
    }
}

/// The place of the page with this number, or how many pages there are where none has it.
fn place_of(pages: &[Page], number: u64) -> usize
    ensures { result ≡ length (take_while (λ page. not (page.number == number)) pages.now) }
{
    pages
        .iter()
        .take_while(|page| page.number != number)
        .count()
}

/// The page with this number.
fn page_at(pages: &[Page], number: u64) -> Option<&Page>
    ensures { option_copied result ≡ find (λ page. page.number == number) pages.now }
{
    pages.iter().find(|page| page.number == number)
}
