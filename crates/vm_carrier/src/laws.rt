// Laws of the definitions.

ghost use Rattle.std.specs.Prelude.{ℕ, ◌≡◌, ◌≤◌, List, Ok, length, map};
ghost use Rattle.vm_carrier.specs.Carrier.{bytes_at, overlaid, written, writable_of, AreApart, AreThere, Fits, IsUnwritten};
ghost use Rattle.vm_chain.specs.Chain.{writable_bytes};
ghost use Rattle.vm_chain.specs.Walk.{walk_of};
ghost use Rattle.vm_chain.specs.declared.desc.Desc.{Desc};
ghost use Rattle.vm_mem.specs.declared.page.Page.{Page};

/// Where a chain's writable descriptors have no byte in common, a reply stands at the front of what
/// may be written, in order, and what is behind it stays. Bytes that no writable descriptor names
/// stay, and so do the pages' numbers.
pub fn replies_are_spread()
    ensures front { (descs : List Desc) (reply : List ℕ) (pages : List Page) →
        AreThere descs pages → AreApart descs → length reply ≤ writable_bytes descs →
        writable_of descs (written descs reply pages) ≡ overlaid (writable_of descs pages) 0 reply }
    ensures others { (descs : List Desc) (reply : List ℕ) (pages : List Page) (e : Desc) →
        AreThere descs pages → IsUnwritten descs e →
        bytes_at e (written descs reply pages) ≡ bytes_at e pages }
    ensures pages { (descs : List Desc) (reply : List ℕ) (pages : List Page) →
        map (λ page. page.number) (written descs reply pages) ≡ map (λ page. page.number) pages }
{}

/// A walk that succeeds has no more descriptors than its limit, and the bytes of each stay in one
/// page.
pub fn walks_fit()
    ensures { (table : List Desc) (head limit : ℕ) (homes : List ℕ) (descs : List Desc) →
        walk_of table head limit homes ≡ Ok descs → Fits limit descs }
{}
