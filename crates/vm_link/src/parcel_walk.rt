ghost use Rattle.std.specs.Prelude.{◌≡◌, ◌≤◌, [], length, take, map};
ghost use Rattle.std.specs.Result.{result_err, result_unwrap_or};
ghost use Rattle.vm_chain.specs.Walk.{walk_of};
ghost use Rattle.vm_link.specs.Parcel.{homes_of};

use crate::Parcel;
use vm_chain::{Chain, ChainFault, Desc, walk};
use vm_mem::Page;

/// As many pages as a parcel may have.
const MAX_PAGES: usize = 4;

/// Walks a parcel's table from 0 on, in its pages, over as many descriptors as `chain` was made
/// for.
pub fn walk_parcel(parcel: &Parcel, chain: &mut Chain) -> Option<ChainFault>
    requires { length parcel.now.pages ≤ 4 }
    ensures fault { result ≡ result_err (walk_of parcel.now.table 0 chain.old.limit
        (homes_of parcel.now)) }
    ensures chain { chain.new ≡ record chain.old {
      descs = result_unwrap_or
          (walk_of parcel.now.table 0 chain.old.limit (homes_of parcel.now)) [];
    } }
{
    walk_table(parcel.table.as_slice(), parcel.pages.as_slice(), chain)
}

fn walk_table(table: &[Desc], pages: &[Page], chain: &mut Chain) -> Option<ChainFault>
    requires { length pages.now ≤ 4 }
    ensures fault { result ≡ result_err (walk_of table.now 0 chain.old.limit
        (map (λ page. page.number) pages.now)) }
    ensures chain { chain.new ≡ record chain.old {
      descs = result_unwrap_or
          (walk_of table.now 0 chain.old.limit (map (λ page. page.number) pages.now)) [];
    } }
{
    let mut homes = [0; MAX_PAGES];
    list_homes(pages, &mut homes);
    walk(table, 0, chain.limit(), &homes[..pages.len()], chain).err()
}

/// Puts the numbers of the pages to the front of `homes`.
fn list_homes(pages: &[Page], homes: &mut [u64])
    requires { length pages.now ≤ length homes.old }
    ensures numbers { take (length pages.now) homes.new ≡ map (λ page. page.number) pages.now }
    ensures size { length homes.new ≡ length homes.old }
{
    for (place, page) in pages.iter().enumerate() {
        homes[place] = page.number;
    }
}
