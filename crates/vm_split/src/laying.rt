ghost use Rattle.std.specs.Prelude.{◌≡◌, length};
ghost use Rattle.vm_split.specs.Kept.{IsLaid, KeepsOthers, AreWithin, AreRising};
ghost use Rattle.vm_split.specs.Stands.{ring_index, on_ring};

use crate::ring::Ring;
use vm_chain::Desc;

/// What goes on the ring for an index outside of a parcel's table: no ring has so many descriptors.
const OUTSIDE: u16 = 65535;

/// Writes a parcel's table into the ring's, each descriptor to its place.
pub fn lay_chain(ring: &mut Ring, table: &[Desc], places: &[u16])
    requires each { length table.now ≡ length places.now }
    requires room { length ring.old.contents.table ≡ ring.old.size }
    requires within { AreWithin ring.old.size places.now }
    requires rising { AreRising places.now }
    ensures laid { IsLaid ring.new.contents.table places.now table.now }
    ensures others { KeepsOthers places.now ring.old.contents.table ring.new.contents.table }
    ensures room { length ring.new.contents.table ≡ length ring.old.contents.table }
    ensures rest { ring.new.contents
        ≡ record ring.old.contents { table = ring.new.contents.table } }
    ensures size { ring.new.size ≡ ring.old.size }
{
    for k in 0..table.len() {
        ring.set_desc(places[k], on_ring(places, table[k]));
    }
}

/// A table's descriptor as it stands on the ring, where the table's are those at `places`.
fn on_ring(places: &[u16], desc: Desc) -> Desc
    ensures { result ≡ on_ring places.now desc }
{
    let next = ring_index(places, desc.next);
    Desc {
        addr: desc.addr,
        len: desc.len,
        flags: desc.flags,
        next,
    }
}

/// The ring's index for a table's.
fn ring_index(places: &[u16], at: u16) -> u16
    ensures { result ≡ ring_index places.now at }
{
    places.get(usize::from(at)).copied().unwrap_or(OUTSIDE)
}
