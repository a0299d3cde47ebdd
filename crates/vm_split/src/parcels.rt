ghost use Rattle.std.specs.Prelude.{◌≡◌, ◌≤◌, ◌<◌, Some, None, IfOk, filter, not, ◌==◌, length, replicate, slice_index_or, slice_set, vec_capacity};

use std::alloc::Global;
use vm_link::Parcel;
use vm_mem::Memory;

/// No parcels, with a place for each of `size` heads.
pub fn no_parcels(alloc: Global, size: u16) -> Result<Vec<Option<Parcel>>, Memory>
    ensures { IfOk result (λ parcels. parcels.items ≡ replicate size None) }
{
    let mut parcels = Vec::with_capacity(alloc, usize::from(size))?;
    for _head in 0..size {
        parcels.push_reserved(None);
    }
    Ok(parcels)
}

/// No owners, with a place for each of `size` descriptors.
pub fn no_owners(alloc: Global, size: u16) -> Result<Vec<Option<u16>>, Memory>
    ensures { IfOk result (λ owners. owners.items ≡ replicate size None) }
{
    let owners = vec![in alloc; None; usize::from(size)]?;
    Ok(owners)
}

/// Puts a parcel to its head.
pub fn put_parcel(parcels: &mut [Option<Parcel>], head: u16, parcel: Parcel)
    requires { head < length parcels.old }
    ensures { parcels.new ≡ slice_set parcels.old head (Some parcel) }
{
    parcels[usize::from(head)] = Some(parcel);
}

/// Takes the parcel with this head.
pub fn take_parcel(parcels: &mut [Option<Parcel>], head: u16) -> Option<Parcel>
    requires { head < length parcels.old }
    ensures parcel { result ≡ slice_index_or parcels.old head None }
    ensures parcels { parcels.new ≡ slice_set parcels.old head None }
{
    parcels[usize::from(head)].take()
}

/// Takes a head out of a list.
pub fn remove(heads: &mut Vec<u16>, head: u16)
    ensures list { heads.new.items ≡ filter (λ h. not (h == head)) heads.old.items }
    ensures capacity { vec_capacity heads.new ≡ vec_capacity heads.old }
{
    heads.retain(|other| *other != head);
}
