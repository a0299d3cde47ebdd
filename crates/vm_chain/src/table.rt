ghost use Rattle.std.specs.Prelude.{◌≡◌, ◌≤◌, ◌<◌, [], length, IsTrue, IfOk, OnOk, slice_get};
ghost use Rattle.std.specs.Result.{result_err, result_unwrap_or};
ghost use Rattle.std.specs.List.{list_any};
ghost use Rattle.vm_mem.specs.Page.{lies_in_page};
ghost use Rattle.vm_chain.specs.Walk.{walk_of, fault_of};

use crate::{Chain, ChainFault, ChainKind, Desc};
use vm_mem::lies_in_page;

/// Walks the table from the descriptor `head` on, and leaves the descriptors of the walk in `out`.
/// At most `limit` of them are allowed, and the bytes of each have to lie in one of the pages whose
/// numbers are `homes`. After a fault `out` is empty.
///
/// Source: VIRTIO 1.3, 2.7.5 "The Virtqueue Descriptor Table"; own are the limit, the refusal of a
/// descriptor without bytes, the pages and the order of the faults.
#[tactic(auto, unfolding(crate::specs::Walk::walk_of))]
pub fn walk(
    table: &[Desc],
    head: u16,
    limit: u16,
    homes: &[u64],
    out: &mut Chain,
) -> Result<(), ChainFault>
    requires { limit ≤ out.old.limit }
    ensures fault { result_err result ≡ result_err (walk_of table.now head limit homes.now) }
    ensures chain { out.new ≡ record out.old {
      descs = result_unwrap_or
          (walk_of table.now head limit homes.now) [];
    } }
{
    out.clear();
    let mut writable_before = false;
    let mut next = Some(head);
    while let Some(at) = next {
        let visited = out.descs().len();
        match visit(table, at, limit, visited, writable_before, homes) {
            Ok(desc) => {
                out.push(desc);
                writable_before |= desc.is_writable();
                next = desc.following();
            }
            Err(kind) => {
                out.clear();
                return Err(ChainFault { kind, at });
            }
        }
    }
    Ok(())
}

/// The descriptor at an index, or its first fault.
fn visit(
    table: &[Desc],
    at: u16,
    limit: u16,
    visited: usize,
    writable_before: bool,
    homes: &[u64],
) -> Result<Desc, ChainKind>
    ensures fault { result_err result ≡ fault_of limit visited writable_before homes.now
        (slice_get table.now at) }
    ensures ok { IfOk result (λ desc. slice_get table.now at ≡ Some desc) }
    ensures room { OnOk result (visited < limit) }
    ensures in_one_page { IfOk result (λ desc. desc.len ≤ 4096) }
{
    let Some(desc) = table.get(usize::from(at)).copied() else {
        return Err(ChainKind::NextOutside);
    };
    if visited >= usize::from(limit) {
        return Err(ChainKind::TooLong);
    }
    if desc.is_indirect() {
        return Err(ChainKind::Indirect);
    }
    if desc.len == 0 {
        return Err(ChainKind::ZeroLen);
    }
    if !desc.is_writable() && writable_before {
        return Err(ChainKind::WriteBeforeRead);
    }
    if !lies_in_one(&desc, homes) {
        return Err(ChainKind::AddrOutside);
    }
    Ok(desc)
}

/// Whether a descriptor's bytes lie in one of the pages with these numbers.
fn lies_in_one(desc: &Desc, homes: &[u64]) -> bool
    ensures value { result ≡ list_any (lies_in_page desc.now.addr desc.now.len) homes.now }
    ensures short { IsTrue result → desc.now.len ≤ 4096 }
{
    homes
        .iter()
        .any(|home| lies_in_page(desc.addr, desc.len, *home))
}
