ghost use Rattle.std.specs.Prelude.{◌≡◌, ◌≤◌, IfOk, vec_capacity};
ghost use Rattle.std.specs.List.{range_with_len};

use std::alloc::Global;
use vm_mem::Memory;

/// The numbers below `size`.
#[tactic(auto, using(crate::proofs::HeadLemmas::range_more))]
pub fn all_heads(alloc: Global, size: u16) -> Result<Vec<u16>, Memory>
    ensures { IfOk result (λ heads. (heads.items ≡ range_with_len 0 size) ×
        (size ≤ vec_capacity heads)) }
{
    let mut heads = Vec::with_capacity(alloc, usize::from(size))?;
    for head in 0..size {
        heads.push_reserved(head);
    }
    Ok(heads)
}
