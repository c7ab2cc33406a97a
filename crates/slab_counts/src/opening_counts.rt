ghost use Rattle.std.specs.Prelude.{◌≡◌, ◌+◌, ◌*◌, ◌≤◌, ◌<◌, ◌^◌, length, take, drop, replicate, IfOk};

use std::alloc::{AllocError, Global};

/// The counters of so many data blocks for each slab, of those the ones of this slab.
pub(crate) fn opening_counters(
    alloc: Global,
    counters: &[u8],
    slab: u32,
    count: u32,
) -> Result<Vec<u8>, AllocError>
    requires there { (slab + 1) * count ≤ length counters.now }
    requires small { (slab + 1) * count < 2 ^ 32 }
    ensures { IfOk result (λ list. list.items ≡ take count (drop (slab * count) counters.now)) }
{
    let first = slab as usize * count as usize;
    counters[first..first + count as usize].to_vec(alloc)
}

// Long to prove: the values are of any type.
/// A list of so many equal values.
pub(crate) fn repeated<T: Copy>(alloc: Global, value: T, count: u32) -> Result<Vec<T>, AllocError>
    ensures { IfOk result (λ list. list.items ≡ replicate count value) }
{
    let mut list = Vec::with_capacity(alloc, count as usize)?;
    for made in 0..count {
        list.push_reserved(value);
    }
    Ok(list)
}
