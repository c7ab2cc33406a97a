ghost use Rattle.std.specs.Prelude.{◌≡◌, ◌≤◌, ◌<◌, All, IfOk, length};

use blk_base::{Geometry, Opened, Pbn, Point, Super};
use slab_counts::{Claim, Refusal};
use std::alloc::{AllocError, Global};

/// Eight slabs of 16 data blocks. Of two zones the second one has the second, fourth, sixth and eighth of them, which begin
/// at the blocks 106, 148, 190 and 232.
pub(crate) const TWO_ZONES: Geometry = Geometry {
    slabs: 8,
    slab_blocks: 16,
    ..Geometry::DEFAULT
};

// The first counters of the second zone: one of a tree page, one as high as can be, three almost so, and the only free one.
static COUNTERS: [u8; 7] = [1, 254, 253, 252, 250, 3, 0];

/// An image of eight slabs. The blocks of the first of two zones are free. In the order of the blocks of the second one, the
/// first has a tree page, the seventh is free, and the others are mapped.
pub(crate) fn image_of_two_zones(alloc: Global) -> Result<Opened, AllocError>
    ensures sizes { IfOk result (λ opened. opened.head.geometry ≡ TWO_ZONES) }
    ensures counters { IfOk result (λ opened. length opened.counters.items ≡ 128) }
    ensures limit { IfOk result (λ opened. All (λ counter. counter ≤ 254) opened.counters.items) }
    ensures commits { IfOk result (λ opened. length opened.commits.items ≡ 8) }
{
    let counters = all_counters(alloc)?;
    Ok(Opened {
        head: Super {
            geometry: TWO_ZONES,
            clean: true,
            start: 1,
        },
        pages: Vec::new(alloc),
        counters,
        commits: [Point(0); 8].to_vec(alloc)?,
        tree_pages: [Pbn(106)].to_vec(alloc)?,
    })
}

fn all_counters(alloc: Global) -> Result<Vec<u8>, AllocError>
    ensures count { IfOk result (λ counters. length counters.items ≡ 128) }
    ensures limit { IfOk result (λ counters. All (λ counter. counter ≤ 254) counters.items) }
{
    let mut counters = Vec::new(alloc);
    for k in 0..128_usize {
        counters.push(counter_of(k / 16, k % 16))?;
    }
    Ok(counters)
}

// The counter of the block of a slab with this offset.
fn counter_of(slab: usize, offset: usize) -> u8
    requires { (slab < 8) × (offset < 16) }
    ensures { result ≤ 254 }
{
    if slab % 2 == 0 {
        return 0;
    }
    match COUNTERS.get(slab / 2 * 16 + offset) {
        Some(counter) => (*counter).min(254),
        None => 1,
    }
}

/// The block of a claim that was given.
pub(crate) fn block_of(claim: Result<Claim, Refusal>) -> Result<u32, Refusal> {
    Ok(claim?.block().0)
}
