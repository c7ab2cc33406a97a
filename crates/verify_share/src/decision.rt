ghost use Rattle.std.specs.Prelude.{option_copied};
ghost use Rattle.verify_share.specs.Comparison.{IsVerdict, Decides};

use crate::{Judged, Verdict};
use blk_base::Block;
use lane_kernels::equal;
use slab_counts::Claim;

/// Whether the block that was read has the bytes that are wanted.
pub fn judge(read: &Block, wanted: &Block) -> Verdict
    ensures { IsVerdict read.now wanted.now result }
{
    if equal(read, wanted) {
        Verdict::Same
    } else {
        Verdict::Different
    }
}

/// Decides whether a write shares the block on which it has the claim `share`, or stores its bytes in its `own`. It
/// shares exactly where the block was read (`None` where that failed) and has the bytes that are wanted. Both claims come
/// back as they were.
pub fn decide(read: Option<&Block>, wanted: &Block, own: Option<Claim>, share: Claim) -> Judged
    ensures { Decides (option_copied read.entry) wanted.now own share result }
{
    match read.map(|block| judge(block, wanted)) {
        Some(Verdict::Same) => Judged::Shared { share, spare: own },
        Some(Verdict::Different) | None => Judged::Stored { own, spare: share },
    }
}
