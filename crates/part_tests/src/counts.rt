ghost use Rattle.std.specs.Prelude.{◌≡◌, IfOk};
ghost use Rattle.blk_base.specs.Regions.{slab_start_of};
ghost use Rattle.slab_counts.specs.Kept.{IsWithin};

use crate::images::{TWO_ZONES, block_of, image_of_two_zones};
use blk_base::{Half, Pbn};
use slab_counts::{Refusal, SlabCounts, Stray};
use std::alloc::{AllocError, Global};
use std::test::Fail;

// The second slab, whose blocks are 106 to 121.
fn second_slab(alloc: Global) -> Result<SlabCounts, AllocError>
    ensures within { IfOk result IsWithin }
    ensures first { IfOk result (λ counts. slab_start_of counts.geometry counts.slab ≡ 106) }
    ensures blocks { IfOk result (λ counts. counts.geometry.slab_blocks ≡ 16) }
{
    let opened = image_of_two_zones(alloc)?;
    SlabCounts::new(alloc, &TWO_ZONES, 1, &opened)
}

// A block as high as can be, a free one, one with a tree page, one on either side of the slab, and one that is shared.
#[test]
fn what_cannot_be_shared(rt: HostRuntime) -> Result<(), Fail> {
    let mut counts = second_slab(rt.alloc())?;
    let before = [
        block_of(counts.claim_share(Pbn(107))),
        block_of(counts.claim_share(Pbn(112))),
        block_of(counts.claim_share(Pbn(106))),
        block_of(counts.claim_share(Pbn(122))),
        block_of(counts.claim_share(Pbn(105))),
        block_of(counts.claim_share(Pbn(111))),
    ];
    let wanted = [
        Err(Refusal::Full),
        Err(Refusal::NotLive),
        Err(Refusal::NotData),
        Err(Refusal::NotData),
        Err(Refusal::NotData),
        Ok(111),
    ];
    assert_eq!(rt; before, wanted);
    Ok(())
}

// A block that becomes a tree page isn't shared.
#[test]
fn a_page_is_not_shared(rt: HostRuntime) -> Result<(), Fail> {
    let mut counts = second_slab(rt.alloc())?;
    let claim = counts.claim_free().ok_or("first")?;
    let at = counts.spend_page(claim);
    let counted = counts.apply(Half::Increment, Pbn(112));
    let refused = block_of(counts.claim_share(at));
    assert_eq!(rt;
        (at.0, counted, refused),
        (112, Ok(()), Err(Refusal::NotData))
    );
    Ok(())
}

// The block's counter, and how many blocks are used.
fn seen(counts: &SlabCounts) -> (Option<u8>, u32) {
    (counts.counters().get(6).copied(), counts.used())
}

// The life of a block: claimed, extended, spent, mapped, unmapped, and claimed again.
#[test]
fn a_block_is_used_again(rt: HostRuntime) -> Result<(), Fail> {
    let mut counts = second_slab(rt.alloc())?;
    let some_free = counts.has_free();
    let first = counts.claim_free().ok_or("first")?;
    let more = counts.extend(&first);
    let claimed = (some_free, counts.count(Pbn(112)), counts.is_free(Pbn(112)));
    let Ok(more) = more else {
        return Err(Fail::from("more"));
    };
    let at = counts.spend(first);
    counts.drop_claim(more);
    let taken = counts.apply(Half::Increment, Pbn(112));
    let stray = counts.apply(Half::Increment, Pbn(112));
    let mapped = seen(&counts);
    let taken_off = counts.apply(Half::Decrement, Pbn(112));
    let stray_too = counts.apply(Half::Decrement, Pbn(112));
    let unmapped = seen(&counts);
    let again = counts.claim_free().map(|claim| claim.block());
    let answers = [taken, stray, taken_off, stray_too];
    let wanted = [
        Ok(()),
        Err(Stray { count: 1 }),
        Ok(()),
        Err(Stray { count: 0 }),
    ];
    assert_eq!(rt;
        (claimed, at, again),
        ((true, 0, false), Pbn(112), Some(Pbn(112)))
    );
    assert_eq!(rt;
        (answers, mapped, unmapped),
        (wanted, (Some(1), 16), (Some(0), 15))
    );
    Ok(())
}
