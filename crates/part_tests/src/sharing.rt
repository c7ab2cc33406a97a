use crate::images::{TWO_ZONES, image_of_two_zones};
use blk_base::Block;
use slab_counts::{Claim, SlabCounts};
use std::test::Fail;
use verify_share::{Judged, Verdict, decide, judge};

/// Whether a write shares, and the blocks of its claims: first the one that it uses.
type Seen = (bool, Option<u32>, Option<u32>);

fn block_of(claim: &Option<Claim>) -> Option<u32> {
    match claim {
        Some(claim) => Some(claim.block().0),
        None => None,
    }
}

fn seen(judged: &Judged) -> Seen {
    match judged {
        Judged::Shared { share, spare } => (true, Some(share.block().0), block_of(spare)),
        Judged::Stored { own, spare } => (false, block_of(own), Some(spare.block().0)),
    }
}

// What is decided where another block was read, and then the same one; and where none was read, and there is no own claim.
// Block 85 is the own one, and 86 the other.
fn decide_thrice(block: &Block, other: &Block, mut counts: SlabCounts) -> Option<[Seen; 3]> {
    let own = counts.claim_free();
    let share = counts.claim_free()?;
    let stored = decide(Some(other), block, own, share);
    let first = seen(&stored);
    let Judged::Stored { own, spare } = stored else {
        return None;
    };
    let shared = decide(Some(block), block, own, spare);
    let second = seen(&shared);
    let Judged::Shared { share, .. } = shared else {
        return None;
    };
    Some([first, second, seen(&decide(None, block, None, share))])
}

// Two blocks, of which one has another last byte. Both claims come back.
#[test]
fn blocks_are_judged_by_all_their_bytes(rt: HostRuntime) -> Result<(), Fail> {
    let opened = image_of_two_zones(rt.alloc())?;
    let counts = SlabCounts::new(rt.alloc(), &TWO_ZONES, 0, &opened)?;
    let block = Block { bytes: [3; 4096] };
    let mut other = Block { bytes: [3; 4096] };
    other.bytes[4095] = 4;
    let verdicts = [judge(&block, &block), judge(&other, &block)];
    let seen = decide_thrice(&block, &other, counts);
    let wanted = [
        (false, Some(85), Some(86)),
        (true, Some(86), Some(85)),
        (false, None, Some(86)),
    ];
    assert_eq!(rt;
        (verdicts, seen),
        ([Verdict::Same, Verdict::Different], Some(wanted))
    );
    Ok(())
}
