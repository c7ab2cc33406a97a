ghost use Rattle.std.specs.Prelude.{◌≡◌, ◌≤◌, ◌∷◌, [], Ok, Err, IfOk, IfErr};
ghost use Rattle.blk_base.specs.Regions.{needed_blocks};
ghost use Rattle.image_layout.specs.PossibleSizes.{each_size, first_failing, plan_of};

use crate::superblock_reader::{is_within, logical_limit};
use crate::{Field, LayoutFault};
use blk_base::{Geometry, Layout};

/// The layout of an image of these sizes on a device that has `blocks` blocks.
///
/// The checks are made in this order, and the first that fails is answered:
///
/// | Size | Accepted | Else |
/// |---|---|---|
/// | height | 2, 3 | `Size(Height)` |
/// | nonce | not 0 | `Size(Nonce)` |
/// | logical | not 0 | `Size(Logical)` |
/// | slabs | 1 to 1,024 | `Size(Slabs)` |
/// | slab_blocks | 16 to 32,768 | `Size(SlabBlocks)` |
/// | journal | 8 to 1,024 | `Size(Journal)` |
/// | index | 4 to 1,024, a multiple of 4 | `Size(Index)` |
/// | slab_journal | 2 to 64 | `Size(SlabJournal)` |
/// | logical | to 39,560,640 at height 2, to 4,000,000,000 at height 3 | `LogicalTooLarge` |
/// | the blocks that these sizes need | to `blocks` | `TooSmall` |
pub fn plan(wanted: &Geometry, blocks: u32) -> Result<Layout, LayoutFault>
    ensures planned { IfOk result (λ layout.
        (layout.geometry ≡ wanted.now) × (plan_of wanted.now blocks ≡ Ok tt)) }
    ensures fault { IfErr result (λ fault. plan_of wanted.now blocks ≡ Err fault) }

    // What is planned is within its limits, and the device has the blocks.
    ensures room { IfOk result (λ layout. needed_blocks wanted.now ≤ blocks) }
{
    check_sizes(wanted)?;
    check(
        wanted.logical <= logical_limit(wanted.height),
        LayoutFault::LogicalTooLarge,
    )?;
    let layout = Layout::of(wanted);
    let needed = layout.needed();
    check(
        needed <= blocks,
        LayoutFault::TooSmall {
            needed,
            has: blocks,
        },
    )?;
    Ok(layout)
}

// Each size, of the logical size only that it isn't 0.
fn check_sizes(wanted: &Geometry) -> Result<(), LayoutFault>
    ensures { result ≡ first_failing (each_size wanted.now) }
{
    let index = is_within(4, 1024, wanted.index) && wanted.index % 4 == 0;
    check_size(is_within(2, 3, wanted.height), Field::Height)?;
    check_size(wanted.nonce >= 1, Field::Nonce)?;
    check_size(wanted.logical >= 1, Field::Logical)?;
    check_size(is_within(1, 1024, wanted.slabs), Field::Slabs)?;
    check_size(is_within(16, 32768, wanted.slab_blocks), Field::SlabBlocks)?;
    check_size(is_within(8, 1024, wanted.journal), Field::Journal)?;
    check_size(index, Field::Index)?;
    check_size(is_within(2, 64, wanted.slab_journal), Field::SlabJournal)
}

fn check_size(passed: bool, field: Field) -> Result<(), LayoutFault>
    ensures { result ≡ first_failing ((passed, LayoutFault.Size field) ∷ []) }
{
    check(passed, LayoutFault::Size(field))
}

fn check(passed: bool, fault: LayoutFault) -> Result<(), LayoutFault>
    ensures { result ≡ first_failing ((passed, fault) ∷ []) }
{
    if passed { Ok(()) } else { Err(fault) }
}
