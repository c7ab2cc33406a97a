ghost use Rattle.std.specs.Prelude.{◌≡◌, ◌≤◌, ◌<◌, length};
ghost use Rattle.blk_base.specs.Regions.{ReferenceBlock, IsPlace, needed_blocks, references_of, data_blocks};
ghost use Rattle.count_updates.specs.Numbers.{all_sectors};
ghost use Rattle.rebuild.specs.Acts.{Acts, recovery};
ghost use Rattle.rebuild.specs.Done.{AreSlabsDone, HasTheseCounts, IsBlockDone, IsSlabDone};

use blk_base::Layout;
use disk_model::{Disk, Failed, read_block};
use image_format::calls::put;
use recovery_blocks::{has_updates, put_counts};
use replay_counts::RecoveredCounts;

// Writes each block of counters that has an update above a commit point.
pub(crate) fn put_slabs<D: Disk>(
    device: &mut D,
    layout: &Layout,
    counts: &RecoveredCounts,
) -> Result<(), Failed>
    requires room { needed_blocks layout.now.geometry ≤ (D.seen device.old).size }
    requires counts { length counts.now.counts.items ≡ data_blocks layout.now.geometry }
    requires sectors { length counts.now.sectors.items ≡ all_sectors layout.now.geometry }
    ensures { Acts D.trust.tells (recovery D.trust) (D.seen device.old) (D.seen device.new)
        (HasTheseCounts layout.now.geometry counts.now.counts.items counts.now.sectors.items)
        (AreSlabsDone layout.now.geometry counts.now.sectors.items layout.now.geometry.slabs)
        result }
{
    for slab in 0..layout.geometry.slabs {
        put_slab(device, layout, slab, counts)?;
    }
    Ok(())
}

// Writes those of a slab.
fn put_slab<D: Disk>(
    device: &mut D,
    layout: &Layout,
    slab: u32,
    counts: &RecoveredCounts,
) -> Result<(), Failed>
    requires room { needed_blocks layout.now.geometry ≤ (D.seen device.old).size }
    requires inside { slab < layout.now.geometry.slabs }
    requires counts { length counts.now.counts.items ≡ data_blocks layout.now.geometry }
    requires sectors { length counts.now.sectors.items ≡ all_sectors layout.now.geometry }
    ensures { Acts D.trust.tells (recovery D.trust) (D.seen device.old) (D.seen device.new)
        (HasTheseCounts layout.now.geometry counts.now.counts.items counts.now.sectors.items)
        (IsSlabDone layout.now.geometry counts.now.sectors.items slab
        (references_of layout.now.geometry)) result }
{
    for i in 0..layout.references() {
        put_block(device, layout, slab, i, counts)?;
    }
    Ok(())
}

// Writes this one, if it has.
// Long to prove: each clause is shown on each way out.
fn put_block<D: Disk>(
    device: &mut D,
    layout: &Layout,
    slab: u32,
    i: u32,
    counts: &RecoveredCounts,
) -> Result<(), Failed>
    requires room { needed_blocks layout.now.geometry ≤ (D.seen device.old).size }
    requires inside { IsPlace layout.now.geometry (ReferenceBlock slab i) }
    requires counts { length counts.now.counts.items ≡ data_blocks layout.now.geometry }
    requires sectors { length counts.now.sectors.items ≡ all_sectors layout.now.geometry }
    ensures { Acts D.trust.tells (recovery D.trust) (D.seen device.old) (D.seen device.new)
        (HasTheseCounts layout.now.geometry counts.now.counts.items counts.now.sectors.items)
        (IsBlockDone layout.now.geometry counts.now.sectors.items slab i) result }
{
    if has_updates(layout, slab, i, &counts.sectors) {
        write_block(device, layout, slab, i, counts)
    } else {
        Ok(())
    }
}

// Reads a block of counters, puts the counts into it, and writes it.
fn write_block<D: Disk>(
    device: &mut D,
    layout: &Layout,
    slab: u32,
    i: u32,
    counts: &RecoveredCounts,
) -> Result<(), Failed>
    requires room { needed_blocks layout.now.geometry ≤ (D.seen device.old).size }
    requires inside { IsPlace layout.now.geometry (ReferenceBlock slab i) }
    requires counts { length counts.now.counts.items ≡ data_blocks layout.now.geometry }
    requires sectors { length counts.now.sectors.items ≡ all_sectors layout.now.geometry }
    ensures { Acts D.trust.tells (recovery D.trust) (D.seen device.old) (D.seen device.new)
        (HasTheseCounts layout.now.geometry counts.now.counts.items counts.now.sectors.items)
        (IsBlockDone layout.now.geometry counts.now.sectors.items slab i) result }
{
    let at = layout.reference_block(slab, i);
    let mut block = read_block(device, at)?;
    put_counts(&mut block, layout, slab, i, counts);
    put(device, at, &block)
}
