ghost use Rattle.std.specs.Prelude.{◌≡◌, ◌<◌, ◌≤◌, ◌^◌, length};
ghost use Rattle.blk_base.specs.Regions.{SlabJournalSlot, block_of, needed_blocks, references_of, data_blocks};
ghost use Rattle.image_format.specs.Calls.{zeros_from};
ghost use Rattle.image_format.specs.Runs.{Makes};
ghost use Rattle.force_rebuild.specs.Calls.{counters_below, slab_calls, slabs_below};
ghost use Rattle.force_rebuild.specs.Written.{commit_behind, counted_block, counted_sectors, counters_of_slab};

use blk_base::{Block, Half, Layout, Point, SECTOR_COUNTERS};
use disk_model::{Disk, Failed};
use image_format::calls::put;
use slab_codec::{ReferenceBlock, ReferenceSector, encode_reference, sector_counters};

/// How many sectors a block has.
const SECTORS: u32 = 8;

/// The last entry that a block of the recovery journal can have.
const LAST_ENTRY: u16 = 191;

// Writes zeros into the journal of each slab, and these counters, one for each data block, slab after slab, with a commit point
// behind this last sequence.
pub(crate) fn put_slabs<D: Disk>(
    device: &mut D,
    layout: &Layout,
    last: u64,
    counters: &[u8],
) -> Result<(), Failed>
    requires room { needed_blocks layout.now.geometry ≤ (D.seen device.old).size }
    requires few { last < 2 ^ 54 }
    requires all { length counters.now ≡ data_blocks layout.now.geometry }
    ensures { Makes D.trust.tells (D.seen device.old) (D.seen device.new)
        (slabs_below layout.now.geometry
        (commit_behind last) counters.now layout.now.geometry.slabs) result }
{
    let commit = commit_point(last);
    for slab in 0..layout.geometry.slabs {
        put_slab(device, layout, commit, slab, counters)?;
    }
    Ok(())
}

// The point behind all that a window can say whose last sequence this is.
// Long to prove: the greatest point of 54 bits is computed.
fn commit_point(last: u64) -> Point
    requires { last < 2 ^ 54 }
    ensures { result.0 ≡ commit_behind last }
{
    Point::of(last, LAST_ENTRY, Half::Decrement)
}

// Writes those of a slab.
fn put_slab<D: Disk>(
    device: &mut D,
    layout: &Layout,
    commit: Point,
    slab: u32,
    counters: &[u8],
) -> Result<(), Failed>
    requires room { needed_blocks layout.now.geometry ≤ (D.seen device.old).size }
    requires inside { slab < layout.now.geometry.slabs }
    requires all { length counters.now ≡ data_blocks layout.now.geometry }
    ensures { Makes D.trust.tells (D.seen device.old) (D.seen device.new)
        (slab_calls layout.now.geometry commit.0 counters.now slab) result }
{
    empty_journal(device, layout, slab)?;
    put_counters(
        device,
        layout,
        commit,
        slab,
        of_slab(layout, slab, counters),
    )
}

// The counters of a slab.
fn of_slab<'a>(layout: &Layout, slab: u32, counters: &'a [u8]) -> &'a [u8]
    requires inside { slab < layout.now.geometry.slabs }
    requires all { length counters.now ≡ data_blocks layout.now.geometry }
    ensures { result.now ≡ counters_of_slab layout.now.geometry counters.now slab }
{
    let first = layout.block_number(slab, 0) as usize;
    &counters[first..first + layout.geometry.slab_blocks as usize]
}

// Writes zeros into a slab's journal.
fn empty_journal<D: Disk>(device: &mut D, layout: &Layout, slab: u32) -> Result<(), Failed>
    requires room { needed_blocks layout.now.geometry ≤ (D.seen device.old).size }
    requires inside { slab < layout.now.geometry.slabs }
    ensures { Makes D.trust.tells (D.seen device.old) (D.seen device.new)
        (zeros_from
        (block_of layout.now.geometry (SlabJournalSlot slab 0)) layout.now.geometry.slab_journal)
        result }
{
    let zeros = Block::zero();
    for slot in 0..u64::from(layout.geometry.slab_journal) {
        put(device, layout.slab_journal_slot(slab, slot), &zeros)?;
    }
    Ok(())
}

// Writes a slab's counters.
fn put_counters<D: Disk>(
    device: &mut D,
    layout: &Layout,
    commit: Point,
    slab: u32,
    own: &[u8],
) -> Result<(), Failed>
    requires room { needed_blocks layout.now.geometry ≤ (D.seen device.old).size }
    requires inside { slab < layout.now.geometry.slabs }
    ensures { Makes D.trust.tells (D.seen device.old) (D.seen device.new)
        (counters_below layout.now.geometry commit.0 slab own.now
        (references_of layout.now.geometry)) result }
{
    let mut block = Block::zero();
    for i in 0..layout.references() {
        counters_block(layout, commit, own, i, &mut block);
        put(device, layout.reference_block(slab, i), &block)?;
    }
    Ok(())
}

// One of them.
fn counters_block(layout: &Layout, commit: Point, own: &[u8], i: u32, into: &mut Block)
    requires { i < 2 ^ 16 }
    ensures { into.new ≡ counted_block layout.now.geometry commit.0 own.now i }
{
    let sectors = sectors_of(layout, commit, own, i);
    encode_reference(&ReferenceBlock { sectors }, into);
}

// Its sectors.
fn sectors_of(layout: &Layout, commit: Point, own: &[u8], i: u32) -> [ReferenceSector; 8]
    requires { i < 2 ^ 16 }
    ensures { result ≡ counted_sectors layout.now.geometry commit.0 own.now i }
{
    let mut sectors = [ReferenceSector {
        commit,
        counters: [0; SECTOR_COUNTERS],
    }; 8];
    for j in 0..8_u16 {
        sectors[usize::from(j)] = ReferenceSector {
            commit,
            counters: sector_counters(layout, own, i * SECTORS + u32::from(j)),
        };
    }
    sectors
}
