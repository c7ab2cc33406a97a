ghost use Rattle.std.specs.Prelude.{◌≡◌, ◌+◌, ◌*◌, ◌<◌, length, min};
ghost use Rattle.std.specs.Bool.{OnTrue, OnFalse};
ghost use Rattle.blk_base.specs.Counters.{sectors_per_slab};
ghost use Rattle.blk_base.specs.Regions.{ReferenceBlock as Reference, IsPlace, data_blocks};
ghost use Rattle.blk_base.specs.Sectors.{sector};
ghost use Rattle.count_updates.specs.Numbers.{all_sectors};
ghost use Rattle.recovery_blocks.specs.Counters.{AreCountsPut, HasUpdate, points_of};
ghost use Rattle.recovery_blocks.specs.Spelled.{AreSpelled, IsCounted, IsSpelled};

use blk_base::{Block, Layout, Point, SECTOR_COUNTERS};
use replay_counts::{RecoveredCounts, SectorPoints};
use slab_codec::{ReferenceBlock, ReferenceSector, encode_reference, reference_sector};

/// How many sectors a block has.
const SECTORS: u32 = 8;

// A sector past the slab's end is written as it was, its commit point too: nothing is counted there.
/// Puts into a block of a slab's counters, by its number there from 0, the stored counts, and into each of its sectors the
/// greatest point that was applied to it. Counters behind the slab's end are 0 in a sector that it lies in, and sectors past
/// it stay.
pub fn put_counts(block: &mut Block, layout: &Layout, slab: u32, i: u32, counts: &RecoveredCounts)
    requires inside { IsPlace layout.now.geometry (Reference slab i) }
    requires counts { length counts.now.counts.items ≡ data_blocks layout.now.geometry }
    requires sectors { length counts.now.sectors.items ≡ all_sectors layout.now.geometry }
    ensures put { AreCountsPut layout.now.geometry slab i counts.now.counts.items
        counts.now.sectors.items block.old block.new }
    ensures whole { length block.new ≡ 4096 }
{
    let sectors = sectors_of(block, layout, slab, i, counts);
    encode_reference(&ReferenceBlock { sectors }, block);
}

// What its sectors are to say.
fn sectors_of(
    block: &Block,
    layout: &Layout,
    slab: u32,
    i: u32,
    counts: &RecoveredCounts,
) -> [ReferenceSector; 8]
    requires inside { IsPlace layout.now.geometry (Reference slab i) }
    requires counts { length counts.now.counts.items ≡ data_blocks layout.now.geometry }
    requires sectors { length counts.now.sectors.items ≡ all_sectors layout.now.geometry }
    ensures { AreSpelled layout.now.geometry slab i counts.now.counts.items counts.now.sectors.items
        block.now 8 result }
{
    let mut sectors = [ReferenceSector {
        commit: Point(0),
        counters: [0; SECTOR_COUNTERS],
    }; 8];
    for j in 0..8_u16 {
        sectors[usize::from(j)] = sector_at(block, layout, slab, i, j, counts);
    }
    sectors
}

// What one of them is to say.
fn sector_at(
    block: &Block,
    layout: &Layout,
    slab: u32,
    i: u32,
    j: u16,
    counts: &RecoveredCounts,
) -> ReferenceSector
    requires inside { IsPlace layout.now.geometry (Reference slab i) }
    requires small { j < 8 }
    requires counts { length counts.now.counts.items ≡ data_blocks layout.now.geometry }
    requires sectors { length counts.now.sectors.items ≡ all_sectors layout.now.geometry }
    ensures { IsSpelled layout.now.geometry slab
        (i * 8 + j) counts.now.counts.items counts.now.sectors.items (sector j block.now) result }
{
    let n = i * SECTORS + u32::from(j);
    if n < layout.sectors_per_slab() {
        counted_sector(layout, slab, n, counts)
    } else {
        reference_sector(block, j)
    }
}

// A sector with its counts.
fn counted_sector(layout: &Layout, slab: u32, n: u32, counts: &RecoveredCounts) -> ReferenceSector
    requires slab { slab < layout.now.geometry.slabs }
    requires inside { n < sectors_per_slab layout.now.geometry }
    requires counts { length counts.now.counts.items ≡ data_blocks layout.now.geometry }
    requires sectors { length counts.now.sectors.items ≡ all_sectors layout.now.geometry }
    ensures commit { result.commit
        ≡ (points_of layout.now.geometry counts.now.sectors.items slab n).applied }
    ensures counters { IsCounted layout.now.geometry slab n counts.now.counts.items
        (layout.now.geometry.slab_blocks) result.counters }
{
    let points = points_at(layout, slab, n, &counts.sectors);
    ReferenceSector {
        commit: points.applied,
        counters: counters_of(layout, slab, n, &counts.counts),
    }
}

// The points of a sector.
fn points_at(layout: &Layout, slab: u32, n: u32, sectors: &[SectorPoints]) -> SectorPoints
    requires slab { slab < layout.now.geometry.slabs }
    requires inside { n < sectors_per_slab layout.now.geometry }
    requires all { length sectors.now ≡ all_sectors layout.now.geometry }
    ensures { result ≡ points_of layout.now.geometry sectors.now slab n }
{
    sectors[layout.sector_number(slab, n) as usize]
}

// The counters of a sector; those past the slab's end are 0.
fn counters_of(layout: &Layout, slab: u32, n: u32, counts: &[u16]) -> [u8; SECTOR_COUNTERS]
    requires slab { slab < layout.now.geometry.slabs }
    requires inside { n < sectors_per_slab layout.now.geometry }
    requires all { length counts.now ≡ data_blocks layout.now.geometry }
    ensures { IsCounted layout.now.geometry slab n counts.now
        (layout.now.geometry.slab_blocks) result }
{
    let width = layout.counters_per_sector();
    let first = n * width;
    let end = (first + width).min(layout.geometry.slab_blocks);
    let mut counters = [0; SECTOR_COUNTERS];
    for offset in first..end {
        let count = counts[layout.block_number(slab, offset) as usize];
        counters[(offset - first) as usize] = counter(count);
    }
    counters
}

// A count as a counter: 255 stands for more.
fn counter(count: u16) -> u8
    ensures { result ≡ min count 255 }
{
    count.min(255) as u8
}

/// Whether a sector of a block of a slab's counters, by its number there from 0, has an update above its commit point.
pub fn has_updates(layout: &Layout, slab: u32, i: u32, sectors: &[SectorPoints]) -> bool
    requires inside { IsPlace layout.now.geometry (Reference slab i) }
    requires all { length sectors.now ≡ all_sectors layout.now.geometry }
    ensures yes { OnTrue result (HasUpdate layout.now.geometry slab i sectors.now) }
    ensures no { OnFalse result (HasUpdate layout.now.geometry slab i sectors.now → ⊥) }
{
    let end = (i * SECTORS + SECTORS).min(layout.sectors_per_slab());
    for n in i * SECTORS..end {
        let points = points_at(layout, slab, n, sectors);
        if points.commit.0 != points.applied.0 {
            return true;
        }
    }
    false
}
