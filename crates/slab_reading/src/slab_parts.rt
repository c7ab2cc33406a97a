ghost use Rattle.std.specs.Prelude.{◌≡◌, ◌+◌, ◌<◌, OnOk, length, Contains, All};
ghost use Rattle.blk_base.specs.Counters.{sectors_per_slab};
ghost use Rattle.count_updates.specs.FoundLists.{lists_of};
ghost use Rattle.slab_codec.specs.Grammar.{HoldsEntry};
ghost use Rattle.slab_reading.specs.Found.{AddsCounters, AddsPoints, Took};
ghost use Rattle.slab_reading.specs.Slabs.{blocks_per_slab, SectorKeeps, BlockKeeps, SlabKeeps, Grew};

use blk_base::{Block, Layout, Point, Update};
use count_updates::Found;
use slab_codec::{SlabEntry, reference_sector, slab_sector};
use std::alloc::AllocError;

/// Adds what the blocks of a slab say.
pub(crate) fn take_slab(
    layout: &Layout,
    slab: u32,
    read: &[Block],
    found: &mut Found,
) -> Result<(), AllocError>
    requires inside { slab < layout.now.geometry.slabs }
    requires all { length read.now ≡ blocks_per_slab layout.now.geometry }
    ensures { OnOk result
        (Took layout.now.geometry slab read.now (lists_of found.old) (lists_of found.new)) }
{
    push_counters(layout, read, &mut found.counters)?;
    push_points(layout, read, &mut found.commits)?;
    push_updates(layout, slab, read, &mut found.updates)
}

// Adds the counters.
fn push_counters(layout: &Layout, read: &[Block], counters: &mut Vec<u8>) -> Result<(), AllocError>
    requires { length read.now ≡ blocks_per_slab layout.now.geometry }
    ensures { OnOk result
        (AddsCounters layout.now.geometry read.now layout.now.geometry.slab_blocks
        counters.old.items counters.new.items) }
{
    let mut left = layout.geometry.slab_blocks as usize;
    for n in 0..layout.sectors_per_slab() {
        let sector = reference_sector(&read[(n / 8) as usize], (n % 8) as u16);
        let count = left.min(sector.counters.len());
        counters.extend_from_slice(&sector.counters[..count])?;
        left -= count;
    }
    Ok(())
}

// Adds the commit points.
fn push_points(layout: &Layout, read: &[Block], commits: &mut Vec<Point>) -> Result<(), AllocError>
    requires { length read.now ≡ blocks_per_slab layout.now.geometry }
    ensures { OnOk result
        (AddsPoints read.now
        (sectors_per_slab layout.now.geometry) commits.old.items commits.new.items) }
{
    for n in 0..layout.sectors_per_slab() {
        let sector = reference_sector(&read[(n / 8) as usize], (n % 8) as u16);
        commits.push(sector.commit)?;
    }
    Ok(())
}

// Adds the updates that the valid sectors of the slab's journal have.
fn push_updates(
    layout: &Layout,
    slab: u32,
    read: &[Block],
    updates: &mut Vec<Update>,
) -> Result<(), AllocError>
    requires inside { slab < layout.now.geometry.slabs }
    requires all { length read.now ≡ blocks_per_slab layout.now.geometry }
    ensures { OnOk result
        (Grew layout.now.geometry slab
        (SlabKeeps layout.now.geometry slab read.now layout.now.geometry.slab_journal)
        updates.old.items updates.new.items) }
{
    let references = layout.references();
    for slot in 0..layout.geometry.slab_journal {
        push_block(layout, slab, &read[(references + slot) as usize], updates)?;
    }
    Ok(())
}

// Adds those of a block.
fn push_block(
    layout: &Layout,
    slab: u32,
    block: &Block,
    updates: &mut Vec<Update>,
) -> Result<(), AllocError>
    requires inside { slab < layout.now.geometry.slabs }
    ensures { OnOk result
        (Grew layout.now.geometry slab
        (BlockKeeps layout.now.geometry slab block.now 8) updates.old.items updates.new.items) }
{
    for number in 0..8_u16 {
        push_sector(layout, slab, block, number, updates)?;
    }
    Ok(())
}

// Adds those of a sector, if it is valid.
fn push_sector(
    layout: &Layout,
    slab: u32,
    block: &Block,
    number: u16,
    updates: &mut Vec<Update>,
) -> Result<(), AllocError>
    requires inside { slab < layout.now.geometry.slabs }
    ensures { OnOk result
        (Grew layout.now.geometry slab
        (SectorKeeps layout.now.geometry slab block.now number) updates.old.items
        updates.new.items) }
{
    let sizes = &layout.geometry;
    match slab_sector(block, number, sizes.nonce, slab, sizes.slab_blocks) {
        None => Ok(()),
        Some(found) => {
            push_entries(layout, slab, found.entries.as_slice(), updates)?;
            Ok(())
        }
    }
}

// Adds those of these entries.
// Long to prove: a push may find no memory in each turn.
fn push_entries(
    layout: &Layout,
    slab: u32,
    entries: &[SlabEntry],
    updates: &mut Vec<Update>,
) -> Result<(), AllocError>
    requires inside { slab < layout.now.geometry.slabs }
    requires held { All (HoldsEntry layout.now.geometry.slab_blocks) entries.now }
    ensures { OnOk result
        (Grew layout.now.geometry slab (Contains entries.now) updates.old.items updates.new.items) }
{
    for entry in entries {
        let at = layout.data_block(slab, u32::from(entry.offset));
        updates.push(Update {
            at,
            point: entry.point,
        })?;
    }
    Ok(())
}
