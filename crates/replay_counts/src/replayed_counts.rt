ghost use Rattle.std.specs.Prelude.{◌≡◌, ◌%◌, ◌≤◌, IfOk, IfErr, All, length, reverse};
ghost use Rattle.blk_base.specs.Counters.{limit_of};
ghost use Rattle.blk_base.specs.Limits.{IsGeometry};
ghost use Rattle.blk_base.specs.Regions.{needed_blocks, data_blocks};
ghost use Rattle.count_updates.specs.Counted.{IsCountRefusal};
ghost use Rattle.count_updates.specs.Listed.{AreInOrder};
ghost use Rattle.count_updates.specs.Numbers.{all_sectors};
ghost use Rattle.count_updates.specs.FoundLists.{lists_of};
ghost use Rattle.disk_model.specs.Since.{IsUntouched};
ghost use Rattle.replay_counts.specs.Recovered.{AreCountsRead, CountsFail, ArePaired, IsCountedFrom};

use crate::{RecoveredCounts, SectorPoints};
use blk_base::{CommittedEntry, Layout, Point, Super};
use count_updates::{
    CountFault, Found, applied_points, counts_of, put_in_order, updates_of_window,
};
use disk_model::Disk;
use image_model::ImageFault;
use slab_reading::read_slabs;
use std::alloc::{AllocError, Global};

/// The counts, each of them 0 to 254, of the image with this superblock and these entries of its window, the oldest first, each with the point of
/// its half that adds: one read of each reference block and of each block of a slab's journal, and nothing else. The
/// device has the blocks that the image's sizes need.
///
/// Refused with `Counter` exactly where the count of a data block leaves 0 to 254, for the least such block; with `Device`
/// where a read failed; and with `Memory` only for want of memory.
pub fn counts_with<D: Disk>(
    alloc: Global,
    head: &Super,
    window: &[CommittedEntry],
    device: &mut D,
) -> Result<RecoveredCounts, ImageFault>
    requires sizes { IsGeometry head.now.geometry }
    requires room { needed_blocks head.now.geometry ≤ (D.seen device.old).size }
    requires halves { All (λ committed. committed.point.0 % 2 ≡ 0) window.now }
    ensures counts { IfOk result (λ counts.
        AreCountsRead D.trust head.now.geometry (reverse window.now)
        (D.seen device.old) (D.seen device.new) counts.counts.items counts.sectors.items) }
    ensures limit { IfOk result (λ counts.
        All (λ count. count ≤ limit_of head.now.geometry) counts.counts.items) }
    ensures fault { IfErr result
        (CountsFail D.trust head.now.geometry (reverse window.now) (D.seen device.old)
        (D.seen device.new)) }
    ensures untouched { IsUntouched D.trust.tells (D.seen device.old) (D.seen device.new) }
{
    let layout = Layout::of(&head.geometry);
    let Ok(updates) = updates_of_window(alloc, window) else {
        return Err(ImageFault::Memory);
    };
    let mut found = Found {
        counters: Vec::new(alloc),
        commits: Vec::new(alloc),
        updates,
    };
    read_slabs(alloc, device, &layout, &mut found)?;
    let Ok(()) = put_in_order(&mut found.updates) else {
        return Err(ImageFault::Memory);
    };
    match counted(alloc, &layout, &found) {
        Ok(counts) => Ok(counts),
        Err(CountFault::Counter { at, point }) => Err(ImageFault::Counter { at, point }),
        Err(CountFault::Memory) => Err(ImageFault::Memory),
    }
}

// The counts from all that was found.
fn counted(alloc: Global, layout: &Layout, found: &Found) -> Result<RecoveredCounts, CountFault>
    requires counters { length found.now.counters.items ≡ data_blocks layout.now.geometry }
    requires commits { length found.now.commits.items ≡ all_sectors layout.now.geometry }
    requires order { AreInOrder found.now.updates.items }
    ensures counts { IfOk result (λ counts.
        IsCountedFrom layout.now.geometry (lists_of found.now)
        counts.counts.items counts.sectors.items) }
    ensures refused { IfErr result
        (IsCountRefusal layout.now.geometry (lists_of found.now)) }
{
    let counts = counts_of(alloc, layout, found)?;
    let Ok(applied) = applied_points(alloc, layout, found) else {
        return Err(CountFault::Memory);
    };
    let Ok(sectors) = paired(alloc, found.commits.as_slice(), applied.as_slice()) else {
        return Err(CountFault::Memory);
    };
    Ok(RecoveredCounts { counts, sectors })
}

// Each sector's two points.
fn paired(
    alloc: Global,
    commits: &[Point],
    applied: &[Point],
) -> Result<Vec<SectorPoints>, AllocError>
    requires { length applied.now ≡ length commits.now }
    ensures { IfOk result (λ sectors. ArePaired commits.now applied.now sectors.items) }
{
    let mut sectors = Vec::with_capacity(alloc, commits.len())?;
    for (i, commit) in commits.iter().enumerate() {
        sectors.push(SectorPoints {
            commit: *commit,
            applied: applied[i],
        })?;
    }
    Ok(sectors)
}
