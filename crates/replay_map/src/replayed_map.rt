ghost use Rattle.std.specs.Prelude.{◌≤◌, ◌<◌, ◌^◌, IfOk, IfErr};
ghost use Rattle.blk_base.specs.Limits.{IsGeometry};
ghost use Rattle.blk_base.specs.Regions.{needed_blocks};
ghost use Rattle.disk_model.specs.Log.{Blocks};
ghost use Rattle.disk_model.specs.Since.{IsUntouched};
ghost use Rattle.journal_window.specs.Windows.{IsWindowOf};
ghost use Rattle.replay_map.specs.Changes.{AreNewest};
ghost use Rattle.replay_map.specs.Forms.{HasForm};
ghost use Rattle.replay_map.specs.Replayed.{IsMapRead, IsReplayed, MapFails, ReplayFails};

use crate::found::Found;
use crate::found_map::find_map;
use crate::{Changes, RecoveredMap};
use blk_base::{Layout, Super};
use disk_model::Disk;
use image_model::ImageFault;
use journal_window::{JournalWindow, read_window};
use std::alloc::Global;

/// The block map of the image with this superblock: one read of each block of the recovery journal, in the order of its
/// slots, and then one of each linked page, tree by tree, and nothing else. The device has the blocks that the image's sizes
/// need.
///
/// Refused as the window of the journal is, and then as `replay_with` is.
pub fn replay<D: Disk>(
    alloc: Global,
    head: &Super,
    device: &mut D,
) -> Result<RecoveredMap, ImageFault>
    requires sizes { IsGeometry head.now.geometry }
    requires some { 1 ≤ head.now.start }
    requires below { head.now.start < 2 ^ 54 }
    requires room { needed_blocks head.now.geometry ≤ (D.seen device.old).size }
    ensures map { IfOk result
        (IsReplayed D.trust head.now (D.seen device.old) (D.seen device.new)) }
    ensures form { IfOk result (λ map. HasForm head.now.geometry map.links.items map.slots.items) }
    ensures fault { IfErr result
        (ReplayFails D.trust head.now (D.seen device.old) (D.seen device.new)) }
    ensures untouched { IsUntouched D.trust.tells (D.seen device.old) (D.seen device.new) }
{
    let window = read_window(alloc, head, device)?;
    match replay_with(alloc, head, &window, device) {
        Ok(map) => Ok(map),
        Err(fault) => Err(fault),
    }
}

/// The block map of the image with this superblock and this window, which was read from its journal: one read of each
/// linked page, tree by tree, and nothing else. The device has the blocks that the image's sizes need.
///
/// Refused with `Page` for the first page that can't be read, in the order of the walk; and then with `SharedPage` for the
/// least block that has both a page and the data of an address, also of one past the logical size. `Device` comes only where
/// a read failed, and `Memory` only for want of memory, which is taken for the changes of the window, the linked pages and
/// the addresses that are mapped.
pub fn replay_with<D: Disk>(
    alloc: Global,
    head: &Super,
    window: &JournalWindow,
    device: &mut D,
) -> Result<RecoveredMap, ImageFault>
    requires sizes { IsGeometry head.now.geometry }
    requires room { needed_blocks head.now.geometry ≤ (D.seen device.old).size }
    requires window { (journal : Blocks) × IsWindowOf head.now journal window.now }
    ensures map { IfOk result
        (IsMapRead D.trust head.now.geometry window.now (D.seen device.old)
        (D.seen device.new)) }
    ensures form { IfOk result (λ map. HasForm head.now.geometry map.links.items map.slots.items) }
    ensures fault { IfErr result
        (MapFails D.trust head.now.geometry window.now.entries (D.seen device.old)
        (D.seen device.new)) }
    ensures untouched { IsUntouched D.trust.tells (D.seen device.old) (D.seen device.new) }
{
    let Ok(changes) = Changes::of(alloc, window.entries()) else {
        return Err(ImageFault::Memory);
    };
    match replay_changes(alloc, head, window, &changes, device) {
        Ok(map) => Ok(map),
        Err(fault) => Err(fault),
    }
}

// Long to prove: what it promises is put together of the views of its parts.
/// The same where the changes of the window were found before, so that they are found once.
pub fn replay_changes<D: Disk>(
    alloc: Global,
    head: &Super,
    window: &JournalWindow,
    changes: &Changes,
    device: &mut D,
) -> Result<RecoveredMap, ImageFault>
    requires sizes { IsGeometry head.now.geometry }
    requires room { needed_blocks head.now.geometry ≤ (D.seen device.old).size }
    requires window { (journal : Blocks) × IsWindowOf head.now journal window.now }
    requires newest { AreNewest window.now.entries changes.now }
    ensures map { IfOk result
        (IsMapRead D.trust head.now.geometry window.now (D.seen device.old)
        (D.seen device.new)) }
    ensures form { IfOk result (λ map. HasForm head.now.geometry map.links.items map.slots.items) }
    ensures fault { IfErr result
        (MapFails D.trust head.now.geometry window.now.entries (D.seen device.old)
        (D.seen device.new)) }
    ensures untouched { IsUntouched D.trust.tells (D.seen device.old) (D.seen device.new) }
{
    let Found {
        links,
        slots,
        mapped,
    } = find_map(alloc, &Layout::of(&head.geometry), changes, device)?;
    Ok(RecoveredMap {
        links,
        slots,
        mapped,
        last: window.last(),
        entries: window.entries().len() as u32,
    })
}
