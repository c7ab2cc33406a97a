ghost use Rattle.std.specs.Prelude.{◌≤◌, IfOk, IfErr};
ghost use Rattle.audit.specs.Audits.{AuditWithFails, LaterFails};
ghost use Rattle.audit.specs.Reads.{AreContents};
ghost use Rattle.blk_base.specs.Limits.{IsGeometry};
ghost use Rattle.blk_base.specs.Regions.{needed_blocks};
ghost use Rattle.disk_model.specs.Log.{Blocks};
ghost use Rattle.disk_model.specs.Since.{IsUntouched};
ghost use Rattle.journal_window.specs.Windows.{IsWindowOf};
ghost use Rattle.replay_map.specs.Changes.{AreNewest};
ghost use Rattle.replay_map.specs.Forms.{HasForm};

use crate::Contents;
use blk_base::Super;
use disk_model::Disk;
use image_model::ImageFault;
use journal_window::JournalWindow;
use replay_counts::counts_with;
use replay_map::{Changes, replay_changes};
use std::alloc::Global;

// A shared page is kept until the counts are found, since a count that leaves its range stands before it, over the
// whole image. A page that can't be read is named at once.
/// The map and the counts of the image with this superblock and this window, which was read from its journal. The device has
/// the blocks that the image's sizes need. It reads each linked page, and of each slab its counters and its journal, each block
/// once, and writes nothing. The last session needn't be closed.
///
/// The image is refused with its first fault, over the whole image, in this order: `Page`, `Counter`, `SharedPage`, so that a
/// page that is shared is named only once all counts were found. `Device` comes only where a read failed, and `Memory` only
/// for want of memory; no other fault comes.
pub fn read_contents<D: Disk>(
    alloc: Global,
    head: &Super,
    window: &JournalWindow,
    device: &mut D,
) -> Result<Contents, ImageFault>
    requires sizes { IsGeometry head.now.geometry }
    requires room { needed_blocks head.now.geometry ≤ (D.seen device.old).size }
    requires window { (journal : Blocks) × IsWindowOf head.now journal window.now }
    ensures form { IfOk result (λ contents.
        HasForm head.now.geometry contents.map.links.items contents.map.slots.items) }
    ensures contents { IfOk result
        (AreContents D.trust head.now window.now (D.seen device.old) (D.seen device.new)) }
    ensures fault { IfErr result
        (AuditWithFails D.trust head.now window.now (D.seen device.old)
        (D.seen device.new)) }
    ensures untouched { IsUntouched D.trust.tells (D.seen device.old) (D.seen device.new) }
{
    let Ok(changes) = Changes::of(alloc, window.entries()) else {
        return Err(ImageFault::Memory);
    };
    match contents_with(alloc, head, window, &changes, device) {
        Ok(contents) => Ok(contents),
        Err(fault) => Err(fault),
    }
}

/// The same where the changes of the window were found before, so that they are found once.
pub fn contents_with<D: Disk>(
    alloc: Global,
    head: &Super,
    window: &JournalWindow,
    changes: &Changes,
    device: &mut D,
) -> Result<Contents, ImageFault>
    requires sizes { IsGeometry head.now.geometry }
    requires room { needed_blocks head.now.geometry ≤ (D.seen device.old).size }
    requires window { (journal : Blocks) × IsWindowOf head.now journal window.now }
    requires newest { AreNewest window.now.entries changes.now }
    ensures form { IfOk result (λ contents.
        HasForm head.now.geometry contents.map.links.items contents.map.slots.items) }
    ensures contents { IfOk result
        (AreContents D.trust head.now window.now (D.seen device.old) (D.seen device.new)) }
    ensures fault { IfErr result
        (AuditWithFails D.trust head.now window.now (D.seen device.old)
        (D.seen device.new)) }
    ensures untouched { IsUntouched D.trust.tells (D.seen device.old) (D.seen device.new) }
{
    let map = match replay_changes(alloc, head, window, changes, device) {
        Ok(map) => map,
        Err(fault) => return Err(first_fault(alloc, head, window, fault, device)),
    };
    let counts = counts_with(alloc, head, window.entries(), device)?;
    Ok(Contents { map, counts })
}

// The first of this fault of the map and those of the counts, which stand before a page that is shared.
fn first_fault<D: Disk>(
    alloc: Global,
    head: &Super,
    window: &JournalWindow,
    fault: ImageFault,
    device: &mut D,
) -> ImageFault
    requires sizes { IsGeometry head.now.geometry }
    requires room { needed_blocks head.now.geometry ≤ (D.seen device.old).size }
    requires window { (journal : Blocks) × IsWindowOf head.now journal window.now }
    ensures fault { LaterFails D.trust head.now window.now fault (D.seen device.old)
        (D.seen device.new) result }
    ensures untouched { IsUntouched D.trust.tells (D.seen device.old) (D.seen device.new) }
{
    let ImageFault::SharedPage { .. } = fault else {
        return fault;
    };
    match counts_with(alloc, head, window.entries(), device) {
        Ok(_counts) => fault,
        Err(earlier) => earlier,
    }
}
