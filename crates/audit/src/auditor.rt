ghost use Rattle.std.specs.Prelude.{◌≡◌, ◌≤◌, ◌<◌, ◌^◌, IfOk, IfErr, length};
ghost use Rattle.blk_base.specs.Limits.{IsGeometry};
ghost use Rattle.blk_base.specs.Regions.{needed_blocks, data_blocks};
ghost use Rattle.disk_model.specs.Log.{Blocks};
ghost use Rattle.disk_model.specs.Since.{IsUntouched};
ghost use Rattle.image_model.specs.Maps.{Image};
ghost use Rattle.journal_window.specs.Windows.{IsWindowOf};
ghost use Rattle.replay_counts.specs.Recovered.{HasCounts};
ghost use Rattle.replay_map.specs.Replayed.{HasMap};
ghost use Rattle.audit.specs.Audits.{AuditFails, AuditWithFails, IsAudited, IsAuditedWith};
ghost use Rattle.audit.specs.Reports.{IsReport};

use crate::comparison::compare;
use crate::tallies::count_mappings;
use crate::{Report, read_contents};
use blk_base::{Layout, Super};
use disk_model::Disk;
use image_model::ImageFault;
use image_opening::read_head;
use journal_window::{JournalWindow, read_window};
use replay_counts::RecoveredCounts;
use replay_map::RecoveredMap;
use std::alloc::{AllocError, Global};

/// Compares the stored count of each data block of the image on a device with the number of its mappings. It reads block 0,
/// the recovery journal, each linked page, and of each slab its counters and its journal, and writes nothing. A block is read
/// once, and one that several slots link once for each of them. The last session needn't be closed.
///
/// The image is refused with its first fault, over the whole image, in this order: `Super`, `Window`, `Page`, `Counter`,
/// `SharedPage`. `Device` comes only where a read failed, and `Memory` only for want of memory.
pub fn audit<D: Disk>(alloc: Global, device: &mut D) -> Result<Report, ImageFault>
    ensures report { IfOk result
        (IsAudited D.trust (D.seen device.old) (D.seen device.new)) }
    ensures few { IfOk result (λ report. length report.differs.items < 2 ^ 32) }
    ensures fault { IfErr result
        (AuditFails D.trust (D.seen device.old) (D.seen device.new)) }
    ensures untouched { IsUntouched D.trust.tells (D.seen device.old) (D.seen device.new) }
{
    let head = read_head(device)?;
    let window = read_window(alloc, &head, device)?;
    match audit_with(alloc, &head, &window, device) {
        Ok(report) => Ok(report),
        Err(fault) => Err(fault),
    }
}

/// The same for the image with this superblock and this window, which was read from its journal. The device has the blocks that
/// the image's sizes need. Refused with `Page`, `Counter`, `SharedPage`, `Device` and `Memory` as `audit` is.
pub fn audit_with<D: Disk>(
    alloc: Global,
    head: &Super,
    window: &JournalWindow,
    device: &mut D,
) -> Result<Report, ImageFault>
    requires sizes { IsGeometry head.now.geometry }
    requires room { needed_blocks head.now.geometry ≤ (D.seen device.old).size }
    requires window { (journal : Blocks) × IsWindowOf head.now journal window.now }
    ensures report { IfOk result
        (IsAuditedWith D.trust head.now window.now (D.seen device.old)
        (D.seen device.new)) }
    ensures few { IfOk result (λ report. length report.differs.items < 2 ^ 32) }
    ensures fault { IfErr result
        (AuditWithFails D.trust head.now window.now (D.seen device.old)
        (D.seen device.new)) }
    ensures untouched { IsUntouched D.trust.tells (D.seen device.old) (D.seen device.new) }
{
    let contents = read_contents(alloc, head, window, device)?;
    let layout = Layout::of(&head.geometry);
    let Ok(report) = report_of(alloc, &layout, &contents.map, &contents.counts) else {
        return Err(ImageFault::Memory);
    };
    Ok(report)
}

/// The report of an image with this map and these counts; it reads nothing. It takes the memory of a byte for each data block,
/// and of the blocks that differ, and fails only where there is none.
pub fn report_of(
    alloc: Global,
    layout: &Layout,
    map: &RecoveredMap,
    counts: &RecoveredCounts,
) -> Result<Report, AllocError>
    requires { length counts.now.counts.items ≡ data_blocks layout.now.geometry }
    ensures report { IfOk result (λ report.
        (image : Image) → image.geometry ≡ layout.now.geometry → HasMap image map.now
        → HasCounts image counts.now.counts.items counts.now.sectors.items →
        IsReport image report) }
    ensures few { IfOk result (λ report. length report.differs.items < 2 ^ 32) }
{
    let mapped = count_mappings(alloc, layout, &map.links, &map.mapped)?;
    compare(alloc, layout, &counts.counts, &mapped)
}
