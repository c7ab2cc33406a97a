ghost use Rattle.std.specs.Prelude.{◌≤◌, IfOk, IfErr};
ghost use Rattle.audit.specs.Audits.{AuditFails, AuditWithFails};
ghost use Rattle.blk_base.specs.Limits.{IsGeometry};
ghost use Rattle.blk_base.specs.Regions.{needed_blocks};
ghost use Rattle.disk_model.specs.Log.{Blocks};
ghost use Rattle.disk_model.specs.Since.{IsUntouched};
ghost use Rattle.journal_window.specs.Windows.{IsWindowOf};
ghost use Rattle.image_status.specs.Statuses.{HasChapters, HasSpace, IsStatusRead, IsStatusWith};

use crate::ImageStatus;
use audit::{count_used, read_contents};
use blk_base::{Geometry, Layout, Super};
use disk_model::Disk;
use image_model::ImageFault;
use image_opening::read_head;
use journal_window::{JournalWindow, read_window};
use std::alloc::{AllocError, Global};
use uds_index::Uds;

/// What the image on a device says of itself. It reads block 0, the recovery journal, each linked page, of each slab its
/// counters and its journal, and then the index, and writes nothing. A block is read once, and one that several slots link
/// once for each of them. The last session needn't be closed.
///
/// The image is refused with its first fault, over the whole image, in this order: `Super`, `Window`, `Page`, `Counter`,
/// `SharedPage`. `Device` comes only where a read failed, but for those of the index: an index block that can't be read
/// holds no page. `Memory` comes only for want of memory.
pub fn read_status<D: Disk>(alloc: Global, device: &mut D) -> Result<ImageStatus, ImageFault>
    ensures status { IfOk result
        (IsStatusRead D.trust (D.seen device.old) (D.seen device.new)) }
    ensures fault { IfErr result
        (AuditFails D.trust (D.seen device.old) (D.seen device.new)) }
    ensures untouched { IsUntouched D.trust.tells (D.seen device.old) (D.seen device.new) }
{
    let head = read_head(device)?;
    let window = read_window(alloc, &head, device)?;
    match status_with(alloc, &head, &window, device) {
        Ok(status) => Ok(status),
        Err(fault) => Err(fault),
    }
}

// The same from the superblock and the window on.
fn status_with<D: Disk>(
    alloc: Global,
    head: &Super,
    window: &JournalWindow,
    device: &mut D,
) -> Result<ImageStatus, ImageFault>
    requires sizes { IsGeometry head.now.geometry }
    requires room { needed_blocks head.now.geometry ≤ (D.seen device.old).size }
    requires window { (journal : Blocks) × IsWindowOf head.now journal window.now }
    ensures status { IfOk result
        (IsStatusWith D.trust head.now window.now (D.seen device.old)
        (D.seen device.new)) }
    ensures fault { IfErr result
        (AuditWithFails D.trust head.now window.now (D.seen device.old)
        (D.seen device.new)) }
    ensures untouched { IsUntouched D.trust.tells (D.seen device.old) (D.seen device.new) }
{
    let (used, total) = read_space(alloc, head, window, device)?;
    let Ok(chapters) = count_chapters(alloc, &head.geometry, device) else {
        return Err(ImageFault::Memory);
    };
    Ok(ImageStatus {
        clean: head.clean,
        entries: window.entries().len() as u32,
        chapters,
        used,
        total,
        logical: head.geometry.logical,
    })
}

// How many data blocks are used, and how many there are. Nothing is compared.
// Long to prove: each clause is shown on each way out.
fn read_space<D: Disk>(
    alloc: Global,
    head: &Super,
    window: &JournalWindow,
    device: &mut D,
) -> Result<(u32, u32), ImageFault>
    requires sizes { IsGeometry head.now.geometry }
    requires room { needed_blocks head.now.geometry ≤ (D.seen device.old).size }
    requires window { (journal : Blocks) × IsWindowOf head.now journal window.now }
    ensures space { IfOk result (λ space.
        HasSpace D.trust head.now window.now (D.seen device.old) (D.seen device.new)
        space.0 space.1) }
    ensures fault { IfErr result
        (AuditWithFails D.trust head.now window.now (D.seen device.old)
        (D.seen device.new)) }
    ensures untouched { IsUntouched D.trust.tells (D.seen device.old) (D.seen device.new) }
{
    let contents = read_contents(alloc, head, window, device)?;
    let used = count_used(&contents.counts.counts);
    Ok((used, Layout::of(&head.geometry).data_blocks()))
}

// How many chapters the index has.
fn count_chapters<D: Disk>(
    alloc: Global,
    geometry: &Geometry,
    device: &mut D,
) -> Result<u32, AllocError>
    requires sizes { IsGeometry geometry.now }
    requires room { needed_blocks geometry.now ≤ (D.seen device.old).size }
    ensures chapters { IfOk result
        (HasChapters D.trust geometry.now (D.seen device.old) (D.seen device.new)) }
    ensures untouched { IsUntouched D.trust.tells (D.seen device.old) (D.seen device.new) }
{
    let index = Uds::load(alloc, geometry, device, 0)?;
    Ok(index.chapters())
}
