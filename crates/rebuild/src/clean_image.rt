ghost use Rattle.std.specs.Prelude.{◌≡◌, ◌≤◌, true, false, length, IfOk, IfErr, OnOk};
ghost use Rattle.blk_base.specs.Limits.{IsGeometry};
ghost use Rattle.blk_base.specs.Regions.{needed_blocks, data_blocks};
ghost use Rattle.disk_model.specs.Log.{Blocks};
ghost use Rattle.disk_model.specs.Since.{IsUntouched};
ghost use Rattle.image_model.specs.Maps.{Image};
ghost use Rattle.image_model.specs.Sound.{AreTrue};
ghost use Rattle.image_model.specs.declared.fault.ImageFault.TheVariants.{Unclean};
ghost use Rattle.journal_window.specs.Windows.{IsWindowOf};
ghost use Rattle.replay_counts.specs.Recovered.{HasCounts};
ghost use Rattle.replay_map.specs.Replayed.{HasMap};
ghost use Rattle.rebuild.specs.Openings.{CheckFails, Fits, IsOpenedWith, IsOpening, OpenWithFails};

use audit::{Contents, read_contents, report_of};
use blk_base::{Layout, Opened, Super};
use disk_model::Disk;
use image_model::ImageFault;
use image_opening::read_head;
use journal_window::{JournalWindow, read_window};
use session_opening::opened_of;
use std::alloc::Global;

/// What a session starts with on the image on a device, whose last session was closed. It reads block 0, the recovery
/// journal, each linked page, and of each slab its counters and its journal; it checks every page and every counter, and
/// writes nothing. A block is read once, and one that several slots link once for each of them.
///
/// The image is refused with `Unclean` exactly where the superblock says that the last session wasn't closed, and otherwise
/// with its first fault, over the whole image, in this order: `Super`, `Window`, `Page`, `Counter`, `SharedPage`, `Counts`.
/// `Device` comes only where a read failed, and `Memory` only for want of memory.
pub fn open_clean<D: Disk>(alloc: Global, device: &mut D) -> Result<Opened, ImageFault>
    ensures { IsOpening D.trust (D.seen device.old) (D.seen device.new) result }
{
    let head = read_head(device)?;
    check_closed(&head)?;
    let window = read_window(alloc, &head, device)?;
    match open_with(alloc, &head, &window, device) {
        Ok(opened) => Ok(opened),
        Err(fault) => Err(fault),
    }
}

// Refuses an image whose last session wasn't closed.
fn check_closed(head: &Super) -> Result<(), ImageFault>
    ensures closed { OnOk result (head.now.clean ≡ true) }
    ensures unclean { IfErr result (λ fault. (fault ≡ Unclean) × (head.now.clean ≡ false)) }
{
    if head.clean {
        Ok(())
    } else {
        Err(ImageFault::Unclean)
    }
}

// The same from the superblock and the window on.
// Long to prove: each clause is shown on each way out.
fn open_with<D: Disk>(
    alloc: Global,
    head: &Super,
    window: &JournalWindow,
    device: &mut D,
) -> Result<Opened, ImageFault>
    requires sizes { IsGeometry head.now.geometry }
    requires room { needed_blocks head.now.geometry ≤ (D.seen device.old).size }
    requires window { (journal : Blocks) × IsWindowOf head.now journal window.now }
    ensures opened { IfOk result
        (IsOpenedWith D.trust head.now window.now (D.seen device.old)
        (D.seen device.new)) }
    ensures head { IfOk result (λ opened. opened.head ≡ head.now) }
    ensures fits { IfOk result Fits }
    ensures fault { IfErr result
        (OpenWithFails D.trust head.now window.now (D.seen device.old)
        (D.seen device.new)) }
    ensures untouched { IsUntouched D.trust.tells (D.seen device.old) (D.seen device.new) }
{
    let contents = read_contents(alloc, head, window, device)?;
    check_counts(alloc, &Layout::of(&head.geometry), &contents)?;
    let Ok(opened) = opened_of(alloc, head, &contents.map, &contents.counts) else {
        return Err(ImageFault::Memory);
    };
    Ok(opened)
}

// Refuses the least data block whose stored count isn't the number of its mappings.
fn check_counts(alloc: Global, layout: &Layout, contents: &Contents) -> Result<(), ImageFault>
    requires { length contents.now.counts.counts.items ≡ data_blocks layout.now.geometry }
    ensures all { OnOk result
        ((image : Image) → image.geometry ≡ layout.now.geometry → HasMap image contents.now.map
        → HasCounts image contents.now.counts.counts.items contents.now.counts.sectors.items →
        AreTrue image) }
    ensures fault { IfErr result (CheckFails layout.now.geometry contents.now) }
{
    let Ok(report) = report_of(alloc, layout, &contents.map, &contents.counts) else {
        return Err(ImageFault::Memory);
    };
    match report.differs.first() {
        None => Ok(()),
        Some(first) => Err(ImageFault::Counts {
            at: first.at,
            stored: first.stored,
            mapped: first.mapped,
        }),
    }
}
