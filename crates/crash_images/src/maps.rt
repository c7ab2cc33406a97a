ghost use Rattle.std.specs.Prelude.{◌≤◌, IfOk, IfErr};
ghost use Rattle.blk_base.specs.Regions.{needed_blocks};
ghost use Rattle.disk_model.specs.Since.{IsUntouched};
ghost use Rattle.crash_images.specs.Maps.{Fits, HasNoMap, ShowsMap};

use blk_base::Super;
use disk_model::Disk;
use image_model::ImageFault;
use image_opening::read_head;
use journal_window::read_window;
use replay_map::{Changes, RecoveredMap, replay_with};
use std::alloc::Global;

/// The map of an image, by which its values are read, whatever its counts are.
#[derive(Drop)]
pub struct ImageMap {
    pub head: Super,
    /// Its linked pages, each with its block.
    pub pages: RecoveredMap,
    /// What the window of its journal puts into their slots.
    pub changes: Changes,
}

// Long to prove: each clause is shown on each way out.
/// The map of the image on a device. It reads block 0, the recovery journal and each linked page, and writes nothing. Neither
/// need the last session be closed, nor a count be right: none is read.
///
/// The image is refused with its first fault, in this order: `Super`, `Window`, `Page`, `SharedPage`. `Device` comes only where
/// a read failed, and `Memory` only for want of memory.
pub fn read_map<D: Disk>(alloc: Global, device: &mut D) -> Result<ImageMap, ImageFault>
    ensures map { IfOk result
        (ShowsMap D.trust (D.seen device.old) (D.seen device.new)) }
    ensures fits { IfOk result Fits }
    ensures room { IfOk result (λ map.
        needed_blocks map.head.geometry ≤ (D.seen device.new).size) }
    ensures fault { IfErr result
        (HasNoMap D.trust (D.seen device.old) (D.seen device.new)) }
    ensures untouched { IsUntouched D.trust.tells (D.seen device.old) (D.seen device.new) }
{
    let head = read_head(device)?;
    let window = read_window(alloc, &head, device)?;
    let Ok(changes) = Changes::of(alloc, window.entries()) else {
        return Err(ImageFault::Memory);
    };
    match replay_with(alloc, &head, &window, device) {
        Ok(pages) => Ok(ImageMap {
            head,
            pages,
            changes,
        }),
        Err(fault) => Err(fault),
    }
}
