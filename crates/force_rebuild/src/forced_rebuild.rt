ghost use Rattle.std.specs.Prelude.{◌≡◌, ◌≤◌, ◌<◌, ◌^◌, false, length};
ghost use Rattle.blk_base.specs.Limits.{IsGeometry};
ghost use Rattle.blk_base.specs.Regions.{needed_blocks, data_blocks};
ghost use Rattle.image_format.specs.Runs.{Makes};
ghost use Rattle.replay_map.specs.Forms.{HasForm};
ghost use Rattle.force_rebuild.specs.Calls.{closing_calls};
ghost use Rattle.force_rebuild.specs.ForcedRebuild.{ForcesUnclosed, IsForcing, unclosed};
ghost use Rattle.force_rebuild.specs.Outcomes.{HasContents, WritesAll};

use crate::Forced;
use crate::counted_map::{count_map, count_used};
use crate::slabs::put_slabs;
use blk_base::{Layout, Super};
use disk_model::{Disk, Failed};
use image_format::calls::close;
use image_model::ImageFault;
use image_opening::read_head;
use journal_window::read_window;
use rebuild::put_pages;
use replay_map::{Changes, RecoveredMap};
use std::alloc::Global;

/// Sets the counts of the image on a device from its block map, whatever its counters and its slabs' journals hold, and closes
/// it. Each address keeps its mapping and its value, and each data block gets the number of its mappings as its stored count.
/// The last session needn't be closed. `used` is how many data blocks are mapped or have a page of the block map, of `total`.
///
/// | Step | What is done | Then |
/// |---|---|---|
/// | 1 | the superblock, the recovery journal and each linked page are read | |
/// | 2 | each page with a slot that the window replaces is read and written with it; of each slab, zeros are written into its journal, and its counters, with a commit point behind the window's last sequence | a flush |
/// | 3 | block 0: the superblock, with `clean` true and `start` two past the window's last sequence | a flush |
///
/// The image is refused with its first fault, over the whole image, in this order: `Super`, `Window`, `Page`, `SharedPage`, and
/// `Counts` for the least data block that is mapped more often than a counter can say, with the limit as `stored`. `Super` comes
/// too where the superblock would need a `start` past the last one, whether the session was closed or not. `Device` comes only
/// where a call failed, and then no other is made after it; `Memory` only for want of memory. After a refusal other than
/// `Device` nothing was written.
///
/// Of an honest device on which nothing is pending, whose image isn't refused and has nothing in its recovery journal from a
/// later time: whatever it answers, and at whatever moment it is stopped, what is left maps the same, can be rebuilt again, and
/// each block but the superblock's, the pages', the counters' and the slabs' journals' has the bytes that it had; and
/// afterwards the image is closed and sound.
pub fn force<D: Disk>(alloc: Global, device: &mut D) -> Result<Forced, ImageFault>
    ensures { IsForcing D.trust (D.seen device.old) (D.seen device.new) result }
{
    let head = read_head(device)?;
    // Looked at for the proof alone: it fits 64 bits, so that it is read back.
    let _nonce = head.geometry.nonce;
    match force_unclosed(alloc, &as_unclosed(&head), device) {
        Ok(forced) => Ok(forced),
        Err(fault) => Err(fault),
    }
}

// The superblock as of an image whose last session wasn't closed: so its sequences are looked at.
fn as_unclosed(head: &Super) -> Super
    ensures { result ≡ unclosed head.now }
{
    Super {
        geometry: head.geometry,
        clean: false,
        start: head.start,
    }
}

// Rebuilds the image with this superblock.
fn force_unclosed<D: Disk>(
    alloc: Global,
    head: &Super,
    device: &mut D,
) -> Result<Forced, ImageFault>
    requires sizes { IsGeometry head.now.geometry }
    requires some { 1 ≤ head.now.start }
    requires below { head.now.start < 2 ^ 54 }
    requires room { needed_blocks head.now.geometry ≤ (D.seen device.old).size }
    requires unclean { head.now.clean ≡ false }
    ensures { ForcesUnclosed D.trust head.now (D.seen device.old)
        (D.seen device.new) result }
{
    let window = read_window(alloc, head, device)?;
    let Ok(changes) = Changes::of(alloc, window.entries()) else {
        return Err(ImageFault::Memory);
    };
    let counted = count_map(alloc, head, &window, device)?;
    let layout = Layout::of(&head.geometry);
    let counters = &counted.counters;
    let Ok(()) = write_image(
        device,
        &layout,
        window.last(),
        &changes,
        &counted.map,
        counters,
    ) else {
        return Err(ImageFault::Device);
    };
    Ok(Forced {
        used: count_used(counters),
        total: layout.data_blocks(),
    })
}

// Writes the pages that the window changes, the slabs, and then the superblock.
fn write_image<D: Disk>(
    device: &mut D,
    layout: &Layout,
    last: u64,
    changes: &Changes,
    map: &RecoveredMap,
    counters: &[u8],
) -> Result<(), Failed>
    requires room { needed_blocks layout.now.geometry ≤ (D.seen device.old).size }
    requires few { last < 2 ^ 54 }
    requires counts { length counters.now ≡ data_blocks layout.now.geometry }
    requires form { HasForm layout.now.geometry map.now.links.items map.now.slots.items }
    ensures { WritesAll D.trust (D.seen device.old) (D.seen device.new)
        (HasContents layout.now.geometry changes.now map.now.links.items counters.now) last result }
{
    put_pages(device, layout, changes, &map.links)?;
    write_counted(device, layout, last, counters)
}

// Writes the slabs, and then the superblock.
fn write_counted<D: Disk>(
    device: &mut D,
    layout: &Layout,
    last: u64,
    counters: &[u8],
) -> Result<(), Failed>
    requires room { needed_blocks layout.now.geometry ≤ (D.seen device.old).size }
    requires few { last < 2 ^ 54 }
    requires counts { length counters.now ≡ data_blocks layout.now.geometry }
    ensures { Makes D.trust.tells (D.seen device.old) (D.seen device.new)
        (closing_calls layout.now.geometry last counters.now) result }
{
    put_slabs(device, layout, last, counters)?;
    close(device, &layout.geometry, last + 2)
}
