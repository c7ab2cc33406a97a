ghost use Rattle.std.specs.Prelude.{◌≤◌, None, OnOk, IfErr};
ghost use Rattle.blk_base.specs.Regions.{needed_blocks};
ghost use Rattle.grow_image.specs.Growth.{GrowsOpened, IsGrowing, IsSearched, UnmappedFails};
ghost use Rattle.disk_model.specs.Since.{IsUntouched};
ghost use Rattle.rebuild.specs.Openings.{Fits};

use crate::address_range::AddressRange;
use crate::calls::write_grown;
use crate::leaves::leaves_with;
use crate::search::least_mapped;
use crate::sizes::plan_growth;
use crate::{GrowFault, Grown};
use blk_base::Opened;
use disk_model::Disk;
use image_model::ImageFault;
use rebuild::open_clean;
use std::alloc::Global;

/// Gives the image on a device so many addresses and slabs, neither fewer than it has. Each old address keeps its value, and
/// each old data block its stored count; each new address has zeros, and each new data block the count 0. The last session
/// has to be closed.
///
/// | Step | What is done | Then |
/// |---|---|---|
/// | 1 | the image is opened, as a session does, and each leaf that has a new address is read again | |
/// | 2 | of each new slab, zeros are written into its counters and its journal | a flush |
/// | 3 | block 0: the superblock with the new sizes, `clean` true and the same `start` | a flush |
///
/// The first of these is answered, in this order: `Image` as [`open_clean`] refuses; `Smaller` for `Logical`, and then for
/// `Slabs`; `Layout` as [`plan`](image_layout::plan) refuses the new sizes on this device; `Mapped` for the least new address
/// that is mapped, if only to zeros. Where the device answers otherwise than before, a leaf that is read again may be
/// refused: `Image(Page)`. `Image(Device)` comes only where a call failed, and then no other is made after it;
/// `Image(Memory)` only for want of memory, before the first write. After a refusal other than `Image(Device)` nothing was
/// written.
///
/// Of an honest device on which nothing is pending, with a sound image: whatever it answers, and at whatever moment it is
/// stopped, what is left is sound, and is the image as it was or the one that has grown.
pub fn grow<D: Disk>(
    alloc: Global,
    device: &mut D,
    logical: u32,
    slabs: u32,
) -> Result<Grown, GrowFault>
    ensures { IsGrowing D.trust logical slabs (D.seen device.old) (D.seen device.new)
        result }
{
    match open_clean(alloc, device) {
        Ok(opened) => {
            // Looked at for the proof alone: it fits 64 bits, so that it is read back.
            let _nonce = opened.head.geometry.nonce;
            grow_opened(alloc, &opened, device, logical, slabs)
        }
        Err(why) => Err(GrowFault::Image(why)),
    }
}

// The same for an image that was opened.
fn grow_opened<D: Disk>(
    alloc: Global,
    opened: &Opened,
    device: &mut D,
    logical: u32,
    slabs: u32,
) -> Result<Grown, GrowFault>
    requires { Fits opened.now }
    ensures { GrowsOpened D.trust opened.now logical slabs (D.seen device.old)
        (D.seen device.new) result }
{
    let head = &opened.head;
    let layout = plan_growth(&head.geometry, logical, slabs, device.blocks())?;
    check_unmapped(alloc, opened, device, logical)?;
    let Ok(()) = write_grown(device, &layout, head.geometry.slabs, head.start) else {
        return Err(GrowFault::Image(ImageFault::Device));
    };
    Ok(Grown {
        blocks: layout.needed(),
        slabs,
        slab_blocks: layout.geometry.slab_blocks,
        logical,
    })
}

// Refuses the least address from the logical size of the image on, below this one, that is mapped.
fn check_unmapped<D: Disk>(
    alloc: Global,
    opened: &Opened,
    device: &mut D,
    logical: u32,
) -> Result<(), GrowFault>
    requires fits { Fits opened.now }
    requires room { needed_blocks opened.now.head.geometry ≤ (D.seen device.old).size }
    ensures none { OnOk result
        (IsSearched D.trust opened.now logical (D.seen device.old) (D.seen device.new)
        None) }
    ensures fault { IfErr result
        (UnmappedFails D.trust opened.now logical (D.seen device.old)
        (D.seen device.new)) }
    ensures untouched { IsUntouched D.trust.tells (D.seen device.old) (D.seen device.new) }
{
    let range = AddressRange {
        first: opened.head.geometry.logical,
        end: logical,
    };
    let Ok(leaves) = leaves_with(alloc, &opened.pages, range) else {
        return Err(GrowFault::Image(ImageFault::Memory));
    };
    match least_mapped(device, &opened.head.geometry, &leaves, range) {
        Ok(None) => Ok(()),
        Ok(Some(at)) => Err(GrowFault::Mapped { at }),
        Err(why) => Err(GrowFault::Image(why)),
    }
}
