ghost use Rattle.std.specs.Prelude.{◌≡◌, ◌≤◌, ◌<◌, IfOk, IfErr};
ghost use Rattle.blk_base.specs.Regions.{needed_blocks};
ghost use Rattle.disk_model.specs.Since.{IsUntouched};
ghost use Rattle.slab_reading.specs.Reads.{IsSlabRead, SlabFails};
ghost use Rattle.slab_reading.specs.Slabs.{blocks_per_slab};

use blk_base::{Block, Layout};
use disk_model::{BlocksFault, Disk, read_blocks};
use image_model::ImageFault;
use std::alloc::Global;

// How many blocks say what there is to know of a slab's counts: its reference blocks, and those of its journal.
fn blocks_per_slab(layout: &Layout) -> u32
    ensures count { result ≡ blocks_per_slab layout.now.geometry }
    ensures small { result < 1000 }
{
    layout.references() + layout.geometry.slab_journal
}

/// Reads these blocks of a slab, one after the other.
pub(crate) fn read_slab<D: Disk>(
    alloc: Global,
    device: &mut D,
    layout: &Layout,
    slab: u32,
) -> Result<Vec<Block>, ImageFault>
    requires inside { slab < layout.now.geometry.slabs }
    requires room { needed_blocks layout.now.geometry ≤ (D.seen device.old).size }
    ensures read { IfOk result (λ read.
        IsSlabRead D.trust layout.now.geometry slab (D.seen device.old)
        (D.seen device.new) read.items) }
    ensures fault { IfErr result
        (SlabFails D.trust layout.now.geometry slab (D.seen device.old)
        (D.seen device.new)) }
    ensures untouched { IsUntouched D.trust.tells (D.seen device.old) (D.seen device.new) }
{
    let first = layout.reference_block(slab, 0);
    match read_blocks(alloc, device, first, blocks_per_slab(layout)) {
        Ok(read) => Ok(read),
        Err(BlocksFault::Device) => Err(ImageFault::Device),
        Err(BlocksFault::Memory) => Err(ImageFault::Memory),
    }
}
