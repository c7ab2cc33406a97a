ghost use Rattle.std.specs.Prelude.{◌≡◌, ◌≤◌, ◌<◌, List, [], length, OnOk, IfErr};
ghost use Rattle.blk_base.specs.Regions.{needed_blocks};
ghost use Rattle.count_updates.specs.FoundLists.{lists_of};
ghost use Rattle.disk_model.specs.Log.{Blocks};
ghost use Rattle.disk_model.specs.Since.{IsUntouched};
ghost use Rattle.slab_reading.specs.Found.{IsFound, Took};
ghost use Rattle.slab_reading.specs.Reads.{IsSlabRead, SlabFails, SlabsRead, SlabsFail};

use crate::slab_parts::take_slab;
use crate::slab_reader::read_slab;
use blk_base::Layout;
use count_updates::Found;
use disk_model::Disk;
use image_model::ImageFault;
use std::alloc::Global;

/// Reads the reference blocks and the journal of each slab, one after the other, and adds what they say to `found`, which
/// has no counters and no commit points yet: the counters and the commit points of their sectors, slab after slab, and the
/// updates that the valid sectors of the journals have, behind those that are there. The device has the blocks that the
/// sizes need.
///
/// Refused with `Device` where a read failed, and with `Memory` only for want of memory, which is taken for one slab's
/// blocks and for what is added. Then `found` has any content.
pub fn read_slabs<D: Disk>(
    alloc: Global,
    device: &mut D,
    layout: &Layout,
    found: &mut Found,
) -> Result<(), ImageFault>
    requires room { needed_blocks layout.now.geometry ≤ (D.seen device.old).size }
    requires no_counters { found.old.counters.items ≡ [] }
    requires no_commits { found.old.commits.items ≡ [] }
    ensures found { OnOk result ((reads : List Blocks) × (length reads ≡ layout.now.geometry.slabs)
        × SlabsRead D.trust layout.now.geometry (D.seen device.old)
        (D.seen device.new) reads
        × IsFound layout.now.geometry reads found.old.updates.items (lists_of found.new)) }
    ensures fault { IfErr result
        (SlabsFail D.trust layout.now.geometry (D.seen device.old) (D.seen device.new)) }
    ensures untouched { IsUntouched D.trust.tells (D.seen device.old) (D.seen device.new) }
{
    for slab in 0..layout.geometry.slabs {
        add_slab(alloc, device, layout, slab, found)?;
    }
    Ok(())
}

// Reads a slab and adds what it says.
fn add_slab<D: Disk>(
    alloc: Global,
    device: &mut D,
    layout: &Layout,
    slab: u32,
    found: &mut Found,
) -> Result<(), ImageFault>
    requires inside { slab < layout.now.geometry.slabs }
    requires room { needed_blocks layout.now.geometry ≤ (D.seen device.old).size }
    ensures taken { OnOk result
        ((read : Blocks)
        × IsSlabRead D.trust layout.now.geometry slab (D.seen device.old)
        (D.seen device.new) read
        × Took layout.now.geometry slab read (lists_of found.old) (lists_of found.new)) }
    ensures fault { IfErr result
        (SlabFails D.trust layout.now.geometry slab (D.seen device.old)
        (D.seen device.new)) }
    ensures untouched { IsUntouched D.trust.tells (D.seen device.old) (D.seen device.new) }
{
    let read = read_slab(alloc, device, layout, slab)?;
    let Ok(()) = take_slab(layout, slab, read.as_slice(), found) else {
        return Err(ImageFault::Memory);
    };
    Ok(())
}
