ghost use Rattle.std.specs.Prelude.{◌≡◌, ◌≤◌, ◌<◌, ◌+◌, ◌-◌, ◌∷◌, [], true};
ghost use Rattle.blk_base.specs.Regions.{needed_blocks};
ghost use Rattle.image_format.specs.Runs.{Makes};
ghost use Rattle.grow_image.specs.Calls.{growth_calls, new_slabs};

use blk_base::Layout;
use disk_model::{Disk, Failed};
use image_format::calls::{close, put_slab};

// Writes the slabs from this one on.
fn put_slabs<D: Disk>(device: &mut D, layout: &Layout, first: u32) -> Result<(), Failed>
    requires room { needed_blocks layout.now.geometry ≤ (D.seen device.old).size }
    requires more { first ≤ layout.now.geometry.slabs }
    ensures { Makes D.trust.tells (D.seen device.old) (D.seen device.new)
        (new_slabs layout.now.geometry first (layout.now.geometry.slabs - first)) result }
{
    for i in 0..layout.geometry.slabs - first {
        put_slab(device, layout, first + i)?;
    }
    Ok(())
}

// Writes the slabs of these sizes from this one on, and then the superblock.
pub(crate) fn write_grown<D: Disk>(
    device: &mut D,
    layout: &Layout,
    first: u32,
    start: u64,
) -> Result<(), Failed>
    requires room { needed_blocks layout.now.geometry ≤ (D.seen device.old).size }
    requires more { first ≤ layout.now.geometry.slabs }
    ensures { Makes D.trust.tells (D.seen device.old) (D.seen device.new)
        (growth_calls layout.now.geometry first start) result }
{
    put_slabs(device, layout, first)?;
    close(device, &layout.geometry, start)
}
