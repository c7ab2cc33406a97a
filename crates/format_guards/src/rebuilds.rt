ghost use Rattle.std.specs.Prelude.{◌≡◌, ◌++◌, ℕ, List, OnOk};
ghost use Rattle.disk_model.specs.declared.call.Call.{Call};
ghost use Rattle.disk_model.specs.Images.{IsImage};
ghost use Rattle.disk_model.specs.Log.{Blocks};
ghost use Rattle.force_rebuild.specs.ForcedRebuild.{IsToRebuild};
ghost use Rattle.force_rebuild.specs.Rebuildable.{IsRebuildable, rebuildable_image};
ghost use Rattle.image_model.specs.Looked.{HasOneImageButIndex};
ghost use Rattle.image_model.specs.Maps.{value_of};
ghost use Rattle.image_model.specs.Sound.{AreTrue, IsSound};
ghost use Rattle.rebuild.specs.Recoveries.{IsTold};
ghost use Rattle.recovery_laws.specs.Kept.{image_in};

use disk_model::Disk;
use force_rebuild::{Forced, force};
use image_model::ImageFault;
use std::alloc::Global;

// After a forced rebuild each stored count is the number of mappings, whatever the counters and the slabs' journals held.
fn a_rebuilt_image_counts_its_mappings<D: Disk>(
    alloc: Global,
    device: &mut D,
) -> Result<Forced, ImageFault>
    ensures { OnOk result ((blocks : Blocks) → IsTold D.trust (D.seen device.old) blocks
        → IsToRebuild blocks
        → (image : Blocks)
        × HasOneImageButIndex (D.seen device.new).opening (D.seen device.new).log image
        × (sound : IsSound image) × AreTrue (image_in image sound)) }
{
    force(alloc, device)
}

// Whatever it answers, and at whatever moment it is stopped: a stop leaves an image that can be rebuilt, in which each address
// has its value. So no superblock is written before the pages.
fn a_stop_of_a_rebuild_leaves_each_value<D: Disk>(
    alloc: Global,
    device: &mut D,
) -> Result<Forced, ImageFault>
    ensures { (blocks : Blocks) (to : IsToRebuild blocks)
        → IsTold D.trust (D.seen device.old) blocks
        → (calls : List Call)
        × ((D.seen device.new).log ≡ calls ++ (D.seen device.old).log)
        × ((newer older : List Call) (image : Blocks) → calls ≡ newer ++ older
        → IsImage (D.seen device.old).opening (older ++ (D.seen device.old).log) image
        → (left : IsRebuildable image)
        × ((address : ℕ) → value_of (rebuildable_image image left) address
        ≡ value_of (rebuildable_image blocks to.is) address)) }
{
    force(alloc, device)
}
