ghost use Rattle.std.specs.Prelude.{◌≡◌, ◌≤◌, IsTrue, Ok};
ghost use Rattle.blk_base.specs.Regions.{needed_blocks};
ghost use Rattle.blk_base.specs.declared.geometry.Super.{Super};
ghost use Rattle.disk_model.specs.Log.{Blocks};
ghost use Rattle.disk_model.specs.Seen.{Seen};
ghost use Rattle.disk_model.specs.Trust.{Trust};
ghost use Rattle.image_layout.specs.Opened.{super_of_image};
ghost use Rattle.image_model.specs.Looked.{HasOneImageButIndex};
ghost use Rattle.image_model.specs.declared.fault.ImageFault.{ImageFault};
ghost use Rattle.replay_map.specs.Replayed.{HasMapOf, IsMapFault, IsReplayed, ReplayFails};
ghost use Rattle.replay_map.specs.declared.recovered.RecoveredMap.{RecoveredMap};

/// Where a device is honest and nothing is pending on it but in the index, what was replayed is what its one image has: the
/// map with which it is opened, or its fault. It does nothing.
pub fn reads_show_the_map()
    ensures map { (trust : Trust) (before now : Seen) (image : Blocks) (head : Super)
        (map : RecoveredMap)
        → IsTrue trust.tells → IsTrue trust.honest
        → HasOneImageButIndex before.opening before.log image
        → needed_blocks head.geometry ≤ before.size
        → super_of_image image ≡ Ok head → IsReplayed trust head before now map
        → HasMapOf image head map }
    ensures fault { (trust : Trust) (before now : Seen) (image : Blocks) (head : Super)
        (why : ImageFault)
        → IsTrue trust.tells → IsTrue trust.honest
        → HasOneImageButIndex before.opening before.log image
        → needed_blocks head.geometry ≤ before.size
        → super_of_image image ≡ Ok head → ReplayFails trust head before now why
        → IsMapFault image why }
{}
