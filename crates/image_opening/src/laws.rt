ghost use Rattle.std.specs.Prelude.{◌≡◌, IsTrue, Ok, length};
ghost use Rattle.blk_base.specs.declared.geometry.Super.{Super};
ghost use Rattle.disk_model.specs.Log.{Blocks};
ghost use Rattle.disk_model.specs.Seen.{Seen};
ghost use Rattle.disk_model.specs.Trust.{Trust};
ghost use Rattle.image_layout.specs.Opened.{super_of_image};
ghost use Rattle.image_model.specs.Faults.{IsImageFault};
ghost use Rattle.image_model.specs.Looked.{HasOneImageButIndex};
ghost use Rattle.image_model.specs.declared.fault.ImageFault.{ImageFault};
ghost use Rattle.image_opening.specs.Heads.{HeadFails, IsHeadRead};

/// Where a device is honest and nothing is pending on it but in the index, what was read of its block 0 is the superblock of
/// its one image, or its fault. It does nothing.
pub fn a_read_shows_the_superblock()
    ensures head { (trust : Trust) (before now : Seen) (image : Blocks) (head : Super) →
        IsTrue trust.tells → IsTrue trust.honest
        → HasOneImageButIndex before.opening before.log image
        → IsHeadRead trust before now head → super_of_image image ≡ Ok head }
    ensures fault { (trust : Trust) (before now : Seen) (image : Blocks) (why : ImageFault) →
        IsTrue trust.tells → IsTrue trust.honest → length before.opening ≡ before.size
        → HasOneImageButIndex before.opening before.log image →
        HeadFails trust before now why → IsImageFault image why }
{}
