ghost use Rattle.std.specs.Prelude.{◌≡◌, ◌⊎◌, ◌<◌, ◌+◌, ◌^◌, Result, Ok};
ghost use Rattle.disk_model.specs.Log.{Blocks};
ghost use Rattle.disk_model.specs.Seen.{Seen};
ghost use Rattle.disk_model.specs.Trust.{Trust};
ghost use Rattle.image_model.specs.Sound.{IsSound};
ghost use Rattle.image_model.specs.declared.fault.ImageFault.{ImageFault};
ghost use Rattle.image_model.specs.declared.fault.ImageFault.TheVariants.{Device, Memory};
ghost use Rattle.rebuild.specs.Recoveries.{IsTold};
ghost use Rattle.force_rebuild.specs.ForcedRebuild.{HasRebuiltImage, IsForcing, IsRefusal, IsToRebuild};
ghost use Rattle.force_rebuild.specs.Rebuildable.{IsRebuildable};
ghost use Rattle.force_rebuild.specs.declared.forms.Forced.{Forced};

/// An image that can be rebuilt is refused by none of its own faults: so whatever a stop leaves is accepted again. A sound image
/// can be rebuilt, where the journal isn't at its end. It does nothing.
pub fn a_rebuildable_image_is_accepted()
    ensures accepted { (blocks : Blocks) (before now : Seen) (why : ImageFault) →
        IsRebuildable blocks → IsRefusal blocks before now why → (why ≡ Device) ⊎ (why ≡ Memory) }
    ensures sound { (blocks : Blocks) (sound : IsSound blocks) → sound.last + 2 < 2 ^ 54 →
        IsRebuildable blocks }

    // Afterwards nothing is pending, and the one image is sound and closed, and can be rebuilt.
    ensures left { (trust : Trust) (before now : Seen) (blocks : Blocks) (forced : Forced) →
        IsTold trust before blocks → IsToRebuild blocks
        → IsForcing trust before now (Ok forced) → HasRebuiltImage trust now }
{}
