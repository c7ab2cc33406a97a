ghost use Rattle.std.specs.Prelude.{◌≡◌, ◌<◌, ◌≤◌, ℕ, List, Ok, OnOk};
ghost use Rattle.blk_base.specs.declared.geometry.Super.{Super};
ghost use Rattle.blk_base.specs.declared.journal_entry.CommittedEntry.{CommittedEntry};
ghost use Rattle.blk_base.specs.declared.place.Mapping.TheVariants.{Unmapped};
ghost use Rattle.disk_model.specs.Log.{Blocks};
ghost use Rattle.image_layout.specs.Opened.{super_of_image};
ghost use Rattle.image_model.specs.Maps.{mapping_of};
ghost use Rattle.image_model.specs.Sound.{Opens, image_of};
ghost use Rattle.rebuild.specs.Recoveries.{IsTold};

use disk_model::Disk;
use grow_image::{GrowFault, Grown, grow};
use std::alloc::Global;

// An image doesn't get fewer slabs, of an honest device.
fn an_image_keeps_its_slabs<D: Disk>(
    alloc: Global,
    device: &mut D,
    logical: u32,
    slabs: u32,
) -> Result<Grown, GrowFault>
    ensures { OnOk result ((blocks : Blocks) (head : Super)
        → IsTold D.trust (D.seen device.old) blocks → super_of_image blocks ≡ Ok head
        → slabs < head.geometry.slabs → ⊥) }
{
    grow(alloc, device, logical, slabs)
}

// An image doesn't grow where a new address is mapped already, of an honest device.
fn no_new_address_has_an_old_mapping<D: Disk>(
    alloc: Global,
    device: &mut D,
    logical: u32,
    slabs: u32,
) -> Result<Grown, GrowFault>
    ensures { OnOk result ((blocks : Blocks) (address : ℕ)
        → IsTold D.trust (D.seen device.old) blocks → address < logical
        → ((head : Super) (last : ℕ) (window : List CommittedEntry)
        → Opens blocks head last window → head.geometry.logical ≤ address)
        → ((head : Super) (last : ℕ) (window : List CommittedEntry)
        → Opens blocks head last window
        → mapping_of (image_of head blocks window) address ≡ Unmapped → ⊥)
        → ⊥) }
{
    grow(alloc, device, logical, slabs)
}
