ghost use Rattle.std.specs.Prelude.{◌≡◌, ℕ, List, Ok, IfOk, OnOk};
ghost use Rattle.audit.specs.Reports.{HasNoFault};
ghost use Rattle.blk_base.specs.declared.geometry.Super.{Super as Superblock};
ghost use Rattle.blk_base.specs.declared.journal_entry.CommittedEntry.{CommittedEntry};
ghost use Rattle.disk_model.specs.Log.{Blocks};
ghost use Rattle.image_layout.specs.Opened.{super_of_image};
ghost use Rattle.image_model.specs.Sound.{Opens, image_of};
ghost use Rattle.rebuild.specs.Recoveries.{IsTold};

use audit::{Report, audit};
use disk_model::Disk;
use image_model::ImageFault;
use image_status::{ImageStatus, read_status};
use std::alloc::Global;

// An image with a fault has no report, of an honest device.
fn an_image_with_a_fault_has_no_report<D: Disk>(
    alloc: Global,
    device: &mut D,
) -> Result<Report, ImageFault>
    ensures { OnOk result ((blocks : Blocks) → IsTold D.trust (D.seen device.old) blocks
        → ((head : Superblock) (last : ℕ) (window : List CommittedEntry)
        → Opens blocks head last window → HasNoFault (image_of head blocks window) → ⊥)
        → ⊥) }
{
    audit(alloc, device)
}

// An image is called clean exactly where its superblock says so, of an honest device.
fn an_image_is_called_clean_by_its_superblock<D: Disk>(
    alloc: Global,
    device: &mut D,
) -> Result<ImageStatus, ImageFault>
    ensures { IfOk result (λ status. (blocks : Blocks) (head : Superblock)
        → IsTold D.trust (D.seen device.old) blocks → super_of_image blocks ≡ Ok head
        → status.clean ≡ head.clean) }
{
    read_status(alloc, device)
}
