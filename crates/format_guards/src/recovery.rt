ghost use Rattle.std.specs.Prelude.{◌≡◌, ◌++◌, ◌+◌, ◌<◌, ◌≤◌, ℕ, All, IsTrue, List, Ok, IfOk, OnOk, Bool, true, false};
ghost use Rattle.std.specs.List.{AllByRecursion};
ghost use Rattle.audit.specs.Reports.{HasNoFault};
ghost use Rattle.blk_base.specs.Regions.{needed_blocks};
ghost use Rattle.blk_base.specs.declared.geometry.Super.{Super as Superblock};
ghost use Rattle.blk_base.specs.declared.journal_entry.CommittedEntry.{CommittedEntry};
ghost use Rattle.blk_base.specs.declared.layout.DataPlace.{DataPlace};
ghost use Rattle.disk_model.specs.declared.call.Call.{Call};
ghost use Rattle.disk_model.specs.declared.call.Call.TheVariants.{Flush};
ghost use Rattle.disk_model.specs.Images.{IsImage};
ghost use Rattle.disk_model.specs.Log.{Blocks};
ghost use Rattle.image_layout.specs.Opened.{super_of_image};
ghost use Rattle.image_model.specs.Counts.{Stores};
ghost use Rattle.image_model.specs.Looked.{HasOneImageButIndex};
ghost use Rattle.image_model.specs.Maps.{Image, value_of};
ghost use Rattle.image_model.specs.Sound.{IsDataPlace, IsSound, Opens, image_of};
ghost use Rattle.rebuild.specs.Acts.{IsPageStart};
ghost use Rattle.rebuild.specs.Done.{HasPages};
ghost use Rattle.rebuild.specs.Recoveries.{IsTold, IsUnclean};
ghost use Rattle.recovery_laws.specs.Kept.{image_in};
ghost use Rattle.recovery_laws.specs.Recoverable.{IsRecoverable, recoverable_image};

use blk_base::{Layout, Opened};
use disk_model::{Disk, Failed};
use image_model::ImageFault;
use rebuild::{Recovered, open_clean, put_pages, recover};
use replay_map::{Changes, Link};
use std::alloc::Global;

// An image whose last session wasn't closed isn't opened, of an honest device.
fn an_unclean_image_is_not_opened<D: Disk>(
    alloc: Global,
    device: &mut D,
) -> Result<Opened, ImageFault>
    ensures { OnOk result ((blocks : Blocks) → IsTold D.trust (D.seen device.old) blocks
        → IsUnclean blocks → ⊥) }
{
    open_clean(alloc, device)
}

// An image with a fault isn't recovered, of an honest device.
fn an_image_with_a_fault_is_not_recovered<D: Disk>(
    alloc: Global,
    device: &mut D,
) -> Result<Recovered, ImageFault>
    ensures { OnOk result ((blocks : Blocks) → IsTold D.trust (D.seen device.old) blocks
        → IsUnclean blocks
        → ((head : Superblock) (last : ℕ) (window : List CommittedEntry)
        → Opens blocks head last window → HasNoFault (image_of head blocks window) → ⊥)
        → ⊥) }
{
    recover(alloc, device)
}

// After the recovery of a sound image the next session begins two behind the last sequence: a block that was torn stays
// below it.
fn the_next_session_begins_two_behind_the_last<D: Disk>(
    alloc: Global,
    device: &mut D,
) -> Result<Recovered, ImageFault>
    ensures { OnOk result ((blocks : Blocks) (sound : IsSound blocks)
        → IsTold D.trust (D.seen device.old) blocks → sound.head.clean ≡ false
        → (image : Blocks)
        × HasOneImageButIndex (D.seen device.new).opening (D.seen device.new).log image
        × (super_of_image image
        ≡ Ok (record {
          geometry = sound.head.geometry;
          clean = true;
          start = sound.last + 2;
        }))) }
{
    recover(alloc, device)
}

// Whatever it answers, and at whatever moment it is stopped: a stop leaves a sound image, in which each address has its
// value. So no superblock is written before the pages.
fn a_stop_of_recovery_leaves_each_value<D: Disk>(
    alloc: Global,
    device: &mut D,
) -> Result<Recovered, ImageFault>
    ensures { (blocks : Blocks) (sound : IsSound blocks)
        → IsTold D.trust (D.seen device.old) blocks
        → (calls : List Call)
        × ((D.seen device.new).log ≡ calls ++ (D.seen device.old).log)
        × ((newer older : List Call) (image : Blocks) → calls ≡ newer ++ older
        → IsImage (D.seen device.old).opening (older ++ (D.seen device.old).log) image
        → (left : IsSound image)
        × ((address : ℕ) → value_of (image_in image left) address
        ≡ value_of (image_in blocks sound) address)) }
{
    recover(alloc, device)
}

// What a block stores is stored behind the recovery too, where it isn't the number of its mappings either.
fn a_wrong_count_is_left_as_it_is<D: Disk>(
    alloc: Global,
    device: &mut D,
) -> Result<Recovered, ImageFault>
    ensures { OnOk result ((blocks : Blocks) (is : IsRecoverable blocks) (place : DataPlace) (stored : ℕ)
        → IsTold D.trust (D.seen device.old) blocks → is.head.clean ≡ false
        → IsDataPlace is.head.geometry place
        → Stores (recoverable_image blocks is) place (Ok stored)
        → (image : Blocks)
        × HasOneImageButIndex (D.seen device.new).opening (D.seen device.new).log image
        × ((left : IsRecoverable image) × Stores (recoverable_image image left) place (Ok stored))) }
{
    recover(alloc, device)
}

// The same of an image that isn't sound: a stop leaves one that can be recovered, in which each address has its value.
fn a_stop_with_a_wrong_count_leaves_each_value<D: Disk>(
    alloc: Global,
    device: &mut D,
) -> Result<Recovered, ImageFault>
    ensures { (blocks : Blocks) (is : IsRecoverable blocks)
        → IsTold D.trust (D.seen device.old) blocks
        → (calls : List Call)
        × ((D.seen device.new).log ≡ calls ++ (D.seen device.old).log)
        × ((newer older : List Call) (image : Blocks) → calls ≡ newer ++ older
        → IsImage (D.seen device.old).opening (older ++ (D.seen device.old).log) image
        → (left : IsRecoverable image)
        × ((address : ℕ) → value_of (recoverable_image image left) address
        ≡ value_of (recoverable_image blocks is) address)) }
{
    recover(alloc, device)
}

// While pages are written nothing is made to last, so no superblock comes between them.
fn no_flush_comes_between_pages<D: Disk>(
    device: &mut D,
    layout: &Layout,
    changes: &Changes,
    links: &[Link],
) -> Result<(), Failed>
    requires room { needed_blocks layout.now.geometry ≤ (D.seen device.old).size }
    requires inside { All (λ link. link.at.0 < (D.seen device.old).size) links.now }
    ensures { OnOk result (IsTrue D.trust.tells → (image : Image)
        → IsPageStart D.trust.honest (D.seen device.old) image
        → HasPages layout.now.geometry changes.now links.now image
        → (calls : List Call)
        × ((D.seen device.new).log ≡ calls ++ (D.seen device.old).log)
        × AllByRecursion (λ call. (ok : Bool) → call ≡ Flush ok → ⊥) calls) }
{
    put_pages(device, layout, changes, links)
}
