ghost use Rattle.std.specs.Prelude.{◌≡◌, ◌≤◌, List, Contains, IfOk, length, map};
ghost use Rattle.blk_base.specs.Forms.{lba};
ghost use Rattle.blk_base.specs.Regions.{needed_blocks};
ghost use Rattle.blk_base.specs.declared.journal_entry.CommittedEntry.{CommittedEntry};
ghost use Rattle.blk_base.specs.declared.place.Mapping.TheVariants.{At};
ghost use Rattle.blk_base.specs.declared.place.Pbn.{Pbn};
ghost use Rattle.blk_base.specs.declared.request.Request.{Request};
ghost use Rattle.blk_base.specs.declared.request.Request.TheVariants.{Read};
ghost use Rattle.crash_images.specs.Maps.{Fits, IsMapIn};
ghost use Rattle.crash_images.specs.Values.{address_of};
ghost use Rattle.disk_model.specs.Log.{Blocks, block_at};
ghost use Rattle.image_model.specs.Maps.{mapping_of};
ghost use Rattle.image_model.specs.Sound.{image_of};
ghost use Rattle.rebuild.specs.Recoveries.{IsTold};

use blk_base::{Block, Lba};
use crash_images::{ImageMap, Shown, ValueFault, show, value_at};
use disk_model::Disk;
use image_model::ImageFault;
use std::alloc::Global;
use vdo_model::Requests;

// An address that is mapped to a block has the bytes of that block, of an honest device.
fn a_mapped_address_has_the_bytes_of_its_block<D: Disk>(
    device: &mut D,
    found: &ImageMap,
    at: Lba,
) -> Result<Block, ValueFault>
    requires fits { Fits found.now }
    requires room { needed_blocks found.now.head.geometry ≤ (D.seen device.old).size }
    ensures { IfOk result (λ block.
        (blocks : Blocks) (window : List CommittedEntry) (where_at : Pbn)
        → IsTold D.trust (D.seen device.old) blocks → IsMapIn found.now blocks window
        → mapping_of (image_of found.now.head blocks window) at.0 ≡ At where_at
        → block ≡ block_at blocks where_at.0) }
{
    value_at(device, found, at)
}

// An address that a script reads is shown with its value, whatever blocks differ: address 0, which each image has.
fn an_address_that_is_read_is_shown<D: Disk>(
    alloc: Global,
    device: &mut D,
    requests: &Requests,
) -> Result<Shown, ImageFault>
    requires { length requests.now ≤ 256 }
    ensures { IfOk result (λ shown. (stream : List Request) → Contains requests.now stream
        → Contains stream (Read (lba 0))
        → Contains (map address_of shown.values.items) (lba 0)) }
{
    show(alloc, device, requests)
}
