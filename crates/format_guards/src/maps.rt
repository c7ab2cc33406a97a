//! Guards of the block map as it is replayed.
ghost use Rattle.std.specs.Prelude.{◌≡◌, ◌≤◌, ◌<◌, ◌+◌, ◌^◌, ◌∷◌, ℕ, Contains, Err, IfOk, IsTrue, List, Ok, Some, reverse};
ghost use Rattle.blk_base.specs.Forms.{at_point};
ghost use Rattle.blk_base.specs.Limits.{IsGeometry};
ghost use Rattle.blk_base.specs.Regions.{needed_blocks};
ghost use Rattle.blk_base.specs.declared.journal_entry.CommittedEntry.{CommittedEntry as Committed};
ghost use Rattle.blk_base.specs.declared.journal_entry.Entry.TheVariants.{Remap};
ghost use Rattle.blk_base.specs.declared.place.Mapping.{Mapping as Target};
ghost use Rattle.disk_model.specs.Log.{Blocks};
ghost use Rattle.image_layout.specs.Opened.{super_of_image};
ghost use Rattle.image_model.specs.Looked.{HasOneImageButIndex};
ghost use Rattle.image_model.specs.Maps.{Image, page_at};
ghost use Rattle.image_model.specs.Sound.{Opens, image_of};
ghost use Rattle.page_codec.specs.Grammar.{HasHead};
ghost use Rattle.page_codec.specs.declared.fault.PageFault.TheVariants.{Header};
ghost use Rattle.replay_map.specs.Pages.{Stands};
ghost use Rattle.replay_map.specs.declared.links.Link.{Link};

use blk_base::{Block, CommittedEntry, Lba, Mapping, Mappings, Super};
use disk_model::Disk;
use image_model::ImageFault;
use page_codec::{PageFault, PageHead};
use replay_map::{Changes, RecoveredMap, read_page, reads_show_the_map, replay};
use std::alloc::{AllocError, Global};

// Where the newest entry maps an address anew, the new mapping is put into its slot.
fn the_new_mapping_is_put(
    alloc: Global,
    window: &[CommittedEntry],
    at: Lba,
) -> Result<Option<Mapping>, AllocError>
    ensures { IfOk result (λ put. (old new : Target) (point : ℕ) (older : List Committed) →
        reverse window.now ≡ at_point (Remap at old new) point ∷ older → put ≡ Some new) }
{
    let changes = Changes::of(alloc, window)?;
    Ok(changes.get(at.leaf(), at.slot()))
}

// A block that begins otherwise isn't this page, whatever the window puts into its slots.
fn a_block_that_begins_otherwise_is_refused(
    block: &Block,
    want: &PageHead,
    changes: &Changes,
    into: &mut Mappings,
) -> Result<(), PageFault>
    requires geometry { IsGeometry want.now.geometry }
    requires other { HasHead want.now block.now → ⊥ }
    ensures { (image : Image) → Stands image want.now block.now changes.now →
        result ≡ Err Header }
{
    read_page(block, want, changes, into)
}

// Where a device is honest and nothing is pending on it but in the index, each linked page of its image is found, with the
// block at which it stands.
fn each_linked_page_is_found<D: Disk>(
    alloc: Global,
    head: &Super,
    device: &mut D,
) -> Result<RecoveredMap, ImageFault>
    requires sizes { IsGeometry head.now.geometry }
    requires some { 1 ≤ head.now.start }
    requires below { head.now.start < 2 ^ 54 }
    requires room { needed_blocks head.now.geometry ≤ (D.seen device.old).size }
    requires trust { IsTrue D.trust.tells × IsTrue D.trust.honest }
    ensures { IfOk result (λ map. (image : Blocks) (window : List Committed) (link : Link) →
        HasOneImageButIndex (D.seen device.old).opening (D.seen device.old).log image →
        super_of_image image ≡ Ok head.now → Opens image head.now map.last window →
        link.page.level + 1 < head.now.geometry.height →
        page_at (image_of head.now image window) link.page ≡ Some link.at →
        Contains map.links.items link) }
{
    reads_show_the_map();
    replay(alloc, head, device)
}
