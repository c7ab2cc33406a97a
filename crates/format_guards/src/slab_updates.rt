ghost use Rattle.std.specs.Prelude.{◌≡◌, ◌+◌, ◌*◌, ◌<◌, ◌≤◌, ◌%◌, ℕ, List, [], Contains, get_or, length, reverse, All, IfOk, OnOk};
ghost use Rattle.blk_base.specs.Counters.{sector_of_offset, sectors_per_slab};
ghost use Rattle.blk_base.specs.Forms.{place_in};
ghost use Rattle.blk_base.specs.Limits.{IsGeometry};
ghost use Rattle.blk_base.specs.Regions.{needed_blocks, references_of};
ghost use Rattle.blk_base.specs.Sectors.{sector, zero_block};
ghost use Rattle.blk_base.specs.declared.journal_entry.CommittedEntry.{CommittedEntry as Committed};
ghost use Rattle.blk_base.specs.declared.layout.DataPlace.{DataPlace};
ghost use Rattle.byte_fields.specs.Fields.{number_at};
ghost use Rattle.count_updates.specs.Listed.{Lists};
ghost use Rattle.disk_model.specs.Log.{Blocks};
ghost use Rattle.image_model.specs.Counts.{Updates, block_of_data, commit_at};
ghost use Rattle.image_model.specs.Sound.{IsDataPlace};
ghost use Rattle.replay_counts.specs.Recovered.{AreSlabsRead, Holds, no_points};
ghost use Rattle.slab_codec.specs.declared.forms.SlabEntry.{SlabEntry};
ghost use Rattle.slab_reading.specs.Reads.{SlabsRead, read_of};
ghost use Rattle.slab_reading.specs.Slabs.{SlabKeeps};

use blk_base::{CommittedEntry, Layout, Super};
use count_updates::Found;
use disk_model::Disk;
use image_model::ImageFault;
use replay_counts::{RecoveredCounts, counts_with};
use slab_reading::read_slabs;
use std::alloc::Global;

// Where no sector of the slabs' journals that was read has the image's nonce, no update is added.
fn sectors_with_another_nonce_add_nothing<D: Disk>(
    alloc: Global,
    device: &mut D,
    layout: &Layout,
    found: &mut Found,
) -> Result<(), ImageFault>
    requires room { needed_blocks layout.now.geometry ≤ (D.seen device.old).size }
    requires no_counters { found.old.counters.items ≡ [] }
    requires no_commits { found.old.commits.items ≡ [] }
    ensures { OnOk result ((reads : List Blocks)
        × SlabsRead D.trust layout.now.geometry (D.seen device.old) (D.seen device.new) reads
        × (((slab slot number : ℕ) → slab < layout.now.geometry.slabs →
        number_at 8 0 (sector number (get_or (read_of reads slab)
        (references_of layout.now.geometry + slot) zero_block)) ≡ layout.now.geometry.nonce → ⊥)
        → (at point : ℕ) → Lists found.new.updates.items at point
        → Lists found.old.updates.items at point)) }
{
    // Looked at for the proof alone: it fits 64 bits, so that it is read back.
    let _nonce = layout.geometry.nonce;
    read_slabs(alloc, device, layout, found)
}

// An entry of a slab's journal is an update of a block of that slab.
fn an_entry_is_an_update_of_its_own_slab<D: Disk>(
    alloc: Global,
    device: &mut D,
    layout: &Layout,
    found: &mut Found,
) -> Result<(), ImageFault>
    requires room { needed_blocks layout.now.geometry ≤ (D.seen device.old).size }
    requires no_counters { found.old.counters.items ≡ [] }
    requires no_commits { found.old.commits.items ≡ [] }
    ensures { OnOk result ((reads : List Blocks)
        × SlabsRead D.trust layout.now.geometry (D.seen device.old) (D.seen device.new) reads
        × ((slab : ℕ) (entry : SlabEntry) → slab < layout.now.geometry.slabs
        → SlabKeeps layout.now.geometry slab (read_of reads slab)
        layout.now.geometry.slab_journal entry
        → Lists found.new.updates.items
        (block_of_data layout.now.geometry (place_in slab entry.offset)).0 entry.point.0)) }
{
    read_slabs(alloc, device, layout, found)
}

// An update of an entry of the window above the commit point is applied: the point of its sector is no lesser one.
fn an_entry_of_the_window_is_applied<D: Disk>(
    alloc: Global,
    head: &Super,
    window: &[CommittedEntry],
    device: &mut D,
) -> Result<RecoveredCounts, ImageFault>
    requires sizes { IsGeometry head.now.geometry }
    requires room { needed_blocks head.now.geometry ≤ (D.seen device.old).size }
    requires halves { All (λ committed. committed.point.0 % 2 ≡ 0) window.now }
    ensures { IfOk result (λ counts. (reads : List Blocks)
        × AreSlabsRead D.trust head.now.geometry (D.seen device.old) (D.seen device.new) reads
        × ((blocks : Blocks) (committed : Committed) (place : DataPlace) (point : ℕ)
        → Holds head.now.geometry blocks reads → Contains window.now committed
        → IsDataPlace head.now.geometry place
        → Updates committed (block_of_data head.now.geometry place) point
        → commit_at head.now.geometry blocks place.slab
        (sector_of_offset head.now.geometry place.offset) < point
        → point ≤ (get_or counts.sectors.items
        (place.slab * sectors_per_slab head.now.geometry
        + sector_of_offset head.now.geometry place.offset) no_points).applied.0)) }
{
    counts_with(alloc, head, window, device)
}
