ghost use Rattle.std.specs.Prelude.{◌≡◌, ◌+◌, ◌*◌, ◌/◌, ◌%◌, ◌<◌, ◌^◌, ℕ, Some, All, IfOk, length, slice_index};
ghost use Rattle.blk_base.specs.Counters.{counters_per_sector, sector_of_offset, sectors_per_slab};
ghost use Rattle.blk_base.specs.Limits.{IsGeometry};
ghost use Rattle.blk_base.specs.Pages.{root_page};
ghost use Rattle.blk_base.specs.Regions.{IsPlace, ReferenceBlock, data_blocks};
ghost use Rattle.blk_base.specs.Sectors.{sector};
ghost use Rattle.blk_base.specs.declared.place.Mapping.{Mapping};
ghost use Rattle.blk_base.specs.declared.sizes.TheConstants.{PAGE_SLOTS, TREES};
ghost use Rattle.block_map_tree.specs.OpenedTree.{IsListed};
ghost use Rattle.byte_fields.specs.Fields.{number_at};
ghost use Rattle.byte_fields.specs.Mappings.{mapping_bytes};
ghost use Rattle.count_updates.specs.Numbers.{all_sectors};
ghost use Rattle.page_codec.specs.Grammar.{slot_bytes};
ghost use Rattle.recovery_blocks.specs.Counters.{points_of};
ghost use Rattle.replay_map.specs.Changes.{changed};
ghost use Rattle.replay_map.specs.Forms.{HasForm};

use blk_base::{Block, Layout, Opened, PageId, Super};
use recovery_blocks::{put_changes, put_counts};
use replay_counts::RecoveredCounts;
use replay_map::{Changes, RecoveredMap};
use session_opening::opened_of;
use std::alloc::{AllocError, Global};

// A slot gets the mapping that the changes put there.
fn a_slot_gets_its_mapping(block: &mut Block, page: PageId, changes: &Changes)
    ensures { (slot : ℕ) (mapping : Mapping) → slot < PAGE_SLOTS
        → changed changes.now page slot ≡ Some mapping
        → slot_bytes slot block.new ≡ mapping_bytes mapping }
{
    put_changes(block, page, changes);
}

// A sector of counters gets the greatest point that was applied to it, and each of its counters the stored count.
fn a_sector_gets_its_point_and_its_counts(
    block: &mut Block,
    layout: &Layout,
    slab: u32,
    i: u32,
    counts: &RecoveredCounts,
)
    requires inside { IsPlace layout.now.geometry (ReferenceBlock slab i) }
    requires counts { length counts.now.counts.items ≡ data_blocks layout.now.geometry }
    requires sectors { length counts.now.sectors.items ≡ all_sectors layout.now.geometry }
    ensures point { (n : ℕ) → n / 8 ≡ i → n < sectors_per_slab layout.now.geometry
        → number_at 8 0 (sector (n % 8) block.new)
        ≡ (points_of layout.now.geometry counts.now.sectors.items slab n).applied.0 }
    ensures counted { (n offset : ℕ) → n / 8 ≡ i → n < sectors_per_slab layout.now.geometry
        → offset < layout.now.geometry.slab_blocks
        → sector_of_offset layout.now.geometry offset ≡ n
        → slice_index counts.now.counts.items (slab * layout.now.geometry.slab_blocks + offset)
        < 255
        → number_at 1 (8 + offset % counters_per_sector layout.now.geometry)
        (sector (n % 8) block.new)
        ≡ slice_index counts.now.counts.items
        (slab * layout.now.geometry.slab_blocks + offset) }
{
    put_counts(block, layout, slab, i, counts);
}

// A session starts with the root of each tree.
fn a_session_has_each_root(
    alloc: Global,
    head: &Super,
    map: &RecoveredMap,
    counts: &RecoveredCounts,
) -> Result<Opened, AllocError>
    requires sizes { IsGeometry head.now.geometry }
    requires limit { All (λ count. count < 2 ^ 8) counts.now.counts.items }
    requires form { HasForm head.now.geometry map.now.links.items map.now.slots.items }
    ensures { IfOk result (λ opened. (tree : ℕ) → tree < TREES
        → IsListed opened.pages.items (root_page head.now.geometry tree)) }
{
    opened_of(alloc, head, map, counts)
}
