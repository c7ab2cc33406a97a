ghost use Rattle.std.specs.Prelude.{◌≡◌, ◌∷◌, [], ◌<◌, ◌≤◌, ◌%◌, ℕ, length, slice_index, IfOk, OnOk};
ghost use Rattle.blk_base.specs.Counters.{limit_of};
ghost use Rattle.blk_base.specs.Regions.{data_blocks};
ghost use Rattle.blk_base.specs.declared.journal_entry.Update.{Update as Made};
ghost use Rattle.blk_base.specs.declared.layout.DataPlace.{DataPlace};
ghost use Rattle.image_model.specs.Counts.{block_of_data};
ghost use Rattle.image_model.specs.Sound.{IsDataPlace};
ghost use Rattle.count_updates.specs.Applied.{IsOfSector};
ghost use Rattle.count_updates.specs.Counted.{commit_in};
ghost use Rattle.count_updates.specs.Listed.{AreInOrder, Lists};
ghost use Rattle.count_updates.specs.Numbers.{all_sectors, block_number, sector_number};

use blk_base::{Layout, Point, Update};
use count_updates::{CountFault, Found, applied_points, counts_of, put_in_order};
use std::alloc::{AllocError, Global};

// A data block whose updates are all at or below its commit point has the count of its counter.
fn an_update_at_the_commit_point_is_counted_already(
    alloc: Global,
    layout: &Layout,
    found: &Found,
) -> Result<Vec<u16>, CountFault>
    requires counters { length found.now.counters.items ≡ data_blocks layout.now.geometry }
    requires commits { length found.now.commits.items ≡ all_sectors layout.now.geometry }
    requires order { AreInOrder found.now.updates.items }
    ensures { IfOk result (λ counts.
        (place : DataPlace) → IsDataPlace layout.now.geometry place
        → ((point : ℕ)
        → Lists found.now.updates.items (block_of_data layout.now.geometry place).0 point
        → point ≤ commit_in found.now.commits.items (sector_number layout.now.geometry place))
        → slice_index counts.items (block_number layout.now.geometry place)
        ≡ slice_index found.now.counters.items (block_number layout.now.geometry place)) }
{
    counts_of(alloc, layout, found)
}

// There are no counts where a counter is at the limit, and an update above its commit point adds one.
fn no_count_goes_past_the_limit(
    alloc: Global,
    layout: &Layout,
    found: &Found,
) -> Result<Vec<u16>, CountFault>
    requires counters { length found.now.counters.items ≡ data_blocks layout.now.geometry }
    requires commits { length found.now.commits.items ≡ all_sectors layout.now.geometry }
    requires order { AreInOrder found.now.updates.items }
    ensures { OnOk result ((place : DataPlace) (point : ℕ) → IsDataPlace layout.now.geometry place
        → slice_index found.now.counters.items (block_number layout.now.geometry place)
        ≡ limit_of layout.now.geometry
        → ((other : ℕ)
        → Lists found.now.updates.items (block_of_data layout.now.geometry place).0 other
        → other % 2 ≡ 0)
        → Lists found.now.updates.items (block_of_data layout.now.geometry place).0 point
        → commit_in found.now.commits.items (sector_number layout.now.geometry place) < point
        → ⊥) }
{
    counts_of(alloc, layout, found)
}

// The point of a sector is at least that of each update of its blocks above its commit point, and stays where there is
// no update.
fn an_update_raises_the_point_of_its_sector(
    alloc: Global,
    layout: &Layout,
    found: &Found,
) -> Result<Vec<Point>, AllocError>
    requires { length found.now.commits.items ≡ all_sectors layout.now.geometry }
    ensures raised { IfOk result (λ applied.
        (place : DataPlace) (point : ℕ) → IsDataPlace layout.now.geometry place
        → Lists found.now.updates.items (block_of_data layout.now.geometry place).0 point
        → commit_in found.now.commits.items (sector_number layout.now.geometry place) < point
        → point ≤ commit_in applied.items (sector_number layout.now.geometry place)) }
    ensures others { IfOk result (λ applied.
        (number : ℕ) → number < all_sectors layout.now.geometry
        → ((point : ℕ)
        → IsOfSector layout.now.geometry found.now.updates.items number point → ⊥)
        → commit_in applied.items number ≡ commit_in found.now.commits.items number) }
{
    applied_points(alloc, layout, found)
}

// Of two updates the one of the lesser block comes first, whatever their points are.
fn the_lesser_block_comes_first(updates: &mut Vec<Update>) -> Result<(), AllocError>
    ensures { OnOk result ((one other : Made) → updates.old.items ≡ other ∷ one ∷ []
        → one.at.0 < other.at.0
        → updates.new.items ≡ one ∷ other ∷ []) }
{
    put_in_order(updates)
}
