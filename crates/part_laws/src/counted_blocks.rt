ghost use Rattle.std.specs.Prelude.{◌≡◌, ◌<◌, ◌≤◌, ◌/◌, ◌%◌, ◌^◌, ◌++◌, ℕ, List, Ok, length, slice_index};
ghost use Rattle.blk_base.specs.Counters.{limit_of, sectors_per_slab};
ghost use Rattle.blk_base.specs.Sectors.{sector};
ghost use Rattle.blk_base.specs.declared.journal_entry.CommittedEntry.{CommittedEntry};
ghost use Rattle.blk_base.specs.declared.journal_entry.Update.{Update};
ghost use Rattle.blk_base.specs.declared.point.Point.{Point};
ghost use Rattle.blk_base.specs.Forms.{place_in};
ghost use Rattle.image_model.specs.Counts.{commit_at, count_after, counter_of};
ghost use Rattle.image_model.specs.Maps.{Image};
ghost use Rattle.reference_blocks.specs.References.{HandsOutBlock, References, opening, point_at};
ghost use Rattle.reference_blocks.specs.Updates as calls;
ghost use Rattle.count_laws.specs.Counters.{IsCounted, points_at};
ghost use Rattle.count_laws.specs.Points.{ArePointed, next_point, those_of, updates_of};
ghost use Rattle.part_laws.specs.Taken.{HasTaken, entries_taken, in_slab};

/// A slab took the first of the updates that entries give its data blocks. If their counts go well, then a block of counters
/// that it hands out has in each sector the opened counters with exactly the updates up to its commit point. It does nothing.
pub fn a_block_that_is_handed_out_is_counted()
    ensures { (opened : Image) (entries : List CommittedEntry) (slab : ℕ) (points : List Point)
        (first : List ℕ) (made : List calls.Operation)
        (old new : References) (bytes : List ℕ) (block : ℕ) →
        length points ≡ sectors_per_slab opened.geometry
        → calls.LeadTo (opening opened.geometry points) made old →
        HasTaken opened entries slab points first (calls.updates_of made)
        → slab < opened.geometry.slabs
        → ((offset : ℕ) → offset < opened.geometry.slab_blocks
        →
        (now : ℕ)
        ×
        (count_after (limit_of opened.geometry) (counter_of opened (place_in slab offset))
        (points_at opened.geometry entries (place_in slab offset)) ≡ Ok now))
        →
        ((n : ℕ) → n < sectors_per_slab opened.geometry →
        commit_at opened.geometry opened.blocks slab n < 2 ^ 64)
        → HandsOutBlock old new (calls.counters_after first (calls.updates_of made)) bytes block
        → (n : ℕ) → n / 8 ≡ block → n < sectors_per_slab opened.geometry →
        IsCounted opened entries slab n (sector (n % 8) bytes) }
{}

/// What a slab took as the first part of the stream of its updates, which rise in the order of points, is the first part of
/// its blocks' updates. It does nothing.
pub fn a_slab_takes_the_first_of_its_updates()
    ensures { (opened : Image) (entries : List CommittedEntry) (from slab : ℕ) (points : List Point)
        (first : List ℕ) (taken rest : List Update)
        → ArePointed from entries → next_point from entries ≤ 18446744073709551616
        →
        ((n : ℕ) → n < sectors_per_slab opened.geometry →
        (point_at points n).0 ≡ commit_at opened.geometry opened.blocks slab n)
        →
        ((n : ℕ) → n < sectors_per_slab opened.geometry →
        commit_at opened.geometry opened.blocks slab n < from)
        → length first ≡ opened.geometry.slab_blocks
        →
        ((offset : ℕ) → offset < opened.geometry.slab_blocks →
        slice_index first offset ≡ counter_of opened (place_in slab offset))
        → those_of (in_slab opened.geometry slab) (updates_of entries) ≡ taken ++ rest
        → HasTaken opened entries slab points first (entries_taken opened.geometry slab taken) }
{}
