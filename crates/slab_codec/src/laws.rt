ghost use Rattle.std.specs.Prelude.{◌≡◌, ◌+◌, ◌*◌, ◌<◌, ◌≤◌, ◌^◌, ℕ, List, All, length, flat_map, slice_index_or};
ghost use Rattle.blk_base.specs.Sectors.{sector};
ghost use Rattle.blk_base.specs.Counters.{counters_per_sector};
ghost use Rattle.blk_base.specs.declared.geometry.Geometry.{Geometry};
ghost use Rattle.slab_codec.specs.declared.forms.ReferenceSector.{ReferenceSector};
ghost use Rattle.slab_codec.specs.declared.forms.SlabEntry.{SlabEntry};
ghost use Rattle.slab_codec.specs.Reference.{reference_sector_bytes, reference_bytes, counters_in};
ghost use Rattle.slab_codec.specs.BlockBytes.{entries_in, block_bytes};
ghost use Rattle.slab_codec.specs.Grammar.{HoldsBlock, IsSlabSector};
ghost use Rattle.sector_records.specs.SectorBytes.{sector_numbers};

use blk_base::SECTOR_COUNTERS;

/// Bytes say one sector of counters, and at most one sector of a slab's journal.
pub fn bytes_have_one_reading()
    ensures counters { (s s' : ReferenceSector) → s.commit.0 < 2 ^ 64 → s'.commit.0 < 2 ^ 64
        → reference_sector_bytes s ≡ reference_sector_bytes s' → s ≡ s' }
    ensures entries { (nonce slab slab_blocks number : ℕ) (bytes : List ℕ) (s s' : ℕ)
        (es es' : List SlabEntry)
        → IsSlabSector nonce slab slab_blocks number bytes s es →
        IsSlabSector nonce slab slab_blocks number bytes s' es' → (s ≡ s') × (es ≡ es') }
{}

/// What is written is read back: each sector of counters, each sector of a slab's journal that the format can hold, with
/// its part of the entries, and these parts are all entries.
pub fn what_is_written_is_read()
    ensures counters { (sectors : List ReferenceSector) (i : ℕ) (d : ReferenceSector) →
        All (λ s. length s.counters ≡ SECTOR_COUNTERS) sectors → i < length sectors
        → sector i (reference_bytes sectors) ≡ reference_sector_bytes (slice_index_or sectors i d) }
    ensures sectors { (nonce slab slab_blocks sequence : ℕ) (es : List SlabEntry) (i : ℕ) →
        HoldsBlock slab_blocks sequence es → i < 8
        →
        IsSlabSector nonce slab slab_blocks i
        (sector i (block_bytes nonce sequence slab es)) sequence (entries_in i es) }
    ensures entries { (es : List SlabEntry) → length es ≤ 320 →
        flat_map (λ i. entries_in i es) sector_numbers ≡ es }
{}

/// Counter `k` of a slab's sector `n` is that of the data block with the offset `n` × the counters of a sector + `k`, and 0
/// where the slab has no such block.
pub fn a_counter_stands_at_its_place()
    ensures { (g : Geometry) (counters : List ℕ) (n k : ℕ) → k < counters_per_sector g
        →
        slice_index_or (counters_in g n counters) k 0
        ≡ slice_index_or counters (counters_per_sector g * n + k) 0 }
{}
