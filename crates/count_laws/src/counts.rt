ghost use Rattle.std.specs.Prelude.{◌≡◌, ◌⊎◌, ◌+◌, ◌*◌, ◌/◌, ◌%◌, ◌<◌, ◌≤◌, ◌++◌, ◌∷◌, [], ℕ, Bool, IsTrue, List, Contains, Ok, length};
ghost use Rattle.blk_base.specs.Counters.{limit_of, sector_of_offset, sectors_per_slab};
ghost use Rattle.blk_base.specs.Regions.{ReferenceBlock, SlabJournalSlot, block_of, needed_blocks, references_of};
ghost use Rattle.blk_base.specs.Sectors.{sector};
ghost use Rattle.blk_base.specs.declared.journal_entry.CommittedEntry.{CommittedEntry};
ghost use Rattle.blk_base.specs.declared.layout.DataPlace.{DataPlace};
ghost use Rattle.blk_base.specs.declared.place.Pbn.{Pbn};
ghost use Rattle.byte_fields.specs.Fields.{number_at};
ghost use Rattle.disk_model.specs.declared.call.Call.{Call};
ghost use Rattle.disk_model.specs.declared.call.Call.TheVariants.{Write};
ghost use Rattle.disk_model.specs.Images.{IsImage};
ghost use Rattle.disk_model.specs.Log.{Blocks, Misses};
ghost use Rattle.disk_model.specs.OneImages.{HasOneImageIn};
ghost use Rattle.image_model.specs.Counts.{IsKept, Stores, commit_at, count_after, counter_of};
ghost use Rattle.image_model.specs.Maps.{Image};
ghost use Rattle.image_model.specs.Sound.{AreStored, AreTrue, AreUnshared, IsDataPlace, IsSound, image_of};
ghost use Rattle.image_model.specs.Looked.{is_looked_at};
ghost use Rattle.journal_stops.specs.Mapped.{ShowsEntries, later_image};
ghost use Rattle.slab_codec.specs.declared.forms.SlabEntry.{SlabEntry};
ghost use Rattle.count_laws.specs.Closed.{HasClosedCounts};
ghost use Rattle.count_laws.specs.Counters.{CountsStand, HasUpdate, IsCounted, IsKnown, IsOfSector, MayWrite, SurelyCounters, SurelyJournal, UpdateStands, counter_in, entry_at, points_at};
ghost use Rattle.count_laws.specs.Points.{ArePointed, next_point};
ghost use Rattle.count_laws.specs.Turns.{AreInTurn};

/// Where counts stand, each image that a stop leaves has, for each data block, the running count of all entries as its stored
/// count; with entries in turn this is the number of its mappings, and nothing is from a later time. It does nothing.
pub fn counts_that_stand_are_true()
    ensures stored { (opening : Blocks) (log : List Call) (opened : Image)
        (entries window behind : List CommittedEntry) (from : ℕ) (image : Blocks)
        (place : DataPlace) (count : ℕ) → needed_blocks opened.geometry ≤ length opening →
        CountsStand opening log opened entries window
        → entries ≡ window ++ behind → ArePointed from entries → IsImage opening log image →
        IsDataPlace opened.geometry place
        → counter_of opened place ≤ limit_of opened.geometry
        →
        count_after (limit_of opened.geometry) (counter_of opened place)
        (points_at opened.geometry entries place) ≡ Ok count
        → Stores (later_image opened image window) place (Ok count) }

    // A commit point fixes the counters of its sector.
    ensures one { (opened : Image) (entries : List CommittedEntry) (slab n : ℕ)
        (bytes other : List ℕ) (place : DataPlace) → IsCounted opened entries slab n bytes
        → IsCounted opened entries slab n other → number_at 8 0 bytes ≡ number_at 8 0 other →
        IsOfSector opened.geometry slab n place
        → counter_in opened.geometry bytes place ≡ counter_in opened.geometry other place }

    // A sound image that was closed is one to begin on.
    ensures closed { (blocks : Blocks) (sound : IsSound blocks) → IsTrue sound.head.clean →
        HasClosedCounts (image_of sound.head blocks sound.window) }
    ensures counts { (opening : Blocks) (log : List Call) (opened : Image)
        (entries : List CommittedEntry) (from start : ℕ) (image : Blocks)
        (s : ShowsEntries opened start image entries) →
        needed_blocks opened.geometry ≤ length opening → HasClosedCounts opened
        → AreInTurn opened entries → ArePointed from entries →
        CountsStand opening log opened entries s.shown.window → IsImage opening log image
        →
        AreTrue (later_image opened image s.shown.window)
        × AreStored (later_image opened image s.shown.window)
        × AreUnshared (later_image opened image s.shown.window) }

    ensures commits { (opening : Blocks) (log : List Call) (opened : Image)
        (entries window : List CommittedEntry) (from bound : ℕ) (image : Blocks)
        → needed_blocks opened.geometry ≤ length opening →
        CountsStand opening log opened entries window → ArePointed from entries
        → IsImage opening log image → next_point from entries ≤ bound
        →
        ((slab n : ℕ) → slab < opened.geometry.slabs → n < 8 * references_of opened.geometry →
        commit_at opened.geometry opened.blocks slab n < bound)
        → (slab n : ℕ) → slab < opened.geometry.slabs → n < 8 * references_of opened.geometry →
        commit_at opened.geometry image slab n < bound }
    ensures updates { (opening : Blocks) (log : List Call) (opened : Image)
        (entries window : List CommittedEntry) (from bound : ℕ) (image : Blocks)
        → needed_blocks opened.geometry ≤ length opening →
        CountsStand opening log opened entries window → ArePointed from entries
        → IsImage opening log image → next_point from entries ≤ bound
        →
        ((slab n : ℕ) → slab < opened.geometry.slabs → n < 8 * references_of opened.geometry →
        commit_at opened.geometry opened.blocks slab n < bound)
        → (slab : ℕ) (entry : SlabEntry) → slab < opened.geometry.slabs →
        IsKept opened.geometry image slab entry → entry.point.0 < bound }
{}

/// Counts stand when a session begins, and go on standing: with newer entries that the window has, with a window that has more
/// entries behind, or another one where each update of the first stands with it, over a call that writes no block of theirs,
/// and over a write that they allow. It does nothing.
pub fn counts_go_on_standing()
    ensures begin { (opening : Blocks) (log : List Call) (opened : Image) →
        needed_blocks opened.geometry ≤ length opening
        → HasOneImageIn (is_looked_at opened.geometry) opening log opened.blocks →
        HasClosedCounts opened → CountsStand opening log opened [] [] }
    ensures newer { (opening : Blocks) (log : List Call) (opened : Image)
        (newer entries window : List CommittedEntry) (from : ℕ)
        → ArePointed from (newer ++ entries)
        →
        ((slab n : ℕ) → slab < opened.geometry.slabs → n < sectors_per_slab opened.geometry →
        commit_at opened.geometry opened.blocks slab n < from)
        → CountsStand opening log opened entries window →
        CountsStand opening log opened (newer ++ entries) (newer ++ window) }
    ensures more { (opening : Blocks) (log : List Call) (opened : Image)
        (entries window more : List CommittedEntry)
        → CountsStand opening log opened entries window →
        CountsStand opening log opened entries (window ++ more) }
    ensures other { (opening : Blocks) (log : List Call) (opened : Image)
        (entries window other : List CommittedEntry)
        → CountsStand opening log opened entries window
        →
        ((place : DataPlace) (point : ℕ) → IsDataPlace opened.geometry place →
        Contains (points_at opened.geometry window place) point
        → UpdateStands opening log opened.geometry other place point)
        → CountsStand opening log opened entries other }
    ensures missed { (opening : Blocks) (log : List Call) (opened : Image)
        (entries window : List CommittedEntry) (call : Call)
        →
        ((slab i : ℕ) → slab < opened.geometry.slabs → i < references_of opened.geometry →
        Misses call (block_of opened.geometry (ReferenceBlock slab i)))
        →
        ((slab slot : ℕ) → slab < opened.geometry.slabs → slot < opened.geometry.slab_journal →
        Misses call (block_of opened.geometry (SlabJournalSlot slab slot)))
        → CountsStand opening log opened entries window →
        CountsStand opening (call ∷ log) opened entries window }
    ensures written { (opening : Blocks) (log : List Call) (opened : Image)
        (entries window : List CommittedEntry) (at : Pbn) (bytes : List ℕ) (ok : Bool)
        → MayWrite opening log opened entries window at.0 bytes
        → CountsStand opening log opened entries window →
        CountsStand opening (Write at bytes ok ∷ log) opened entries window }
{}

/// Which blocks of the counts may be written. Of counters: one whose sectors are counted, with commit points that are no lower
/// than those of each content. Of a slab's journal: one with known updates alone, where each update that the old one keeps is
/// in the new one too, or in the window, or counted. It does nothing.
pub fn blocks_of_the_counts_may_be_written()
    ensures counters { (opening : Blocks) (log : List Call) (opened : Image)
        (entries window : List CommittedEntry) (bytes : List ℕ) (slab i : ℕ)
        → slab < opened.geometry.slabs → i < references_of opened.geometry
        →
        ((n : ℕ) → n / 8 ≡ i → n < sectors_per_slab opened.geometry →
        IsCounted opened entries slab n (sector (n % 8) bytes))
        → ((n : ℕ) → n / 8 ≡ i → n < sectors_per_slab opened.geometry
        →
        SurelyCounters opening log opened.geometry slab n (λ old.
        number_at 8 0 old ≤ number_at 8 0 (sector (n % 8) bytes)))
        → ((n : ℕ) → n / 8 ≡ i → sectors_per_slab opened.geometry ≤ n
        → number_at 8 0 (sector (n % 8) bytes) ≤ commit_at opened.geometry opened.blocks slab n)
        →
        MayWrite opening log opened entries window
        (block_of opened.geometry (ReferenceBlock slab i)) bytes }
    ensures journal { (opening : Blocks) (log : List Call) (opened : Image)
        (entries window : List CommittedEntry) (bytes : List ℕ) (slab slot : ℕ)
        → slab < opened.geometry.slabs → slot < opened.geometry.slab_journal
        →
        ((number : ℕ) (entry : SlabEntry) → number < 8 →
        HasUpdate opened.geometry slab number entry (sector number bytes) →
        IsKnown opened entries slab entry)
        → ((offset number point : ℕ) → offset < opened.geometry.slab_blocks → number < 8
        →
        Contains (points_at opened.geometry entries (record { slab = slab; offset = offset })) point
        →
        SurelyJournal opening log opened.geometry slab slot number
        (HasUpdate opened.geometry slab number
        (entry_at (record { slab = slab; offset = offset }) point))
        →
        HasUpdate opened.geometry slab number
        (entry_at (record { slab = slab; offset = offset }) point) (sector number bytes)
        ⊎ Contains
        (points_at opened.geometry window (record { slab = slab; offset = offset })) point
        ⊎ SurelyCounters opening log opened.geometry slab (sector_of_offset opened.geometry offset)
        (λ old. point ≤ number_at 8 0 old))
        →
        MayWrite opening log opened entries window
        (block_of opened.geometry (SlabJournalSlot slab slot)) bytes }
{}
