ghost use Rattle.std.specs.Prelude.{◌≡◌, ◌≢◌, ◌<◌, ◌≤◌, ◌+◌, ◌++◌, ◌∷◌, [], ℕ, Bool, true, IsTrue, List, length, get_or};
ghost use Rattle.blk_base.specs.Regions.{journal_slot_of};
ghost use Rattle.blk_base.specs.Sectors.{sector, zero_block};
ghost use Rattle.blk_base.specs.declared.geometry.Geometry.{Geometry};
ghost use Rattle.blk_base.specs.declared.journal_entry.CommittedEntry.{CommittedEntry};
ghost use Rattle.blk_base.specs.declared.journal_entry.Entry.{Entry};
ghost use Rattle.blk_base.specs.declared.place.Pbn.{Pbn};
ghost use Rattle.disk_model.specs.declared.call.Call.{Call};
ghost use Rattle.disk_model.specs.declared.call.Call.TheVariants.{Write, Flush};
ghost use Rattle.disk_model.specs.Images.{IsImage};
ghost use Rattle.disk_model.specs.Log.{Blocks};
ghost use Rattle.disk_model.specs.OneImages.{HasOneImageIn};
ghost use Rattle.image_layout.specs.Values.{journal_of};
ghost use Rattle.image_model.specs.Sound.{IsSound};
ghost use Rattle.image_model.specs.Windows.{in_slot, IsWindow};
ghost use Rattle.image_model.specs.Looked.{is_looked_at};
ghost use Rattle.journal_codec.specs.Grammar.{HoldsBlock, IsSector, IsPrefix};
ghost use Rattle.journal_codec.specs.BlockBytes.{block_bytes};
ghost use Rattle.vdo_model.specs.Journals.{MissesJournal};
ghost use Rattle.journal_stops.specs.Rings.{IsWhole, IsRing, IsAtRest, IsUnderWay, IsWritten, ring_slot_of};
ghost use Rattle.journal_stops.specs.Sealed.{Sealed, IsSealed, next_of, head_of, window_of, front_of};

/// A journal in which no sector is as late as the first sequence is at rest, and has no block; and where nothing is
/// pending but in the index, it is at rest as it is in the one image. So the journal of each image that a stop leaves is at rest with a first
/// sequence two past its last one, or later, and so is that of each sound image. With the first sequence that it had, a
/// journal goes on where its last block is whole, nothing is later, and the ring has a slot for the next one.
pub fn a_journal_begins_at_rest()
    ensures empty { (image : Blocks) (g : Geometry) (start : ℕ) → 1 ≤ start → 0 < g.journal
        → ((slot number sequence head : ℕ) (entries : List Entry) → slot < g.journal → number < 8
        →
        IsSector g.nonce number
        (sector number (get_or (journal_of g image) slot zero_block)) sequence head entries →
        sequence < start)
        → IsAtRest image [] g start [] }
    ensures sound { (image : Blocks) (s : IsSound image) (start : ℕ) → s.last + 2 ≤ start →
        IsAtRest image [] s.head.geometry start [] }
    ensures closed { (image : Blocks) (s : IsSound image) (start : ℕ) → IsTrue s.head.clean →
        s.head.start ≤ start → IsAtRest image [] s.head.geometry start [] }
    ensures opened { (opening : Blocks) (log : List Call) (g : Geometry) (start : ℕ)
        (image : Blocks) (blocks : List Sealed) → 1 + g.journal ≤ length opening
        → HasOneImageIn (is_looked_at g) opening log image → IsAtRest image [] g start blocks →
        IsAtRest opening log g start blocks }
    ensures rest { (opening : Blocks) (log : List Call) (g : Geometry) (start : ℕ)
        (blocks : List Sealed) (image : Blocks) (later : ℕ) → 1 + g.journal ≤ length opening
        → IsAtRest opening log g start blocks → IsImage opening log image →
        next_of start blocks ≤ later → IsAtRest image [] g later [] }
    ensures torn { (opening : Blocks) (log : List Call) (g : Geometry) (start : ℕ)
        (blocks : List Sealed) (block : Sealed) (image : Blocks) (later : ℕ) →
        1 + g.journal ≤ length opening
        → IsUnderWay opening log g start blocks block → IsImage opening log image →
        next_of start blocks < later → IsAtRest image [] g later [] }
    ensures reopened { (image : Blocks) (g : Geometry) (start last : ℕ)
        (window : List CommittedEntry) (is : IsWindow g start (journal_of g image) last window)
        → 1 ≤ start → start ≤ is.first → last + 2 ≤ is.first + g.journal
        →
        (start ≤ last → (head : ℕ) (entries : List Entry) (whole : Bool) →
        IsPrefix g.nonce (in_slot g (journal_of g image) last) last head entries whole →
        IsTrue whole)
        → ((slot number sequence head : ℕ) (entries : List Entry) → slot < g.journal → number < 8
        →
        IsSector g.nonce number
        (sector number (get_or (journal_of g image) slot zero_block)) sequence head entries →
        sequence ≤ last)
        →
        (blocks : List Sealed) × IsAtRest image [] g start blocks
        × (next_of start blocks ≡ last + 1) × (head_of start blocks ≡ is.first)
        × (window_of start blocks ≡ window) }
{}

/// The blocks from the head on stand whole, whatever a stop leaves: over each call that writes no block of the journal,
/// and while the next block is written to the slot of one that is below the head. That block is under way from its write
/// on, failed or not, and one of them once it was written and a flush returned.
pub fn the_blocks_from_the_head_on_stand()
    // A block that is spelled as it was sealed is whole.
    ensures spelled { (g : Geometry) (sequence : ℕ) (block : Sealed) →
        HoldsBlock sequence block.head block.entries
        → IsWhole g sequence block (block_bytes g.nonce sequence block.head block.entries) }

    // The ring rule: the slot of the next sequence has none of the blocks from the head on, and so on with the next block.
    ensures free { (g : Geometry) (start : ℕ) (blocks : List Sealed) (sequence : ℕ) →
        IsRing g start blocks → head_of start blocks ≤ sequence
        → sequence < next_of start blocks →
        journal_slot_of g sequence ≢ journal_slot_of g (next_of start blocks) }
    ensures grows { (g : Geometry) (start : ℕ) (blocks : List Sealed) (block : Sealed) →
        IsRing g start blocks → IsSealed g start blocks block → IsRing g start (block ∷ blocks) }
    ensures grows_by_a_front { (g : Geometry) (start n : ℕ) (blocks : List Sealed)
        (block : Sealed) → IsRing g start blocks → IsSealed g start blocks block
        → IsRing g start (front_of n block ∷ blocks) }

    // What each call does.
    ensures rests { (opening : Blocks) (log : List Call) (g : Geometry) (start : ℕ)
        (blocks : List Sealed) (call : Call) → MissesJournal g call
        → IsAtRest opening log g start blocks → IsAtRest opening (call ∷ log) g start blocks }
    ensures begins { (opening : Blocks) (log : List Call) (g : Geometry) (start : ℕ)
        (blocks : List Sealed) (block : Sealed) (at : Pbn) (bytes : List ℕ) (ok : Bool)
        → at.0 ≡ ring_slot_of g (next_of start blocks) → IsSealed g start blocks block →
        IsWhole g (next_of start blocks) block bytes
        → IsAtRest opening log g start blocks →
        IsUnderWay opening (Write at bytes ok ∷ log) g start blocks block }
    ensures goes_on { (opening : Blocks) (log : List Call) (g : Geometry) (start : ℕ)
        (blocks : List Sealed) (block : Sealed) (call : Call) → MissesJournal g call
        → IsUnderWay opening log g start blocks block →
        IsUnderWay opening (call ∷ log) g start blocks block }
    ensures written { (opening : Blocks) (log : List Call) (g : Geometry) (start : ℕ)
        (blocks : List Sealed) (block : Sealed) (at : Pbn) (bytes : List ℕ)
        → at.0 ≡ ring_slot_of g (next_of start blocks)
        → IsWhole g (next_of start blocks) block bytes →
        IsWritten opening (Write at bytes true ∷ log) g start blocks block }
    ensures stays_written { (opening : Blocks) (log : List Call) (g : Geometry) (start : ℕ)
        (blocks : List Sealed) (block : Sealed) (call : Call) → 0 < g.journal → MissesJournal g call
        → IsWritten opening log g start blocks block →
        IsWritten opening (call ∷ log) g start blocks block }
    ensures ends { (opening : Blocks) (log : List Call) (g : Geometry) (start : ℕ)
        (blocks : List Sealed) (block : Sealed)
        → IsWritten opening log g start blocks block → IsUnderWay opening log g start blocks block →
        IsAtRest opening (Flush true ∷ log) g start (block ∷ blocks) }

    // So each of them stands whole in each image.
    ensures whole { (opening : Blocks) (log : List Call) (g : Geometry) (start : ℕ)
        (newer : List Sealed) (block : Sealed) (older : List Sealed) (image : Blocks)
        → 1 + g.journal ≤ length opening → IsAtRest opening log g start (newer ++ (block ∷ older)) →
        IsImage opening log image
        → head_of start (newer ++ (block ∷ older)) ≤ next_of start older
        →
        IsWhole g (next_of start older) block
        (in_slot g (journal_of g image) (next_of start older)) }
    ensures whole_still { (opening : Blocks) (log : List Call) (g : Geometry) (start : ℕ)
        (newer : List Sealed) (block : Sealed) (older : List Sealed) (next : Sealed)
        (image : Blocks)
        → 1 + g.journal ≤ length opening →
        IsUnderWay opening log g start (newer ++ (block ∷ older)) next → IsImage opening log image
        → head_of start (newer ++ (block ∷ older)) ≤ next_of start older
        →
        IsWhole g (next_of start older) block
        (in_slot g (journal_of g image) (next_of start older)) }
{}
