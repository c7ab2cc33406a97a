ghost use Rattle.std.specs.Prelude.{◌≡◌, ◌<◌, ◌≤◌, ◌⊎◌, ◌+◌, ◌++◌, ◌∷◌, ℕ, List, length, get_or};
ghost use Rattle.blk_base.specs.Sectors.{sector, zero_block};
ghost use Rattle.blk_base.specs.declared.geometry.Geometry.{Geometry};
ghost use Rattle.blk_base.specs.declared.journal_entry.CommittedEntry.{CommittedEntry};
ghost use Rattle.blk_base.specs.declared.journal_entry.Entry.{Entry};
ghost use Rattle.disk_model.specs.declared.call.Call.{Call};
ghost use Rattle.disk_model.specs.Images.{IsImage};
ghost use Rattle.disk_model.specs.Log.{Blocks};
ghost use Rattle.image_layout.specs.Values.{journal_of};
ghost use Rattle.image_model.specs.Windows.{IsWindow};
ghost use Rattle.journal_codec.specs.Grammar.{IsSector};
ghost use Rattle.journal_stops.specs.Rings.{IsRing, IsAtRest, IsUnderWay};
ghost use Rattle.journal_stops.specs.Sealed.{Sealed, next_of, head_of, entries_of, before, window_of, front_of};
ghost use Rattle.journal_stops.specs.Shown.{Extends, HasInWindow};

/// Each image that a stop leaves has a window: the entries of the committed blocks from the head on, or these and the
/// entries of the first sectors of the block under way, with the last sequence accordingly. So it shows a list of entries
/// between those that are committed and those that were handed in. And nothing in it is later than the block under way,
/// in no sector of any slot.
pub fn a_stop_shows_committed_and_a_prefix()
    ensures rest { (opening : Blocks) (log : List Call) (g : Geometry) (start : ℕ)
        (blocks : List Sealed) (image : Blocks) (last : ℕ)
        → 1 + g.journal ≤ length opening → IsAtRest opening log g start blocks →
        IsImage opening log image → last + 1 ≡ next_of start blocks
        → IsWindow g start (journal_of g image) last (window_of start blocks) }
    ensures torn { (opening : Blocks) (log : List Call) (g : Geometry) (start : ℕ)
        (blocks : List Sealed) (block : Sealed) (image : Blocks) (last : ℕ)
        → 1 + g.journal ≤ length opening → IsUnderWay opening log g start blocks block →
        IsImage opening log image → last + 1 ≡ next_of start blocks
        → IsWindow g start (journal_of g image) last (window_of start blocks)
        ⊎
        ((n : ℕ) × (1 ≤ n) × (n ≤ 8)
        × IsWindow g start (journal_of g image) (last + 1)
        (window_of start (front_of n block ∷ blocks))) }

    // The window has the newest entries, and the others are those of the blocks before the head. Where the head is the
    // first sequence, it has all.
    ensures split { (g : Geometry) (start : ℕ) (blocks : List Sealed) → IsRing g start blocks
        →
        entries_of start blocks
        ≡ window_of start blocks ++ entries_of start (before start (head_of start blocks) blocks) }
    ensures all { (start : ℕ) (blocks : List Sealed) → head_of start blocks ≡ start →
        window_of start blocks ≡ entries_of start blocks }

    // The entries that it shows.
    ensures shown { (opening : Blocks) (log : List Call) (g : Geometry) (start : ℕ)
        (blocks : List Sealed) (image : Blocks)
        → 1 + g.journal ≤ length opening → IsAtRest opening log g start blocks →
        IsImage opening log image
        → HasInWindow g start image (entries_of start blocks) }
    ensures between { (opening : Blocks) (log : List Call) (g : Geometry) (start : ℕ)
        (blocks : List Sealed) (block : Sealed) (image : Blocks)
        → 1 + g.journal ≤ length opening → IsUnderWay opening log g start blocks block →
        IsImage opening log image
        → (entries : List CommittedEntry) × HasInWindow g start image entries
        × Extends entries (entries_of start blocks)
        × Extends (entries_of start (block ∷ blocks)) entries }

    // Nothing is from a later time.
    ensures timely { (opening : Blocks) (log : List Call) (g : Geometry) (start : ℕ)
        (blocks : List Sealed) (image : Blocks)
        → 1 + g.journal ≤ length opening → IsAtRest opening log g start blocks →
        IsImage opening log image
        → (slot number sequence head : ℕ) (entries : List Entry) → slot < g.journal → number < 8
        →
        IsSector g.nonce number
        (sector number (get_or (journal_of g image) slot zero_block)) sequence head entries →
        sequence < next_of start blocks }
    ensures timely_torn { (opening : Blocks) (log : List Call) (g : Geometry) (start : ℕ)
        (blocks : List Sealed) (block : Sealed) (image : Blocks)
        → 1 + g.journal ≤ length opening → IsUnderWay opening log g start blocks block →
        IsImage opening log image
        → (slot number sequence head : ℕ) (entries : List Entry) → slot < g.journal → number < 8
        →
        IsSector g.nonce number
        (sector number (get_or (journal_of g image) slot zero_block)) sequence head entries →
        sequence ≤ next_of start blocks }
{}
