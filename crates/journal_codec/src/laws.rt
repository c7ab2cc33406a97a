ghost use Rattle.std.specs.Prelude.{◌≡◌, ◌<◌, ℕ, Bool, true, List, [], IsTrue, All, length, take};
ghost use Rattle.blk_base.specs.declared.journal_entry.Entry.{Entry};
ghost use Rattle.blk_base.specs.Sectors.{sector};
ghost use Rattle.journal_codec.specs.BlockBytes.{entries_in, block_bytes};
ghost use Rattle.journal_codec.specs.Grammar.{HoldsEntry, HoldsBlock, joined, IsSector, IsRun, IsPrefix, IsTorn};

/// Bytes say one sector, if they are a valid one, and a block has one prefix, if it has one.
pub fn bytes_have_one_reading()
    ensures sectors { (nonce number : ℕ) (bytes : List ℕ) (s h s' h' : ℕ) (es es' : List Entry)
        → IsSector nonce number bytes s h es → IsSector nonce number bytes s' h' es' →
        (s ≡ s') × (h ≡ h') × (es ≡ es') }
    ensures blocks { (nonce : ℕ) (block : List ℕ) (s h s' h' : ℕ) (es es' : List Entry)
        (w w' : Bool)
        → IsPrefix nonce block s h es w → IsPrefix nonce block s' h' es' w' →
        (s ≡ s') × (h ≡ h') × (es ≡ es') × (w ≡ w') }
{}

/// A run of a block is a list of its sectors: each is valid and has the run's sequence and head, those behind one with
/// fewer than 24 entries have none, and the run's entries are theirs in order. The format can hold each of them.
pub fn a_run_is_its_sectors()
    ensures order { (nonce : ℕ) (block : List ℕ) (s h n : ℕ) (es : List Entry) →
        IsRun nonce block s h n es
        → joined n (λ i. entries_in i es) ≡ es }
    ensures filled { (nonce : ℕ) (block : List ℕ) (s h n : ℕ) (es : List Entry) →
        IsRun nonce block s h n es
        → (i j : ℕ) → i < j → j < n → length (entries_in i es) < 24 → entries_in j es ≡ [] }
    ensures each { (nonce : ℕ) (block : List ℕ) (s h n : ℕ) (lists : ℕ → List Entry)
        → ((i : ℕ) → i < n → IsSector nonce i (sector i block) s h (lists i))
        → ((i j : ℕ) → i < j → j < n → length (lists i) < 24 → lists j ≡ [])
        → IsRun nonce block s h n (joined n lists) }
    ensures held { (nonce : ℕ) (block : List ℕ) (s h n : ℕ) (es : List Entry) →
        IsRun nonce block s h n es → All HoldsEntry es }
{}

/// A block that the format can hold is read back as it was written: each sector has its part of the entries, and the
/// prefix is whole and has them all.
pub fn what_is_written_is_read()
    ensures sectors { (nonce s h : ℕ) (es : List Entry) (i : ℕ) → HoldsBlock s h es → i < 8
        → IsSector nonce i (sector i (block_bytes nonce s h es)) s h (entries_in i es) }
    ensures whole { (nonce s h : ℕ) (es : List Entry) → HoldsBlock s h es →
        IsPrefix nonce (block_bytes nonce s h es) s h es true }
{}

/// A stop within the write of a block leaves in each sector the new bytes, or something else that is no valid sector
/// of its sequence. If the block then has a prefix of this sequence, its entries are a prefix of the block's, and all
/// of them if it is whole.
pub fn a_torn_write_leaves_a_prefix()
    ensures { (nonce s h : ℕ) (es : List Entry) (block : List ℕ) → HoldsBlock s h es →
        IsTorn nonce s (block_bytes nonce s h es) block
        → (h' : ℕ) (kept : List Entry) (whole : Bool) → IsPrefix nonce block s h' kept whole
        → (h' ≡ h) × (kept ≡ take (length kept) es) × (IsTrue whole → kept ≡ es) }
{}
