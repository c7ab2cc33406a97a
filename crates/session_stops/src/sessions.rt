ghost use Rattle.std.specs.Prelude.{◌≡◌, ◌∷◌, ◌+◌, ◌*◌, ◌<◌, ◌≤◌, ◌^◌, [], ℕ, Bool, true, List, length, Some};
ghost use Rattle.std.specs.List.{AllByRecursion};
ghost use Rattle.blk_base.specs.Points.{point_of};
ghost use Rattle.blk_base.specs.Regions.{IsDataBlock};
ghost use Rattle.blk_base.specs.declared.journal_entry.CommittedEntry.{CommittedEntry};
ghost use Rattle.blk_base.specs.declared.layout.DataPlace.{DataPlace};
ghost use Rattle.blk_base.specs.declared.place.PageId.{PageId};
ghost use Rattle.blk_base.specs.declared.place.Pbn.{Pbn};
ghost use Rattle.blk_base.specs.declared.point.Half.TheVariants.{Increment};
ghost use Rattle.disk_model.specs.declared.call.Call.{Call};
ghost use Rattle.disk_model.specs.declared.call.Call.TheVariants.{Write, Flush};
ghost use Rattle.disk_model.specs.Images.{IsImage};
ghost use Rattle.disk_model.specs.Log.{Blocks, Misses};
ghost use Rattle.image_layout.specs.Superblock.{super_block};
ghost use Rattle.image_model.specs.Counts.{block_of_data, counter_of};
ghost use Rattle.image_model.specs.Sound.{IsDataPlace};
ghost use Rattle.image_model.specs.Looked.{HasOneImageButIndex};
ghost use Rattle.journal_stops.specs.Mapped.{page_after};
ghost use Rattle.journal_stops.specs.Rings.{IsWhole, IsWritten, ring_slot_of};
ghost use Rattle.journal_stops.specs.Sealed.{Sealed, IsSealed, entries_of, next_of, window_of};
ghost use Rattle.journal_stops.specs.Shown.{Extends};
ghost use Rattle.count_laws.specs.Counters.{MayWrite};
ghost use Rattle.count_laws.specs.Points.{ArePointed, next_point};
ghost use Rattle.count_laws.specs.RunningCount.{RunningCount};
ghost use Rattle.count_laws.specs.Turns.{AreInTurn};
ghost use Rattle.session_stops.specs.Beginnings.{IsToServe, head_in, opened_in};
ghost use Rattle.session_stops.specs.Pages.{MissesNew, NewPagesStand, SaysTheRest};
ghost use Rattle.session_stops.specs.Sessions.{AreFew, HasNoPage, IsBehind, IsOfCounts, MayRise, ShowsSoundly, StandsAtRest, StandsUnderWay, entries_next, window_from};

/// Each image that a stop leaves of a session that stands is sound, and shows the entries of all committed blocks, or those
/// and the first ones of the block under way. It does nothing.
pub fn each_stop_leaves_a_sound_image()
    ensures rest { (base : Blocks) (to : IsToServe base) (opening : Blocks) (log : List Call)
        (blocks : List Sealed) → StandsAtRest opening log base to blocks
        → (image : Blocks) → IsImage opening log image →
        ShowsSoundly (opened_in base to) (head_in base to) image
        (entries_of to.sound.head.start blocks) }
    ensures torn { (base : Blocks) (to : IsToServe base) (opening : Blocks) (log : List Call)
        (blocks : List Sealed) (block : Sealed)
        → StandsUnderWay opening log base to blocks block → (image : Blocks) →
        IsImage opening log image
        →
        (entries : List CommittedEntry) × Extends entries (entries_of to.sound.head.start blocks)
        × Extends (entries_of to.sound.head.start (block ∷ blocks)) entries
        × ShowsSoundly (opened_in base to) (head_in base to) image entries }
{}

/// What keeps a session standing: its superblock, written where nothing is pending and flushed; the next block of the journal,
/// from its write to the flush behind it; and a later head. It does nothing.
pub fn what_keeps_a_session_standing()
    ensures opens { (base : Blocks) (to : IsToServe base) (opening : Blocks) (log : List Call) →
        HasOneImageButIndex opening log base
        →
        StandsAtRest opening
        (Flush true ∷ Write (record { 0 = 0 }) (super_block (head_in base to)) true ∷ log) base to
        [] }

    // The next block is written, failed or not: what its head lets go of stands without it, its entries come in turn, and the
    // pages that they make stand empty. Then it is flushed.
    ensures begins { (base : Blocks) (to : IsToServe base) (opening : Blocks) (log : List Call)
        (blocks : List Sealed) (block : Sealed) (at : Pbn) (bytes : List ℕ) (ok : Bool)
        → at.0 ≡ ring_slot_of to.sound.head.geometry (next_of to.sound.head.start blocks) →
        IsSealed to.sound.head.geometry to.sound.head.start blocks block
        → IsWhole to.sound.head.geometry (next_of to.sound.head.start blocks) block bytes →
        StandsAtRest opening log base to blocks
        → IsBehind opening log base to blocks block.head →
        AreInTurn (opened_in base to) (entries_of to.sound.head.start (block ∷ blocks))
        →
        NewPagesStand opening log (opened_in base to)
        (entries_next to.sound.head.start blocks block) →
        StandsUnderWay opening (Write at bytes ok ∷ log) base to blocks block }
    ensures ends { (base : Blocks) (to : IsToServe base) (opening : Blocks) (log : List Call)
        (blocks : List Sealed) (block : Sealed)
        → IsWritten opening log to.sound.head.geometry to.sound.head.start blocks block →
        length blocks + 2 < 2 ^ 18
        → StandsUnderWay opening log base to blocks block →
        StandsAtRest opening (Flush true ∷ log) base to (block ∷ blocks) }

    // The head may rise over entries whose slots and updates stand: the next block may name the later one.
    ensures rises { (base : Blocks) (to : IsToServe base) (opening : Blocks) (log : List Call)
        (blocks : List Sealed) (later : ℕ) → MayRise opening log base to blocks later
        → StandsAtRest opening log base to blocks → IsBehind opening log base to blocks later }
{}

/// Which calls keep a session standing, at rest and while a block of the journal is under way, failed or not. It does nothing.
pub fn calls_that_keep_a_session_standing()
    // A call that writes no block: a read or a flush.
    ensures rest_quiet { (base : Blocks) (to : IsToServe base) (opening : Blocks) (log : List Call)
        (blocks : List Sealed) (call : Call) → ((b : ℕ) → Misses call b)
        → StandsAtRest opening log base to blocks →
        StandsAtRest opening (call ∷ log) base to blocks }
    ensures torn_quiet { (base : Blocks) (to : IsToServe base) (opening : Blocks) (log : List Call)
        (blocks : List Sealed) (block : Sealed) (call : Call) → ((b : ℕ) → Misses call b)
        → StandsUnderWay opening log base to blocks block →
        StandsUnderWay opening (call ∷ log) base to blocks block }

    // A data block without a page is written: data, or a page that isn't linked yet.
    ensures rest_data { (base : Blocks) (to : IsToServe base) (opening : Blocks) (log : List Call)
        (blocks : List Sealed) (at : Pbn) (bytes : List ℕ) (ok : Bool)
        → IsDataBlock to.sound.head.geometry at.0 →
        HasNoPage (opened_in base to) (entries_of to.sound.head.start blocks) at
        → StandsAtRest opening log base to blocks →
        StandsAtRest opening (Write at bytes ok ∷ log) base to blocks }
    ensures torn_data { (base : Blocks) (to : IsToServe base) (opening : Blocks) (log : List Call)
        (blocks : List Sealed) (block : Sealed) (at : Pbn) (bytes : List ℕ) (ok : Bool)
        → IsDataBlock to.sound.head.geometry at.0 →
        HasNoPage (opened_in base to) (entries_of to.sound.head.start blocks) at
        →
        AllByRecursion (λ (c : CommittedEntry). MissesNew (Write at bytes ok) c.entry)
        (entries_next to.sound.head.start blocks block)
        → StandsUnderWay opening log base to blocks block →
        StandsUnderWay opening (Write at bytes ok ∷ log) base to blocks block }

    // A linked page is written with what the window leaves to it.
    ensures rest_page { (base : Blocks) (to : IsToServe base) (opening : Blocks) (log : List Call)
        (blocks : List Sealed) (page : PageId) (at : Pbn) (bytes : List ℕ) (ok : Bool)
        → page_after (opened_in base to) (entries_of to.sound.head.start blocks) page ≡ Some at
        →
        SaysTheRest (opened_in base to) (entries_of to.sound.head.start blocks)
        (window_of to.sound.head.start blocks) page at bytes
        → StandsAtRest opening log base to blocks →
        StandsAtRest opening (Write at bytes ok ∷ log) base to blocks }
    ensures torn_page { (base : Blocks) (to : IsToServe base) (opening : Blocks) (log : List Call)
        (blocks : List Sealed) (block : Sealed) (page : PageId) (at : Pbn) (bytes : List ℕ)
        (ok : Bool)
        → page_after (opened_in base to) (entries_of to.sound.head.start blocks) page ≡ Some at
        →
        SaysTheRest (opened_in base to) (entries_of to.sound.head.start blocks)
        (window_from to.sound.head.start block.head blocks) page at bytes
        → StandsUnderWay opening log base to blocks block →
        StandsUnderWay opening (Write at bytes ok ∷ log) base to blocks block }

    // A block of counters or of a slab's journal is written, as the counts allow it.
    ensures rest_counts { (base : Blocks) (to : IsToServe base) (opening : Blocks) (log : List Call)
        (blocks : List Sealed) (at : Pbn) (bytes : List ℕ) (ok : Bool)
        → IsOfCounts to.sound.head.geometry at.0
        →
        MayWrite opening log (opened_in base to) (entries_of to.sound.head.start blocks)
        (window_of to.sound.head.start blocks) at.0 bytes
        → StandsAtRest opening log base to blocks →
        StandsAtRest opening (Write at bytes ok ∷ log) base to blocks }
    ensures torn_counts { (base : Blocks) (to : IsToServe base) (opening : Blocks) (log : List Call)
        (blocks : List Sealed) (block : Sealed) (at : Pbn) (bytes : List ℕ) (ok : Bool)
        → IsOfCounts to.sound.head.geometry at.0
        →
        MayWrite opening log (opened_in base to) (entries_of to.sound.head.start blocks)
        (window_from to.sound.head.start block.head blocks) at.0 bytes
        → StandsUnderWay opening log base to blocks block →
        StandsUnderWay opening (Write at bytes ok ∷ log) base to blocks block }
{}

/// The entries of a session's blocks have points that rise, from the session's first point on; and the count of each data
/// block goes with them, update by update, from its opened counter to the number of its mappings, within 0 and the limit. It
/// does nothing.
pub fn the_counts_of_a_session_go_well()
    ensures points { (start : ℕ) (blocks : List Sealed) → AreFew blocks →
        ArePointed (point_of start 0 Increment) (entries_of start blocks) }
    ensures next { (start : ℕ) (blocks : List Sealed) → AreFew blocks
        →
        next_point (point_of start 0 Increment) (entries_of start blocks)
        ≤ point_of (next_of start blocks) 0 Increment }
    ensures running { (base : Blocks) (to : IsToServe base) (opening : Blocks) (log : List Call)
        (blocks : List Sealed) (head : ℕ) → IsBehind opening log base to blocks head
        → (place : DataPlace) → IsDataPlace to.sound.head.geometry place
        →
        RunningCount (opened_in base to) (entries_of to.sound.head.start blocks)
        (block_of_data to.sound.head.geometry place) (counter_of (opened_in base to) place) }
{}
