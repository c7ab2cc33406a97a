ghost use Rattle.std.specs.Prelude.{◌≡◌, ◌↔◌, ◌+◌, ◌++◌, ◌∷◌, ℕ, Bool, true, List, Contains, Ok};
ghost use Rattle.blk_base.specs.Limits.{IsGeometry};
ghost use Rattle.blk_base.specs.declared.journal_entry.CommittedEntry.{CommittedEntry};
ghost use Rattle.blk_base.specs.declared.journal_entry.Update.{Update};
ghost use Rattle.blk_base.specs.declared.place.Pbn.{Pbn};
ghost use Rattle.disk_model.specs.Log.{Blocks};
ghost use Rattle.image_model.specs.Counts.{AreRising, HasMappings, Updates, adds_of, count_after, takes_of};
ghost use Rattle.image_model.specs.Maps.{Image};
ghost use Rattle.image_model.specs.Sound.{AreUnshared};
ghost use Rattle.journal_stops.specs.Mapped.{AreRooted, ShowsEntries, later_image};
ghost use Rattle.count_laws.specs.Points.{ArePointed, points_for, points_in, those_of, updates_of};
ghost use Rattle.count_laws.specs.RunningCount.{RunningCount};
ghost use Rattle.count_laws.specs.Strays.{FitsCounter};
ghost use Rattle.count_laws.specs.Turns.{AreInTurn, AreUnsharedAfter, HasMappingsAfter, IsUnusedAfter};

/// Entries that come in turn over an opened image: a block has as many mappings after them as it had, with what they add and
/// without what they take away, and the count that goes with them in the order of points stays within 0 and the limit. It
/// does nothing.
pub fn entries_in_turn_change_counts()
    ensures counts { (opened : Image) (from : ℕ) (entries : List CommittedEntry) (block : Pbn)
        (count : ℕ) → IsGeometry opened.geometry
        → AreInTurn opened entries → ArePointed from entries → HasMappings opened block count →
        RunningCount opened entries block count }
    ensures shown { (opened : Image) (start : ℕ) (blocks : Blocks) (entries : List CommittedEntry)
        (s : ShowsEntries opened start blocks entries)
        (block : Pbn) (count : ℕ) → HasMappingsAfter opened entries block count →
        HasMappings (later_image opened blocks s.shown.window) block count }

    ensures one { (opened : Image) (entries : List CommittedEntry) (block : Pbn) (count other : ℕ)
        → HasMappingsAfter opened entries block count →
        HasMappingsAfter opened entries block other → count ≡ other }

    // A block has no mappings just where it is unused: no address leads to it, whatever its number, and no page stands there.
    ensures unused { (opened : Image) (entries : List CommittedEntry) (block : Pbn) →
        HasMappingsAfter opened entries block 0 ↔ IsUnusedAfter opened entries block }

    // They are for linked pages, and map no address to the block of a page.
    ensures rooted { (opened : Image) (entries : List CommittedEntry) → AreInTurn opened entries →
        AreRooted opened entries }
    ensures unshared { (opened : Image) (entries : List CommittedEntry) → AreInTurn opened entries →
        AreUnshared opened
        → AreUnsharedAfter opened entries }
{}

/// The points at which entries update a block's count rise, and are those of its updates. It does nothing.
pub fn points_are_those_of_the_updates()
    ensures rise { (from : ℕ) (entries : List CommittedEntry) (block : Pbn) →
        ArePointed from entries → AreRising (points_for entries block) }
    ensures each { (entries : List CommittedEntry) (block : Pbn) (point : ℕ) →
        Contains (points_for entries block) point
        →
        (committed : CommittedEntry) × Contains entries committed × Updates committed block point }
    ensures all { (entries : List CommittedEntry) (block : Pbn) (point : ℕ)
        (committed : CommittedEntry) → Contains entries committed
        → Updates committed block point → Contains (points_for entries block) point }
{}

/// A zone takes the updates of its blocks in the order of points. If the count of a block goes well over all entries, then
/// where the next update takes one away the counter is at least 1, and where it adds one the counter is below the limit. It
/// does nothing.
pub fn no_update_is_stray()
    ensures counter { (limit count now : ℕ) (entries : List CommittedEntry) (owns : Pbn → Bool)
        (taken rest : List Update) (update : Update)
        → count_after limit count (points_for entries update.at) ≡ Ok now →
        those_of owns (updates_of entries) ≡ taken ++ (update ∷ rest)
        →
        (counter : ℕ) × (count_after limit count (points_in update.at taken) ≡ Ok counter)
        × FitsCounter limit counter update }
    ensures balance { (limit count now : ℕ) (entries : List CommittedEntry) (owns : Pbn → Bool)
        (taken rest : List Update) (update : Update) (counter : ℕ)
        → count_after limit count (points_for entries update.at) ≡ Ok now →
        those_of owns (updates_of entries) ≡ taken ++ (update ∷ rest)
        →
        counter + takes_of (points_in update.at taken)
        ≡ count + adds_of (points_in update.at taken) → FitsCounter limit counter update }

    // A zone that took all updates of the older entries, and no others, has the number of mappings that the map has with them.
    ensures mapped { (opened : Image) (older : List CommittedEntry) (block : Pbn) (count : ℕ)
        (running : RunningCount opened older block count)
        (owns : Pbn → Bool) (counter : ℕ) → owns block ≡ true
        →
        counter + takes_of (points_in block (those_of owns (updates_of older)))
        ≡ count + adds_of (points_in block (those_of owns (updates_of older)))
        → counter ≡ running.now }
{}
