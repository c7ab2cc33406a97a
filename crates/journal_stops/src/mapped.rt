ghost use Rattle.std.specs.Prelude.{◌≡◌, ◌<◌, ◌+◌, ◌++◌, ℕ, List, Some, None, map};
ghost use Rattle.blk_base.specs.declared.journal_entry.CommittedEntry.{CommittedEntry};
ghost use Rattle.blk_base.specs.declared.place.Mapping.{Mapping};
ghost use Rattle.blk_base.specs.declared.place.Mapping.TheVariants.{Unmapped, At};
ghost use Rattle.blk_base.specs.declared.place.PageId.{PageId};
ghost use Rattle.blk_base.specs.declared.place.Pbn.{Pbn};
ghost use Rattle.blk_base.specs.Pages.{above, leaf_of};
ghost use Rattle.disk_model.specs.Log.{Blocks};
ghost use Rattle.image_layout.specs.Values as layout;
ghost use Rattle.image_model.specs.Maps.{Image, or_else, page_at, mapping_of};
ghost use Rattle.journal_stops.specs.Mapped.{newest_for, newest_page, page_after, mapping_after, later_image, AreRooted, ArePagesMade, ArePagesShown, ShowsEntries};
ghost use Rattle.journal_stops.specs.Shown.{HasInWindow};

/// The map of an image that shows a list of entries: each address has the mapping of the newest entry for it, or the one
/// that it had in the image that was opened, and so has each page its block. An image shows the entries of which its
/// window has the newest, where each page says, in each slot that the window leaves to it, what they give. So it goes on
/// with newer entries that the window has, where the pages that these make are empty.
pub fn an_image_shows_its_entries()
    ensures pages { (opened : Image) (start : ℕ) (blocks : Blocks) (entries : List CommittedEntry)
        (shown : HasInWindow opened.geometry start blocks entries)
        → ArePagesShown opened entries blocks shown.window →
        ShowsEntries opened start blocks entries }

    ensures less { (opened : Image) (entries : List CommittedEntry) (blocks : Blocks)
        (window behind : List CommittedEntry)
        → ArePagesShown opened entries blocks window →
        ArePagesShown opened entries blocks (window ++ behind) }
    ensures goes_on { (opened : Image) (newer older : List CommittedEntry) (blocks : Blocks)
        (window : List CommittedEntry)
        → AreRooted opened older → ArePagesMade opened older newer blocks
        → ArePagesShown opened older blocks window →
        ArePagesShown opened (newer ++ older) blocks (newer ++ window) }

    // What its map has.
    ensures newest { (opened : Image) (start : ℕ) (blocks : Blocks) (entries : List CommittedEntry)
        (s : ShowsEntries opened start blocks entries)
        (address : ℕ) (leaf : Pbn) (mapping : Mapping) →
        page_at (later_image opened blocks s.shown.window) (leaf_of address) ≡ Some leaf
        → newest_for entries address ≡ Some mapping →
        mapping_of (later_image opened blocks s.shown.window) address ≡ mapping }
    ensures others { (opened : Image) (start : ℕ) (blocks : Blocks) (entries : List CommittedEntry)
        (s : ShowsEntries opened start blocks entries)
        (address : ℕ) → newest_for entries address ≡ None
        →
        mapping_of (later_image opened blocks s.shown.window) address ≡ mapping_of opened address }
    ensures newest_page { (opened : Image) (start : ℕ) (blocks : Blocks)
        (entries : List CommittedEntry) (s : ShowsEntries opened start blocks entries)
        (page : PageId) (up at : Pbn) → page.level + 1 < opened.geometry.height →
        page_at (later_image opened blocks s.shown.window) (above page) ≡ Some up
        → newest_page entries page ≡ Some (At at) →
        page_at (later_image opened blocks s.shown.window) page ≡ Some at }
    ensures other_pages { (opened : Image) (start : ℕ) (blocks : Blocks)
        (entries : List CommittedEntry) (s : ShowsEntries opened start blocks entries)
        (page : PageId) → newest_page entries page ≡ None →
        page_at (later_image opened blocks s.shown.window) page ≡ page_at opened page }

    // As long as there are no pages, the mapping of an address is that of a fold of the entries alone: the same one.
    ensures folded { (entries : List CommittedEntry) (address : ℕ) (mapping : Mapping) →
        newest_for entries address ≡ Some mapping
        →
        layout.mapping_of (map (λ (committed : CommittedEntry). committed.entry) entries) address
        ≡ mapping }
    ensures folded_none { (entries : List CommittedEntry) (address : ℕ) →
        newest_for entries address ≡ None
        →
        layout.mapping_of (map (λ (committed : CommittedEntry). committed.entry) entries) address
        ≡ Unmapped }

    // What newer entries leave as the older ones gave it.
    ensures left { (opened : Image) (newer older : List CommittedEntry) (address : ℕ) →
        AreRooted opened older → newest_for newer address ≡ None
        → mapping_after opened (newer ++ older) address ≡ mapping_after opened older address }
    ensures left_page { (opened : Image) (newer older : List CommittedEntry) (page : PageId) →
        AreRooted opened older → newest_page newer page ≡ None
        → page_after opened (newer ++ older) page ≡ page_after opened older page }

    // Of a list that goes on from another, the newest entry is a newer one, or that of the other.
    ensures newer { (newer older : List CommittedEntry) (address : ℕ)
        →
        newest_for (newer ++ older) address
        ≡ or_else (newest_for newer address) (newest_for older address) }
    ensures newer_page { (newer older : List CommittedEntry) (page : PageId)
        →
        newest_page (newer ++ older) page
        ≡ or_else (newest_page newer page) (newest_page older page) }
{}
