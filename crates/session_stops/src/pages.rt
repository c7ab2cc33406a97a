ghost use Rattle.std.specs.Prelude.{◌≡◌, ◌<◌, ◌≤◌, ◌^◌, ◌++◌, ◌∷◌, [], ℕ, Bool, true, List, length, Some, None, IsTrue};
ghost use Rattle.blk_base.specs.Regions.{needed_blocks};
ghost use Rattle.blk_base.specs.declared.journal_entry.CommittedEntry.{CommittedEntry};
ghost use Rattle.blk_base.specs.declared.place.Mapping.{Mapping};
ghost use Rattle.blk_base.specs.declared.place.PageId.{PageId};
ghost use Rattle.blk_base.specs.declared.place.Pbn.{Pbn};
ghost use Rattle.blk_base.specs.declared.sizes.TheConstants.{PAGE_SLOTS};
ghost use Rattle.disk_model.specs.declared.call.Call.{Call};
ghost use Rattle.disk_model.specs.declared.call.Call.TheVariants.{Write, Flush};
ghost use Rattle.disk_model.specs.Images.{IsImage};
ghost use Rattle.disk_model.specs.Log.{Blocks, Misses, block_at};
ghost use Rattle.disk_model.specs.OneImages.{HasOneImageIn};
ghost use Rattle.image_model.specs.Maps.{Image, ArePagesGood, head_of, mapping_in, page_at, put_last};
ghost use Rattle.image_model.specs.Sound.{IsSound};
ghost use Rattle.page_codec.specs.Grammar.{IsSlot};
ghost use Rattle.page_codec.specs.declared.forms.PageHead.{PageHead};
ghost use Rattle.vdo_model.specs.Journals.{Surely};
ghost use Rattle.recovery_laws.specs.Kept.{image_in, PutsOnly};
ghost use Rattle.recovery_laws.specs.Written.{IsFullPage};
ghost use Rattle.journal_stops.specs.Mapped.{ArePagesShown, later_image, page_after};
ghost use Rattle.journal_stops.specs.Shown.{HasInWindow};
ghost use Rattle.count_laws.specs.Turns.{AreInTurn};
ghost use Rattle.session_stops.specs.Pages.{ArePagesOnIt, NewPagesStand, PageStands, PagesStand, SaysTheRest, Settles, SlotStands};

/// Pages that stand are shown by each image, mixed by sectors as they may be: in each slot that the window leaves to it, a
/// linked page says what the entries give. So the pages of the image can be read. It does nothing.
pub fn images_show_the_pages_that_stand()
    ensures shown { (opening : Blocks) (log : List Call) (opened : Image)
        (entries window : List CommittedEntry) (image : Blocks) →
        ArePagesOnIt opened entries (length opening)
        → PagesStand opening log opened entries window → IsImage opening log image →
        ArePagesShown opened entries image window }
    ensures slots { (opening : Blocks) (log : List Call) (opened : Image)
        (entries window : List CommittedEntry) (image : Blocks) →
        ArePagesOnIt opened entries (length opening)
        → PagesStand opening log opened entries window → IsImage opening log image →
        (page : PageId) (at : Pbn) → page_after opened entries page ≡ Some at
        → SaysTheRest opened entries window page at (block_at image at.0) }
    ensures good { (opening : Blocks) (log : List Call) (opened : Image) (start : ℕ)
        (entries : List CommittedEntry) (image : Blocks)
        (shown : HasInWindow opened.geometry start image entries) →
        ArePagesOnIt opened entries (length opening)
        → PagesStand opening log opened entries shown.window → IsImage opening log image →
        ArePagesGood (later_image opened image shown.window) }

    // Bytes that say all of a page say one mapping in each slot.
    ensures one { (opened : Image) (entries : List CommittedEntry) (page : PageId) (at : Pbn)
        (bytes other : List ℕ) (slot : ℕ) → slot < PAGE_SLOTS
        → SaysTheRest opened entries [] page at bytes →
        SaysTheRest opened entries [] page at other →
        mapping_in bytes slot ≡ mapping_in other slot }

    // Where no slot is left to a window, each page says by itself what it says with the window of the image.
    ensures full { (opening : Blocks) (log : List Call) (opened : Image) (start : ℕ)
        (entries : List CommittedEntry) (image : Blocks)
        (shown : HasInWindow opened.geometry start image entries) →
        ArePagesOnIt opened entries (length opening)
        → PagesStand opening log opened entries [] → IsImage opening log image
        → (page : PageId) (at : Pbn) →
        page_at (later_image opened image shown.window) page ≡ Some at →
        IsFullPage (later_image opened image shown.window) page at (block_at image at.0) }
{}

/// Each page that is linked after entries in turn over a sound image is a root or stands at a data block, so that it is on
/// the device; and two pages that stand don't stand at one block. It does nothing.
pub fn linked_pages_are_on_the_device()
    ensures on_it { (base : Blocks) (sound : IsSound base) (entries : List CommittedEntry) →
        AreInTurn (image_in base sound) entries
        → (size : ℕ) → needed_blocks sound.head.geometry ≤ size →
        ArePagesOnIt (image_in base sound) entries size }
    ensures apart { (base : Blocks) (sound : IsSound base) (entries : List CommittedEntry) →
        AreInTurn (image_in base sound) entries → sound.head.geometry.nonce < 2 ^ 64
        → (opening : Blocks) (log : List Call) (window : List CommittedEntry) →
        PagesStand opening log (image_in base sound) entries window
        → (page other : PageId) (at at' : Pbn) →
        page_after (image_in base sound) entries page ≡ Some at →
        page_after (image_in base sound) entries other ≡ Some at'
        → at.0 ≡ at'.0 → page ≡ other }
{}

/// What keeps pages standing: calls that miss their blocks, writes that say what is left to them, and flushes; with more in the
/// window, with a later head, and with newer entries. It does nothing.
pub fn what_keeps_pages_standing()
    // One slot: over a call that misses its block, a write whose bytes say its mapping, and a flush once all that is settled
    // says it.
    ensures slot_missed { (opening : Blocks) (log : List Call) (head : PageHead) (slot : ℕ)
        (mapping : Mapping) (call : Call) → Misses call head.at.0
        → SlotStands opening log head slot mapping →
        SlotStands opening (call ∷ log) head slot mapping }
    ensures slot_written { (opening : Blocks) (log : List Call) (head : PageHead) (slot : ℕ)
        (mapping : Mapping) (bytes : List ℕ) (ok : Bool) → IsSlot head bytes slot mapping
        → SlotStands opening log head slot mapping →
        SlotStands opening (Write head.at bytes ok ∷ log) head slot mapping }
    ensures slot_settles { (opening : Blocks) (log : List Call) (head : PageHead) (slot : ℕ)
        (mapping : Mapping) (bytes : List ℕ) → IsSlot head bytes slot mapping
        →
        Settles opening (Write head.at bytes true ∷ log) head.at.0 (λ content.
        IsSlot head content slot mapping) }
    ensures slot_flushed { (opening : Blocks) (log : List Call) (head : PageHead) (slot : ℕ)
        (mapping : Mapping)
        → Settles opening log head.at.0 (λ content. IsSlot head content slot mapping) →
        SlotStands opening (Flush true ∷ log) head slot mapping }

    // A page stands exactly where each content says what is left to it.
    ensures contents { (opening : Blocks) (log : List Call) (opened : Image)
        (entries window : List CommittedEntry) (page : PageId) (at : Pbn)
        → PageStands opening log opened entries window page at →
        Surely opening log at.0 (SaysTheRest opened entries window page at) }
    ensures page { (opening : Blocks) (log : List Call) (opened : Image)
        (entries window : List CommittedEntry) (page : PageId) (at : Pbn)
        → Surely opening log at.0 (SaysTheRest opened entries window page at) →
        PageStands opening log opened entries window page at }

    // All of them: over calls that miss their blocks, and over each write of one of them that says what is left to it.
    ensures missed { (opening : Blocks) (log : List Call) (opened : Image)
        (entries window : List CommittedEntry) → PagesStand opening log opened entries window →
        (call : Call)
        →
        ((page : PageId) (at : Pbn) → page_after opened entries page ≡ Some at → Misses call at.0) →
        PagesStand opening (call ∷ log) opened entries window }
    ensures goes_on { (opening : Blocks) (log : List Call) (opened : Image)
        (entries window : List CommittedEntry) → PagesStand opening log opened entries window →
        (call : Call)
        →
        ((page : PageId) (at : Pbn) → page_after opened entries page ≡ Some at →
        PutsOnly at.0 (SaysTheRest opened entries window page at) call)
        → PagesStand opening (call ∷ log) opened entries window }
    ensures written { (base : Blocks) (sound : IsSound base) (entries : List CommittedEntry) →
        AreInTurn (image_in base sound) entries → sound.head.geometry.nonce < 2 ^ 64
        → (opening : Blocks) (log : List Call) (window : List CommittedEntry) →
        PagesStand opening log (image_in base sound) entries window
        → (page : PageId) (at : Pbn) (bytes : List ℕ) (ok : Bool) →
        page_after (image_in base sound) entries page ≡ Some at
        → SaysTheRest (image_in base sound) entries window page at bytes →
        PagesStand opening (Write at bytes ok ∷ log) (image_in base sound) entries window }

    // With more in the window less is asked of them, and the head may rise over entries whose slots stand.
    ensures less { (opening : Blocks) (log : List Call) (opened : Image)
        (entries window behind : List CommittedEntry) → PagesStand opening log opened entries window
        → PagesStand opening log opened entries (window ++ behind) }
    ensures rises { (opening : Blocks) (log : List Call) (opened : Image)
        (entries window behind older : List CommittedEntry) → entries ≡ window ++ (behind ++ older)
        →
        ((page : PageId) (at : Pbn) (slot : ℕ) (mapping : Mapping) →
        page_after opened entries page ≡ Some at → slot < PAGE_SLOTS →
        put_last window page slot ≡ None
        → put_last behind page slot ≡ Some mapping →
        SlotStands opening log (head_of opened page at) slot mapping)
        → PagesStand opening log opened entries (window ++ behind) →
        PagesStand opening log opened entries window }

    // They begin as the opened image has them, and go on with newer entries that the window has, where those that these make
    // are new, and stand empty.
    ensures begins { (looked : ℕ → Bool) (opening : Blocks) (log : List Call) (opened : Image) →
        HasOneImageIn looked opening log opened.blocks → ArePagesGood opened
        →
        ((page : PageId) (at : Pbn) → page_at opened page ≡ Some at →
        (at.0 < length opening) × IsTrue (looked at.0)) →
        PagesStand opening log opened [] opened.window }
    ensures grows { (opening : Blocks) (log : List Call) (opened : Image)
        (newer older window : List CommittedEntry) → AreInTurn opened (newer ++ older)
        → NewPagesStand opening log opened newer → PagesStand opening log opened older window →
        PagesStand opening log opened (newer ++ older) (newer ++ window) }
{}
