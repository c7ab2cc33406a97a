ghost use Rattle.std.specs.Prelude.{◌≡◌, ◌≤◌, ◌%◌, ◌⊎◌, ◌↔◌, ℕ, List};
ghost use Rattle.blk_base.specs.declared.opened.Opened.{Opened};
ghost use Rattle.blk_base.specs.declared.place.Mapping.{Mapping};
ghost use Rattle.blk_base.specs.declared.place.Mapping.TheVariants.{At};
ghost use Rattle.blk_base.specs.declared.place.Pbn.{Pbn};
ghost use Rattle.blk_base.specs.declared.sizes.TheConstants.{PAGE_SLOTS};
ghost use Rattle.blk_base.specs.declared.place.PageId.{PageId};
ghost use Rattle.blk_base.specs.declared.point.Point.{Point};
ghost use Rattle.blk_base.specs.Pages.{above, slot_of, leaf_of};
ghost use Rattle.dirty_pages.specs.History.{IsUnreported, IsUnwritten};
ghost use Rattle.block_map_tree.specs.Pages.{IsLower};
ghost use Rattle.block_map_tree.specs.Tree.{IsAt};
ghost use Rattle.page_codec.specs.Grammar.{IsSlot};
ghost use Rattle.map_zone.specs.Operations.{AreReadBack, Operation, HasLink, HasNoLeaf, LeadTo, Leads, SayOf, events_of, mapped};
ghost use Rattle.map_zone.specs.Lookups.{IsLooked, Shows};
ghost use Rattle.map_zone.specs.PageWrites.{IsClean, IsLow, IsOut, NoneDue, Takes};
ghost use Rattle.map_zone.specs.ZoneMap.{IsOpened, IsZoneMap, ZoneMap, head_at};
ghost use Rattle.map_zone.specs.declared.forms.Looked.{Looked};

/// Over every list of calls, an entry that was applied to a page and isn't written since the page was handed out isn't below the
/// low point; and there is one.
pub fn nothing_unwritten_is_below_the_low_point()
    ensures low { (old new : ZoneMap) (calls : List Operation) (page : PageId) (point low : Point) →
        IsZoneMap old → LeadTo old calls new
        → IsUnwritten (events_of calls) page point → IsLow new low → low.0 ≤ point.0 }
    ensures some { (old new : ZoneMap) (calls : List Operation) (page : PageId) (point : Point) →
        IsZoneMap old → LeadTo old calls new
        → IsUnwritten (events_of calls) page point → IsClean new → ⊥ }
{}

/// What was applied is shown, over every list of calls from a map without a leaf on of which each leaf is read back as it was
/// handed out last, or as it was at first: an address whose leaf is in memory is mapped as the newest entry for it says, or as
/// it was at first. And a leaf that is handed out says this of each of its addresses, and so shows applied entries alone.
pub fn what_was_applied_is_shown()
    ensures opened { (opened : Opened) (zone zones frames : ℕ) (m : ZoneMap) →
        IsOpened opened zone zones frames m → IsZoneMap m × HasNoLeaf m }
    ensures shown { (first : PageId → List ℕ) (opened : ℕ → Mapping) (old new : ZoneMap)
        (calls : List Operation) (address : ℕ) (mapping : Mapping) → IsZoneMap old → HasNoLeaf old
        → SayOf old.tree.forest.geometry first opened → LeadTo old calls new →
        AreReadBack first calls → Shows new address mapping →
        mapping ≡ mapped opened calls address }
    ensures says { (first : PageId → List ℕ) (opened : ℕ → Mapping) (old between new : ZoneMap)
        (calls : List Operation) (point : Point) (page : PageId) (at : Pbn) (bytes : List ℕ)
        (address : ℕ) → IsZoneMap old → HasNoLeaf old →
        SayOf old.tree.forest.geometry first opened → LeadTo old calls between →
        AreReadBack first calls
        → Takes between new point page at bytes → leaf_of address ≡ page →
        IsSlot (head_at between page at) bytes (address % PAGE_SLOTS)
        (mapped opened calls address) }
{}

/// Each call has one result and one answer, also which page it gives up or hands out.
pub fn a_call_has_one_result()
    ensures after { (old new other : ZoneMap) (call : Operation) → IsZoneMap old
        → Leads old call new →
        Leads old call other → new ≡ other }
    ensures looked { (m : ZoneMap) (address : ℕ) (one two : Looked) → IsZoneMap m →
        IsLooked m address one → IsLooked m address two → one ≡ two }
    ensures out { (old new other : ZoneMap) (point : Point) (page out : PageId) (at b : Pbn)
        (bytes given : List ℕ) → IsZoneMap old → Takes old new point page at bytes
        → Takes old other point out b given →
        (page ≡ out) × (at ≡ b) × (bytes ≡ given) × (new ≡ other) }
    ensures none { (old new : ZoneMap) (point : Point) (page : PageId) (at : Pbn) (bytes : List ℕ) →
        Takes old new point page at bytes → NoneDue old point → ⊥ }
    ensures low { (m : ZoneMap) (low other : Point) → IsLow m low → IsLow m other → low ≡ other }
{}

/// A page that was handed out is being written until it is reported, over every list of calls, and so it isn't handed out again
/// before.
pub fn a_page_is_out_until_it_is_written()
    ensures taken { (old new : ZoneMap) (point : Point) (page : PageId) (at : Pbn)
        (bytes : List ℕ) → Takes old new point page at bytes → IsOut new page }
    ensures kept { (old new : ZoneMap) (calls : List Operation) (page : PageId) → IsZoneMap old →
        LeadTo old calls new → IsUnreported (events_of calls) page
        → IsOut old page → IsOut new page }
    ensures idle { (old new : ZoneMap) (point : Point) (page : PageId) (at : Pbn) (bytes : List ℕ) →
        IsZoneMap old → Takes old new point page at bytes
        → IsOut old page → ⊥ }
{}

/// Over every list of calls a page stands where it stood at first or was linked, and nowhere else. A page that is handed out and
/// is no leaf leads to each page below it that is linked, and to no other.
pub fn links_are_those_that_were_applied()
    ensures stands { (old new : ZoneMap) (calls : List Operation) (page : PageId) (at : Pbn) →
        IsZoneMap old → LeadTo old calls new
        → IsAt old.tree page at ⊎ HasLink calls page at → IsAt new.tree page at }
    ensures only { (old new : ZoneMap) (calls : List Operation) (page : PageId) (at : Pbn) →
        IsZoneMap old → LeadTo old calls new → IsAt new.tree page at
        → IsAt old.tree page at ⊎ HasLink calls page at }
    ensures says { (old new : ZoneMap) (point : Point) (page : PageId) (at : Pbn) (bytes : List ℕ)
        (child : PageId) (b : Pbn) → IsZoneMap old
        → Takes old new point page at bytes → IsLower old.tree.forest child → above child ≡ page
        → IsSlot (head_at old page at) bytes (slot_of child) (At b) ↔ IsAt old.tree child b }
{}
