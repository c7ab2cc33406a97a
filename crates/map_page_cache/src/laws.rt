ghost use Rattle.std.specs.Prelude.{◌≡◌, ◌≤◌, ◌⊎◌, List};
ghost use Rattle.blk_base.specs.declared.place.PageId.{PageId};
ghost use Rattle.blk_base.specs.declared.point.Point.{Point};
ghost use Rattle.page_codec.specs.declared.forms.MapPage.{MapPage};
ghost use Rattle.dirty_pages.specs.DirtyPoints.{IsLowPoint, AreClean, NoneIsDue};
ghost use Rattle.dirty_pages.specs.History.{IsUnwritten, IsUnreported};
ghost use Rattle.map_page_cache.specs.CachedPages.{CachedPages, IsPageOf, IsCache, IsThere, Fills, GivesUp, HasNoFrame, Expires, IsWriting};
ghost use Rattle.map_page_cache.specs.Runs.{Operation, Leads, LeadTo, IsContent, events_of};

/// A page that is there has one content, and one that the format of pages can hold. Whatever the calls from any cache on
/// were: it is as it was then or was installed since, with what was set in it since.
pub fn a_page_is_as_it_was_set()
    ensures one { (cache : CachedPages) (page : PageId) (content other : MapPage) → IsCache cache →
        IsThere cache page content → IsThere cache page other
        → content ≡ other }
    ensures held { (cache : CachedPages) (page : PageId) (content : MapPage) → IsCache cache →
        IsThere cache page content → IsPageOf cache.geometry content }
    ensures content { (old new : CachedPages) (calls : List Operation) (page : PageId)
        (content : MapPage) → IsCache old → LeadTo old calls new
        → IsThere new page content → IsContent old calls page content }
{}

/// An entry is kept until it is on the device: over all calls from any cache on, a page with one that was set since and isn't
/// written since the page was handed out is there, and the entry isn't below the low point.
pub fn nothing_unwritten_is_lost()
    ensures there { (old new : CachedPages) (calls : List Operation) (page : PageId)
        (point : Point) →
        IsCache old → LeadTo old calls new
        → IsUnwritten (events_of calls) page point →
        (content : MapPage) × IsThere new page content }
    ensures low { (old new : CachedPages) (calls : List Operation) (page : PageId)
        (point low : Point) →
        IsCache old → LeadTo old calls new
        → IsUnwritten (events_of calls) page point → IsLowPoint new.dirty_points low
        → low.0 ≤ point.0 }
    ensures some { (old new : CachedPages) (calls : List Operation) (page : PageId)
        (point : Point) →
        IsCache old → LeadTo old calls new
        → IsUnwritten (events_of calls) page point → AreClean new.dirty_points → ⊥ }
{}

/// A page that was handed out is being written until it is reported: over all calls from any cache on, and so it is there,
/// and isn't handed out again before.
pub fn a_page_is_out_until_it_is_written()
    ensures taken { (old new : CachedPages) (page : PageId) (point : Point) (copy : MapPage) →
        IsCache old → Expires old new point page copy → IsWriting new page }
    ensures kept { (old new : CachedPages) (calls : List Operation) (page : PageId) → IsCache old →
        LeadTo old calls new
        → IsUnreported (events_of calls) page → IsWriting old page → IsWriting new page }
    ensures idle { (old new : CachedPages) (page : PageId) (point : Point) (copy : MapPage) →
        IsCache old → Expires old new point page copy → IsWriting old page → ⊥ }
{}

/// Each call has one result, also which page it gives up or hands out; and it has one of its answers alone.
pub fn a_call_has_one_result()
    ensures after { (old new other : CachedPages) (call : Operation) → IsCache old
        → Leads old call new →
        Leads old call other → new ≡ other }
    ensures out { (old new other : CachedPages) (point : Point) (page out : PageId)
        (copy into : MapPage) → Expires old new point page copy → Expires old other point out into
        → (page ≡ out) × (copy ≡ into) × (new ≡ other) }
    ensures none { (old new : CachedPages) (point : Point) (page : PageId) (copy : MapPage) →
        Expires old new point page copy → NoneIsDue old.dirty_points point → ⊥ }
    ensures refused { (old new : CachedPages) (content : MapPage) → HasNoFrame old →
        Fills old new content ⊎ GivesUp old new content → ⊥ }
{}
