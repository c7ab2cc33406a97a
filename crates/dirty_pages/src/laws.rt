ghost use Rattle.std.specs.Prelude.{◌≡◌, ◌≤◌, ℕ, List, Some};
ghost use Rattle.blk_base.specs.declared.place.PageId.{PageId};
ghost use Rattle.blk_base.specs.declared.point.Point.{Point};
ghost use Rattle.dirty_pages.specs.declared.dirty_points.DirtyPoints.{DirtyPoints};
ghost use Rattle.dirty_pages.specs.DirtyPoints.{AreClean, HandsOut, HasPoint, IsFirstDue, IsLowPoint, NoneIsDue, NoneIsEverDue, clean};
ghost use Rattle.dirty_pages.specs.History.{Event, IsWaiting, IsUnwritten, IsUnreported, IsAfter, AtMost};

/// A change is kept until it is on the device: over all that happens to a page from any dirty points on, one that was
/// made since and isn't written since the page was handed out isn't below the least point of its dirty points. One that
/// wasn't handed out isn't below its dirty point, so the page will be handed out again.
pub fn no_change_is_lost()
    ensures point { (old new : DirtyPoints) (events : List Event) (page : PageId) (point : Point) →
        IsAfter old events page new
        → IsUnwritten events page point → (low : Point) × HasPoint new low × (low.0 ≤ point.0) }
    ensures some { (old new : DirtyPoints) (events : List Event) (page : PageId) (point : Point) →
        IsAfter old events page new
        → IsUnwritten events page point → new ≡ clean → ⊥ }
    ensures waits { (old new : DirtyPoints) (events : List Event) (page : PageId) (point : Point) →
        IsAfter old events page new
        → IsWaiting events page point → AtMost new.dirty point }
{}

/// A page that was handed out is being written, with the same point, until it is reported as written.
#[tactic(auto, using(crate::proofs::HistoryLaws::still_out))]
pub fn a_page_is_being_written_until_it_is_written()
    ensures { (old new : DirtyPoints) (events : List Event) (page : PageId) (first : Point) →
        IsAfter old events page new
        → IsUnreported events page → old.writing ≡ Some first → new.writing ≡ Some first }
{}

/// Of all pages one is the next to be written, or none is; and so it is with the first point that is due, and with the low
/// point.
pub fn the_next_page_to_write_is_one()
    ensures out { (old new other : List DirtyPoints) (point : Point) (number page : ℕ) →
        HandsOut old new point number → HandsOut old other point page
        → (number ≡ page) × (new ≡ other) }
    ensures none { (old new : List DirtyPoints) (point : Point) (number : ℕ) →
        HandsOut old new point number → NoneIsDue old point → ⊥ }
    ensures due { (pages : List DirtyPoints) (first other : Point) → IsFirstDue pages first →
        IsFirstDue pages other → first ≡ other }
    ensures never { (pages : List DirtyPoints) (first : Point) → IsFirstDue pages first →
        NoneIsEverDue pages → ⊥ }
    ensures low { (pages : List DirtyPoints) (low other : Point) → IsLowPoint pages low →
        IsLowPoint pages other → low ≡ other }
    ensures clean { (pages : List DirtyPoints) (low : Point) → IsLowPoint pages low → AreClean pages
        → ⊥ }
{}
