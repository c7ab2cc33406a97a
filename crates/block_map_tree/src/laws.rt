ghost use Rattle.std.specs.Prelude.{◌≡◌, ◌<◌, ◌≤◌, ◌↔◌, ℕ, List};
ghost use Rattle.blk_base.specs.declared.place.PageId.{PageId};
ghost use Rattle.blk_base.specs.declared.place.Pbn.{Pbn};
ghost use Rattle.blk_base.specs.declared.point.Point.{Point};
ghost use Rattle.page_codec.specs.declared.forms.MapPage.{MapPage};
ghost use Rattle.blk_base.specs.declared.opened.OpenedPage.{OpenedPage};
ghost use Rattle.block_map_tree.specs.declared.forms.Forest.{Forest};
ghost use Rattle.block_map_tree.specs.declared.forms.Found.{Found};
ghost use Rattle.block_map_tree.specs.declared.forms.Found.TheVariants.{Missing};
ghost use Rattle.block_map_tree.specs.declared.forms.Path.{Path};
ghost use Rattle.block_map_tree.specs.Pages.{IsTreeOf, IsRoot, page_on};
ghost use Rattle.block_map_tree.specs.Tree.{Tree, IsTree, IsAt, IsThere, IsFound, IsLinkable, Links, Expires, IsWriting, Writes, dirty_points_of};
ghost use Rattle.block_map_tree.specs.OpenedTree.{IsOpened, all_trees};
ghost use Rattle.block_map_tree.specs.History.{Operation, Leads, LeadTo, events_of};
ghost use Rattle.blk_base.specs.Regions.{IsDataBlock};
ghost use Rattle.blk_base.specs.Pages.{above, page_above};
ghost use Rattle.dirty_pages.specs.DirtyPoints.{IsLowPoint, AreClean, NoneIsDue};
ghost use Rattle.dirty_pages.specs.History.{IsWaiting, IsUnwritten, IsUnreported, AtMost};

/// What is opened of all trees of an image is opened of those of each zone.
pub fn an_image_is_opened_by_zones()
    ensures { (f : Forest) (opened : List OpenedPage) → IsOpened (all_trees f.geometry) opened →
        IsOpened f opened }
{}

/// A page stands at one block, which is a data block for one that is no root, and a path leads to one thing.
pub fn a_walk_finds_one_thing()
    ensures place { (tree : Tree) (page : PageId) (at other : Pbn) → IsAt tree page at →
        IsAt tree page other → at ≡ other }
    ensures block { (tree : Tree) (page : PageId) (at : Pbn) → IsTree tree →
        (IsRoot tree.forest page → ⊥) → IsAt tree page at
        → IsDataBlock tree.forest.geometry at.0 }
    ensures walk { (tree : Tree) (path : Path) (found other : Found) → IsFound tree path found →
        IsFound tree path other → found ≡ other }
{}

/// A link brings one page, and each other page stays where it was. A page that is handed out or reported moves none.
pub fn a_link_adds_one_page()
    ensures here { (old new : Tree) (page : PageId) (at : Pbn) (point : Point) → IsTree old →
        IsLinkable old page → Links old new page at point
        → IsAt new page at }
    ensures others { (old new : Tree) (page : PageId) (at : Pbn) (point : Point) → IsTree old →
        IsLinkable old page → Links old new page at point
        → (other : PageId) (b : Pbn) → (other ≡ page → ⊥) → IsAt old other b ↔ IsAt new other b }
    ensures hand_out { (old new : Tree) (page : PageId) (point : Point) (into : MapPage) →
        Expires old new point page into
        → (other : PageId) (b : Pbn) → IsAt old other b ↔ IsAt new other b }
    ensures written { (old new : Tree) (page : PageId) → Writes old new page →
        (other : PageId) (b : Pbn) → IsAt old other b ↔ IsAt new other b }
{}

/// The highest page that the path of an address misses may be linked: it is no root, and the page above it is there.
pub fn a_missing_page_may_be_linked()
    ensures { (tree : Tree) (path : Path) (address level : ℕ) → IsTree tree →
        address < tree.forest.geometry.logical
        → IsTreeOf tree.forest path.tree →
        ((l : ℕ) → l < tree.forest.geometry.height →
        page_on path tree.forest.geometry.height l ≡ page_above l address) →
        IsFound tree path (Missing level)
        → IsLinkable tree (page_above level address)
        × IsThere tree (above (page_above level address)) }
{}

/// A page that was handed out is being written until it is reported: over all calls from any tree on, and so it isn't
/// handed out again before.
pub fn a_page_is_out_until_it_is_written()
    ensures taken { (old new : Tree) (page : PageId) (point : Point) (into : MapPage) →
        Expires old new point page into → IsWriting new page }
    ensures kept { (old new : Tree) (calls : List Operation) (page : PageId) → IsTree old →
        LeadTo old calls new
        → IsUnreported (events_of calls) page → IsWriting old page → IsWriting new page }
    ensures idle { (old new : Tree) (page : PageId) (point : Point) (into : MapPage) →
        Expires old new point page into → IsWriting old page → ⊥ }
{}

/// A link is kept until it is on the device: over all calls from any tree on, one that was made since and isn't written
/// since the page above was handed out isn't below the low point, and that page will be handed out again unless it was
/// handed out since.
pub fn no_link_is_lost()
    ensures low { (old new : Tree) (calls : List Operation) (page : PageId) (point low : Point) →
        IsTree old → LeadTo old calls new
        → IsUnwritten (events_of calls) page point → IsLowPoint new.dirty_points low
        → low.0 ≤ point.0 }
    ensures some { (old new : Tree) (calls : List Operation) (page : PageId) (point : Point) →
        IsTree old → LeadTo old calls new
        → IsUnwritten (events_of calls) page point → AreClean new.dirty_points → ⊥ }
    ensures kept { (old new : Tree) (calls : List Operation) (page : PageId) (point : Point) →
        IsTree old → LeadTo old calls new
        → IsWaiting (events_of calls) page point → AtMost (dirty_points_of new page).dirty point }
{}

/// Each call has one result, also which page it hands out; and it has one of its answers alone.
pub fn a_call_has_one_result()
    ensures after { (old new other : Tree) (call : Operation) → Leads old call new →
        Leads old call other → new ≡ other }
    ensures out { (old new other : Tree) (point : Point) (page out : PageId) (into copy : MapPage) →
        IsTree old → Expires old new point page into → Expires old other point out copy
        → (page ≡ out) × (into ≡ copy) × (new ≡ other) }
    ensures none { (old new : Tree) (point : Point) (page : PageId) (into : MapPage) →
        Expires old new point page into → NoneIsDue old.dirty_points point → ⊥ }
{}
