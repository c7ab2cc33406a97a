ghost use Rattle.std.specs.Prelude.{◌≡◌, ◌≢◌, ◌+◌, ◌<◌, ◌≤◌, ◌⊎◌, ℕ, List, true, false, None, Some, IfSome, IsSome, IsErr, IsTrue, length, Contains};
ghost use Rattle.blk_base.specs.Pages.{page_above};
ghost use Rattle.block_map_tree.specs.Tree.{mappings_of};
ghost use Rattle.dirty_pages.specs.DirtyPoints.{clean, dirty_points_at};
ghost use Rattle.map_page_cache.specs.CachedPages.{IsAbsent, IsPageOf, IsThere};
ghost use Rattle.map_zone.specs.PageWrites.{IsOut};
ghost use Rattle.page_codec.specs.PageBytes.{page_bytes};
ghost use Rattle.page_codec.specs.declared.forms.MapPage.{MapPage as Page};

use blk_base::{Block, PageId, Pbn, Point};
use block_map_tree::TreeNodes;
use map_page_cache::{Cache, NoFrame};
use map_zone::MapZone;
use page_codec::MapPage;

// No page is linked that is above no address of the logical size.
fn no_page_behind_the_logical_size(tree: &TreeNodes, page: PageId) -> bool
    requires { (address : ℕ) → address < tree.now.forest.geometry.logical →
        page ≢ page_above page.level address }
    ensures { result ≡ false }
{
    tree.may_link(page)
}

// Where each page is dirty or being written none is given up.
fn no_dirty_page_is_given_up(cache: &mut Cache, page: PageId, from: &MapPage) -> Result<(), NoFrame>
    requires absent { IsAbsent cache.old page }
    requires named { from.now.head.page ≡ page }
    requires held { IsPageOf cache.old.geometry from.now }
    requires full { length cache.old.pages ≡ cache.old.frames }
    requires dirty { (frame : ℕ) → frame < cache.old.frames →
        dirty_points_at cache.old.dirty_points frame ≢ clean }
    ensures refused { IsErr result }
    ensures same { cache.new ≡ cache.old }
{
    cache.install(page, from)
}

// A page that is installed is found by its name, with what was read.
fn an_installed_page_is_found(cache: &mut Cache, page: PageId, from: &MapPage) -> bool
    requires absent { IsAbsent cache.old page }
    requires named { from.now.head.page ≡ page }
    requires held { IsPageOf cache.old.geometry from.now }
    requires room { length cache.old.pages < cache.old.frames }
    ensures { IsTrue result }
{
    cache.install(page, from).is_ok() && cache.get(page).is_some()
}

// A page that is handed out is being written from then on.
// Long to prove: the laws that it cites are checked with it.
fn a_page_handed_out_is_being_written(
    zone: &mut MapZone,
    point: Point,
    into: &mut Block,
) -> Option<(PageId, Pbn)>
    ensures { IfSome result (λ (page, at). IsOut zone.new page) }
{
    zone.take_expired(point, into)
}

// A page that is handed out has what was applied to it, and nothing else.
fn a_page_shows_what_was_applied(
    zone: &mut MapZone,
    point: Point,
    into: &mut Block,
) -> Option<(PageId, Pbn)>
    ensures { IfSome result (λ (page, at). (copy : Page)
        × (copy.head.page ≡ page)
        × (IsThere zone.old.cache page copy
        ⊎ ((1 ≤ page.level) × (copy.mappings ≡ mappings_of zone.old.tree page)))
        × (into.new ≡ page_bytes copy.head copy.mappings)) }
{
    zone.take_expired(point, into)
}
