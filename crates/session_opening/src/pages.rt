ghost use Rattle.std.specs.Prelude.{◌≡◌, ◌<◌, ◌∷◌, [], List, replicate, reverse, IfOk, OnOk, All};
ghost use Rattle.blk_base.specs.declared.place.Mapping.TheVariants.{Unmapped};
ghost use Rattle.blk_base.specs.declared.sizes.TheConstants.{PAGE_SLOTS, TREES};
ghost use Rattle.replay_map.specs.declared.links.Link.{Link as Linked};
ghost use Rattle.session_opening.specs.Pages.{AreAdded, ArePages, roots_below};
ghost use Rattle.session_opening.specs.Places.{ArePlaces, AreLeading};

use crate::places::{Places, places_of};
use blk_base::{Layout, Mapping, Mappings, OpenedPage, PAGE_SLOTS, PageId, TREES};
use replay_map::Link;
use std::alloc::{AllocError, Global};

// The roots, and each of these pages that is no leaf, with the mappings that lead to those below it.
pub(crate) fn pages_of(
    alloc: Global,
    layout: &Layout,
    links: &[Link],
) -> Result<Vec<OpenedPage>, AllocError>
    ensures { IfOk result (λ pages. ArePages layout.now.geometry (reverse links.now) pages.items) }
{
    let places = places_of(alloc, links)?;
    let mut pages = Vec::with_capacity(alloc, usize::from(TREES) + places.inner.len())?;
    push_roots(&mut pages, layout, &places)?;
    push_inner(&mut pages, &places)?;
    Ok(pages)
}

// Adds the roots.
fn push_roots(
    pages: &mut Vec<OpenedPage>,
    layout: &Layout,
    places: &Places,
) -> Result<(), AllocError>
    ensures { OnOk result ((links : List Linked) → ArePlaces links places.now
        → AreAdded links (roots_below layout.now.geometry TREES) pages.old.items pages.new.items) }
{
    for tree in 0..TREES {
        push_page(pages, places, Link::root(layout, tree))?;
    }
    Ok(())
}

// Adds the linked pages that are no leaves.
fn push_inner(pages: &mut Vec<OpenedPage>, places: &Places) -> Result<(), AllocError>
    requires { All (λ link. 0 < link.page.level) places.now.inner.items }
    ensures { OnOk result ((links : List Linked) → ArePlaces links places.now
        → AreAdded links places.now.inner.items pages.old.items pages.new.items) }
{
    for link in &places.inner {
        push_page(pages, places, *link)?;
    }
    Ok(())
}

// Adds a page that is no leaf.
fn push_page(pages: &mut Vec<OpenedPage>, places: &Places, link: Link) -> Result<(), AllocError>
    requires { 0 < link.page.level }
    ensures { OnOk result
        ((links : List Linked) → ArePlaces links places.now →
        AreAdded links (link ∷ []) pages.old.items pages.new.items) }
{
    let mut page = OpenedPage {
        page: link.page,
        at: link.at,
        mappings: Mappings::new(),
    };
    lead(&mut page.mappings, places, link.page);
    pages.push(page)?;
    Ok(())
}

// Maps the slots of a page that is no leaf, and has no mapping yet. One search finds the linked pages below it.
// Long to prove: the range of a map is tied to the pages below.
fn lead(mappings: &mut Mappings, places: &Places, page: PageId)
    requires inner { 0 < page.level }
    requires none { mappings.old ≡ replicate PAGE_SLOTS Unmapped }
    ensures { (links : List Linked) → ArePlaces links places.now →
        AreLeading links page PAGE_SLOTS mappings.new }
{
    // Pages have numbers of 32 bits, and there is none for a page below this one.
    if page.index > u32::MAX / u32::from(PAGE_SLOTS) {
        return;
    }
    let first = page.child(0);
    let last = PageId {
        tree: first.tree,
        level: first.level,
        index: first.index.saturating_add(u32::from(PAGE_SLOTS - 1)),
    };
    for (below, at) in places.blocks.range(first..=last) {
        mappings.set(below.parent_slot(), Mapping::At(*at));
    }
}
