ghost use Rattle.std.specs.Prelude.{◌≡◌, ◌+◌, ◌*◌, ◌<◌, ◌++◌, [], Some, IfOk, OnOk};
ghost use Rattle.std.specs.Bool.{OnTrue};
ghost use Rattle.blk_base.specs.declared.sizes.TheConstants.{PAGE_SLOTS};
ghost use Rattle.image_model.specs.Maps.{Image, page_at};
ghost use Rattle.replay_map.specs.Forms.{links_in};
ghost use Rattle.replay_map.specs.Links.{AreLinks, AreOfSlots, IsUnmappedRun, link_of};
ghost use Rattle.replay_map.specs.Pages.{IsReadAs};

use blk_base::{Layout, Mapping, Mappings, PAGE_SLOTS, PageId, Pbn};
use page_codec::{PageHead, are_unmapped};
use std::alloc::{AllocError, Global};

/// How many slots of a page are looked at at once: all of them are so many runs.
pub(crate) const RUN: u16 = 116;

/// How many runs a page has.
pub(crate) const RUNS: u16 = 7;

/// A page that is a root or linked, and the block at which it stands.
#[derive(Clone, Copy, Debug, PartialEq, Eq)]
pub struct Link {
    pub page: PageId,
    pub at: Pbn,
}

impl Link {
    ghost use Rattle.blk_base.specs.declared.sizes.TheConstants.{TREES};
    ghost use Rattle.replay_map.specs.Links.{root_link};
    ghost use Rattle.replay_map.specs.Walks.{IsRoot};

    /// The root of a tree, 0 to 59.
    pub fn root(layout: &Layout, tree: u8) -> Link
        requires { tree < TREES }
        ensures link { result ≡ root_link layout.now.geometry tree }
        ensures root { IsRoot layout.now.geometry tree result }
        ensures inner { 0 < result.page.level }
    {
        Link {
            page: layout.root_page(tree),
            at: layout.root(tree),
        }
    }
}

/// The pages to which a page with these mappings leads, in the order of its slots; a leaf leads to none. `page` is the page
/// that was read, with its block.
///
/// It takes the memory of the links, and fails only where there is none.
pub fn links_of(
    alloc: Global,
    page: &PageHead,
    mappings: &Mappings,
) -> Result<Vec<Link>, AllocError>
    requires { page.now.page.index < PAGE_SLOTS }
    ensures links { IfOk result (λ links.
        (image : Image) → page_at image page.now.page ≡ Some page.now.at →
        IsReadAs image page.now mappings.now
        → AreLinks image page.now.page links.items) }
    ensures leaf { IfOk result (λ links. page.now.page.level ≡ 0 → links.items ≡ []) }
    ensures slots { IfOk result (λ links.
        0 < page.now.page.level → links.items ≡ links_in page.now.page mappings.now PAGE_SLOTS) }
{
    if page.page.level == 0 {
        return Ok(Vec::new(alloc));
    }
    links_of_slots(alloc, page.page, mappings)
}

// The links of the slots of a page that is no leaf.
fn links_of_slots(alloc: Global, page: PageId, mappings: &Mappings) -> Result<Vec<Link>, AllocError>
    requires inner { 0 < page.level }
    requires few { page.index < PAGE_SLOTS }
    ensures of_slots { IfOk result (λ links. AreOfSlots page mappings.now PAGE_SLOTS links.items) }
    ensures exact { IfOk result (λ links. links.items ≡ links_in page mappings.now PAGE_SLOTS) }
{
    let mut links = Vec::new(alloc);
    for run in 0..RUNS {
        push_run(&mut links, page, mappings, run)?;
    }
    Ok(links)
}

// Adds the links of the slots of a run, behind those of the runs before it.
// Most pages lead to few others, so what is unmapped is passed over by runs.
fn push_run(
    links: &mut Vec<Link>,
    page: PageId,
    mappings: &Mappings,
    run: u16,
) -> Result<(), AllocError>
    requires inner { 0 < page.level }
    requires few { page.index < PAGE_SLOTS }
    requires run { run < 7 }
    requires before { links.old.items ≡ links_in page mappings.now (116 * run) }
    ensures { OnOk result (links.new.items ≡ links_in page mappings.now (116 * (run + 1))) }
{
    if is_unmapped(mappings, run) {
        return Ok(());
    }
    for slot in RUN * run..RUN * (run + 1) {
        push_link(links, page, slot, mappings.get(slot))?;
    }
    Ok(())
}

/// Whether each slot of a run is unmapped.
pub(crate) fn is_unmapped(mappings: &Mappings, run: u16) -> bool
    requires { run < 7 }
    ensures { OnTrue result (IsUnmappedRun mappings.now run) }
{
    let first = (RUN * run) as usize;
    are_unmapped(&mappings.as_slice()[first..first + RUN as usize])
}

// Adds the link of a slot, if it has one.
// Long to prove: a push may find no memory in each turn.
fn push_link(
    links: &mut Vec<Link>,
    page: PageId,
    slot: u16,
    mapping: Mapping,
) -> Result<(), AllocError>
    requires inner { 0 < page.level }
    requires few { page.index < PAGE_SLOTS }
    requires inside { slot < PAGE_SLOTS }
    ensures { OnOk result (links.new.items ≡ links.old.items ++ link_of page slot mapping) }
{
    if let Mapping::At(at) = mapping {
        links.push(Link {
            page: page.child(slot),
            at,
        })?;
    }
    Ok(())
}
