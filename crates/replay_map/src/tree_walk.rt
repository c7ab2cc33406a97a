ghost use Rattle.std.specs.Prelude.{◌≡◌, ◌≤◌, ◌<◌, ◌++◌, OnOk, IfErr};
ghost use Rattle.blk_base.specs.Limits.{IsGeometry};
ghost use Rattle.blk_base.specs.Regions.{needed_blocks};
ghost use Rattle.blk_base.specs.declared.sizes.TheConstants.{PAGE_SLOTS, TREES};
ghost use Rattle.disk_model.specs.Since.{IsUntouched};
ghost use Rattle.replay_map.specs.Forms.{AddsForm, HasVisited, IsInTree, IsRootPage, links_in};
ghost use Rattle.replay_map.specs.Pages.{IsReadAs};
ghost use Rattle.replay_map.specs.Reads.{AreLeading, IsPageBlock, IsShown, LeadToData};
ghost use Rattle.replay_map.specs.Walks.{IsInTrees, IsLinked, IsUnder, IsUpTo, WalkFails, WalkedTrees, WalkedUnder, WalkedUpTo, head_at, link_to};

use crate::found::Found;
use crate::taken_pages::take_page;
use crate::{Changes, Link, read_page};
use blk_base::{Layout, Mappings, TREES};
use disk_model::{Disk, read_block};
use image_model::ImageFault;
use page_codec::PageHead;
use std::alloc::Global;

/// Reads each linked page of an image, tree by tree, and from each page on those below it in the order of its slots, and
/// adds what they give. Each page is read once. The changes are those of the image's window.
///
/// Refused with `Page` for the first page that can't be read; with `Device` where a read failed; and with `Memory` only for
/// want of memory. Then `found` has any content.
pub(crate) fn walk_trees<D: Disk>(
    alloc: Global,
    layout: &Layout,
    changes: &Changes,
    device: &mut D,
    found: &mut Found,
) -> Result<(), ImageFault>
    requires room { needed_blocks layout.now.geometry ≤ (D.seen device.old).size }
    requires data { LeadToData layout.now.geometry changes.now }
    ensures walked { OnOk result
        (IsShown D.trust layout.now.geometry changes.now (D.seen device.old)
        (D.seen device.new)
        (λ image. WalkedTrees image TREES found.old found.new)) }
    ensures form { OnOk result
        (AddsForm layout.now.geometry (IsRootPage layout.now.geometry)
        (IsInTrees TREES) found.old found.new) }
    ensures fault { IfErr result
        (WalkFails D.trust layout.now.geometry changes.now (D.seen device.old)
        (D.seen device.new)
        (λ image. Unit {0}) (IsInTrees TREES)) }
    ensures untouched { IsUntouched D.trust.tells (D.seen device.old) (D.seen device.new) }
{
    let mut mappings = Mappings::new();
    for tree in 0..TREES {
        let root = Link::root(layout, tree);
        walk(alloc, layout, changes, device, root, found, &mut mappings)?;
    }
    Ok(())
}

// Reads a page at its block, and then those below it.
// The links that it found lead to those. Each page comes before those below it, so the first page that can't be read is
// found first. Each page is read into `page`, which may have any content.
// Long to prove: each clause is shown on each way out.
fn walk<D: Disk>(
    alloc: Global,
    layout: &Layout,
    changes: &Changes,
    device: &mut D,
    top: Link,
    found: &mut Found,
    page: &mut Mappings,
) -> Result<(), ImageFault>
    requires room { needed_blocks layout.now.geometry ≤ (D.seen device.old).size }
    requires data { LeadToData layout.now.geometry changes.now }
    requires stands { IsPageBlock layout.now.geometry top.at }
    requires few { 0 < top.page.level → top.page.index < PAGE_SLOTS }
    requires first { 1 < top.page.level → top.page.index ≡ 0 }
    requires low { top.page.level ≤ 2 }
    requires place { IsInTree layout.now.geometry top.page }
    ensures walked { OnOk result
        (IsShown D.trust layout.now.geometry changes.now (D.seen device.old)
        (D.seen device.new)
        (λ image. IsLinked image top → WalkedUnder image top.page found.old found.new)) }
    ensures form { OnOk result
        (AddsForm layout.now.geometry (λ page. page ≡ top.page)
        (IsUnder top.page) found.old found.new) }
    ensures fault { IfErr result
        (WalkFails D.trust layout.now.geometry changes.now (D.seen device.old)
        (D.seen device.new)
        (λ image. IsLinked image top) (IsUnder top.page)) }
    ensures untouched { IsUntouched D.trust.tells (D.seen device.old) (D.seen device.new) }
{
    let first = found.links.len();
    visit(alloc, layout, changes, device, top, found, page)?;
    if top.page.level == 0 {
        return Ok(());
    }
    for place in first..found.links.len() {
        let below = found.links[place];
        walk(alloc, layout, changes, device, below, found, page)?;
    }
    Ok(())
}

// Reads a page, and adds what it gives. `into` has then its mappings.
fn visit<D: Disk>(
    alloc: Global,
    layout: &Layout,
    changes: &Changes,
    device: &mut D,
    top: Link,
    found: &mut Found,
    into: &mut Mappings,
) -> Result<(), ImageFault>
    requires room { needed_blocks layout.now.geometry ≤ (D.seen device.old).size }
    requires data { LeadToData layout.now.geometry changes.now }
    requires stands { IsPageBlock layout.now.geometry top.at }
    requires few { 0 < top.page.level → top.page.index < PAGE_SLOTS }
    requires place { IsInTree layout.now.geometry top.page }
    ensures walked { OnOk result
        (IsShown D.trust layout.now.geometry changes.now (D.seen device.old)
        (D.seen device.new)
        (λ image.
        IsLinked image top →
        WalkedUpTo image top.page 0 found.old found.new
        × IsReadAs image (head_at layout.now.geometry top) into.new)) }
    ensures data { OnOk result (AreLeading layout.now.geometry into.new) }
    ensures form { OnOk result
        (HasVisited layout.now.geometry top.page into.new 0 found.old found.new) }
    ensures links { OnOk result
        (0 < top.page.level →
        found.new.links.items ≡ found.old.links.items ++ links_in top.page into.new PAGE_SLOTS) }
    ensures fault { IfErr result
        (WalkFails D.trust layout.now.geometry changes.now (D.seen device.old)
        (D.seen device.new)
        (λ image. IsLinked image top) (IsUpTo top.page 0)) }
    ensures untouched { IsUntouched D.trust.tells (D.seen device.old) (D.seen device.new) }
{
    let page = PageHead {
        geometry: layout.geometry,
        page: top.page,
        at: top.at,
    };
    read_linked(&page, changes, device, into)?;
    let Ok(()) = take_page(alloc, &page, into, changes, found) else {
        return Err(ImageFault::Memory);
    };
    Ok(())
}

// Reads a page.
fn read_linked<D: Disk>(
    page: &PageHead,
    changes: &Changes,
    device: &mut D,
    into: &mut Mappings,
) -> Result<(), ImageFault>
    requires sizes { IsGeometry page.now.geometry }
    requires room { needed_blocks page.now.geometry ≤ (D.seen device.old).size }
    requires stands { IsPageBlock page.now.geometry page.now.at }
    requires data { LeadToData page.now.geometry changes.now }
    ensures read { OnOk result
        (IsShown D.trust page.now.geometry changes.now (D.seen device.old)
        (D.seen device.new)
        (λ image. IsReadAs image page.now into.new)) }
    ensures data { OnOk result (AreLeading page.now.geometry into.new) }
    ensures fault { IfErr result
        (WalkFails D.trust page.now.geometry changes.now (D.seen device.old)
        (D.seen device.new)
        (λ image. IsLinked image (link_to page.now)) (IsUpTo page.now.page 0)) }
    ensures untouched { IsUntouched D.trust.tells (D.seen device.old) (D.seen device.new) }
{
    let Ok(block) = read_block(device, page.at) else {
        return Err(ImageFault::Device);
    };
    match read_page(&block, page, changes, into) {
        Ok(()) => Ok(()),
        Err(fault) => Err(ImageFault::Page { at: page.at, fault }),
    }
}
