ghost use Rattle.std.specs.Prelude.{◌<◌, ◌≤◌, All};
ghost use Rattle.blk_base.specs.Regions.{needed_blocks};
ghost use Rattle.blk_base.specs.declared.sizes.TheConstants.{TREES};
ghost use Rattle.rebuild.specs.Acts.{Acts, page_writing};
ghost use Rattle.rebuild.specs.Done.{AreLinksDone, ArePagesDone, AreRootsDone, HasLinks, HasPage, HasPages, HasRoots, IsPageDone};

use blk_base::{Layout, TREES};
use disk_model::{Disk, Failed, read_block};
use image_format::calls::put;
use recovery_blocks::{has_changes, put_changes};
use replay_map::{Changes, Link};

/// Writes each page into whose slots the changes put something. It is read again, and written whole, so that it says by itself
/// what it says with the changes; no other block is written. It fails where a call does, and makes no other then.
pub fn put_pages<D: Disk>(
    device: &mut D,
    layout: &Layout,
    changes: &Changes,
    links: &[Link],
) -> Result<(), Failed>
    requires room { needed_blocks layout.now.geometry ≤ (D.seen device.old).size }
    requires inside { All (λ link. link.at.0 < (D.seen device.old).size) links.now }
    ensures { Acts D.trust.tells (page_writing D.trust.honest)
        (D.seen device.old) (D.seen device.new)
        (HasPages layout.now.geometry changes.now links.now) ArePagesDone result }
{
    put_roots(device, layout, changes)?;
    put_links(device, changes, links)
}

// Writes those of the roots.
fn put_roots<D: Disk>(device: &mut D, layout: &Layout, changes: &Changes) -> Result<(), Failed>
    requires { needed_blocks layout.now.geometry ≤ (D.seen device.old).size }
    ensures { Acts D.trust.tells (page_writing D.trust.honest)
        (D.seen device.old) (D.seen device.new)
        (HasRoots layout.now.geometry changes.now)
        (AreRootsDone layout.now.geometry changes.now TREES) result }
{
    for tree in 0..TREES {
        let root = Link::root(layout, tree);
        put_page(device, changes, root)?;
    }
    Ok(())
}

// Writes those of these pages.
fn put_links<D: Disk>(device: &mut D, changes: &Changes, links: &[Link]) -> Result<(), Failed>
    requires { All (λ link. link.at.0 < (D.seen device.old).size) links.now }
    ensures { Acts D.trust.tells (page_writing D.trust.honest)
        (D.seen device.old) (D.seen device.new)
        (HasLinks changes.now links.now) (AreLinksDone changes.now links.now) result }
{
    for link in links {
        put_page(device, changes, *link)?;
    }
    Ok(())
}

// Writes this page, if they do.
// It is read again, and not kept since the map was read: so no page stays in memory.
fn put_page<D: Disk>(device: &mut D, changes: &Changes, link: Link) -> Result<(), Failed>
    requires { link.at.0 < (D.seen device.old).size }
    ensures { Acts D.trust.tells (page_writing D.trust.honest)
        (D.seen device.old) (D.seen device.new)
        (HasPage changes.now link) (IsPageDone changes.now link) result }
{
    if !has_changes(link.page, changes) {
        return Ok(());
    }
    write_page(device, changes, link)
}

// Reads the block of a page, puts the changes into its slots, and writes it.
fn write_page<D: Disk>(device: &mut D, changes: &Changes, link: Link) -> Result<(), Failed>
    requires { link.at.0 < (D.seen device.old).size }
    ensures { Acts D.trust.tells (page_writing D.trust.honest)
        (D.seen device.old) (D.seen device.new)
        (HasPage changes.now link) (IsPageDone changes.now link) result }
{
    let mut block = read_block(device, link.at)?;
    put_changes(&mut block, link.page, changes);
    put(device, link.at, &block)
}
