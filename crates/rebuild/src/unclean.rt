ghost use Rattle.std.specs.Prelude.{◌≡◌, ◌≤◌, ◌<◌, ◌^◌, false, length};
ghost use Rattle.blk_base.specs.Limits.{IsGeometry};
ghost use Rattle.blk_base.specs.Regions.{needed_blocks, data_blocks};
ghost use Rattle.count_updates.specs.Numbers.{all_sectors};
ghost use Rattle.replay_map.specs.Forms.{HasForm};
ghost use Rattle.rebuild.specs.Acts.{Acts, recovery};
ghost use Rattle.rebuild.specs.Done.{AreBothDone, HasContents};
ghost use Rattle.rebuild.specs.Outcomes.{RecoversUnclean, WritesAll};

use crate::counters::put_slabs;
use crate::pages::put_pages;
use audit::{Contents, contents_with};
use blk_base::{Layout, Super};
use disk_model::{Disk, Failed};
use image_format::calls::close;
use image_model::ImageFault;
use journal_window::read_window;
use replay_map::Changes;
use std::alloc::Global;

// Recovers the image with this superblock, whose last session wasn't closed, and gives the number of its window's entries.
pub(crate) fn recover_unclean<D: Disk>(
    alloc: Global,
    head: &Super,
    device: &mut D,
) -> Result<u32, ImageFault>
    requires sizes { IsGeometry head.now.geometry }
    requires some { 1 ≤ head.now.start }
    requires below { head.now.start < 2 ^ 54 }
    requires room { needed_blocks head.now.geometry ≤ (D.seen device.old).size }
    requires unclean { head.now.clean ≡ false }
    ensures { RecoversUnclean D.trust head.now (D.seen device.old)
        (D.seen device.new) result }
{
    let window = read_window(alloc, head, device)?;
    let Ok(changes) = Changes::of(alloc, window.entries()) else {
        return Err(ImageFault::Memory);
    };
    let contents = contents_with(alloc, head, &window, &changes, device)?;
    let layout = Layout::of(&head.geometry);
    let Ok(()) = write_contents(device, &layout, window.last(), &changes, &contents) else {
        return Err(ImageFault::Device);
    };
    Ok(contents.map.entries)
}

// Writes the pages and the counters that the window changes, and then the superblock.
fn write_contents<D: Disk>(
    device: &mut D,
    layout: &Layout,
    last: u64,
    changes: &Changes,
    contents: &Contents,
) -> Result<(), Failed>
    requires room { needed_blocks layout.now.geometry ≤ (D.seen device.old).size }
    requires few { last < 2 ^ 55 }
    requires counts { length contents.now.counts.counts.items ≡ data_blocks layout.now.geometry }
    requires sectors { length contents.now.counts.sectors.items ≡ all_sectors layout.now.geometry }
    requires form { HasForm layout.now.geometry contents.now.map.links.items
        contents.now.map.slots.items }
    ensures { WritesAll D.trust (D.seen device.old) (D.seen device.new)
        (HasContents layout.now.geometry changes.now contents.now.map.links.items
        contents.now.counts.counts.items contents.now.counts.sectors.items) last result }
{
    write_blocks(device, layout, changes, contents)?;
    close(device, &layout.geometry, last + 2)
}

// Writes the pages and the counters.
// Long to prove: what the calls did is joined over each moment between them.
fn write_blocks<D: Disk>(
    device: &mut D,
    layout: &Layout,
    changes: &Changes,
    contents: &Contents,
) -> Result<(), Failed>
    requires room { needed_blocks layout.now.geometry ≤ (D.seen device.old).size }
    requires counts { length contents.now.counts.counts.items ≡ data_blocks layout.now.geometry }
    requires sectors { length contents.now.counts.sectors.items ≡ all_sectors layout.now.geometry }
    requires form { HasForm layout.now.geometry contents.now.map.links.items
        contents.now.map.slots.items }
    ensures { Acts D.trust.tells (recovery D.trust) (D.seen device.old) (D.seen device.new)
        (HasContents layout.now.geometry changes.now contents.now.map.links.items
        contents.now.counts.counts.items contents.now.counts.sectors.items)
        AreBothDone result }
{
    put_pages(device, layout, changes, &contents.map.links)?;
    put_slabs(device, layout, &contents.counts)
}
