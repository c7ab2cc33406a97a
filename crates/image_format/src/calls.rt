//! The calls of a device that make an image, and close one: each fails with the device.
ghost use Rattle.std.specs.Prelude.{◌≡◌, ◌≤◌, ◌<◌, ◌+◌, ◌∷◌, [], true};
ghost use Rattle.blk_base.specs.Regions.{Root, IsPlace, needed_blocks};
ghost use Rattle.disk_model.specs.declared.call.Call.TheVariants.{Flush};
ghost use Rattle.image_format.specs.Calls.{put, zeros_from, roots_below, slab_calls, slabs_below, region_calls, clear_calls, super_calls, closing_calls, format_calls};
ghost use Rattle.image_format.specs.Runs.{Makes};
ghost use Rattle.image_model.specs.Empty.{empty_root};

use blk_base::{Block, Geometry, Layout, Pbn, Super, TREES};
use disk_model::{Disk, Failed};
use image_layout::write_super;
use page_codec::{PageHead, encode_unmapped};

/// Writes a block.
pub fn put<D: Disk>(device: &mut D, at: Pbn, block: &Block) -> Result<(), Failed>
    requires { at.0 < (D.seen device.old).size }
    ensures { Makes D.trust.tells (D.seen device.old) (D.seen device.new)
        (put at.0 block.now ∷ []) result }
{
    device.write(at, block)
}

// Makes the writes last.
fn flush<D: Disk>(device: &mut D) -> Result<(), Failed>
    ensures { Makes D.trust.tells (D.seen device.old) (D.seen device.new) (Flush true ∷ []) result }
{
    device.flush()
}

// Writes zeros into so many blocks from this one on.
fn put_zeros<D: Disk>(device: &mut D, first: Pbn, count: u32) -> Result<(), Failed>
    requires { first.0 + count ≤ (D.seen device.old).size }
    ensures { Makes D.trust.tells (D.seen device.old) (D.seen device.new)
        (zeros_from first.0 count) result }
{
    // Asked for the proof alone: the numbers of the blocks fit their type.
    let _blocks = device.blocks();
    let zeros = Block::zero();
    for i in 0..count {
        put(device, Pbn(first.0 + i), &zeros)?;
    }
    Ok(())
}

// The root of a tree, without mappings.
fn root_page(layout: &Layout, tree: u8, into: &mut Block)
    requires { IsPlace layout.now.geometry (Root tree) }
    ensures { into.new ≡ empty_root layout.now.geometry tree }
{
    let head = PageHead {
        geometry: layout.geometry,
        page: layout.root_page(tree),
        at: layout.root(tree),
    };
    encode_unmapped(&head, into);
}

// Writes the roots.
fn put_roots<D: Disk>(device: &mut D, layout: &Layout) -> Result<(), Failed>
    requires { needed_blocks layout.now.geometry ≤ (D.seen device.old).size }
    ensures { Makes D.trust.tells (D.seen device.old) (D.seen device.new)
        (roots_below layout.now.geometry TREES) result }
{
    let mut page = Block::zero();
    for tree in 0..TREES {
        root_page(layout, tree, &mut page);
        put(device, layout.root(tree), &page)?;
    }
    Ok(())
}

/// Writes zeros into the counters and the journal of a slab, which stand behind its data.
pub fn put_slab<D: Disk>(device: &mut D, layout: &Layout, slab: u32) -> Result<(), Failed>
    requires room { needed_blocks layout.now.geometry ≤ (D.seen device.old).size }
    requires there { slab < layout.now.geometry.slabs }
    ensures { Makes D.trust.tells (D.seen device.old) (D.seen device.new)
        (slab_calls layout.now.geometry slab) result }
{
    let counters = layout.reference_block(slab, 0);
    let journal = layout.slab_journal_slot(slab, 0);
    let count = journal.0 - counters.0 + layout.geometry.slab_journal;
    put_zeros(device, counters, count)
}

fn put_slabs<D: Disk>(device: &mut D, layout: &Layout) -> Result<(), Failed>
    requires { needed_blocks layout.now.geometry ≤ (D.seen device.old).size }
    ensures { Makes D.trust.tells (D.seen device.old) (D.seen device.new)
        (slabs_below layout.now.geometry layout.now.geometry.slabs) result }
{
    for slab in 0..layout.geometry.slabs {
        put_slab(device, layout, slab)?;
    }
    Ok(())
}

// Writes all blocks but the superblock and those of data.
#[tactic(auto, unfolding(crate::specs::Calls::region_calls))]
fn put_regions<D: Disk>(device: &mut D, layout: &Layout) -> Result<(), Failed>
    requires { needed_blocks layout.now.geometry ≤ (D.seen device.old).size }
    ensures { Makes D.trust.tells (D.seen device.old) (D.seen device.new)
        (region_calls layout.now.geometry) result }
{
    put_zeros(device, layout.journal_slot(0), layout.geometry.journal)?;
    put_roots(device, layout)?;
    put_zeros(device, layout.index_block(0), layout.geometry.index)?;
    put_slabs(device, layout)
}

// Clears block 0, so that the device has no image.
fn clear<D: Disk>(device: &mut D) -> Result<(), Failed>
    requires { 0 < (D.seen device.old).size }
    ensures { Makes D.trust.tells (D.seen device.old) (D.seen device.new) clear_calls result }
{
    put(device, Pbn(0), &Block::zero())?;
    flush(device)
}

// Writes the superblock of a closed image with these sizes, on which a session begins there, and makes it last.
fn put_head<D: Disk>(device: &mut D, sizes: &Geometry, start: u64) -> Result<(), Failed>
    requires { 0 < (D.seen device.old).size }
    ensures { Makes D.trust.tells (D.seen device.old) (D.seen device.new)
        (super_calls sizes.now start) result }
{
    let head = Super {
        geometry: *sizes,
        clean: true,
        start,
    };
    let mut block = Block::zero();
    write_super(&head, &mut block);
    put(device, Pbn(0), &block)?;
    flush(device)
}

/// Makes the writes last, and then the superblock of a closed image with these sizes, on which a session begins there.
pub fn close<D: Disk>(device: &mut D, sizes: &Geometry, start: u64) -> Result<(), Failed>
    requires { 0 < (D.seen device.old).size }
    ensures { Makes D.trust.tells (D.seen device.old) (D.seen device.new)
        (closing_calls sizes.now start) result }
{
    flush(device)?;
    put_head(device, sizes, start)
}

// Makes the image: there is none before its last block is written, and all others are on the device by then.
pub(crate) fn make<D: Disk>(device: &mut D, layout: &Layout) -> Result<(), Failed>
    requires { needed_blocks layout.now.geometry ≤ (D.seen device.old).size }
    ensures { Makes D.trust.tells (D.seen device.old) (D.seen device.new)
        (format_calls layout.now.geometry) result }
{
    clear(device)?;
    put_regions(device, layout)?;
    close(device, &layout.geometry, 1)
}
