//! Guards of the regions of an image.
ghost use Rattle.std.specs.Prelude.{◌≡◌, false, Some};
ghost use Rattle.blk_base.specs.Forms.{place_in};
ghost use Rattle.blk_base.specs.Regions.{IsPlace, DataBlock, ReferenceBlock, SlabJournalSlot};

use blk_base::{DataPlace, Layout, regions_are_apart};

// Each data block is found, with its slab and its place there.
fn a_data_block_is_found(layout: &Layout, slab: u32, offset: u32) -> Option<DataPlace>
    requires { IsPlace layout.now.geometry (DataBlock slab offset) }
    ensures { result ≡ Some (place_in slab offset) }
{
    regions_are_apart();
    layout.place(layout.data_block(slab, offset))
}

// No block of reference counters is a data block.
fn a_reference_block_is_no_data_block(layout: &Layout, slab: u32, i: u32) -> bool
    requires { IsPlace layout.now.geometry (ReferenceBlock slab i) }
    ensures { result ≡ false }
{
    regions_are_apart();
    layout.is_data_block(layout.reference_block(slab, i))
}
