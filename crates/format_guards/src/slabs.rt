//! Guards of the format of a slab's journal.
ghost use Rattle.std.specs.Prelude.{◌≡◌, IfSome, true};

use blk_base::Block;
use byte_fields::read_u16;
use sector_records::bytes_of_sector;
use slab_codec::slab_sector;

// The number that stands in a sector that is read is its own.
fn a_sector_of_a_slab_has_its_number(
    block: &Block,
    i: u16,
    nonce: u64,
    slab: u32,
    slab_blocks: u32,
) -> Option<u16>
    ensures { IfSome result (λ number. number ≡ i) }
{
    let bytes = bytes_of_sector(block, i)?;
    match slab_sector(block, i, nonce, slab, slab_blocks) {
        Some(_) => Some(read_u16(bytes, 20)),
        None => None,
    }
}

// Each entry that is read is of a block of its slab.
fn an_entry_of_a_slab_is_inside(
    block: &Block,
    i: u16,
    nonce: u64,
    slab: u32,
    slab_blocks: u32,
    at: usize,
) -> bool
    ensures { result ≡ true }
{
    match slab_sector(block, i, nonce, slab, slab_blocks) {
        Some(found) => {
            let entries = found.entries.as_slice();
            at >= entries.len() || u32::from(entries[at].offset) < slab_blocks
        }
        None => true,
    }
}
