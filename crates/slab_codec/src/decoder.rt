ghost use Rattle.std.specs.Prelude.{◌≡◌, ◌↔◌, ℕ, List, IsTrue, IfSome, IfNone, All, length};
ghost use Rattle.blk_base.specs.Sectors.{sector};
ghost use Rattle.slab_codec.specs.declared.forms.SlabEntry.{SlabEntry};
ghost use Rattle.slab_codec.specs.Grammar.{HoldsEntry, IsSlabSector};

use crate::format::{PER_SECTOR, SlabHead};
use crate::{SlabEntry, SlabSector};
use blk_base::Block;
use byte_fields::{read_u16, read_u64};
use sector_records::{bytes_of_sector, is_sector, read_records};

/// What sector `i` of the block says of a slab of `slab_blocks` data blocks; `None` exactly where it is no valid sector
/// of this nonce and this slab.
pub fn slab_sector(
    block: &Block,
    i: u16,
    nonce: u64,
    slab: u32,
    slab_blocks: u32,
) -> Option<SlabSector>
    ensures some { IfSome result (λ found.
        IsSlabSector nonce slab slab_blocks i (sector i block.now) found.sequence found.entries) }
    ensures none { IfNone result ((sequence : ℕ) (entries : List SlabEntry)
        → IsSlabSector nonce slab slab_blocks i (sector i block.now) sequence entries → ⊥) }
{
    read_sector(bytes_of_sector(block, i)?, i, nonce, slab, slab_blocks)
}

fn read_sector(
    bytes: &[u8],
    number: u16,
    nonce: u64,
    slab: u32,
    slab_blocks: u32,
) -> Option<SlabSector>
    requires { length bytes.now ≡ 512 }
    ensures some { IfSome result (λ found.
        IsSlabSector nonce slab slab_blocks number bytes.now found.sequence found.entries) }
    ensures none { IfNone result ((sequence : ℕ) (entries : List SlabEntry)
        → IsSlabSector nonce slab slab_blocks number bytes.now sequence entries → ⊥) }
{
    let sequence = read_u64(bytes, 8);
    let count = read_u16(bytes, 22);
    if usize::from(count) > PER_SECTOR {
        return None;
    }
    let head = SlabHead {
        nonce,
        sequence,
        slab,
    };
    let entries = read_records::<SlabHead, 40>(bytes, count);
    if are_held(entries.as_slice(), slab_blocks)
        && is_sector(bytes, &head, number, entries.as_slice())
    {
        Some(SlabSector { sequence, entries })
    } else {
        None
    }
}

// Whether the format can hold each of these entries.
fn are_held(entries: &[SlabEntry], slab_blocks: u32) -> bool
    ensures { IsTrue result ↔ All (HoldsEntry slab_blocks) entries.now }
{
    entries.iter().all(|entry| is_held(*entry, slab_blocks))
}

// Whether the format can hold the entry.
fn is_held(entry: SlabEntry, slab_blocks: u32) -> bool
    ensures { IsTrue result ↔ HoldsEntry slab_blocks entry }
{
    u32::from(entry.offset) < slab_blocks
}
