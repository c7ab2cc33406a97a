ghost use Rattle.std.specs.Prelude.{◌≡◌, ◌≤◌, ◌<◌, ◌^◌, ◌++◌, ℕ, Ok, length, take};
ghost use Rattle.blk_base.specs.Limits.{IsGeometry};
ghost use Rattle.blk_base.specs.Regions.{needed_blocks};
ghost use Rattle.image_layout.specs.Superblock.{size_bytes, field_bytes, super_block, super_of};

use blk_base::{Block, Geometry, Super};
use byte_fields::{put, put_u32, put_u64, put_zeros};

/// What an image begins with.
pub(crate) const MAGIC: [u8; 8] = *b"RVDOSB01";

/// The version of the format.
pub(crate) const VERSION: u32 = 1;

/// Writes a superblock into a whole block: the fields in bytes 0 to 63, numbers with the lowest byte first, and zeros
/// behind them. Takes no memory and can't fail; the head may be outside its limits, and then isn't read back.
///
/// | Byte | Field |
/// |---|---|
/// | 0 | magic, `RVDOSB01` |
/// | 8 | version, u32, 1 |
/// | 12 | height, u32 |
/// | 16 | nonce, u64 |
/// | 24 | logical, u32 |
/// | 28 | slabs, u32 |
/// | 32 | slab-blocks, u32 |
/// | 36 | journal, u32 |
/// | 40 | index, u32 |
/// | 44 | slab-journal, u32 |
/// | 48 | clean, u32, 0 or 1 |
/// | 52 | zeros, 4 bytes |
/// | 56 | start, u64 |
/// | 64 | zeros to byte 4095 |
///
/// [`read_super`](crate::read_super) gives it back, and says what each field may be.
pub fn write_super(head: &Super, into: &mut Block)
    ensures spelled { into.new ≡ super_block head.now }

    // Within its limits, and on a device that has the blocks, it is read back.
    ensures written_again { (blocks : ℕ) → IsGeometry head.now.geometry → 1 ≤ head.now.start →
        head.now.start < 2 ^ 54
        → needed_blocks head.now.geometry ≤ blocks → super_of into.new blocks ≡ Ok head.now }
{
    // That it fits 64 bits, as `written_again` needs.
    let _nonce = head.geometry.nonce;
    put_super(&mut into.bytes, head);
}

// The whole block.
fn put_super(bytes: &mut [u8], head: &Super)
    requires { length bytes.old ≡ 4096 }
    ensures { bytes.new ≡ super_block head.now }
{
    put_head(bytes, head);
    put_zeros(bytes, 64, 4032);
}

// Bytes 0 to 63.
#[tactic(auto, unfolding(crate::specs::Superblock::field_bytes))]
fn put_head(bytes: &mut [u8], head: &Super)
    requires { length bytes.old ≡ 4096 }
    ensures { take 64 bytes.new ≡ field_bytes head.now }
{
    put(bytes, 0, &MAGIC);
    put_u32(bytes, 8, VERSION);
    put_sizes(bytes, &head.geometry);
    put_u32(bytes, 48, u32::from(head.clean));
    put_zeros(bytes, 52, 4);
    put_u64(bytes, 56, head.start);
}

// Bytes 12 to 47.
#[tactic(auto, unfolding(crate::specs::Superblock::size_bytes))]
fn put_sizes(bytes: &mut [u8], sizes: &Geometry)
    requires { length bytes.old ≡ 4096 }
    ensures { take 48 bytes.new ≡ take 12 bytes.old ++ size_bytes sizes.now }
{
    put_u32(bytes, 12, sizes.height);
    put_u64(bytes, 16, sizes.nonce);
    put_u32(bytes, 24, sizes.logical);
    put_u32(bytes, 28, sizes.slabs);
    put_u32(bytes, 32, sizes.slab_blocks);
    put_u32(bytes, 36, sizes.journal);
    put_u32(bytes, 40, sizes.index);
    put_u32(bytes, 44, sizes.slab_journal);
}
