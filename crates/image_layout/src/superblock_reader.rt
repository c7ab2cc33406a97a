ghost use Rattle.std.specs.Prelude.{◌≡◌, ◌≤◌, ◌<◌, ◌^◌, ◌∷◌, [], length, IfOk};
ghost use Rattle.blk_base.specs.Limits.{IsGeometry, logical_limit};
ghost use Rattle.blk_base.specs.Regions.{needed_blocks};
ghost use Rattle.blk_base.specs.Sectors.{sector};
ghost use Rattle.image_layout.specs.Superblock.{super_of, super_bytes, head_in, geometry_in, is_within, is_zeros};
ghost use Rattle.image_layout.specs.Superblock.{run_checks, identity_checks, size_checks, state_checks};

use crate::superblock_writer::{MAGIC, VERSION};
use crate::{Field, SuperFault};
use blk_base::{Block, Geometry, Layout, Super};
use byte_fields::{read_u32, read_u64};

/// The first sequence that no session can begin with.
const START_LIMIT: u64 = 1 << 54;

/// Reads a superblock on a device that has `blocks` blocks. All fields stand in the first 512 bytes, numbers with the
/// lowest byte first; the bytes from 512 on aren't looked at.
///
/// | Byte | Field | Accepted | Else |
/// |---|---|---|---|
/// | 0 | magic, 8 bytes | `RVDOSB01` | `NotAnImage` |
/// | 8 | version, u32 | 1 | `Version(found)` |
/// | 12 | height, u32, levels of a tree | 2, 3 | `BadField(Height)` |
/// | 16 | nonce, u64 | not 0 | `BadField(Nonce)` |
/// | 24 | logical, u32, blocks | 1 to 39,560,640 at height 2, to 4,000,000,000 at height 3 | `BadField(Logical)` |
/// | 28 | slabs, u32 | 1 to 1,024 | `BadField(Slabs)` |
/// | 32 | slab-blocks, u32, data blocks of a slab | 16 to 32,768 | `BadField(SlabBlocks)` |
/// | 36 | journal, u32, blocks | 8 to 1,024 | `BadField(Journal)` |
/// | 40 | index, u32, blocks | 4 to 1,024, a multiple of 4 | `BadField(Index)` |
/// | 44 | slab-journal, u32, blocks of a slab's journal | 2 to 64 | `BadField(SlabJournal)` |
/// | 48 | clean, u32 | 0, 1 | `BadField(Clean)` |
/// | 52 | 4 bytes | zeros | `BadField(Reserved)` |
/// | 56 | start, u64, a journal sequence | 1 to 2^54 − 1 | `BadField(Start)` |
/// | 64 | 448 bytes | zeros | `BadField(Reserved)` |
///
/// The checks are made in this order, and the first that fails is answered. Last, where `blocks` is less than what the
/// sizes need, the answer is `BadField(Blocks)`.
pub fn read_super(block: &Block, blocks: u32) -> Result<Super, SuperFault>
    ensures read { result ≡ super_of block.now blocks }

    // What is accepted is within its limits, and the first sector is its spelling.
    ensures sizes { IfOk result (λ head. IsGeometry head.geometry) }
    ensures room { IfOk result (λ head. needed_blocks head.geometry ≤ blocks) }
    ensures start { IfOk result (λ head. (1 ≤ head.start) × (head.start < 2 ^ 54)) }
    ensures spelled { IfOk result (λ head. sector 0 block.now ≡ super_bytes head) }
{
    read_bytes(&block.bytes, blocks)
}

// The same for the bytes of a block.
fn read_bytes(bytes: &[u8], blocks: u32) -> Result<Super, SuperFault>
    requires { length bytes.now ≡ 4096 }
    ensures read { result ≡ super_of bytes.now blocks }
    ensures sizes { IfOk result (λ head. IsGeometry head.geometry) }
    ensures room { IfOk result (λ head. needed_blocks head.geometry ≤ blocks) }
    ensures start { IfOk result (λ head. (1 ≤ head.start) × (head.start < 2 ^ 54)) }
    ensures spelled { IfOk result (λ head. sector 0 bytes.now ≡ super_bytes head) }
{
    check_identity(bytes)?;
    let head = read_head(bytes);
    check_sizes(&head.geometry)?;
    check_state(bytes)?;
    let needed = Layout::of(&head.geometry).needed();
    check(needed <= blocks, SuperFault::BadField(Field::Blocks))?;
    Ok(head)
}

// What the bytes say.
fn read_head(bytes: &[u8]) -> Super
    requires { length bytes.now ≡ 4096 }
    ensures { result ≡ head_in bytes.now }
{
    Super {
        geometry: read_sizes(bytes),
        clean: read_u32(bytes, 48) == 1,
        start: read_u64(bytes, 56),
    }
}

// What they say of the sizes.
fn read_sizes(bytes: &[u8]) -> Geometry
    requires { length bytes.now ≡ 4096 }
    ensures { result ≡ geometry_in bytes.now }
{
    Geometry {
        height: read_u32(bytes, 12),
        nonce: read_u64(bytes, 16),
        logical: read_u32(bytes, 24),
        slabs: read_u32(bytes, 28),
        slab_blocks: read_u32(bytes, 32),
        journal: read_u32(bytes, 36),
        index: read_u32(bytes, 40),
        slab_journal: read_u32(bytes, 44),
    }
}

// Bytes 0 to 11.
fn check_identity(bytes: &[u8]) -> Result<(), SuperFault>
    requires { length bytes.now ≡ 4096 }
    ensures { result ≡ run_checks (identity_checks bytes.now) }
{
    check(bytes.starts_with(&MAGIC), SuperFault::NotAnImage)?;
    let version = read_u32(bytes, 8);
    check(version == VERSION, SuperFault::Version(version))
}

// Bytes 12 to 47.
fn check_sizes(sizes: &Geometry) -> Result<(), SuperFault>
    ensures { result ≡ run_checks (size_checks sizes.now) }
{
    let logical = logical_limit(sizes.height);
    check_field(is_within(2, 3, sizes.height), Field::Height)?;
    check_field(sizes.nonce >= 1, Field::Nonce)?;
    check_field(is_within(1, logical, sizes.logical), Field::Logical)?;
    check_field(is_within(1, 1024, sizes.slabs), Field::Slabs)?;
    check_field(is_within(16, 32768, sizes.slab_blocks), Field::SlabBlocks)?;
    check_field(is_within(8, 1024, sizes.journal), Field::Journal)?;
    let index = is_within(4, 1024, sizes.index) && sizes.index % 4 == 0;
    check_field(index, Field::Index)?;
    check_field(is_within(2, 64, sizes.slab_journal), Field::SlabJournal)
}

// Bytes 48 to 511.
fn check_state(bytes: &[u8]) -> Result<(), SuperFault>
    requires { length bytes.now ≡ 4096 }
    ensures { result ≡ run_checks (state_checks bytes.now) }
{
    let start = read_u64(bytes, 56);
    check_field(is_within(0, 1, read_u32(bytes, 48)), Field::Clean)?;
    check_field(is_zeros(&bytes[52..56]), Field::Reserved)?;
    check_field(1 <= start && start < START_LIMIT, Field::Start)?;
    check_field(is_zeros(&bytes[64..512]), Field::Reserved)
}

fn check_field(passed: bool, field: Field) -> Result<(), SuperFault>
    ensures { result ≡ run_checks ((passed, SuperFault.BadField field) ∷ []) }
{
    check(passed, SuperFault::BadField(field))
}

fn check(passed: bool, fault: SuperFault) -> Result<(), SuperFault>
    ensures { result ≡ run_checks ((passed, fault) ∷ []) }
{
    if passed { Ok(()) } else { Err(fault) }
}

// The greatest logical size of a height.
pub(crate) fn logical_limit(height: u32) -> u32
    ensures { result ≡ logical_limit height }
{
    if height == 2 {
        39_560_640
    } else {
        4_000_000_000
    }
}

#[tactic(auto, unfolding(crate::specs::Superblock::is_within))]
pub(crate) fn is_within(low: u32, high: u32, x: u32) -> bool
    ensures { result ≡ is_within low high x }
{
    low <= x && x <= high
}

#[tactic(auto, unfolding(crate::specs::Superblock::is_zeros))]
fn is_zeros(bytes: &[u8]) -> bool
    ensures { result ≡ is_zeros bytes.now }
{
    bytes.iter().all(|&byte| byte == 0)
}
