ghost use Rattle.std.specs.Prelude.{◌≡◌, ◌*◌, ◌<◌, length};
ghost use Rattle.blk_base.specs.Sectors.{sector};
ghost use Rattle.slab_codec.specs.Reference.{reference_sector_bytes, reference_bytes, counters_in};

use crate::{ReferenceBlock, ReferenceSector};
use blk_base::{Block, Layout, Point, SECTOR_COUNTERS};
use byte_fields::{put, put_u64, read_u64};

/// The counters of sector `n` of a slab, of all its reference blocks in a row: those of the slab from the first offset of
/// the sector on, and zeros past the slab's end.
pub fn sector_counters(layout: &Layout, counters: &[u8], n: u32) -> [u8; SECTOR_COUNTERS]
    ensures { result ≡ counters_in layout.now.geometry n counters.now }
{
    let width = layout.counters_per_sector() as usize;
    let first = (width * n as usize).min(counters.len());
    let rest = &counters[first..];
    let count = width.min(rest.len());
    let mut result = [0; SECTOR_COUNTERS];
    put(&mut result, 0, &rest[..count]);
    result
}

/// Writes the block's bytes, as the table of this crate says.
pub fn encode_reference(sectors: &ReferenceBlock, into: &mut Block)
    ensures bytes { into.new ≡ reference_bytes sectors.now.sectors }
    ensures whole { length into.new ≡ 4096 }
{
    put_sectors(&mut into.bytes, &sectors.sectors);
}

/// What sector `i` of the block says. All bytes are a sector.
pub fn reference_sector(block: &Block, i: u16) -> ReferenceSector
    requires { i < 8 }
    ensures { sector i block.now ≡ reference_sector_bytes result }
{
    let start = 512 * i as usize;
    read_reference(&block.bytes[start..start + 512])
}

fn put_sectors(bytes: &mut [u8], sectors: &[ReferenceSector])
    requires { length bytes.old ≡ 512 * length sectors.now }
    ensures { bytes.new ≡ reference_bytes sectors.now }
{
    for (i, sector) in sectors.iter().enumerate() {
        put(bytes, 512 * i, &bytes_of_reference(sector));
    }
}

#[tactic(auto, unfolding(crate::specs::Reference::reference_sector_bytes))]
fn bytes_of_reference(sector: &ReferenceSector) -> [u8; 512]
    ensures { result ≡ reference_sector_bytes sector.now }
{
    let mut bytes = [0; 512];
    put_u64(&mut bytes, 0, sector.commit.0);
    put(&mut bytes, 8, &sector.counters);
    bytes
}

fn read_reference(bytes: &[u8]) -> ReferenceSector
    requires { length bytes.now ≡ 512 }
    ensures { bytes.now ≡ reference_sector_bytes result }
{
    let mut counters = [0; SECTOR_COUNTERS];
    counters.copy_from_slice(&bytes[8..512]);
    ReferenceSector {
        commit: Point(read_u64(bytes, 0)),
        counters,
    }
}
