ghost use Rattle.std.specs.Prelude.{◌≡◌, ◌*◌, ◌<◌, ◌≤◌, ◌+◌, ◌^◌, length};
ghost use Rattle.reference_blocks.specs.References.{sector_at, sectors_of, with_sectors};

use blk_base::{Layout, Point, SECTOR_COUNTERS};
use slab_codec::{ReferenceSector, sector_counters};

/// What the sectors of a reference block say, with these commit points and counters of the slab.
pub(crate) fn sectors_of(
    layout: &Layout,
    points: &[Point],
    counters: &[u8],
    block: u32,
) -> [ReferenceSector; 8]
    requires { 8 * block + 8 ≤ 2 ^ 32 }
    ensures { result ≡ sectors_of layout.now.geometry points.now counters.now block }
{
    let mut sectors = [ReferenceSector {
        commit: Point(0),
        counters: [0; SECTOR_COUNTERS],
    }; 8];
    for j in 0..8_u32 {
        sectors[j as usize] = sector_at(layout, points, counters, 8 * block + j);
    }
    sectors
}

// What a sector of the slab says.
fn sector_at(layout: &Layout, points: &[Point], counters: &[u8], n: u32) -> ReferenceSector
    ensures { result ≡ sector_at layout.now.geometry points.now counters.now n }
{
    ReferenceSector {
        commit: points.get(n as usize).copied().unwrap_or_default(),
        counters: sector_counters(layout, counters, n),
    }
}

/// The sectors of a block are as here, and all others stay.
pub(crate) fn keep_sectors(points: &[Point], block: usize, into: &mut [Point])
    requires size { length into.old ≡ length points.now }
    requires inside { 8 * block ≤ length points.now }
    ensures { into.new ≡ with_sectors points.now block into.old }
{
    let first = 8 * block;
    let end = (first + 8).min(points.len());
    into[first..end].copy_from_slice(&points[first..end]);
}
