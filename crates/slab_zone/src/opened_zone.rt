ghost use Rattle.std.specs.Prelude.{◌≡◌, ◌<◌, ◌≤◌, ◌*◌, length, IfOk};
ghost use Rattle.blk_base.specs.Counters.{sectors_per_slab};
ghost use Rattle.blk_base.specs.Limits.{IsGeometry};
ghost use Rattle.zone_counts.specs.Zone.{slabs_of_zone};
ghost use Rattle.slab_zone.specs.Whole.{AreOpenedWrites};

use blk_base::Opened;
use slab_writes::SlabWrites;
use std::alloc::{AllocError, Global};

/// Of each slab of a zone nothing is to be written, as an image is opened.
pub(crate) fn opening_writes(
    alloc: Global,
    zone: u32,
    zones: u32,
    opened: &Opened,
) -> Result<Vec<SlabWrites>, AllocError>
    requires sizes { IsGeometry opened.now.head.geometry }
    requires zones { zones ≤ 4 }
    requires zone { zone < zones }
    requires commits { length opened.now.commits.items
        ≡ opened.now.head.geometry.slabs * sectors_per_slab opened.now.head.geometry }
    ensures { IfOk result (λ writes.
        AreOpenedWrites opened.now zone zones (slabs_of_zone opened.now.head.geometry zone zones)
        writes.items) }
{
    let geometry = opened.head.geometry;
    let count = (geometry.slabs + zones - 1 - zone) / zones;
    let mut writes = Vec::with_capacity(alloc, count as usize)?;
    for k in 0..count {
        let slab = SlabWrites::new(alloc, &geometry, k * zones + zone, opened)?;
        writes.push_reserved(slab);
    }
    Ok(writes)
}
