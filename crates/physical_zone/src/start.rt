ghost use Rattle.std.specs.Prelude.{◌≡◌, ◌<◌, ◌≤◌, IfOk};
ghost use Rattle.blk_base.specs.Limits.{IsGeometry};
ghost use Rattle.core_model.specs.declared.zones.ZoneData.TheVariants as at;
ghost use Rattle.core_model.specs.SessionLimits.{most_depth, most_physical};
ghost use Rattle.core_model.specs.Sessions.{AreCounters, Session};
ghost use Rattle.core_model.specs.Start.{IsFirstData};
ghost use Rattle.data_vio.specs.Zones.{physical_number};

use blk_base::Opened;
use core_model::PhysicalZone;
use data_vio::{Register, Sizes};
use std::alloc::{AllocError, Global};
use zone_counts::ZoneCounts;

/// A physical zone at the start of a session over an image that was opened, by its number among the physical ones, of which there
/// are 4 at most: it has the counter of each data block of its slabs, and nobody has a claim on one. All its room is taken here,
/// that for the tickets of all requests that may be under way among it, of which a stream may have 16 at most.
pub fn first(
    alloc: Global,
    sizes: &Sizes,
    opened: &Opened,
    zone: u8,
) -> Result<PhysicalZone, AllocError>
    requires geometry { IsGeometry opened.now.head.geometry }
    requires same { sizes.now.geometry ≡ opened.now.head.geometry }
    requires zone { zone < sizes.now.physical }
    requires zones { sizes.now.physical ≤ most_physical }
    requires depth { sizes.now.depth ≤ most_depth }
    requires counters { AreCounters sizes.now.geometry opened.now.counters.items }
    ensures { IfOk result (λ first.
        (s : Session) → s.sizes ≡ sizes.now → s.counters ≡ opened.now.counters.items →
        IsFirstData s (physical_number s.sizes zone) (at.Physical first)) }
{
    let strays = Register::new(alloc)?;
    let zone = u32::from(zone);
    let zones = u32::from(sizes.physical);
    let depth = sizes.depth.max(1);
    let counts = ZoneCounts::new(alloc, zone, zones, depth, opened)?;
    Ok(PhysicalZone {
        notified: false,
        strays,
        counts,
    })
}
