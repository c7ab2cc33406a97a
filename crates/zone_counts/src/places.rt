ghost use Rattle.std.specs.Prelude.{◌≡◌, ◌<◌, length, IfSome, IfNone};
ghost use Rattle.slab_counts.specs.Counts.{IsOfSlab};
ghost use Rattle.zone_counts.specs.Zone.{AreSlabs, IsOf, place_in, slab_at};

use blk_base::{Layout, Pbn};
use slab_counts::SlabCounts;

/// Where the slab of a data block stands among those of the zone; `None` exactly where it is no data block of the zone.
pub(crate) fn find_slab(
    layout: &Layout,
    zone: u32,
    zones: u32,
    slabs: &[SlabCounts],
    at: Pbn,
) -> Option<usize>
    requires { AreSlabs layout.now.geometry zone zones slabs.now }
    ensures own { IfSome result (λ place. IsOf layout.now.geometry zone zones at) }
    ensures place { IfSome result (λ place. place ≡ place_in layout.now.geometry zones at) }
    ensures inside { IfSome result (λ place. place < length slabs.now) }
    ensures slab { IfSome result (λ place. IsOfSlab (slab_at slabs.now place) at) }
    ensures none { IfNone result (¬ IsOf layout.now.geometry zone zones at) }
{
    let data = layout.place(at)?;
    if data.slab % zones == zone {
        Some((data.slab / zones) as usize)
    } else {
        None
    }
}

/// Where the slab of a data block of the zone stands among those of the zone.
pub(crate) fn index_of(
    layout: &Layout,
    zone: u32,
    zones: u32,
    slabs: &[SlabCounts],
    at: Pbn,
) -> usize
    requires slabs { AreSlabs layout.now.geometry zone zones slabs.now }
    requires own { IsOf layout.now.geometry zone zones at }
    ensures place { result ≡ place_in layout.now.geometry zones at }
    ensures inside { result < length slabs.now }
    ensures slab { IsOfSlab (slab_at slabs.now result) at }
{
    find_slab(layout, zone, zones, slabs, at).unwrap()
}
