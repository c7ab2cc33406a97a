ghost use Rattle.std.specs.Prelude.{◌≡◌, ◌≤◌, length};
ghost use Rattle.zone_counts.specs.Zone.{used_in};

use slab_counts::SlabCounts;

/// How many data blocks of the slabs have a counter above 0.
pub(crate) fn used_in(slabs: &[SlabCounts]) -> u32
    requires { length slabs.now ≤ 1024 }
    ensures { result ≡ used_in slabs.now }
{
    let mut used = 0;
    for slab in slabs {
        used += slab.used();
    }
    used
}
