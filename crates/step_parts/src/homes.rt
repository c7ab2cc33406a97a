ghost use Rattle.std.specs.Prelude.{◌≡◌, ◌+◌, ◌<◌, length};
ghost use Rattle.blk_base.specs.declared.place.ZoneId.TheVariants as id;
ghost use Rattle.data_vio.specs.Vios.{asks_in, counts_of};
ghost use Rattle.data_vio.specs.Zones.{counts_in};
ghost use Rattle.step_parts.specs.ZoneSizes.{HasPhysical};
ghost use Rattle.vdo_model.specs.Places.{zone_of};
ghost use Rattle.zone_counts.specs.Zone.{slab_number};

use blk_base::{Layout, Lba, Pbn, ZoneId};
use data_vio::{Sizes, Vio};

/// The logical zone of an address.
pub fn home_of(sizes: &Sizes, at: Lba) -> ZoneId
    requires { 0 < sizes.now.zones }
    ensures { result ≡ id.Logical (zone_of sizes.now.zones at.0) }
{
    ZoneId::Logical(u32::from(at.leaf().tree % sizes.zones))
}

// The number of a data block's slab. The slabs stand one behind the other, from the first data block to the end of the image.
fn slab_number(layout: &Layout, at: Pbn) -> u32
    ensures { result ≡ slab_number layout.now.geometry at }
{
    let first = layout.data_block(0, 0).0;
    let stride = (layout.needed() - first) / layout.geometry.slabs;
    at.0.saturating_sub(first) / stride
}

/// The physical zone that counts the mappings of a data block.
pub fn physical_of(sizes: &Sizes, at: Pbn) -> ZoneId
    requires { HasPhysical sizes.now }
    ensures { result ≡ counts_in sizes.now at }
{
    let slab = slab_number(&Layout::of(&sizes.geometry), at);
    ZoneId::Physical(slab % u32::from(sizes.physical))
}

// The physical zone that a request asks for a block: each in turn, from that of its place on.
fn asked_by(sizes: &Sizes, vio: &Vio) -> ZoneId
    requires { 0 < sizes.now.physical }
    ensures { result ≡ asks_in sizes.now (length vio.now.tickets + vio.now.place) }
{
    let zones = u64::from(sizes.physical);
    let turn = u64::from(vio.tickets.len()) + vio.place % zones;
    ZoneId::Physical((turn % zones) as u32)
}

/// The physical zone of a request: that which counts the block of its claim, or else that which it asks for one.
pub fn counts_of(sizes: &Sizes, vio: &Vio) -> ZoneId
    requires { HasPhysical sizes.now }
    ensures { result ≡ counts_of sizes.now vio.now }
{
    match &vio.claim {
        Some(claim) => physical_of(sizes, claim.block()),
        None => asked_by(sizes, vio),
    }
}
