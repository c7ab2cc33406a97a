ghost use Rattle.std.specs.Prelude.{◌≡◌};
ghost use Rattle.data_vio.specs.Zones as zones;

use blk_base::ZoneId;
use data_vio::Sizes;

/// How many zones a core has at most: the desk, the journal and the device, and four each of logical, physical and hash
/// zones, and of the index one.
pub const MOST_ZONES: usize = 16;

/// The number of the desk.
pub(crate) const DESK: u32 = 0;

/// The number of a logical zone among all zones.
pub(crate) fn logical_number(zone: u8) -> u32
    ensures { result ≡ zones.logical_number zone }
{
    1 + u32::from(zone)
}

/// The number of a physical zone among all zones.
pub(crate) fn physical_number(sizes: &Sizes, zone: u8) -> u32
    ensures { result ≡ zones.physical_number sizes.now zone }
{
    1 + u32::from(sizes.zones) + u32::from(zone)
}

/// The number of the journal's zone.
pub(crate) fn journal_number(sizes: &Sizes) -> u32
    ensures { result ≡ zones.journal_number sizes.now }
{
    1 + u32::from(sizes.zones) + u32::from(sizes.physical)
}

/// The number of the device's zone.
pub(crate) fn device_number(sizes: &Sizes) -> u32
    ensures { result ≡ zones.device_number sizes.now }
{
    2 + u32::from(sizes.zones) + u32::from(sizes.physical)
}

/// How many zones there are.
pub(crate) fn zone_count(sizes: &Sizes) -> u32
    ensures { result ≡ zones.zone_count sizes.now }
{
    3 + u32::from(sizes.zones) + u32::from(sizes.physical)
}

/// The number of a zone among all; one that a core doesn't have has none below the count.
pub(crate) fn zone_number(sizes: &Sizes, zone: ZoneId) -> u64
    ensures { result ≡ zones.zone_number sizes.now zone }
{
    match zone {
        ZoneId::Desk => 0,
        ZoneId::Logical(index) => 1 + u64::from(index),
        ZoneId::Physical(index) => 1 + u64::from(sizes.zones) + u64::from(index),
        ZoneId::Journal => u64::from(journal_number(sizes)),
        ZoneId::Device => u64::from(device_number(sizes)),
        _ => u64::from(zone_count(sizes)),
    }
}
